//! The steps of packets and timers.

ghost use Rattle.std.specs.Prelude.{◌≡◌, ◌≤◌, ◌∷◌, [], length, false, OnOk, OnErr};
ghost use Rattle.std.specs.FinMap as table;
ghost use Rattle.lard_base.specs.declared.limits.TheConstants.{MAX_SEGMENT_BYTES};
ghost use Rattle.lard_rules.specs.Bounds.{HasTimer};
ghost use Rattle.lard_rules.specs.Machine.{Steps, delivered, from_place, front_acts, lost, timer, machine_to_client, machine_to_front, to_place};
ghost use Rattle.lard_rules.specs.FrontSound.{MayClose};
ghost use Rattle.lard_stepping.specs.Sound.{HasRoom, IsSet, IsMachineSound, MayReach, MayDeliver, MayHear};
ghost use Rattle.lard_net.specs.Net.{IsSized, packet_at};

use crate::acting::pass;
use crate::disks::node_of;
use crate::places::{front_acts, node_acts, to_node};
use crate::stations::{put_back, take_out};
use lard_base::{Bytes, ConnId, Event, NoMemory, NodeId, Place};
use lard_journal::Rec;
use lard_rules::{BackIn, FrontIn, Machine, Refusal, StepFault};
use lard_seq::Seq;
use lard_shared::Shared;
use std::alloc::Global;

/// The packet with this number comes to its place. After `NotSent` and `WasLost`, where none was sent with it or it was
/// lost, everything is as it was. Without memory the journal is as it was. Where it closes a node, another one is open.
#[tactic(auto, unfolding(lard_rules::specs::Machine::delivered))]
pub fn deliver(machine: &mut Machine, alloc: Global, k: u32) -> Result<(), StepFault>
    requires room { HasRoom machine.old }
    requires sound { IsMachineSound machine.old }
    requires set { IsSet machine.old.config }
    requires closes { MayDeliver machine.old (packet_at machine.old.net k) }
    ensures step { Steps (delivered machine.old k (packet_at machine.old.net k)) machine.old machine.new result }
    ensures sound { OnOk result (IsMachineSound machine.new) }
{
    let Some(packet) = machine.net.get(k) else {
        let sent = machine.net.sent();
        return Err(StepFault::Refused(Refusal::NotSent { k, sent }));
    };
    if packet.lost {
        return Err(StepFault::Refused(Refusal::WasLost(k)));
    }
    let from = packet.from;
    let to = packet.to;
    let bytes = packet.bytes.share()?;
    bring(machine, alloc, k, from, to, &bytes)?;
    Ok(())
}

/// A packet that was sent and not lost comes to its place.
fn bring(
    machine: &mut Machine,
    alloc: Global,
    k: u32,
    from: Place,
    to: Place,
    bytes: &Shared,
) -> Result<(), NoMemory>
    requires sized { IsSized from to (length bytes.now) }
    requires room { HasRoom machine.old }
    requires sound { IsMachineSound machine.old }
    requires set { IsSet machine.old.config }
    requires closes { MayReach machine.old bytes.now from to }
    ensures ok { OnOk result (machine.new ≡ to_place machine.old k (record { from = from; to = to; bytes = bytes.now; lost = false }) to) }
    ensures sound { OnOk result (IsMachineSound machine.new) }
    ensures err { OnErr result (machine.new.journal ≡ machine.old.journal) }
{
    match to {
        Place::Front => {
            let bytes = Bytes::from_slice(alloc, bytes.as_slice())?;
            return to_front(machine, alloc, k, from, bytes);
        }
        Place::Client(c) => return to_client(machine, alloc, k, c, bytes),
        Place::Node(n) => {
            let bytes = Bytes::from_slice(alloc, bytes.as_slice())?;
            let input = BackIn::Message { from, bytes };
            return to_node(machine, alloc, k, n, input);
        }
    }
}

/// A packet comes to the front end from a place.
fn to_front(
    machine: &mut Machine,
    alloc: Global,
    k: u32,
    from: Place,
    bytes: Bytes,
) -> Result<(), NoMemory>
    requires sized { IsSized from Place.Front (length bytes) }
    requires room { HasRoom machine.old }
    requires sound { IsMachineSound machine.old }
    requires set { IsSet machine.old.config }
    requires closes { MayHear machine.old bytes from }
    ensures ok { OnOk result (machine.new ≡ from_place machine.old k bytes from) }
    ensures sound { OnOk result (IsMachineSound machine.new) }
    ensures err { OnErr result (machine.new.journal ≡ machine.old.journal) }
{
    match from {
        Place::Client(c) => return segment_comes(machine, alloc, k, c, bytes),
        Place::Front => return pass(machine, alloc, Event::Deliver(k), Rec::Got(k)),
        Place::Node(from) => return message_comes(machine, alloc, k, from, bytes),
    }
}

/// A packet of client `c` comes to the front end.
fn segment_comes(
    machine: &mut Machine,
    alloc: Global,
    k: u32,
    c: ConnId,
    bytes: Bytes,
) -> Result<(), NoMemory>
    requires short { length bytes ≤ MAX_SEGMENT_BYTES }
    requires room { HasRoom machine.old }
    requires sound { IsMachineSound machine.old }
    requires set { IsSet machine.old.config }
    ensures ok { OnOk result (machine.new ≡ machine_to_front machine.old k bytes c (table.get machine.old.clients c)) }
    ensures sound { OnOk result (IsMachineSound machine.new) }
    ensures err { OnErr result (machine.new.journal ≡ machine.old.journal) }
{
    let Some(station) = machine.clients.get(c.number()) else {
        return pass(machine, alloc, Event::Deliver(k), Rec::Got(k));
    };
    let iss = Seq(station.iss);
    let input = FrontIn::Segment { c, iss, bytes };
    front_acts(machine, alloc, Event::Deliver(k), Some(Rec::Got(k)), input)
}

/// A message of a node comes to the front end.
fn message_comes(
    machine: &mut Machine,
    alloc: Global,
    k: u32,
    from: NodeId,
    bytes: Bytes,
) -> Result<(), NoMemory>
    requires room { HasRoom machine.old }
    requires sound { IsMachineSound machine.old }
    requires set { IsSet machine.old.config }
    requires closes { MayClose machine.old.front (FrontIn.Message from bytes) }
    ensures ok { OnOk result (machine.new ≡ front_acts machine.old (Event.Deliver k) (Rec.Got k ∷ []) (FrontIn.Message from bytes)) }
    ensures sound { OnOk result (IsMachineSound machine.new) }
    ensures err { OnErr result (machine.new.journal ≡ machine.old.journal) }
{
    let input = FrontIn::Message { from, bytes };
    front_acts(machine, alloc, Event::Deliver(k), Some(Rec::Got(k)), input)
}

/// A packet comes to client `c`.
fn to_client(
    machine: &mut Machine,
    alloc: Global,
    k: u32,
    c: ConnId,
    bytes: &Shared,
) -> Result<(), NoMemory>
    requires short { length bytes.now ≤ MAX_SEGMENT_BYTES }
    requires room { HasRoom machine.old }
    requires sound { IsMachineSound machine.old }
    ensures ok { OnOk result (machine.new ≡ machine_to_client machine.old k bytes.now c (table.get machine.old.clients c)) }
    ensures sound { OnOk result (IsMachineSound machine.new) }
    ensures err { OnErr result (machine.new.journal ≡ machine.old.journal) }
{
    let Some(mut acting) = take_out(machine, alloc, c) else {
        return pass(machine, alloc, Event::Deliver(k), Rec::Got(k));
    };
    let turn = lard_station::receive(alloc, c, &mut acting.station.client, bytes)?;
    put_back(
        machine,
        alloc,
        Event::Deliver(k),
        Some(Rec::Got(k)),
        acting,
        turn,
    )?;
    Ok(())
}

/// The packet with this number arrives no more from now on. After `NotSent` and `WasLost`, where none was sent with it
/// or it was lost before, everything is as it was. Without memory the journal is as it was.
#[tactic(auto, using(crate::proofs::Lent::lost_len, crate::proofs::Sound::net_sound), unfolding(lard_rules::specs::Machine::lost))]
pub fn lose(machine: &mut Machine, alloc: Global, k: u32) -> Result<(), StepFault>
    requires room { HasRoom machine.old }
    requires sound { IsMachineSound machine.old }
    ensures step { Steps (lost machine.old k (packet_at machine.old.net k)) machine.old machine.new result }
    ensures sound { OnOk result (IsMachineSound machine.new) }
{
    let Some(packet) = machine.net.get(k) else {
        let sent = machine.net.sent();
        return Err(StepFault::Refused(Refusal::NotSent { k, sent }));
    };
    if packet.lost {
        return Err(StepFault::Refused(Refusal::WasLost(k)));
    }
    machine.net.lose(k);
    pass(machine, alloc, Event::Lose(k), Rec::Lost(k))?;
    Ok(())
}

/// The timers of a connection at a place fire. After `NoClient`, where the client has not opened, and `NoNode`, where
/// there is no such node, everything is as it was. Without memory the journal is as it was.
pub fn fire(machine: &mut Machine, alloc: Global, place: Place, c: ConnId) -> Result<(), StepFault>
    requires room { HasRoom machine.old }
    requires sound { IsMachineSound machine.old }
    requires set { IsSet machine.old.config }
    requires timers { HasTimer place c }
    ensures step { Steps (timer machine.old place c (table.get machine.old.clients c)) machine.old machine.new result }
    ensures sound { OnOk result (IsMachineSound machine.new) }
{
    match place {
        Place::Front => return fire_front(machine, alloc, c),
        Place::Client(_) => return fire_client(machine, alloc, c),
        Place::Node(n) => return fire_node(machine, alloc, n, c),
    }
}

/// The front end's timers for a connection fire.
#[tactic(auto, unfolding(lard_rules::specs::Machine::timer))]
fn fire_front(machine: &mut Machine, alloc: Global, c: ConnId) -> Result<(), StepFault>
    requires room { HasRoom machine.old }
    requires sound { IsMachineSound machine.old }
    requires set { IsSet machine.old.config }
    ensures step { Steps (timer machine.old Place.Front c (table.get machine.old.clients c)) machine.old machine.new result }
    ensures sound { OnOk result (IsMachineSound machine.new) }
{
    if machine.clients.get(c.number()).is_none() {
        return Err(StepFault::Refused(Refusal::NoClient(c.number())));
    }
    let place = Place::Front;
    let event = Event::Timer { place, c };
    front_acts(machine, alloc, event, None, FrontIn::Timer(c))?;
    Ok(())
}

/// A node's timers for a connection fire.
#[tactic(auto, unfolding(lard_rules::specs::Machine::timer))]
fn fire_node(machine: &mut Machine, alloc: Global, n: NodeId, c: ConnId) -> Result<(), StepFault>
    requires room { HasRoom machine.old }
    requires sound { IsMachineSound machine.old }
    requires set { IsSet machine.old.config }
    ensures step { Steps (timer machine.old (Place.Node n) c (table.get machine.old.clients c)) machine.old machine.new result }
    ensures sound { OnOk result (IsMachineSound machine.new) }
{
    if machine.clients.get(c.number()).is_none() {
        return Err(StepFault::Refused(Refusal::NoClient(c.number())));
    }
    let nodes = machine.config.nodes;
    if node_of(n.number(), nodes).is_none() {
        let n = n.number();
        return Err(StepFault::Refused(Refusal::NoNode { n, nodes }));
    }
    let place = Place::Node(n);
    let event = Event::Timer { place, c };
    node_acts(machine, alloc, event, None, n, BackIn::Timer(c))?;
    Ok(())
}

/// A client's timer fires.
#[tactic(auto, unfolding(lard_rules::specs::Machine::timer))]
fn fire_client(machine: &mut Machine, alloc: Global, c: ConnId) -> Result<(), StepFault>
    requires room { HasRoom machine.old }
    requires sound { IsMachineSound machine.old }
    ensures step { Steps (timer machine.old (Place.Client c) c (table.get machine.old.clients c)) machine.old machine.new result }
    ensures sound { OnOk result (IsMachineSound machine.new) }
{
    let Some(mut acting) = take_out(machine, alloc, c) else {
        return Err(StepFault::Refused(Refusal::NoClient(c.number())));
    };
    let turn = lard_station::fire(alloc, &mut acting.station.client)?;
    let place = Place::Client(c);
    put_back(
        machine,
        alloc,
        Event::Timer { place, c },
        None,
        acting,
        turn,
    )?;
    Ok(())
}

//! The steps of clients: each takes its station out, lets its client act, and puts it back.

ghost use Rattle.std.specs.Prelude.{◌≡◌, ◌≤◌, [], ◌∷◌, ◌<◌, false, length, None, Some, IfNone, IfSome, IsSome, OnOk, OnErr};
ghost use Rattle.std.specs.FinMap as table;
ghost use Rattle.lard_base.specs.declared.limits.TheConstants.{MAX_SEGMENT_BYTES, MAX_SEGMENT_DATA};
ghost use Rattle.lard_client.specs.Control.{is_client_armed};
ghost use Rattle.lard_history.specs.Journal.{request};
ghost use Rattle.lard_rules.specs.Client.{client_aborts, client_holds, client_injects, client_shuts, client_takes, speaking};
ghost use Rattle.lard_rules.specs.Machine.{Steps, client_acted, client_acts, machine_opened, machine_wrote};
ghost use Rattle.lard_stepping.specs.Lent.{without_client};
ghost use Rattle.lard_stepping.specs.Sound.{HasRoom, IsSet, IsMachineSound};
ghost use Rattle.lard_rules.specs.Speaking.{listed};
ghost use Rattle.lard_serving.specs.Bounds.{IsTurn};

use crate::acting::{Act, conclude};
use lard_base::{Bytes, ConnId, Event, NoMemory, Path, Place};
use lard_client::Client;
use lard_journal::Rec;
use lard_rules::{Machine, Refusal, Station, StepFault, Turn, What};
use lard_seq::Seq;
use std::alloc::Global;

/// A client that acts: its number, its station, and whether its timer ran before.
#[derive(Drop)]
pub struct Acting {
    pub c: ConnId,
    pub station: Station,
    pub was_armed: bool,
}

// ---- a client acts

/// Takes the client's station out, where there is one, else `None`. Another stands in for it until it is put back.
#[tactic(auto, using(crate::proofs::Sound::clients_sound))]
pub fn take_out(machine: &mut Machine, alloc: Global, c: ConnId) -> Option<Acting>
    requires sound { IsMachineSound machine.old }
    ensures none { IfNone result ((table.get machine.old.clients c ≡ None) × (machine.new ≡ machine.old)) }
    ensures found { IfSome result (λ acting. table.get machine.old.clients c ≡ Some acting.station) }
    ensures same { IfSome result (λ acting. acting.c ≡ c) }
    ensures armed { IfSome result (λ acting. acting.was_armed ≡ is_client_armed acting.station.client) }
    ensures after { IfSome result (λ _. machine.new ≡ without_client machine.old c) }
    ensures there { IfSome result (λ _. IsSome (table.get machine.new.clients c)) }
    ensures sound { IsMachineSound machine.new }
{
    if machine.clients.get(c.number()).is_none() {
        return None;
    }
    let client = Client::open(alloc, c, Seq(0), 1, 1);
    let station = machine
        .clients
        .replace(c.number(), Station { client, iss: 0 });
    let was_armed = station.client.armed();
    Some(Acting {
        c,
        station,
        was_armed,
    })
}

/// Puts a station back whose client acted, and ends the step. Without memory the journal is as it was.
#[tactic(auto, using(crate::proofs::Sound::clients_sound))]
pub fn put_back(
    machine: &mut Machine,
    alloc: Global,
    event: Event,
    own: Option<Rec>,
    acting: Acting,
    turn: Turn,
) -> Result<(), NoMemory>
    requires room { HasRoom machine.old }
    requires sound { IsMachineSound machine.old }
    requires there { IsSome (table.get machine.old.clients acting.c) }
    requires turn { IsTurn turn }
    ensures ok { OnOk result (machine.new ≡ client_acted machine.old event (listed own) acting.c acting.station.iss acting.was_armed (acting.station.client, turn)) }
    ensures sound { OnOk result (IsMachineSound machine.new) }
    ensures err { OnErr result (machine.new.journal ≡ machine.old.journal) }
{
    let Acting {
        c,
        station,
        was_armed,
    } = acting;
    let is_armed = station.client.armed();
    let _stand_in = machine.clients.replace(c.number(), station);
    let done = Act {
        c,
        turn,
        was_armed,
        is_armed,
    };
    conclude(machine, alloc, event, own, done)
}

// ---- the events

/// The client opens (RFC 9293, 3.10.1) with a window of at least 1 byte, and a maximum segment size of 1 to 1,460.
/// After `Used`, where it opened before, everything is as it was. Without memory the journal is as it was.
#[tactic(auto, unfolding(lard_rules::specs::Machine::machine_opened))]
pub fn open(
    machine: &mut Machine,
    alloc: Global,
    c: ConnId,
    isn: u32,
    iss: u32,
    wnd: u16,
    mss: u16,
) -> Result<(), StepFault>
    requires room { HasRoom machine.old }
    requires sound { IsMachineSound machine.old }
    requires range { (1 ≤ wnd) × (1 ≤ mss) × (mss ≤ MAX_SEGMENT_DATA) }
    ensures step { Steps (machine_opened machine.old c isn iss wnd mss (table.get machine.old.clients c)) machine.old machine.new result }
    ensures sound { OnOk result (IsMachineSound machine.new) }
{
    if machine.clients.get(c.number()).is_some() {
        return Err(StepFault::Refused(Refusal::Used(c.number())));
    }
    let client = Client::open(alloc, c, Seq(isn), wnd, mss);
    let event = Event::Open {
        c,
        isn,
        iss,
        wnd,
        mss,
    };
    let own = Rec::Opened {
        c,
        isn,
        iss,
        wnd: u32::from(wnd),
        mss: u32::from(mss),
    };
    begin(machine, alloc, event, own, c, Station { client, iss })?;
    Ok(())
}

/// A new station is kept, and its client speaks.
#[tactic(auto, using(crate::proofs::Sound::clients_sound))]
fn begin(
    machine: &mut Machine,
    alloc: Global,
    event: Event,
    own: Rec,
    c: ConnId,
    mut station: Station,
) -> Result<(), NoMemory>
    requires room { HasRoom machine.old }
    requires sound { IsMachineSound machine.old }
    ensures ok { OnOk result (machine.new ≡ client_acted machine.old event (own ∷ []) c station.iss false (speaking [] [] station.client)) }
    ensures sound { OnOk result (IsMachineSound machine.new) }
    ensures err { OnErr result (machine.new.journal ≡ machine.old.journal) }
{
    let turn = lard_station::open(alloc, &mut station.client)?;
    let is_armed = station.client.armed();
    machine.clients.insert(c.number(), station)?;
    let done = Act {
        c,
        turn,
        was_armed: false,
        is_armed,
    };
    conclude(machine, alloc, event, Some(own), done)
}

/// The client writes (RFC 9293, 3.10.2) a plain request for a path (RFC 9112, 3). After `NoClient`, where it has not
/// opened, and `Limit(Stream)`, where it would write more bytes in all than that allows, everything is as it was.
/// Without memory the journal is as it was.
pub fn write_request(
    machine: &mut Machine,
    alloc: Global,
    c: ConnId,
    path: Path,
) -> Result<(), StepFault>
    requires room { HasRoom machine.old }
    requires sound { IsMachineSound machine.old }
    requires set { IsSet machine.old.config }
    ensures step { Steps (machine_wrote machine.old (Event.Get c path) c (request path) (table.get machine.old.clients c)) machine.old machine.new result }
    ensures sound { OnOk result (IsMachineSound machine.new) }
{
    let bytes = lard_station::request(alloc, &path)?;
    write(machine, alloc, Event::Get { c, path }, c, bytes)
}

/// The client writes these bytes (RFC 9293, 3.10.2). After `NoClient`, where it has not opened, and `Limit(Stream)`,
/// where it would write more bytes in all than that allows, everything is as it was. Without memory the journal is as
/// it was.
pub fn write_bytes(
    machine: &mut Machine,
    alloc: Global,
    c: ConnId,
    bytes: Bytes,
) -> Result<(), StepFault>
    requires room { HasRoom machine.old }
    requires sound { IsMachineSound machine.old }
    requires set { IsSet machine.old.config }
    ensures step { Steps (machine_wrote machine.old (Event.Write c bytes) c bytes (table.get machine.old.clients c)) machine.old machine.new result }
    ensures sound { OnOk result (IsMachineSound machine.new) }
{
    let copy = bytes.copy(alloc)?;
    write(machine, alloc, Event::Write { c, bytes }, c, copy)
}

/// The client writes bytes, unless they pass the stream limit.
#[tactic(auto, unfolding(lard_rules::specs::Machine::machine_wrote))]
fn write(
    machine: &mut Machine,
    alloc: Global,
    event: Event,
    c: ConnId,
    bytes: Bytes,
) -> Result<(), StepFault>
    requires room { HasRoom machine.old }
    requires sound { IsMachineSound machine.old }
    requires set { IsSet machine.old.config }
    ensures step { Steps (machine_wrote machine.old event c bytes (table.get machine.old.clients c)) machine.old machine.new result }
    ensures sound { OnOk result (IsMachineSound machine.new) }
{
    let Some(station) = machine.clients.get(c.number()) else {
        return Err(StepFault::Refused(Refusal::NoClient(c.number())));
    };
    if u64::from(machine.config.stream)
        < lard_station::written_len(&station.client, bytes.as_slice())
    {
        return Err(StepFault::Limit(What::Stream));
    }
    let Some(mut acting) = take_out(machine, alloc, c) else {
        unreachable!()
    };
    let turn = lard_station::write(alloc, &mut acting.station.client, bytes)?;
    put_back(machine, alloc, event, None, acting, turn)?;
    Ok(())
}

/// The client closes its side (RFC 9293, 3.10.4). After `NoClient`, where it has not opened, everything is as it was.
/// Without memory the journal is as it was.
#[tactic(auto, unfolding(lard_rules::specs::Machine::client_acts))]
pub fn shut(machine: &mut Machine, alloc: Global, c: ConnId) -> Result<(), StepFault>
    requires room { HasRoom machine.old }
    requires sound { IsMachineSound machine.old }
    ensures step { Steps (client_acts machine.old (Event.Shut c) [] c client_shuts (table.get machine.old.clients c)) machine.old machine.new result }
    ensures sound { OnOk result (IsMachineSound machine.new) }
{
    let Some(mut acting) = take_out(machine, alloc, c) else {
        return Err(StepFault::Refused(Refusal::NoClient(c.number())));
    };
    let turn = lard_station::shut(alloc, &mut acting.station.client)?;
    put_back(machine, alloc, Event::Shut(c), None, acting, turn)?;
    Ok(())
}

/// The client resets its connection (RFC 9293, 3.10.5). After `NoClient`, where it has not opened, everything is as it
/// was. Without memory the journal is as it was.
#[tactic(auto, unfolding(lard_rules::specs::Machine::client_acts))]
pub fn abort(machine: &mut Machine, alloc: Global, c: ConnId) -> Result<(), StepFault>
    requires room { HasRoom machine.old }
    requires sound { IsMachineSound machine.old }
    ensures step { Steps (client_acts machine.old (Event.Abort c) [] c client_aborts (table.get machine.old.clients c)) machine.old machine.new result }
    ensures sound { OnOk result (IsMachineSound machine.new) }
{
    let Some(mut acting) = take_out(machine, alloc, c) else {
        return Err(StepFault::Refused(Refusal::NoClient(c.number())));
    };
    let turn = lard_station::abort(alloc, &mut acting.station.client)?;
    put_back(machine, alloc, Event::Abort(c), None, acting, turn)?;
    Ok(())
}

/// The schedule puts a packet with these bytes, at most 1,520, on the way from the client to the front end. After
/// `NoClient`, where it has not opened, everything is as it was. Without memory the journal is as it was.
#[tactic(auto, unfolding(lard_rules::specs::Machine::client_acts))]
pub fn inject(
    machine: &mut Machine,
    alloc: Global,
    c: ConnId,
    bytes: Bytes,
) -> Result<(), StepFault>
    requires room { HasRoom machine.old }
    requires sound { IsMachineSound machine.old }
    requires short { length bytes ≤ MAX_SEGMENT_BYTES }
    ensures step { Steps (client_acts machine.old (Event.Inject c bytes) (Rec.Injected c ∷ []) c (λ x. client_injects x bytes) (table.get machine.old.clients c)) machine.old machine.new result }
    ensures sound { OnOk result (IsMachineSound machine.new) }
{
    let Some(acting) = take_out(machine, alloc, c) else {
        return Err(StepFault::Refused(Refusal::NoClient(c.number())));
    };
    let copy = bytes.copy(alloc)?;
    let turn = lard_station::inject(alloc, &acting.station.client, copy)?;
    let event = Event::Inject { c, bytes };
    put_back(machine, alloc, event, Some(Rec::Injected(c)), acting, turn)?;
    Ok(())
}

/// The client leaves accepted bytes in its window from now on. After `NoClient`, where it has not opened, everything is
/// as it was. Without memory the journal is as it was.
#[tactic(auto, unfolding(lard_rules::specs::Machine::client_acts))]
pub fn hold(machine: &mut Machine, alloc: Global, c: ConnId) -> Result<(), StepFault>
    requires room { HasRoom machine.old }
    requires sound { IsMachineSound machine.old }
    ensures step { Steps (client_acts machine.old (Event.Hold c) [] c client_holds (table.get machine.old.clients c)) machine.old machine.new result }
    ensures sound { OnOk result (IsMachineSound machine.new) }
{
    let Some(mut acting) = take_out(machine, alloc, c) else {
        return Err(StepFault::Refused(Refusal::NoClient(c.number())));
    };
    let turn = lard_station::hold(alloc, &mut acting.station.client)?;
    put_back(machine, alloc, Event::Hold(c), None, acting, turn)?;
    Ok(())
}

/// The client reads all that lies in its window (RFC 9293, 3.10.3). After `NoClient`, where it has not opened,
/// everything is as it was. Without memory the journal is as it was.
#[tactic(auto, unfolding(lard_rules::specs::Machine::client_acts))]
pub fn take(machine: &mut Machine, alloc: Global, c: ConnId) -> Result<(), StepFault>
    requires room { HasRoom machine.old }
    requires sound { IsMachineSound machine.old }
    ensures step { Steps (client_acts machine.old (Event.Take c) [] c client_takes (table.get machine.old.clients c)) machine.old machine.new result }
    ensures sound { OnOk result (IsMachineSound machine.new) }
{
    let Some(mut acting) = take_out(machine, alloc, c) else {
        return Err(StepFault::Refused(Refusal::NoClient(c.number())));
    };
    let turn = lard_station::take(alloc, &mut acting.station.client)?;
    put_back(machine, alloc, Event::Take(c), None, acting, turn)?;
    Ok(())
}

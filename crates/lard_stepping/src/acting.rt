//! The end of a step: its packets are sent, and all of its records are appended at once.

ghost use Rattle.std.specs.Prelude.{◌≡◌, ◌+◌, ◌^◌, ◌≤◌, ◌<◌, ◌-◌, true, [], ◌∷◌, ◌++◌, length, IfOk, OnOk, OnErr};
ghost use Rattle.lard_base.specs.declared.limits.TheConstants.{MAX_SEGMENT_BYTES};
ghost use Rattle.lard_rules.specs.Machine.{passed, machine_told};
ghost use Rattle.lard_stepping.specs.Acting.{IsOutSendable};
ghost use Rattle.lard_stepping.specs.Sound.{HasRoom, IsMachineSound, IsSoundTo};
ghost use Rattle.lard_rules.specs.Sent.{packets_of, sent_records};
ghost use Rattle.lard_net.specs.Net.{IsSized, most_bytes};
ghost use Rattle.lard_rules.specs.Outs.{out_of};
ghost use Rattle.lard_rules.specs.Speaking.{AreShort, listed};
ghost use Rattle.lard_serving.specs.Bounds.{IsTurn};

use lard_base::limits::{MAX_MESSAGE_BYTES, MAX_SEGMENT_BYTES};
use lard_base::{Bytes, ConnId, Event, NoMemory, Place, Sends};
use lard_journal::{Journal, Rec, Recs};
use lard_net::Net;
use lard_rules::{Machine, Out, Turn};
use lard_serving::out_of;
use std::alloc::Global;

/// What a client does in a step: its turn, and its timer before and after.
#[derive(Debug, Drop)]
pub struct Act {
    pub c: ConnId,
    pub turn: Turn,
    pub was_armed: bool,
    pub is_armed: bool,
}

/// Ends a step in which a client acted. Without memory the journal is as it was.
pub fn conclude(
    machine: &mut Machine,
    alloc: Global,
    event: Event,
    own: Option<Rec>,
    act: Act,
) -> Result<(), NoMemory>
    requires room { HasRoom machine.old }
    requires sound { IsMachineSound machine.old }
    requires turn { IsTurn act.turn }
    ensures ok { OnOk result (machine.new ≡ machine_told machine.old event (listed own) (Place.Client act.c) (out_of (Place.Client act.c) act.c act.was_armed act.is_armed act.turn)) }
    ensures sound { OnOk result (IsMachineSound machine.new) }
    ensures err { OnErr result (machine.new.journal ≡ machine.old.journal) }
{
    let Act {
        c,
        turn,
        was_armed,
        is_armed,
    } = act;
    let out = out_of(alloc, Place::Client(c), c, was_armed, is_armed, turn)?;
    tell(machine, alloc, event, own, Place::Client(c), out)
}

/// Tells all that a place does in a step, kind by kind. Without memory the journal is as it was.
#[tactic(auto, using(crate::proofs::Sound::told_sound), unfolding(lard_rules::specs::Machine::machine_told))]
pub fn tell(
    machine: &mut Machine,
    alloc: Global,
    event: Event,
    own: Option<Rec>,
    place: Place,
    out: Out,
) -> Result<(), NoMemory>
    requires room { HasRoom machine.old }
    requires sound { IsSoundTo (length machine.old.journal + length out.notes) machine.old }
    requires out { IsOutSendable out }
    ensures ok { OnOk result (machine.new ≡ machine_told machine.old event (listed own) place out) }
    ensures sound { OnOk result (IsMachineSound machine.new) }
    ensures err { OnErr result (machine.new.journal ≡ machine.old.journal) }
{
    let Out {
        mut notes,
        segments,
        mut gave,
        messages,
        mut timers,
        answered,
    } = out;
    let i = machine.events + 1;
    let mut recs = Recs::new(alloc);
    recs.push(Rec::Event { i, event })?;
    push(&mut recs, own)?;
    recs.append(&mut notes)?;
    send(&mut machine.net, &place, segments, &mut recs)?;
    recs.append(&mut gave)?;
    send_messages(&mut machine.net, &place, messages, &mut recs)?;
    recs.append(&mut timers)?;
    machine.journal.append(recs)?;
    machine.answered += u64::from(answered);
    machine.events = i;
    Ok(())
}

/// Ends a step in which no place acted. Without memory the journal is as it was.
#[tactic(auto, using(crate::proofs::Sound::passed_sound))]
pub fn pass(machine: &mut Machine, alloc: Global, event: Event, own: Rec) -> Result<(), NoMemory>
    requires room { HasRoom machine.old }
    requires sound { IsMachineSound machine.old }
    ensures ok { OnOk result (machine.new ≡ passed machine.old event (own ∷ [])) }
    ensures sound { OnOk result (IsMachineSound machine.new) }
    ensures err { OnErr result (machine.new.journal ≡ machine.old.journal) }
{
    note(machine, alloc, event, own)
}

/// The records of an event of which nothing more is told. Without memory the journal is as it was.
pub fn note(machine: &mut Machine, alloc: Global, event: Event, own: Rec) -> Result<(), NoMemory>
    requires { HasRoom machine.old }
    ensures ok { OnOk result (machine.new ≡ passed machine.old event (own ∷ [])) }
    ensures err { OnErr result (machine.new.journal ≡ machine.old.journal) }
{
    let i = machine.events + 1;
    let mut recs = Recs::new(alloc);
    recs.push(Rec::Event { i, event })?;
    recs.push(own)?;
    machine.journal.append(recs)?;
    machine.events = i;
    Ok(())
}

/// The record of an event that does no step of its own. Without memory the journal is as it was.
pub fn mark(machine: &mut Machine, alloc: Global, event: Event) -> Result<(), NoMemory>
    requires { HasRoom machine.old }
    ensures ok { OnOk result (machine.new ≡ passed machine.old event []) }
    ensures err { OnErr result (machine.new.journal ≡ machine.old.journal) }
{
    let i = machine.events + 1;
    append(&mut machine.journal, alloc, Rec::Event { i, event })?;
    machine.events = i;
    Ok(())
}

/// Appends one record. Without memory the journal is as it was.
pub fn append(journal: &mut Journal, alloc: Global, rec: Rec) -> Result<(), NoMemory>
    ensures ok { OnOk result (journal.new ≡ journal.old ++ rec ∷ []) }
    ensures err { OnErr result (journal.new ≡ journal.old) }
{
    let mut recs = Recs::new(alloc);
    recs.push(rec)?;
    journal.append(recs)?;
    Ok(())
}

// ---- packets

/// Sends the segments from a place, and adds the records of them.
fn send(net: &mut Net, from: &Place, segments: Sends, recs: &mut Recs) -> Result<(), NoMemory>
    requires room { length net.old + length segments < 2 ^ 32 - 1 }
    requires short { AreShort segments }
    ensures net { OnOk result (net.new ≡ net.old ++ packets_of from.now segments) }
    ensures recs { OnOk result (recs.new ≡ recs.old ++ sent_records (length net.old + 1) from.now segments) }
{
    for (to, bytes) in segments.into_vec() {
        recs.push(send_segment(net, from, &to, bytes)?)?;
    }
    Ok(())
}

/// Sends a segment, and answers the record of it.
#[tactic(auto, using(lard_net::proofs::Packets::segment_sized))]
fn send_segment(net: &mut Net, from: &Place, to: &Place, bytes: Bytes) -> Result<Rec, NoMemory>
    requires room { length net.old < 2 ^ 32 - 1 }
    requires short { length bytes ≤ MAX_SEGMENT_BYTES }
    ensures net { OnOk result (net.new ≡ net.old ++ packets_of from.now ((to.now, bytes) ∷ [])) }
    ensures rec { IfOk result (λ rec. rec ≡ Rec.Sent (length net.old + 1) from.now to.now bytes) }
{
    send_one(net, from, to, bytes)
}

/// Sends the messages from a place, and adds the records of them.
fn send_messages(
    net: &mut Net,
    from: &Place,
    messages: Sends,
    recs: &mut Recs,
) -> Result<(), NoMemory>
    ensures net { OnOk result (net.new ≡ net.old ++ packets_of from.now messages) }
    ensures recs { OnOk result (recs.new ≡ recs.old ++ sent_records (length net.old + 1) from.now messages) }
{
    for (to, bytes) in messages.into_vec() {
        recs.push(send_message(net, from, &to, bytes)?)?;
    }
    Ok(())
}

/// Sends a message, and answers the record of it. One that has no number left, or is longer than may go between its places, finds
/// no memory. No run comes there: messages go between machines, and a step sends few.
fn send_message(net: &mut Net, from: &Place, to: &Place, bytes: Bytes) -> Result<Rec, NoMemory>
    ensures net { OnOk result (net.new ≡ net.old ++ packets_of from.now ((to.now, bytes) ∷ [])) }
    ensures rec { IfOk result (λ rec. rec ≡ Rec.Sent (length net.old + 1) from.now to.now bytes) }
{
    if net.sent() == u32::MAX || !is_sized(from, to, bytes.len()) {
        return Err(NoMemory);
    }
    send_one(net, from, to, bytes)
}

/// Whether so many bytes may go from one place to another.
fn is_sized(from: &Place, to: &Place, len: usize) -> bool
    ensures { result ≡ true → IsSized from.now to.now len }
{
    len <= most_bytes(from) && len <= most_bytes(to)
}

/// The most bytes of a packet that a place sends or gets.
fn most_bytes(place: &Place) -> usize
    ensures { result ≡ most_bytes place.now }
{
    match place {
        Place::Front => MAX_MESSAGE_BYTES,
        Place::Node(_) => MAX_MESSAGE_BYTES,
        Place::Client(_) => MAX_SEGMENT_BYTES,
    }
}

/// Sends a packet, and answers the record of it, which shares the bytes that the network keeps.
#[tactic(auto, using(crate::proofs::Kept::last_is_kept))]
fn send_one(net: &mut Net, from: &Place, to: &Place, bytes: Bytes) -> Result<Rec, NoMemory>
    requires room { length net.old < 2 ^ 32 - 1 }
    requires sized { IsSized from.now to.now (length bytes) }
    ensures net { OnOk result (net.new ≡ net.old ++ packets_of from.now ((to.now, bytes) ∷ [])) }
    ensures rec { IfOk result (λ rec. rec ≡ Rec.Sent (length net.old + 1) from.now to.now bytes) }
{
    let k = net.send(*from, *to, bytes)?;
    let Some(packet) = net.get(k) else {
        unreachable!()
    };
    let bytes = packet.bytes.share()?;
    let (from, to) = (*from, *to);
    Ok(Rec::Sent { k, from, to, bytes })
}

/// Adds a record, where there is one.
fn push(recs: &mut Recs, rec: Option<Rec>) -> Result<(), NoMemory>
    ensures { OnOk result (recs.new ≡ recs.old ++ listed rec) }
{
    match rec {
        None => return Ok(()),
        Some(rec) => return recs.push(rec),
    }
}

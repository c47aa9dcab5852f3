//! A connection that its node refuses, or gives back: it is released, the first of the line is handed off, and it reads on.

ghost use Rattle.std.specs.Prelude.{◌≡◌, ◌≤◌, ◌++◌, true, is_some, [], None, Some, IfOk, IfSome, OnOk, option_copied};
ghost use Rattle.std.specs.FinMap as table;
ghost use Rattle.lard_base.specs.declared.limits.TheConstants.{MAX_STREAM_BYTES};
ghost use Rattle.lard_base.specs.Parts.{IsValidParts};
ghost use Rattle.lard_dispatch.specs.Calls.{after_close, ended_answer};
ghost use Rattle.lard_dispatch.specs.Laws.{after_calls};
ghost use Rattle.lard_dispatch.specs.Sound.{AreBefore};
ghost use Rattle.lard_front.specs.Bounds.{IsFrontOut, IsFrontTurn};
ghost use Rattle.lard_front.specs.Hand.{HeadWaits, armed_of, changes};
ghost use Rattle.lard_front.specs.Place.{front_setting_seen};
ghost use Rattle.lard_front.specs.Returned.{CameBack, IsHead, freed_notes, head_next, rested_anew, returned_from};
ghost use Rattle.lard_handoff_front.specs.Returns.{after_back};
ghost use Rattle.lard_loads.specs.Tally.{has_other_open, home};
ghost use Rattle.lard_message.specs.Message.{IsOfTable};
ghost use Rattle.lard_message.specs.Reading.{decoded_message};
ghost use Rattle.lard_resend.specs.Pending.{AreFit};
ghost use Rattle.lard_rules.specs.Front.{back_answer, front_saying, is_behind, parts_in, parts_kept, parts_read};
ghost use Rattle.lard_rules.specs.FrontPlace.{back_calls, comes_back, front_out_of, front_part, head_turn, in_order, returned_turn};
ghost use Rattle.lard_rules.specs.FrontSound.{HasOther, IsFrontSound};

use crate::asking::is_at;
use crate::hearing::read_held;
use crate::joining::{Head, hand_head, in_order, joined};
use crate::passing::telling;
use crate::seats::no_rest;
use crate::step::Setting;
use crate::told::was_read;
use crate::turns::{Armed, Around, armed_at, changes, out_of, silent};
use lard_base::{ConnId, EndpointParts, Epoch, Millis, NoMemory, NodeId, Place, TimerKind};
use lard_dispatch::Dispatch;
use lard_handoff_front::{Back, FrontRow, FrontTable};
use lard_journal::{Rec, Recs};
use lard_message::{Body, decode};
use lard_policy::FirstChoice;
use lard_resend::{Kept, PendingKey};
use lard_rules::{FrontState, FrontTurn, Out};
use lard_seq::Seq;
use lard_serving::{Env, nothing};
use std::alloc::Global;

/// A connection that came back.
#[derive(Clone, Copy, Debug)]
pub struct Returning {
    pub c: ConnId,
    /// The epoch in which the front end takes it.
    pub next: Epoch,
    /// How many responses were queued on it.
    pub served: u32,
    /// Its timers that ran before.
    pub was: Armed,
}

/// A Refused comes, of this node. Where the Offer of this epoch to it has no answer yet, the connection is the front end's
/// again, and goes on from the Offer; else it is dropped. Another node is open. Without memory the state is of no use any
/// more but to be spent.
pub fn refused(
    state: &mut FrontState,
    alloc: Global,
    setting: &Setting<'_>,
    c: ConnId,
    from: NodeId,
    epoch: Epoch,
) -> Result<Out, NoMemory>
    requires sound { IsFrontSound state.old }
    requires clock { AreBefore setting.now.now.0 state.old.dispatch.books.sets }
    requires stream { setting.now.stream ≤ MAX_STREAM_BYTES }
    requires other { HasOther state.old from }
    ensures out { IfOk result (λ out. (state.new, out) ≡ comes_back (front_setting_seen setting.entry.now) state.old from c epoch.0 None) }
    ensures fits { IfOk result IsFrontOut }
{
    let Some(parts) = parts_kept(alloc, state.kept.of(c))? else {
        return Ok(nothing(alloc));
    };
    let was = armed_at(state, c);
    match refuse(&mut state.conns, alloc, c, from, epoch, &parts)? {
        Back::New(next) => {
            let served = parts.served;
            let back = Returning {
                c,
                next,
                served,
                was,
            };
            return returns(state, alloc, setting, from, &back, silent(alloc));
        }
        Back::Again => return Ok(nothing(alloc)),
        Back::Stale => return Ok(nothing(alloc)),
    }
}

/// A Give comes, of this node, with parts that are valid. A connection that is with it in this epoch is the front end's
/// again, and goes on from them; one that came back before is acknowledged again; any other is dropped. Another node is open.
/// Without memory the state is of no use any more but to be spent.
pub fn given(
    state: &mut FrontState,
    alloc: Global,
    setting: &Setting<'_>,
    c: ConnId,
    from: NodeId,
    epoch: Epoch,
    parts: &EndpointParts,
) -> Result<Out, NoMemory>
    requires sound { IsFrontSound state.old }
    requires clock { AreBefore setting.now.now.0 state.old.dispatch.books.sets }
    requires stream { setting.now.stream ≤ MAX_STREAM_BYTES }
    requires other { HasOther state.old from }
    requires valid { IsValidParts parts.now }
    ensures out { IfOk result (λ out. (state.new, out) ≡ comes_back (front_setting_seen setting.entry.now) state.old from c epoch.0 (Some parts.now)) }
    ensures fits { IfOk result IsFrontOut }
{
    let was = armed_at(state, c);
    match give(&mut state.conns, alloc, c, from, epoch, parts)? {
        Back::New(next) => {
            let served = parts.served;
            let back = Returning {
                c,
                next,
                served,
                was,
            };
            let said = telling(alloc, c, epoch, from, Body::Given)?;
            return returns(state, alloc, setting, from, &back, said);
        }
        Back::Again => {
            let said = telling(alloc, c, epoch, from, Body::Given)?;
            return Ok(out_of(said, Recs::new(alloc)));
        }
        Back::Stale => return Ok(nothing(alloc)),
    }
}

// ---- the parts of an Offer

/// The endpoint of the Offer that is kept until its node answers.
fn parts_kept(alloc: Global, kept: &[Kept]) -> Result<Option<EndpointParts>, NoMemory>
    ensures parts { IfOk result (λ parts. parts ≡ parts_kept kept.now) }
    ensures valid { IfOk result (λ parts. IfSome parts IsValidParts) }
{
    match kept.first() {
        Some(offer) => return parts_read(alloc, offer.bytes.as_slice()),
        None => return Ok(None),
    }
}

/// The endpoint of the Offer that these bytes spell. What does not decode has none.
fn parts_read(alloc: Global, bytes: &[u8]) -> Result<Option<EndpointParts>, NoMemory>
    ensures parts { IfOk result (λ parts. parts ≡ parts_read (decoded_message bytes.now)) }
    ensures valid { IfOk result (λ parts. IfSome parts IsValidParts) }
{
    match decode(alloc, bytes) {
        Ok(message) => return Ok(parts_in(message.body)),
        Err(fault) => {
            was_read(fault)?;
            return Ok(None);
        }
    }
}

/// The endpoint that an Offer carries.
fn parts_in(body: Body) -> Option<EndpointParts>
    requires { IsOfTable body }
    ensures parts { result ≡ parts_in body }
    ensures valid { IfSome result IsValidParts }
{
    match body {
        Body::Offer(parts) => Some(parts),
        Body::Taken => None,
        Body::Forward(_) => None,
        Body::Ask { .. } => None,
        Body::Tag { .. } => None,
        Body::Fetch { .. } => None,
        Body::Content { .. } => None,
        Body::Ended { .. } => None,
        Body::EndedAck => None,
        Body::Refused => None,
        Body::Give(_) => None,
        Body::Given => None,
    }
}

// ---- the table

/// What a Refused of this node is, and what the table is then.
fn refuse(
    conns: &mut FrontTable,
    alloc: Global,
    c: ConnId,
    from: NodeId,
    epoch: Epoch,
    parts: &EndpointParts,
) -> Result<Back, NoMemory>
    requires { IsValidParts parts.now }
    ensures answer { IfOk result (λ back. back ≡ back_answer from epoch.0 None (table.get conns.old c)) }
    ensures ok { IfOk result (λ back. conns.new ≡ after_back conns.old c parts.now (table.get conns.old c) back) }
{
    if !is_at(conns.row(c), from, epoch) {
        return Ok(Back::Stale);
    }
    conns.on_refused(alloc, c, epoch, parts)
}

/// What a Give of this node is, and what the table is then.
fn give(
    conns: &mut FrontTable,
    alloc: Global,
    c: ConnId,
    from: NodeId,
    epoch: Epoch,
    parts: &EndpointParts,
) -> Result<Back, NoMemory>
    requires { IsValidParts parts.now }
    ensures answer { IfOk result (λ back. back ≡ back_answer from epoch.0 (Some parts.now) (table.get conns.old c)) }
    ensures ok { IfOk result (λ back. conns.new ≡ after_back conns.old c parts.now (table.get conns.old c) back) }
{
    if is_at(conns.row(c), from, epoch) {
        return conns.on_give(alloc, c, epoch, parts);
    }
    if is_behind(conns.row(c), epoch) {
        return Ok(Back::Again);
    }
    Ok(Back::Stale)
}

/// Whether the front end is past this epoch of the connection.
fn is_behind(row: Option<&FrontRow>, epoch: Epoch) -> bool
    ensures { result ≡ is_behind epoch.0 (option_copied row.entry) }
{
    match row {
        Some(row) => epoch.0 < row.epoch.0,
        None => false,
    }
}

// ---- the return

/// A connection that came back is released, the first of the line is handed off, and it reads on. `said` is what its node is
/// told. Without memory the state is of no use any more but to be spent.
fn returns(
    state: &mut FrontState,
    alloc: Global,
    setting: &Setting<'_>,
    from: NodeId,
    back: &Returning,
    mut said: FrontTurn,
) -> Result<Out, NoMemory>
    requires back { CameBack state.old back.now from }
    requires clock { AreBefore setting.now.now.0 state.old.dispatch.books.sets }
    requires stream { setting.now.stream ≤ MAX_STREAM_BYTES }
    requires fits { IsFrontTurn said }
    requires plain { said ≡ front_saying said.messages }
    ensures out { IfOk result (λ out. (state.new, out) ≡ returned_from (front_setting_seen setting.entry.now) state.old back.now from said.messages) }
    ensures fits { IfOk result IsFrontOut }
{
    let head = make_room(state, alloc, setting, from, back, &mut said.notes)?;
    let around = Around {
        serve: Env {
            place: Place::Front,
            c: back.c,
            files: setting.files,
            stream: setting.stream,
        },
        iss: Seq(0),
        time: setting.now,
    };
    let read = read_held(state, alloc, &around)?;
    put_together(alloc, state, back, said, head, read)
}

/// The node is closed, the connection released, and the head of the line handed off.
fn make_room(
    state: &mut FrontState,
    alloc: Global,
    setting: &Setting<'_>,
    from: NodeId,
    back: &Returning,
    notes: &mut Recs,
) -> Result<Head, NoMemory>
    requires back { CameBack state.old back.now from }
    requires clock { AreBefore setting.now.now.0 state.old.dispatch.books.sets }
    ensures head { IfOk result (λ x. IsHead state.new x back.now.c (head_next (front_setting_seen setting.entry.now) state.old back.now from)) }
    ensures notes { OnOk result (notes.new ≡ notes.old ++ freed_notes state.old.dispatch back.now from) }
    ensures fits { IfOk result (λ x. IsFrontTurn x.turn) }
    ensures quiet { IfOk result (λ x. x.turn.segments ≡ []) }
{
    rest_anew(state, alloc, back)?;
    let next = release(&mut state.dispatch, setting.now, from, back, notes)?;
    hand_next(state, alloc, setting, back.c, next)
}

/// What is known of a connection that came back: the responses that it had. No answer to its Offer is awaited.
fn rest_anew(state: &mut FrontState, alloc: Global, back: &Returning) -> Result<(), NoMemory>
    ensures { OnOk result (state.new ≡ rested_anew state.old back.now) }
{
    let mut rest = no_rest(alloc);
    rest.count = back.served;
    let _ = state.rests.insert(back.c.number(), rest)?;
    let key = PendingKey {
        c: back.c,
        kind: TimerKind::Offer,
        r: 0,
    };
    let _ = state.kept.settle(key);
    Ok(())
}

/// The node that it comes from is closed, and it is released. The answer is who is admitted in its place, and where.
fn release(
    dispatch: &mut Dispatch,
    time: Millis,
    from: NodeId,
    back: &Returning,
    notes: &mut Recs,
) -> Result<Option<(ConnId, FirstChoice)>, NoMemory>
    requires other { has_other_open dispatch.old.books.loads from ≡ true }
    requires admitted { is_some (home dispatch.old.books.loads back.now.c) ≡ true }
    requires clock { AreBefore time.0 dispatch.old.books.sets }
    ensures next { IfOk result (λ next. next ≡ ended_answer (after_close dispatch.old from) back.now.c time) }
    ensures dispatch { OnOk result (dispatch.new ≡ after_calls dispatch.old (back_calls from back.now.c time)) }
    ensures notes { OnOk result (notes.new ≡ notes.old ++ freed_notes dispatch.old back.now from) }
{
    let (place, c) = (Place::Front, back.c);
    notes.push(Rec::Took {
        place,
        c,
        epoch: back.next,
    })?;
    if dispatch.close(from) {
        notes.push(Rec::Closed(from))?;
    }
    let next = dispatch.ended(c, time)?;
    notes.push(Rec::Released(c))?;
    Ok(next)
}

/// The head of the line is handed off, where there is one, in the room that connection `c` made.
fn hand_next(
    state: &mut FrontState,
    alloc: Global,
    setting: &Setting<'_>,
    c: ConnId,
    next: Option<(ConnId, FirstChoice)>,
) -> Result<Head, NoMemory>
    requires { IfSome next (λ d. HeadWaits state.old d.0) }
    ensures head { IfOk result (λ x. IsHead state.new x c (head_turn (front_setting_seen setting.entry.now) state.old c next)) }
    ensures fits { IfOk result (λ x. IsFrontTurn x.turn) }
    ensures quiet { IfOk result (λ x. x.turn.segments ≡ []) }
{
    match next {
        None => {
            return Ok(Head {
                c,
                turn: silent(alloc),
                timers: Recs::new(alloc),
            });
        }
        Some(next) => return hand_head(state, alloc, setting, next),
    }
}

/// What the connection read on to stands behind the head of the line, and that behind what its node is told.
fn put_together(
    alloc: Global,
    state: &FrontState,
    back: &Returning,
    said: FrontTurn,
    head: Head,
    read: FrontTurn,
) -> Result<Out, NoMemory>
    requires fits { IsFrontTurn said }
    requires head { IsFrontTurn head.turn }
    requires read { IsFrontTurn read }
    requires quiet { said.segments ≡ [] }
    requires kept { said.gave ≡ [] }
    requires quiet_head { head.turn.segments ≡ [] }
    ensures out { IfOk result (λ out. out ≡ front_out_of (returned_turn said.notes said.messages head.turn read)
        (in_order back.now.c head.c (changes back.now.c back.now.was (armed_of (front_part state.now back.now.c))) head.timers)) }
    ensures fits { IfOk result IsFrontOut }
{
    let answered = read.answered;
    let ours = changes(alloc, back.c, back.was, armed_at(state, back.c))?;
    let timers = in_order(back.c, head.c, ours, head.timers)?;
    let behind = joined(head.turn, read, answered)?;
    Ok(out_of(joined(said, behind, answered)?, timers))
}

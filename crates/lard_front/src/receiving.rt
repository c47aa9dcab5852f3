//! A segment comes, or the timers of a connection fire: what is done by the stage that the connection is in.

ghost use Rattle.std.specs.Prelude.{◌≡◌, ◌≤◌, true, [], IfOk, length, map, None, Some};
ghost use Rattle.std.specs.FinMap as table;
ghost use Rattle.lard_base.specs.declared.limits.TheConstants.{MAX_SEGMENT_BYTES, MAX_STREAM_BYTES};
ghost use Rattle.lard_dispatch.specs.Sound.{AreBefore};
ghost use Rattle.lard_rules.specs.Front.{front_begun, front_gets, front_hears, front_timer};
ghost use Rattle.lard_rules.specs.FrontPlace.{front_deed, front_part};
ghost use Rattle.lard_rules.specs.FrontSound.{IsFrontSound};
ghost use Rattle.lard_front.specs.Bounds.{AreMessages, IsFrontOut, IsFrontTurn};
ghost use Rattle.lard_front.specs.Hand.{deed_turn, front_env_of};
ghost use Rattle.lard_resend.specs.Pending.{AreFit, held, sent_of};
ghost use Rattle.lard_rules.specs.Tombstone.{is_plain_syn};
ghost use Rattle.lard_segment.specs.Segment.{decoded, said};

use crate::ended::tombstone;
use crate::hearing::{fire_held, fire_waiting, hear_held, hear_waiting};
use crate::passing::forward;
use crate::seats::{no_rest, put_back, take_out};
use crate::turns::{Around, armed_at, out_by, saying, silent, turn_here};
use lard_base::{Epoch, NoMemory, Place, Sends};
use lard_handoff_front::FrontConn;
use lard_journal::Rec;
use lard_resend::Kept;
use lard_rules::{FrontState, FrontTurn, Out};
use lard_segment::{Dir, Segment, decode};
use lard_serving::{Service, spoken};
use std::alloc::Global;

/// A packet of a client comes, of at most 1,520 bytes (RFC 9293, 3.10.7). What does not decode is dropped. Without
/// memory the state is of no use any more but to be spent.
pub fn receive(
    state: &mut FrontState,
    alloc: Global,
    around: &Around<'_>,
    bytes: &[u8],
) -> Result<Out, NoMemory>
    requires sound { IsFrontSound state.old }
    requires clock { AreBefore around.now.time.0 state.old.dispatch.books.sets }
    requires stream { around.now.serve.stream ≤ MAX_STREAM_BYTES }
    requires short { length bytes.now ≤ MAX_SEGMENT_BYTES }
    ensures out { IfOk result (λ out. (state.new, out) ≡ front_deed state.old around.now.serve.c
        (front_gets (front_env_of around.now state.old) (front_part state.old around.now.serve.c) bytes.now (decoded bytes.now around.now.serve.c Dir.ToCluster))) }
    ensures fits { IfOk result IsFrontOut }
{
    let c = around.serve.c;
    let was = armed_at(state, c);
    let turn = get(state, alloc, around, bytes)?;
    out_by(alloc, state, c, was, turn)
}

/// The bytes of a packet of a client.
fn get(
    state: &mut FrontState,
    alloc: Global,
    around: &Around<'_>,
    bytes: &[u8],
) -> Result<FrontTurn, NoMemory>
    requires sound { IsFrontSound state.old }
    requires clock { AreBefore around.now.time.0 state.old.dispatch.books.sets }
    requires stream { around.now.serve.stream ≤ MAX_STREAM_BYTES }
    requires short { length bytes.now ≤ MAX_SEGMENT_BYTES }
    ensures turn { IfOk result (λ turn. (state.new, turn) ≡ deed_turn state.old around.now.serve.c
        (front_gets (front_env_of around.now state.old) (front_part state.old around.now.serve.c) bytes.now (decoded bytes.now around.now.serve.c Dir.ToCluster))) }
    ensures fits { IfOk result IsFrontTurn }
{
    match decode(bytes, around.serve.c, Dir::ToCluster) {
        Ok(segment) => return hear(state, alloc, around, bytes, &segment),
        Err(_) => return Ok(silent(alloc)),
    }
}

/// A segment comes, as these bytes.
fn hear(
    state: &mut FrontState,
    alloc: Global,
    around: &Around<'_>,
    bytes: &[u8],
    segment: &Segment<'_>,
) -> Result<FrontTurn, NoMemory>
    requires sound { IsFrontSound state.old }
    requires clock { AreBefore around.now.time.0 state.old.dispatch.books.sets }
    requires stream { around.now.serve.stream ≤ MAX_STREAM_BYTES }
    requires some { 20 ≤ length bytes.now }
    requires short { length bytes.now ≤ MAX_SEGMENT_BYTES }
    ensures turn { IfOk result (λ turn. (state.new, turn) ≡ deed_turn state.old around.now.serve.c
        (front_hears (front_env_of around.now state.old) (front_part state.old around.now.serve.c) bytes.now (said segment.now) (table.get state.old.conns around.now.serve.c))) }
    ensures fits { IfOk result IsFrontTurn }
{
    let c = around.serve.c;
    let Some(row) = state.conns.row(c) else {
        if is_plain_syn(segment) {
            return meet(state, alloc, around, segment);
        }
        return Ok(silent(alloc));
    };
    match &row.stage {
        FrontConn::Held(_) => return hear_held(state, alloc, around, segment),
        FrontConn::Waiting(_) => return hear_waiting(state, alloc, around, segment),
        FrontConn::Lent => return Ok(silent(alloc)),
        FrontConn::Offering { node, epoch } => return forward(alloc, c, *epoch, *node, bytes),
        FrontConn::Moved { node, epoch } => return forward(alloc, c, *epoch, *node, bytes),
        FrontConn::Closed(last) => {
            let turn = tombstone(alloc, &around.serve, *last, segment)?;
            return Ok(turn_here(alloc, turn));
        }
    }
}

/// Whether a segment is a SYN without another control bit that counts.
fn is_plain_syn(segment: &Segment<'_>) -> bool
    ensures { result ≡ is_plain_syn (said segment.now) }
{
    let flags = segment.flags;
    flags.syn && !flags.ack && !flags.rst && !flags.fin
}

/// A connection begins with a plain SYN (RFC 9293, 3.10.7.2), and the front end is its first owner.
fn meet(
    state: &mut FrontState,
    alloc: Global,
    around: &Around<'_>,
    segment: &Segment<'_>,
) -> Result<FrontTurn, NoMemory>
    requires unknown { table.get state.old.conns around.now.serve.c ≡ None }
    requires none { held state.old.kept around.now.serve.c ≡ [] }
    requires some { table.get state.old.kept around.now.serve.c ≡ Some [] → ⊥ }
    requires plain { is_plain_syn (said segment.now) ≡ true }
    ensures turn { IfOk result (λ turn. (state.new, turn) ≡ deed_turn state.old around.now.serve.c (front_begun (front_env_of around.now state.old) (front_part state.old around.now.serve.c) (said segment.now))) }
    ensures fits { IfOk result IsFrontTurn }
{
    let c = around.serve.c;
    state.conns.listen(alloc, c, segment, around.iss)?;
    let _ = state.rests.insert(c.number(), no_rest(alloc))?;
    let mut service = Service::new(alloc, 0);
    let (place, epoch) = (Place::Front, Epoch(1));
    service.notes.push(Rec::Took { place, c, epoch })?;
    let endpoint = take_out(state, c);
    let (ending, turn) = spoken(alloc, &around.serve, endpoint, service, Sends::new(alloc));
    put_back(state, alloc, c, false, ending);
    Ok(turn_here(alloc, turn?))
}

// ---- timers

/// The timers of a connection fire (RFC 9293, 3.10.8). Without memory the state is of no use any more but to be spent.
pub fn time_out(state: &mut FrontState, alloc: Global, around: &Around<'_>) -> Result<Out, NoMemory>
    requires sound { IsFrontSound state.old }
    ensures out { IfOk result (λ out. (state.new, out) ≡ front_deed state.old around.now.serve.c (front_timer (front_env_of around.now state.old) (front_part state.old around.now.serve.c))) }
    ensures fits { IfOk result IsFrontOut }
{
    let c = around.serve.c;
    let was = armed_at(state, c);
    let turn = fire(state, alloc, around)?;
    out_by(alloc, state, c, was, turn)
}

/// The endpoint's timer fires, or the Offer that awaits an answer is told again.
fn fire(state: &mut FrontState, alloc: Global, around: &Around<'_>) -> Result<FrontTurn, NoMemory>
    requires sound { IsFrontSound state.old }
    ensures turn { IfOk result (λ turn. (state.new, turn) ≡ deed_turn state.old around.now.serve.c (front_timer (front_env_of around.now state.old) (front_part state.old around.now.serve.c))) }
    ensures fits { IfOk result IsFrontTurn }
{
    let c = around.serve.c;
    let Some(row) = state.conns.row(c) else {
        return Ok(silent(alloc));
    };
    match &row.stage {
        FrontConn::Held(_) => return fire_held(state, alloc, around),
        FrontConn::Waiting(_) => return fire_waiting(state, alloc, around),
        FrontConn::Lent => return Ok(silent(alloc)),
        FrontConn::Offering { .. } => return Ok(saying(alloc, again(alloc, state.kept.of(c))?)),
        FrontConn::Moved { .. } => return Ok(silent(alloc)),
        FrontConn::Closed(_) => return Ok(silent(alloc)),
    }
}

/// What is held is sent once more.
fn again(alloc: Global, all: &[Kept]) -> Result<Sends, NoMemory>
    requires { AreFit all.now }
    ensures sends { IfOk result (λ sends. sends ≡ map sent_of all.now) }
    ensures fits { IfOk result AreMessages }
{
    let mut sends = Sends::new(alloc);
    for kept in all {
        sends.push((kept.to, kept.bytes.copy(alloc)?))?;
    }
    Ok(sends)
}

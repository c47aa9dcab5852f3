//! What comes to a connection whose endpoint is here: a segment of its client, or its timer.

ghost use Rattle.std.specs.Prelude.{◌≡◌, ◌+◌, ◌-◌, ◌^◌, ◌<◌, ◌≤◌, true, false, [], length, IfOk, None, Some};
ghost use Rattle.std.specs.FinMap as table;
ghost use Rattle.lard_base.specs.declared.limits.TheConstants.{MAX_STREAM_BYTES};
ghost use Rattle.lard_rules.specs.FrontPlace.{front_part};
ghost use Rattle.lard_rules.specs.FrontReading.{MayMove};
ghost use Rattle.lard_rules.specs.FrontSound.{Serves};
ghost use Rattle.lard_front.specs.Bounds.{IsFrontTurn};
ghost use Rattle.lard_front.specs.Hand.{Holds, IsFree, Lends, deed_turn, front_env_of, fires_held, fires_waiting, heard_at, read_deed, reads_at, reads_with, waits_heard};
ghost use Rattle.lard_handoff_front.specs.Front.{may_put};
ghost use Rattle.lard_endpoint.specs.Leaving.{after_timer, timed};
ghost use Rattle.lard_rules.specs.Serving.{serving_ready_of, serving, spoken};
ghost use Rattle.lard_segment.specs.Segment.{said};
ghost use Rattle.lard_serving.specs.Bounds.{IsTurn};
ghost use Rattle.lard_serving.specs.Serving.{IsCounted, env_seen, service_of};

use crate::placing::{leave_by, place};
use crate::reading::read;
use crate::seats::{count_of, put_back, take_out};
use crate::turns::{Around, turn_here};
use lard_base::{NoMemory, Path, Sends};
use lard_endpoint::Endpoint;
use lard_rules::{Ending, FrontState, FrontTurn};
use lard_segment::Segment;
use lard_serving::{Ends, Env, Service, ready_of, settled, spoken};
use std::alloc::Global;

/// A segment comes to a connection that is held: the endpoint takes it, and what may be read is read. Without memory
/// the state is of no use any more but to be spent.
pub fn hear_held(
    state: &mut FrontState,
    alloc: Global,
    around: &Around<'_>,
    segment: &Segment<'_>,
) -> Result<FrontTurn, NoMemory>
    requires holds { Holds state.old around.now.serve.c false }
    requires free { IsFree state.old.dispatch around.now.serve.c around.now.time.0 }
    requires stream { around.now.serve.stream ≤ MAX_STREAM_BYTES }
    ensures turn { IfOk result (λ turn. (state.new, turn) ≡ deed_turn state.old around.now.serve.c (heard_at (front_env_of around.now state.old) (front_part state.old around.now.serve.c) (said segment.now) (table.get state.old.conns around.now.serve.c))) }
    ensures fits { IfOk result IsFrontTurn }
{
    let c = around.serve.c;
    let count = count_of(&state.rests, c);
    let mut endpoint = take_out(state, c);
    endpoint.law();
    let _arrival = endpoint.arrive(segment);
    read_on(state, alloc, around, endpoint, count)
}

/// What may be read of a connection that is held is read. Without memory the state is of no use any more but to be spent.
pub fn read_held(
    state: &mut FrontState,
    alloc: Global,
    around: &Around<'_>,
) -> Result<FrontTurn, NoMemory>
    requires holds { Holds state.old around.now.serve.c false }
    requires free { IsFree state.old.dispatch around.now.serve.c around.now.time.0 }
    requires stream { around.now.serve.stream ≤ MAX_STREAM_BYTES }
    ensures turn { IfOk result (λ turn. (state.new, turn) ≡ deed_turn state.old around.now.serve.c
        (reads_at (front_env_of around.now state.old) (front_part state.old around.now.serve.c) (table.get state.old.conns around.now.serve.c))) }
    ensures fits { IfOk result IsFrontTurn }
{
    let c = around.serve.c;
    let count = count_of(&state.rests, c);
    let endpoint = take_out(state, c);
    read_on(state, alloc, around, endpoint, count)
}

/// What may be read of an endpoint in hand is read, behind so many responses.
fn read_on(
    state: &mut FrontState,
    alloc: Global,
    around: &Around<'_>,
    mut endpoint: Endpoint,
    count: u32,
) -> Result<FrontTurn, NoMemory>
    requires lends { Lends state.old around.now.serve.c }
    requires lent { may_put (table.get state.old.conns around.now.serve.c) ≡ true }
    requires free { IsFree state.old.dispatch around.now.serve.c around.now.time.0 }
    requires stream { around.now.serve.stream ≤ MAX_STREAM_BYTES }
    requires serves { Serves count endpoint.recv endpoint.send }
    ensures turn { IfOk result (λ turn. (state.new, turn) ≡ deed_turn state.old around.now.serve.c
        (reads_with (front_env_of around.now state.old) (front_part state.old around.now.serve.c) endpoint count (table.get state.old.conns around.now.serve.c))) }
    ensures fits { IfOk result IsFrontTurn }
{
    let c = around.serve.c;
    let mut service = Service::new(alloc, count);
    match read(alloc, &around.serve, &mut endpoint, &mut service) {
        Ok(target) => {
            endpoint.law();
            return go_on(state, alloc, around, endpoint, service, target);
        }
        Err(NoMemory) => {
            put_back(state, alloc, c, false, Ending::Here { endpoint, count });
            return Err(NoMemory);
        }
    }
}

/// What was read is said, or the connection is placed with its next request.
fn go_on(
    state: &mut FrontState,
    alloc: Global,
    around: &Around<'_>,
    endpoint: Endpoint,
    service: Service,
    target: Option<Path>,
) -> Result<FrontTurn, NoMemory>
    requires lends { Lends state.old around.now.serve.c }
    requires lent { may_put (table.get state.old.conns around.now.serve.c) ≡ true }
    requires free { IsFree state.old.dispatch around.now.serve.c around.now.time.0 }
    requires may { MayMove endpoint target }
    requires counted { IsCounted endpoint service }
    requires few { service.count < 2 ^ 31 }
    requires answered { service.answered ≤ MAX_STREAM_BYTES }
    requires asked { service.count ≤ endpoint.recv.got - length endpoint.recv.unread }
    ensures turn { IfOk result (λ turn. (state.new, turn) ≡ deed_turn state.old around.now.serve.c (read_deed (front_env_of around.now state.old) (front_part state.old around.now.serve.c) (service_of endpoint service) target (table.get state.old.conns around.now.serve.c))) }
    ensures fits { IfOk result IsFrontTurn }
{
    match target {
        Some(path) => return place(state, alloc, around, endpoint, service, path),
        None => return settle(state, alloc, around, endpoint, service),
    }
}

/// What was read is said, and the connection is held on, or ends.
fn settle(
    state: &mut FrontState,
    alloc: Global,
    around: &Around<'_>,
    endpoint: Endpoint,
    service: Service,
) -> Result<FrontTurn, NoMemory>
    requires lends { Lends state.old around.now.serve.c }
    requires lent { may_put (table.get state.old.conns around.now.serve.c) ≡ true }
    requires counted { IsCounted endpoint service }
    ensures turn { IfOk result (λ turn. (state.new, turn) ≡ deed_turn state.old around.now.serve.c (read_deed (front_env_of around.now state.old) (front_part state.old around.now.serve.c) (service_of endpoint service) None (table.get state.old.conns around.now.serve.c))) }
    ensures fits { IfOk result IsFrontTurn }
{
    let (ending, turn) = settled(alloc, &around.serve, endpoint, service);
    put_back(state, alloc, around.serve.c, false, ending);
    Ok(turn_here(alloc, turn?))
}

/// A segment comes to a connection that waits: nothing is read. Without memory the state is of no use any more but to
/// be spent.
pub fn hear_waiting(
    state: &mut FrontState,
    alloc: Global,
    around: &Around<'_>,
    segment: &Segment<'_>,
) -> Result<FrontTurn, NoMemory>
    requires holds { Holds state.old around.now.serve.c true }
    ensures turn { IfOk result (λ turn. (state.new, turn) ≡ deed_turn state.old around.now.serve.c (waits_heard (front_env_of around.now state.old) (front_part state.old around.now.serve.c) (said segment.now) (table.get state.old.conns around.now.serve.c))) }
    ensures fits { IfOk result IsFrontTurn }
{
    let c = around.serve.c;
    let count = count_of(&state.rests, c);
    let mut endpoint = take_out(state, c);
    let _arrival = endpoint.arrive(segment);
    let service = Service::new(alloc, count);
    let (ending, turn) = spoken(alloc, &around.serve, endpoint, service, Sends::new(alloc));
    leave_by(&mut state.dispatch, c, &ending);
    put_back(state, alloc, c, true, ending);
    Ok(turn_here(alloc, turn?))
}

// ---- timers

/// The timer of a connection that is held fires. Without memory the state is of no use any more but to be spent.
pub fn fire_held(
    state: &mut FrontState,
    alloc: Global,
    around: &Around<'_>,
) -> Result<FrontTurn, NoMemory>
    requires holds { Holds state.old around.now.serve.c false }
    ensures turn { IfOk result (λ turn. (state.new, turn) ≡ deed_turn state.old around.now.serve.c (fires_held (front_env_of around.now state.old) (front_part state.old around.now.serve.c) (table.get state.old.conns around.now.serve.c))) }
    ensures fits { IfOk result IsFrontTurn }
{
    let c = around.serve.c;
    let count = count_of(&state.rests, c);
    let endpoint = take_out(state, c);
    let (ending, turn) = fired(alloc, &around.serve, endpoint, count);
    put_back(state, alloc, c, false, ending);
    Ok(turn_here(alloc, turn?))
}

/// The timer of a connection that waits fires. Without memory the state is of no use any more but to be spent.
pub fn fire_waiting(
    state: &mut FrontState,
    alloc: Global,
    around: &Around<'_>,
) -> Result<FrontTurn, NoMemory>
    requires holds { Holds state.old around.now.serve.c true }
    ensures turn { IfOk result (λ turn. (state.new, turn) ≡ deed_turn state.old around.now.serve.c (fires_waiting (front_env_of around.now state.old) (front_part state.old around.now.serve.c) (table.get state.old.conns around.now.serve.c))) }
    ensures fits { IfOk result IsFrontTurn }
{
    let c = around.serve.c;
    let count = count_of(&state.rests, c);
    let endpoint = take_out(state, c);
    let (ending, turn) = fired(alloc, &around.serve, endpoint, count);
    leave_by(&mut state.dispatch, c, &ending);
    put_back(state, alloc, c, true, ending);
    Ok(turn_here(alloc, turn?))
}

/// What an endpoint says whose timer fires (RFC 9293, 3.10.8).
fn fired(alloc: Global, env: &Env<'_>, mut endpoint: Endpoint, count: u32) -> Ends
    requires asked { count + length endpoint.recv.unread ≤ endpoint.recv.got }
    ensures turn { IfOk result.1 (λ turn. (result.0, turn) ≡ spoken (env_seen env.now) (serving (after_timer endpoint) count []) (serving_ready_of (env_seen env.now) (after_timer endpoint) (timed endpoint))) }
    ensures fits { IfOk result.1 IsTurn }
{
    let ready = endpoint.timer();
    match ready_of(alloc, env, &endpoint, ready) {
        Ok(before) => {
            return spoken(alloc, env, endpoint, Service::new(alloc, count), before);
        }
        Err(NoMemory) => return (Ending::Here { endpoint, count }, Err(NoMemory)),
    }
}

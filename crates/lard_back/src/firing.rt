//! The timers of a connection fire: its endpoint's, and that of what awaits an answer.

ghost use Rattle.std.specs.Prelude.{◌≡◌, ◌^◌, ◌<◌, ◌≤◌, length, true, IfOk, OnOk};
ghost use Rattle.std.specs.FinMap as table;
ghost use Rattle.lard_back.specs.Bounds.{IsNodeOut};
ghost use Rattle.lard_back.specs.Place.{IsDone, IsGone, node_env_of, node_setting_seen};
ghost use Rattle.lard_back.specs.Sound.{IsNodeSound};
ghost use Rattle.lard_base.specs.declared.limits.TheConstants.{MAX_STREAM_BYTES};
ghost use Rattle.lard_endpoint.specs.Leaving.{after_timer, timed};
ghost use Rattle.lard_handoff_back.specs.Back.{back_may_put};
ghost use Rattle.lard_rules.specs.Node.{again_sent, node_timer, work_of};
ghost use Rattle.lard_rules.specs.NodePlace.{node_epoch_at, node_deed, node_env, node_part};
ghost use Rattle.lard_rules.specs.Serving.{serving_ready_of, spoken};
ghost use Rattle.lard_rules.specs.Speaking.{AreShort};
ghost use Rattle.lard_serving.specs.Serving.{env_seen};
ghost use Rattle.lard_stay.specs.Work.{IsStaySound};

use crate::acting::{Done, Setting, apart, close, serve};
use crate::hand::{At, put_back, take_out};
use crate::sends::{again, say};
use crate::timers::{Flags, running};
use lard_base::{ConnId, Epoch, NoMemory, Sends};
use lard_endpoint::Endpoint;
use lard_rules::{Ending, NodeState, Out, Stay};
use lard_serving::{Env, ready_of, spoken};
use lard_stay::Work;
use std::alloc::Global;

/// The timers of a connection fire (RFC 9293, 3.10.8): what awaits an answer is sent again, and where the connection is
/// here its endpoint sends again what is not acknowledged. Without memory the state is of no use any more but to be
/// spent.
pub fn fire(
    state: &mut NodeState,
    alloc: Global,
    setting: &Setting<'_>,
    c: ConnId,
) -> Result<Out, NoMemory>
    requires sound { IsNodeSound state.old }
    requires stream { setting.now.stream ≤ MAX_STREAM_BYTES }
    requires few { length state.old.disk < 2 ^ 31 }
    ensures ok { IfOk result (λ out. let k = node_setting_seen setting.now in (state.new, out) ≡ node_deed k state.old c (node_timer (node_env k state.old c (node_epoch_at state.old c)) (node_part state.old c))) }
    ensures sound { OnOk result (IsNodeSound state.new) }
    ensures fits { IfOk result IsNodeOut }
{
    let epoch = epoch_at(state, c);
    let at = At {
        n: setting.n,
        c,
        epoch,
    };
    let was = running(state, c);
    let Some((endpoint, stay)) = take_out(state, c, epoch) else {
        return Ok(say(alloc, again(state, alloc, c)?));
    };
    go(state, alloc, setting, &at, was, endpoint, stay)
}

/// A connection that is here sends again what is not acknowledged, and its endpoint and stay are put back; the endpoint also where
/// memory did not suffice for that. What awaits an answer goes out before all else.
fn go(
    state: &mut NodeState,
    alloc: Global,
    setting: &Setting<'_>,
    at: &At,
    was: Flags,
    endpoint: Endpoint,
    stay: Stay,
) -> Result<Out, NoMemory>
    requires out { back_may_put (table.get state.old.conns.rows at.now.c) ≡ true }
    requires sound { IsStaySound endpoint stay }
    requires few { length state.old.disk < 2 ^ 31 }
    ensures gone { IfOk result (λ out. let env = (node_env_of (node_setting_seen setting.now) state.old at.now).serve in let w = work_of (after_timer endpoint) stay in
        IsGone state.old at.now was (again_sent (node_part state.old at.now.c)) w (spoken env w.service (serving_ready_of env (after_timer endpoint) (timed endpoint))) state.new out) }
    ensures fits { IfOk result IsNodeOut }
{
    let (ending, done) = tell_again(alloc, &serve(setting, at), endpoint, stay);
    let rested = put_back(&mut state.conns, at.c, ending);
    let before = again(state, alloc, at.c)?;
    close(state, alloc, at, was, before, rested, done?)
}

/// The epoch of a connection's stay, if it is here or its end is not acknowledged.
fn epoch_at(state: &NodeState, c: ConnId) -> Epoch
    ensures { result.0 ≡ node_epoch_at state.now c }
{
    match state.conns.row(c) {
        Some(row) => row.epoch,
        None => Epoch(0),
    }
}

/// The endpoint's timer fires (RFC 9293, 3.10.8), with the endpoint in hand, which comes back in each case.
fn tell_again(
    alloc: Global,
    env: &Env<'_>,
    mut endpoint: Endpoint,
    stay: Stay,
) -> (Ending, Result<Done, NoMemory>)
    requires { IsStaySound endpoint stay }
    ensures done { IfOk result.1 (λ done. let env = env_seen env.now in let w = work_of (after_timer endpoint) stay in
        IsDone w (spoken env w.service (serving_ready_of env (after_timer endpoint) (timed endpoint))) result.0 done) }
{
    let ready = endpoint.timer();
    match ready_of(alloc, env, &endpoint, ready) {
        Ok(segments) => return speak(alloc, env, endpoint, stay, segments),
        Err(NoMemory) => return (Ending::Here { endpoint, count: 0 }, Err(NoMemory)),
    }
}

/// These segments go out, and then what the endpoint may say; the stay is as it was.
fn speak(
    alloc: Global,
    env: &Env<'_>,
    endpoint: Endpoint,
    stay: Stay,
    segments: Sends,
) -> (Ending, Result<Done, NoMemory>)
    requires sound { IsStaySound endpoint stay }
    requires short { AreShort segments }
    requires few { length segments ≤ 1 }
    ensures done { IfOk result.1 (λ done. let w = work_of endpoint stay in IsDone w (spoken (env_seen env.now) w.service segments) result.0 done) }
{
    let (service, rest) = apart(Work::new(alloc, stay));
    let (ending, turn) = spoken(alloc, env, endpoint, service, segments);
    match turn {
        Ok(turn) => return (ending, Ok(Done { turn, rest })),
        Err(NoMemory) => return (ending, Err(NoMemory)),
    }
}

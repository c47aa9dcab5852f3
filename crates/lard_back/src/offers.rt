//! An Offer comes: a connection that is new to the node is adopted, and its stay begins; a node that leaves refuses it.

ghost use Rattle.std.specs.Prelude.{◌≡◌, ◌^◌, ◌<◌, ◌≤◌, [], ◌∷◌, length, true, IfOk, OnOk};
ghost use Rattle.std.specs.FinMap as table;
ghost use Rattle.lard_back.specs.Bounds.{IsNodeOut};
ghost use Rattle.lard_back.specs.Place.{IsDone, IsGone, node_env_of, node_setting_seen, told_at};
ghost use Rattle.lard_back.specs.Sound.{IsNodeSound};
ghost use Rattle.lard_base.specs.declared.limits.TheConstants.{MAX_STREAM_BYTES};
ghost use Rattle.lard_base.specs.Parts.{IsValidParts};
ghost use Rattle.lard_endpoint.specs.Moving.{adopted};
ghost use Rattle.lard_handoff_back.specs.Back.{back_may_put};
ghost use Rattle.lard_rules.specs.Node.{message, node_begins, node_offered, node_saying, taken_sent};
ghost use Rattle.lard_rules.specs.NodePlace.{node_deed, node_env, node_part};
ghost use Rattle.lard_rules.specs.Stay.{goes_on, reads_batch};
ghost use Rattle.lard_rules.specs.Loop.{state_of};
ghost use Rattle.lard_rules.specs.Serving.{serving_settled};
ghost use Rattle.lard_stay.specs.Work.{IsInHandSound, stay_env_seen, work_seen};

use crate::acting::{Done, Setting, close, serve, settle, tell_turn};
use crate::hand::{At, put_back};
use crate::rules::saying;
use crate::sends::{refused, say, taken};
use crate::timers::{Flags, running};
use lard_base::{EndpointParts, Items, NoMemory, Place};
use lard_endpoint::Endpoint;
use lard_handoff_back::Adopt;
use lard_journal::Rec;
use lard_message::Body;
use lard_rules::{Ending, NodeState, Out, Stay};
use lard_serving::nothing;
use lard_stay::{Env, Work, begin};
use std::alloc::Global;

/// An Offer comes, with parts that are valid. A new one is adopted, or refused where the node leaves; one that was decided
/// is answered again, and an old one is dropped. Without memory the state is of no use any more but to be spent.
pub fn offered(
    state: &mut NodeState,
    alloc: Global,
    setting: &Setting<'_>,
    at: &At,
    parts: &EndpointParts,
) -> Result<Out, NoMemory>
    requires node { at.now.n ≡ setting.now.n }
    requires sound { IsNodeSound state.old }
    requires stream { setting.now.stream ≤ MAX_STREAM_BYTES }
    requires few { length state.old.disk < 2 ^ 31 }
    requires valid { IsValidParts parts.now }
    ensures ok { IfOk result (λ out. let k = node_setting_seen setting.now in (state.new, out) ≡ node_deed k state.old at.now.c (node_offered (node_env k state.old at.now.c at.now.epoch.0) (node_part state.old at.now.c) parts.now)) }
    ensures sound { OnOk result (IsNodeSound state.new) }
    ensures fits { IfOk result IsNodeOut }
{
    let was = running(state, at.c);
    match state.conns.on_offer(alloc, at.c, at.epoch, parts)? {
        Adopt::New => {
            let Some(endpoint) = state.conns.take(at.c, at.epoch) else {
                unreachable!()
            };
            return adopt(state, alloc, setting, at, was, endpoint, parts);
        }
        Adopt::Again => return Ok(say(alloc, taken(alloc, at)?)),
        Adopt::Stale => return Ok(nothing(alloc)),
        Adopt::Refuse => return refuse(state, alloc, at, was),
    }
}

/// The front end is told that the node refuses the connection; the table knows it. Without memory the state is of no use any
/// more but to be spent.
fn refuse(state: &mut NodeState, alloc: Global, at: &At, was: Flags) -> Result<Out, NoMemory>
    requires few { length state.old.disk < 2 ^ 31 }
    ensures told { IfOk result (λ out. (state.new, out) ≡ told_at state.old at.now was (node_saying ((Place.Front, message at.now.c at.now.epoch.0 Body.Refused) ∷ []))) }
    ensures fits { IfOk result IsNodeOut }
{
    let messages = refused(alloc, at)?;
    tell_turn(state, alloc, at, was, saying(alloc, messages))
}

/// The stay of an endpoint that was just adopted of these parts begins: Taken is the first of its messages.
fn adopt(
    state: &mut NodeState,
    alloc: Global,
    setting: &Setting<'_>,
    at: &At,
    was: Flags,
    endpoint: Endpoint,
    parts: &EndpointParts,
) -> Result<Out, NoMemory>
    requires out { back_may_put (table.get state.old.conns.rows at.now.c) ≡ true }
    requires adopted { endpoint ≡ adopted parts.now }
    requires valid { IsValidParts parts.now }
    requires stream { setting.now.stream ≤ MAX_STREAM_BYTES }
    requires few { length state.old.disk < 2 ^ 31 }
    ensures gone { IfOk result (λ out. let env = node_env_of (node_setting_seen setting.now) state.old at.now in let w = goes_on env (state_of (reads_batch env true (node_begins env parts.now))) in
        IsGone state.old at.now was (taken_sent env) w (serving_settled env.serve w.service) state.new out) }
    ensures fits { IfOk result IsNodeOut }
{
    let (ending, done) = enter(alloc, setting, at, state, endpoint, parts);
    let rested = put_back(&mut state.conns, at.c, ending);
    let before = taken(alloc, at)?;
    close(state, alloc, at, was, before, rested, done?)
}

/// The first batch is read and the stay goes on, with the endpoint in hand, which comes back in each case.
fn enter(
    alloc: Global,
    setting: &Setting<'_>,
    at: &At,
    state: &NodeState,
    mut endpoint: Endpoint,
    parts: &EndpointParts,
) -> (Ending, Result<Done, NoMemory>)
    requires adopted { endpoint ≡ adopted parts.now }
    requires valid { IsValidParts parts.now }
    requires stream { setting.now.stream ≤ MAX_STREAM_BYTES }
    requires few { length state.now.disk < 2 ^ 31 }
    ensures done { IfOk result.1 (λ done. let env = node_env_of (node_setting_seen setting.now) state.now at.now in let w = goes_on env (state_of (reads_batch env true (node_begins env parts.now))) in
        IsDone w (serving_settled env.serve w.service) result.0 done) }
{
    let env = Env {
        serve: serve(setting, at),
        node: at.n,
        epoch: at.epoch,
        cache: &state.cache,
        queue: state.disk.len(),
        leaving: state.conns.is_leaving(),
    };
    match start(alloc, &env, &mut endpoint, parts) {
        Ok(work) => return settle(alloc, &env.serve, endpoint, work),
        Err(NoMemory) => return (Ending::Here { endpoint, count: 0 }, Err(NoMemory)),
    }
}

/// What is in hand once the first batch was read and the stay went on.
fn start(
    alloc: Global,
    env: &Env<'_>,
    endpoint: &mut Endpoint,
    parts: &EndpointParts,
) -> Result<Work, NoMemory>
    requires adopted { endpoint.old ≡ adopted parts.now }
    requires valid { IsValidParts parts.now }
    requires stream { env.now.serve.stream ≤ MAX_STREAM_BYTES }
    requires few { env.now.queue < 2 ^ 31 }
    ensures work { IfOk result (λ work. let env = stay_env_seen env.now in work_seen endpoint.new work ≡ goes_on env (state_of (reads_batch env true (node_begins env parts.now)))) }
    ensures sound { IfOk result (IsInHandSound endpoint.new) }
    ensures jobs { IfOk result (λ work. length work.jobs ≤ 9) }
{
    let mut work = Work::new(
        alloc,
        Stay {
            served: parts.served,
            batch: Items::new(alloc),
            asks: 0,
        },
    );
    work.service.notes.push(Rec::Took {
        place: Place::Node(env.node),
        c: env.serve.c,
        epoch: env.epoch,
    })?;
    begin(alloc, env, endpoint, &mut work)?;
    Ok(work)
}

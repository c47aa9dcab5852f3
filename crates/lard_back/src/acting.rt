//! What is done to a connection that is here: it is taken out, its rule is followed with all of it in hand, and it is put back.

ghost use Rattle.std.specs.Prelude.{◌≡◌, ◌+◌, ◌^◌, ◌<◌, ◌≤◌, [], length, true, IfOk, OnOk};
ghost use Rattle.std.specs.FinMap as table;
ghost use Rattle.lard_back.specs.Bounds.{AreMessages, AreWants, IsSpelledAsk, IsNodeOut, MayTellEnd};
ghost use Rattle.lard_back.specs.Hand.{work_rest};
ghost use Rattle.lard_back.specs.Place.{HasTurned, IsActed, IsBack, IsDone, IsGone, turn_closed, node_env_of, node_setting_seen, silent_turn, told_at};
ghost use Rattle.lard_back.specs.Sound.{IsNodeSound};
ghost use Rattle.lard_base.specs.declared.limits.TheConstants.{MAX_STREAM_BYTES};
ghost use Rattle.lard_endpoint.specs.Arriving.{on_segment};
ghost use Rattle.lard_endpoint.specs.Control.{ControlBlock};
ghost use Rattle.lard_handoff_back.specs.Back.{back_may_put};
ghost use Rattle.lard_endpoint.specs.Moving.{may_freeze};
ghost use Rattle.lard_rules.specs.Node.{may_give_back, work_of};
ghost use Rattle.lard_rules.specs.Stay.{came_for, come_progress, goes_on, read_progress, tagged};
ghost use Rattle.lard_rules.specs.Serving.{serving_settled};
ghost use Rattle.lard_rules.specs.Speaking.{AreShort};
ghost use Rattle.lard_segment.specs.Segment.{said};
ghost use Rattle.lard_serving.specs.Bounds.{IsTurn};
ghost use Rattle.lard_serving.specs.Serving.{env_seen, service_of};
ghost use Rattle.lard_stay.specs.Work.{IsInHandSound, work_seen};

use crate::hand::{At, Rest, Rested, hand_back, leave, put_back, take_out};
use crate::stores::tell;
use crate::timers::{Flags, changes, running};
use lard_base::{NoMemory, NodeId, Place, Sends};
use lard_endpoint::Endpoint;
use lard_files::Files;
use lard_rules::{Ending, NodeState, NodeTurn, Out, Turn};
use lard_segment::Segment;
use lard_serving::{Service, nothing, settled};
use lard_stay::{Env, Work, come, complete, go_on, is_to_read, tag};
use std::alloc::Global;

/// What never changes in a run.
#[derive(Clone, Copy)]
pub struct Setting<'a> {
    /// The node's number.
    pub n: NodeId,
    pub files: &'a Files,
    /// The most bytes of responses on one connection.
    pub stream: u32,
}

/// What a turn leaves beside its endpoint.
#[derive(Debug, Drop)]
pub struct Done {
    pub turn: Turn,
    pub rest: Rest,
}

/// A segment of the client comes to a connection, where it is here in this epoch; its timers ran so before the step.
/// Without memory the state is of no use any more but to be spent.
pub fn hear(
    state: &mut NodeState,
    alloc: Global,
    setting: &Setting<'_>,
    at: &At,
    was: Flags,
    segment: &Segment<'_>,
) -> Result<Out, NoMemory>
    requires node { at.now.n ≡ setting.now.n }
    requires sound { IsNodeSound state.old }
    requires stream { setting.now.stream ≤ MAX_STREAM_BYTES }
    requires few { length state.old.disk < 2 ^ 31 }
    ensures acted { IfOk result (λ out. IsActed (node_setting_seen setting.now) state.old at.now was (λ env x. goes_on env (work_of (on_segment x.0 (said segment.now)).1 x.1)) state.new out) }
    ensures fits { IfOk result IsNodeOut }
{
    let Some((mut endpoint, stay)) = take_out(state, at.c, at.epoch) else {
        return Ok(nothing(alloc));
    };
    let _arrival = endpoint.arrive(segment);
    let work = Work::new(alloc, stay);
    go(state, alloc, setting, at, was, endpoint, work)
}

/// The nodes of its Ask come to a connection, where it is here in this epoch. Without memory the state is of no use any
/// more but to be spent.
pub fn assign(
    state: &mut NodeState,
    alloc: Global,
    setting: &Setting<'_>,
    at: &At,
    was: Flags,
    nodes: &[NodeId],
) -> Result<Out, NoMemory>
    requires node { at.now.n ≡ setting.now.n }
    requires sound { IsNodeSound state.old }
    requires stream { setting.now.stream ≤ MAX_STREAM_BYTES }
    requires few { length state.old.disk < 2 ^ 31 }
    ensures acted { IfOk result (λ out. IsActed (node_setting_seen setting.now) state.old at.now was (λ env x. goes_on env (tagged env nodes.now (work_of x.0 x.1))) state.new out) }
    ensures fits { IfOk result IsNodeOut }
{
    let Some((endpoint, stay)) = take_out(state, at.c, at.epoch) else {
        return Ok(nothing(alloc));
    };
    let work = Work::new(alloc, stay);
    match start(alloc, setting, at, state, &endpoint, work, nodes) {
        Ok(work) => return go(state, alloc, setting, at, was, endpoint, work),
        Err(NoMemory) => {
            let _ = put_back(&mut state.conns, at.c, Ending::Here { endpoint, count: 0 });
            return Err(NoMemory);
        }
    }
}

/// What is in hand of a stay once the nodes of its Ask came.
fn start(
    alloc: Global,
    setting: &Setting<'_>,
    at: &At,
    state: &NodeState,
    endpoint: &Endpoint,
    mut work: Work,
    nodes: &[NodeId],
) -> Result<Work, NoMemory>
    requires sound { IsInHandSound endpoint.now work }
    requires jobs { length work.jobs ≤ 0 }
    ensures work { IfOk result (λ started. work_seen endpoint.now started ≡ tagged (node_env_of (node_setting_seen setting.now) state.now at.now) nodes.now (work_seen endpoint.now work)) }
    ensures sound { IfOk result (IsInHandSound endpoint.now) }
    ensures jobs { IfOk result (λ started. length started.jobs ≤ 8) }
{
    let env = Env {
        serve: serve(setting, at),
        node: at.n,
        epoch: at.epoch,
        cache: &state.cache,
        queue: state.disk.len(),
        leaving: state.conns.is_leaving(),
    };
    tag(alloc, &env, endpoint, &mut work, nodes)?;
    Ok(work)
}

/// A content comes from a node for a request of a connection, where it is here in this epoch. Without memory the state
/// is of no use any more but to be spent.
pub fn bring(
    state: &mut NodeState,
    alloc: Global,
    setting: &Setting<'_>,
    at: &At,
    was: Flags,
    from: NodeId,
    r: u32,
) -> Result<Out, NoMemory>
    requires node { at.now.n ≡ setting.now.n }
    requires sound { IsNodeSound state.old }
    requires stream { setting.now.stream ≤ MAX_STREAM_BYTES }
    requires few { length state.old.disk < 2 ^ 31 }
    ensures acted { IfOk result (λ out. IsActed (node_setting_seen setting.now) state.old at.now was (λ env x. goes_on env (came_for (come_progress from) r (work_of x.0 x.1))) state.new out) }
    ensures fits { IfOk result IsNodeOut }
{
    let Some((endpoint, stay)) = take_out(state, at.c, at.epoch) else {
        return Ok(nothing(alloc));
    };
    let mut work = Work::new(alloc, stay);
    come(alloc, &mut work, from, r);
    go(state, alloc, setting, at, was, endpoint, work)
}

/// A job of the node's disk was completed for a request of a connection, where it is here in this epoch. Without memory
/// the state is of no use any more but to be spent.
pub fn read(
    state: &mut NodeState,
    alloc: Global,
    setting: &Setting<'_>,
    at: &At,
    was: Flags,
    r: u32,
) -> Result<Out, NoMemory>
    requires node { at.now.n ≡ setting.now.n }
    requires sound { IsNodeSound state.old }
    requires stream { setting.now.stream ≤ MAX_STREAM_BYTES }
    requires few { length state.old.disk < 2 ^ 31 }
    ensures acted { IfOk result (λ out. IsActed (node_setting_seen setting.now) state.old at.now was (λ env x. goes_on env (came_for read_progress r (work_of x.0 x.1))) state.new out) }
    ensures fits { IfOk result IsNodeOut }
{
    let Some((endpoint, stay)) = take_out(state, at.c, at.epoch) else {
        return Ok(nothing(alloc));
    };
    let mut work = Work::new(alloc, stay);
    complete(alloc, &mut work, r);
    go(state, alloc, setting, at, was, endpoint, work)
}

/// A stay goes on from what is in hand: its connection goes back, or all of it is put back, the endpoint also where memory
/// did not suffice for that.
fn go(
    state: &mut NodeState,
    alloc: Global,
    setting: &Setting<'_>,
    at: &At,
    was: Flags,
    mut endpoint: Endpoint,
    mut work: Work,
) -> Result<Out, NoMemory>
    requires out { back_may_put (table.get state.old.conns.rows at.now.c) ≡ true }
    requires sound { IsInHandSound endpoint work }
    requires jobs { length work.jobs ≤ 8 }
    requires stream { setting.now.stream ≤ MAX_STREAM_BYTES }
    requires few { length state.old.disk < 2 ^ 31 }
    ensures turned { IfOk result (λ out. let env = node_env_of (node_setting_seen setting.now) state.old at.now in let w = goes_on env (work_seen endpoint work) in HasTurned (may_give_back env w) env.serve state.old at.now was w state.new out) }
    ensures fits { IfOk result IsNodeOut }
{
    match follow(alloc, setting, at, state, &mut endpoint, &mut work) {
        Ok(back) => {
            if back {
                return give(state, alloc, at, was, endpoint, work);
            }
            return keep(state, alloc, setting, at, was, endpoint, work);
        }
        Err(NoMemory) => {
            let _ = put_back(&mut state.conns, at.c, Ending::Here { endpoint, count: 0 });
            return Err(NoMemory);
        }
    }
}

/// What serving rests on.
pub fn serve<'a>(setting: &Setting<'a>, at: &At) -> lard_serving::Env<'a>
    ensures { result ≡ record { place = Place.Node at.now.n; c = at.now.c; files = setting.now.files; stream = setting.now.stream } }
{
    lard_serving::Env {
        place: Place::Node(at.n),
        c: at.c,
        files: setting.files,
        stream: setting.stream,
    }
}

/// A stay goes on with the endpoint in hand. The answer is whether its connection goes back to the front end: the node
/// leaves, a batch is to be read, and the endpoint may be frozen.
fn follow(
    alloc: Global,
    setting: &Setting<'_>,
    at: &At,
    state: &NodeState,
    endpoint: &mut Endpoint,
    work: &mut Work,
) -> Result<bool, NoMemory>
    requires sound { IsInHandSound endpoint.old work.old }
    requires jobs { length work.old.jobs ≤ 8 }
    requires stream { setting.now.stream ≤ MAX_STREAM_BYTES }
    requires few { length state.now.disk < 2 ^ 31 }
    ensures turns { OnOk result (work_seen endpoint.new work.new ≡ goes_on (node_env_of (node_setting_seen setting.now) state.now at.now) (work_seen endpoint.old work.old)) }
    ensures back { IfOk result (λ back. back ≡ may_give_back (node_env_of (node_setting_seen setting.now) state.now at.now) (work_seen endpoint.new work.new)) }
    ensures sound { OnOk result (IsInHandSound endpoint.new work.new) }
    ensures jobs { OnOk result (length work.new.jobs ≤ 8) }
{
    let env = Env {
        serve: serve(setting, at),
        node: at.n,
        epoch: at.epoch,
        cache: &state.cache,
        queue: state.disk.len(),
        leaving: state.conns.is_leaving(),
    };
    go_on(alloc, &env, endpoint, work)?;
    if !env.leaving {
        return Ok(false);
    }
    Ok(is_to_read(endpoint, work) && endpoint.can_freeze())
}

/// The endpoint says what it may, and all that was in hand is put back.
fn keep(
    state: &mut NodeState,
    alloc: Global,
    setting: &Setting<'_>,
    at: &At,
    was: Flags,
    endpoint: Endpoint,
    work: Work,
) -> Result<Out, NoMemory>
    requires out { back_may_put (table.get state.old.conns.rows at.now.c) ≡ true }
    requires sound { IsInHandSound endpoint work }
    requires jobs { length work.jobs ≤ 8 }
    requires few { length state.old.disk < 2 ^ 31 }
    ensures gone { IfOk result (λ out. let w = work_seen endpoint work in IsGone state.old at.now was [] w (serving_settled (node_env_of (node_setting_seen setting.now) state.old at.now).serve w.service) state.new out) }
    ensures fits { IfOk result IsNodeOut }
{
    let (ending, done) = settle(alloc, &serve(setting, at), endpoint, work);
    let rested = put_back(&mut state.conns, at.c, ending);
    close(state, alloc, at, was, Sends::new(alloc), rested, done?)
}

/// The connection goes back to the front end before its endpoint says anything. Without memory the state is of no use any
/// more but to be spent.
fn give(
    state: &mut NodeState,
    alloc: Global,
    at: &At,
    was: Flags,
    endpoint: Endpoint,
    work: Work,
) -> Result<Out, NoMemory>
    requires out { back_may_put (table.get state.old.conns.rows at.now.c) ≡ true }
    requires leaves { state.old.conns.leaving ≡ true }
    requires still { may_freeze endpoint ≡ true }
    requires sound { IsInHandSound endpoint work }
    requires jobs { length work.jobs ≤ 8 }
    requires few { length state.old.disk < 2 ^ 31 }
    ensures back { IfOk result (λ out. IsBack state.old at.now was (work_seen endpoint work) state.new out) }
    ensures fits { IfOk result IsNodeOut }
{
    endpoint.law();
    let (service, rest) = apart(work);
    let count = service.count;
    let given = hand_back(&mut state.conns, alloc, at.c, endpoint, count)?;
    let done = Done {
        turn: silent(alloc, service),
        rest,
    };
    close(
        state,
        alloc,
        at,
        was,
        Sends::new(alloc),
        Rested::Back(given),
        done,
    )
}

/// The turn of what was served, in which the endpoint says nothing.
fn silent(alloc: Global, service: Service) -> Turn
    requires { service.answered ≤ MAX_STREAM_BYTES }
    ensures turn { (b : ControlBlock) → result ≡ silent_turn (service_of b service) }
    ensures fits { IsTurn result }
{
    let Service {
        count: _,
        notes,
        answered,
        over: _,
    } = service;
    Turn {
        notes,
        segments: Sends::new(alloc),
        answered,
    }
}

/// The endpoint says what it may, and ends where it may or has to. `NoMemory` in the place of what the turn leaves
/// where memory runs out.
pub fn settle(
    alloc: Global,
    env: &lard_serving::Env<'_>,
    endpoint: Endpoint,
    work: Work,
) -> (Ending, Result<Done, NoMemory>)
    requires sound { IsInHandSound endpoint work }
    requires jobs { length work.jobs ≤ 9 }
    ensures done { IfOk result.1 (λ done. IsDone (work_seen endpoint work) (serving_settled (env_seen env.now) (work_seen endpoint work).service) result.0 done) }
{
    let (service, rest) = apart(work);
    let (ending, turn) = settled(alloc, env, endpoint, service);
    match turn {
        Ok(turn) => return (ending, Ok(Done { turn, rest })),
        Err(NoMemory) => return (ending, Err(NoMemory)),
    }
}

/// What was served, and what is left of a turn beside it.
pub fn apart(work: Work) -> (Service, Rest)
    ensures service { result.0 ≡ work.service }
    ensures rest { (b : ControlBlock) → result.1 ≡ work_rest (work_seen b work) }
{
    let Work {
        service,
        batch,
        asks,
        jobs,
        wants,
        asked,
    } = work;
    let over = service.over;
    let rest = Rest {
        batch,
        asks,
        jobs,
        wants,
        asked,
        over,
    };
    (service, rest)
}

/// The end of a turn, once the endpoint is back. Without memory the state is of no use any more but to be spent.
pub fn close(
    state: &mut NodeState,
    alloc: Global,
    at: &At,
    was: Flags,
    before: Sends,
    rested: Rested,
    done: Done,
) -> Result<Out, NoMemory>
    requires fit { AreMessages before }
    requires asked { IsSpelledAsk done.rest.asked }
    requires wants { AreWants done.rest.wants }
    requires count { MayTellEnd rested done.rest.over }
    requires fits { IsTurn done.turn }
    requires few { length state.old.disk + length done.rest.jobs < 2 ^ 32 }
    ensures ok { IfOk result (λ out. (state.new, out) ≡ turn_closed state.old at.now was before done.rest rested done.turn) }
    ensures fits { IfOk result IsNodeOut }
{
    let Done { turn, rest } = done;
    let told = leave(state, alloc, at, before, rest, rested, turn)?;
    tell_turn(state, alloc, at, was, told)
}

/// The cache and the disk are told what a turn did, and it goes out. Without memory the state is of no use any more but
/// to be spent.
pub fn tell_turn(
    state: &mut NodeState,
    alloc: Global,
    at: &At,
    was: Flags,
    turn: NodeTurn,
) -> Result<Out, NoMemory>
    requires few { length state.old.disk + length turn.jobs < 2 ^ 32 }
    requires short { AreShort turn.segments }
    requires packets { length turn.segments ≤ 2 ^ 31 }
    requires counted { turn.answered ≤ MAX_STREAM_BYTES }
    requires fit { AreMessages turn.messages }
    ensures ok { IfOk result (λ out. (state.new, out) ≡ told_at state.old at.now was turn) }
    ensures fits { IfOk result IsNodeOut }
{
    let is = running(state, at.c);
    let timers = changes(alloc, at.n, at.c, was, is)?;
    let NodeTurn {
        notes,
        segments,
        gave,
        messages,
        jobs,
        answered,
    } = turn;
    tell(state, &notes, jobs)?;
    Ok(Out {
        notes,
        segments,
        gave,
        messages,
        timers,
        answered,
    })
}

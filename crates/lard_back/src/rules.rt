//! The rules of a node over one connection.

ghost use Rattle.std.specs.Prelude.{◌≡◌, ◌^◌, ◌<◌, ◌≤◌, length, IfOk, OnOk};
ghost use Rattle.std.specs.FinMap as table;
ghost use Rattle.lard_back.specs.Bounds.{IsNodeOut};
ghost use Rattle.lard_back.specs.Place.{node_setting_seen};
ghost use Rattle.lard_back.specs.Awaiting.{awaits, awaits_answer};
ghost use Rattle.lard_back.specs.Sound.{IsNodeSound};
ghost use Rattle.lard_base.specs.declared.limits.TheConstants.{MAX_SEGMENT_BYTES, MAX_STREAM_BYTES};
ghost use Rattle.lard_handoff_back.specs.Back.{back_acknowledged};
ghost use Rattle.lard_rules.specs.Node.{here, node_acknowledged, node_content, node_forwarded, node_read, node_tagged, node_saying, told_kind};
ghost use Rattle.lard_rules.specs.NodePlace.{NodeSetting, node_deed, node_env, node_part};
ghost use Rattle.lard_segment.specs.Segment.{decoded};

use crate::acting::{Setting, assign, bring, hear, read, tell_turn};
use crate::hand::{At, is_here};
use crate::timers::running;
use lard_base::{ConnId, Items, NoMemory, NodeId, Sends, TimerKind};
use lard_handoff_back::BackTable;
use lard_journal::Recs;
use lard_resend::PendingKey;
use lard_rules::{NodeState, NodeTurn, Out};
use lard_segment::{Dir, decode};
use lard_serving::nothing;
use lard_stay::count_named;
use std::alloc::Global;

/// A segment that the front end forwarded comes, of at most 1,520 bytes. What does not decode is dropped. Without
/// memory the state is of no use any more but to be spent.
pub fn forward(
    state: &mut NodeState,
    alloc: Global,
    setting: &Setting<'_>,
    at: &At,
    bytes: &[u8],
) -> Result<Out, NoMemory>
    requires node { at.now.n ≡ setting.now.n }
    requires sound { IsNodeSound state.old }
    requires stream { setting.now.stream ≤ MAX_STREAM_BYTES }
    requires few { length state.old.disk < 2 ^ 31 }
    requires short { length bytes.now ≤ MAX_SEGMENT_BYTES }
    ensures ok { IfOk result (λ out. let k = node_setting_seen setting.now in (state.new, out) ≡ node_deed k state.old at.now.c (node_forwarded (node_env k state.old at.now.c at.now.epoch.0) (node_part state.old at.now.c) (decoded bytes.now at.now.c Dir.ToCluster))) }
    ensures sound { OnOk result (IsNodeSound state.new) }
    ensures fits { IfOk result IsNodeOut }
{
    let was = running(state, at.c);
    match decode(bytes, at.c, Dir::ToCluster) {
        Ok(segment) => return hear(state, alloc, setting, at, was, &segment),
        Err(_) => return Ok(nothing(alloc)),
    }
}

/// A Tag comes. It counts where an Ask is awaited, has that number, and has a node for each of its paths. Without
/// memory the state is of no use any more but to be spent.
pub fn tagged(
    state: &mut NodeState,
    alloc: Global,
    setting: &Setting<'_>,
    at: &At,
    number: u32,
    nodes: &[NodeId],
) -> Result<Out, NoMemory>
    requires node { at.now.n ≡ setting.now.n }
    requires sound { IsNodeSound state.old }
    requires stream { setting.now.stream ≤ MAX_STREAM_BYTES }
    requires few { length state.old.disk < 2 ^ 31 }
    ensures ok { IfOk result (λ out. let k = node_setting_seen setting.now in (state.new, out) ≡ node_deed k state.old at.now.c (node_tagged (node_env k state.old at.now.c at.now.epoch.0) (node_part state.old at.now.c) number nodes.now)) }
    ensures sound { OnOk result (IsNodeSound state.new) }
    ensures fits { IfOk result IsNodeOut }
{
    let was = running(state, at.c);
    if !awaits(state, setting, at, number, nodes) {
        return Ok(nothing(alloc));
    }
    let _ = state.kept.settle(ask_of(at.c));
    assign(state, alloc, setting, at, was, nodes)
}

/// The key of a connection's Ask.
fn ask_of(c: ConnId) -> PendingKey
    ensures { result ≡ record { c = c; kind = TimerKind.Ask; r = 0 } }
{
    let kind = TimerKind::Ask;
    PendingKey { c, kind, r: 0 }
}

/// Whether a Tag with this number and these nodes is awaited.
fn awaits(state: &NodeState, setting: &Setting<'_>, at: &At, number: u32, nodes: &[NodeId]) -> bool
    requires node { at.now.n ≡ setting.now.n }
    ensures { result ≡ awaits (node_setting_seen setting.now) state.now at.now number nodes.now (here at.now.epoch.0 (node_part state.now at.now.c)) }
{
    if !is_here(state, at.c, at.epoch) {
        return false;
    }
    let Some(stay) = state.stays.get(at.c.number()) else {
        return false;
    };
    state.kept.holds(&ask_of(at.c))
        && stay.asks == number
        && nodes.len() == count_named(setting.files, stay.batch.as_slice())
}

/// A content comes. It counts where it is awaited from this node, once. Without memory the state is of no use any more
/// but to be spent.
pub fn content(
    state: &mut NodeState,
    alloc: Global,
    setting: &Setting<'_>,
    at: &At,
    from: NodeId,
    r: u32,
) -> Result<Out, NoMemory>
    requires node { at.now.n ≡ setting.now.n }
    requires sound { IsNodeSound state.old }
    requires stream { setting.now.stream ≤ MAX_STREAM_BYTES }
    requires few { length state.old.disk < 2 ^ 31 }
    ensures ok { IfOk result (λ out. let k = node_setting_seen setting.now in (state.new, out) ≡ node_deed k state.old at.now.c (node_content (node_env k state.old at.now.c at.now.epoch.0) (node_part state.old at.now.c) from r)) }
    ensures sound { OnOk result (IsNodeSound state.new) }
    ensures fits { IfOk result IsNodeOut }
{
    let was = running(state, at.c);
    if !is_here(state, at.c, at.epoch) {
        return Ok(nothing(alloc));
    }
    if !state.fetches.on_content(from, at.c, at.epoch, r) {
        return Ok(nothing(alloc));
    }
    bring(state, alloc, setting, at, was, from, r)
}

/// A job of this node's disk was completed for a request of its own. Without memory the state is of no use any more but
/// to be spent.
pub fn completed(
    state: &mut NodeState,
    alloc: Global,
    setting: &Setting<'_>,
    at: &At,
    r: u32,
) -> Result<Out, NoMemory>
    requires node { at.now.n ≡ setting.now.n }
    requires sound { IsNodeSound state.old }
    requires stream { setting.now.stream ≤ MAX_STREAM_BYTES }
    requires few { length state.old.disk < 2 ^ 31 }
    ensures ok { IfOk result (λ out. let k = node_setting_seen setting.now in (state.new, out) ≡ node_deed k state.old at.now.c (node_read (node_env k state.old at.now.c at.now.epoch.0) (node_part state.old at.now.c) r)) }
    ensures sound { OnOk result (IsNodeSound state.new) }
    ensures fits { IfOk result IsNodeOut }
{
    let was = running(state, at.c);
    read(state, alloc, setting, at, was, r)
}

/// An EndedAck comes, or a Given (`back`): where it is awaited in this epoch, what told that the stay is over is told no
/// longer. Without memory the state is of no use any more but to be spent.
pub fn acknowledged(
    state: &mut NodeState,
    alloc: Global,
    at: &At,
    back: bool,
) -> Result<Out, NoMemory>
    requires sound { IsNodeSound state.old }
    requires few { length state.old.disk < 2 ^ 31 }
    ensures ok { IfOk result (λ out. (k : NodeSetting) → k.n ≡ at.now.n → (state.new, out) ≡ node_deed k state.old at.now.c (node_acknowledged (node_env k state.old at.now.c at.now.epoch.0) back (node_part state.old at.now.c))) }
    ensures sound { OnOk result (IsNodeSound state.new) }
    ensures fits { IfOk result IsNodeOut }
{
    let was = running(state, at.c);
    if !is_awaited(&mut state.conns, at, back) {
        return Ok(nothing(alloc));
    }
    let kind = told_kind(back);
    let _ = state.kept.settle(PendingKey {
        c: at.c,
        kind,
        r: 0,
    });
    tell_turn(state, alloc, at, was, saying(alloc, Sends::new(alloc)))
}

/// Whether an EndedAck, or a Given, is awaited in this epoch; it is no longer.
fn is_awaited(conns: &mut BackTable, at: &At, back: bool) -> bool
    ensures value { result ≡ awaits_answer back at.now.epoch.0 conns.old at.now.c }
    ensures after { conns.new ≡ record conns.old { rows = back_acknowledged conns.old.rows at.now.c (table.get conns.old.rows at.now.c) (awaits_answer back at.now.epoch.0 conns.old at.now.c) } }
{
    if back {
        return conns.on_given(at.c, at.epoch);
    }
    conns.on_ended_ack(at.c, at.epoch)
}

/// What tells that a stay is over: its Ended, or the Give of a connection that went back.
fn told_kind(back: bool) -> TimerKind
    ensures { result ≡ told_kind back }
{
    if back {
        return TimerKind::Give;
    }
    TimerKind::Ended
}

/// A turn in which these messages go out, and nothing is noted or queued.
pub fn saying(alloc: Global, messages: Sends) -> NodeTurn
    ensures { result ≡ node_saying messages }
{
    NodeTurn {
        notes: Recs::new(alloc),
        segments: Sends::new(alloc),
        gave: Recs::new(alloc),
        messages,
        jobs: Items::new(alloc),
        answered: 0,
    }
}

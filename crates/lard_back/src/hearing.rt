//! A message comes to a node: each kind counts from the place that sends it, any other is dropped.

ghost use Rattle.std.specs.Prelude.{◌≡◌, ◌^◌, ◌<◌, ◌≤◌, length, Err, IfOk, OnOk, Result};
ghost use Rattle.lard_back.specs.Bounds.{IsNodeOut};
ghost use Rattle.lard_back.specs.Place.{node_setting_seen};
ghost use Rattle.lard_back.specs.Sound.{IsNodeSound};
ghost use Rattle.lard_base.specs.declared.limits.TheConstants.{MAX_STREAM_BYTES};
ghost use Rattle.lard_message.specs.declared.fault.MsgFault as the_fault;
ghost use Rattle.lard_message.specs.declared.message.Message as the_message;
ghost use Rattle.lard_message.specs.Message.{IsOfTable};
ghost use Rattle.lard_message.specs.Reading.{GivesMessage, decoded_message};
ghost use Rattle.lard_rules.specs.NodePlace.{node_gets, node_hears};
ghost use Rattle.lard_rules.specs.Outs.{nothing_done};

use crate::acting::Setting;
use crate::hand::At;
use crate::offers::offered;
use crate::rules::{acknowledged, content, forward, tagged};
use crate::stores::fetch;
use lard_base::{NoMemory, NodeId, Place};
use lard_message::{Body, Message, MsgFault, decode};
use lard_rules::{NodeState, Out};
use lard_serving::nothing;
use std::alloc::Global;

/// The bytes of a message come from a place. What does not decode is dropped. Without memory the state is of no use any
/// more but to be spent.
pub fn get(
    state: &mut NodeState,
    alloc: Global,
    setting: &Setting<'_>,
    from: Place,
    bytes: &[u8],
) -> Result<Out, NoMemory>
    requires sound { IsNodeSound state.old }
    requires stream { setting.now.stream ≤ MAX_STREAM_BYTES }
    requires few { length state.old.disk < 2 ^ 31 }
    ensures ok { IfOk result (λ out. (state.new, out) ≡ node_gets (node_setting_seen setting.now) state.old from (decoded_message bytes.now)) }
    ensures sound { OnOk result (IsNodeSound state.new) }
    ensures fits { IfOk result IsNodeOut }
{
    match decode(alloc, bytes) {
        Ok(message) => return hear(state, alloc, setting, from, message),
        Err(fault) => return unread(alloc, fault),
    }
}

/// Bytes that are no message do nothing; where memory ran out it is not known what they are.
fn unread(alloc: Global, fault: MsgFault) -> Result<Out, NoMemory>
    ensures out { IfOk result (λ out. out ≡ nothing_done) }
    ensures none { OnOk result ((given : Result the_message.Message the_fault.MsgFault) → GivesMessage (Err fault) given → given ≡ Err fault) }
    ensures fits { IfOk result IsNodeOut }
{
    match fault {
        MsgFault::NoMemory => return Err(NoMemory),
        MsgFault::Short => return Ok(nothing(alloc)),
        MsgFault::Version => return Ok(nothing(alloc)),
        MsgFault::Kind => return Ok(nothing(alloc)),
        MsgFault::Length => return Ok(nothing(alloc)),
        MsgFault::Trailing => return Ok(nothing(alloc)),
        MsgFault::Field => return Ok(nothing(alloc)),
    }
}

/// A message comes from a place. No client sends one.
fn hear(
    state: &mut NodeState,
    alloc: Global,
    setting: &Setting<'_>,
    from: Place,
    message: Message,
) -> Result<Out, NoMemory>
    requires sound { IsNodeSound state.old }
    requires stream { setting.now.stream ≤ MAX_STREAM_BYTES }
    requires few { length state.old.disk < 2 ^ 31 }
    requires table { IsOfTable message.body }
    ensures ok { IfOk result (λ out. (state.new, out) ≡ node_hears (node_setting_seen setting.now) state.old from message.c message.epoch.0 message.body) }
    ensures sound { OnOk result (IsNodeSound state.new) }
    ensures fits { IfOk result IsNodeOut }
{
    let Message { c, epoch, body } = message;
    let at = At {
        n: setting.n,
        c,
        epoch,
    };
    match from {
        Place::Front => return hear_front(state, alloc, setting, &at, body),
        Place::Node(node) => return hear_node(state, alloc, setting, node, &at, body),
        Place::Client(_) => return Ok(nothing(alloc)),
    }
}

/// What the front end says of a connection.
fn hear_front(
    state: &mut NodeState,
    alloc: Global,
    setting: &Setting<'_>,
    at: &At,
    body: Body,
) -> Result<Out, NoMemory>
    requires node { at.now.n ≡ setting.now.n }
    requires sound { IsNodeSound state.old }
    requires stream { setting.now.stream ≤ MAX_STREAM_BYTES }
    requires few { length state.old.disk < 2 ^ 31 }
    requires table { IsOfTable body }
    ensures ok { IfOk result (λ out. (state.new, out) ≡ node_hears (node_setting_seen setting.now) state.old Place.Front at.now.c at.now.epoch.0 body) }
    ensures sound { OnOk result (IsNodeSound state.new) }
    ensures fits { IfOk result IsNodeOut }
{
    match body {
        Body::Offer(parts) => return offered(state, alloc, setting, at, &parts),
        Body::Taken => return Ok(nothing(alloc)),
        Body::Forward(bytes) => return forward(state, alloc, setting, at, bytes.as_slice()),
        Body::Ask { .. } => return Ok(nothing(alloc)),
        Body::Tag { number, nodes } => {
            return tagged(state, alloc, setting, at, number, nodes.as_slice());
        }
        Body::Fetch { .. } => return Ok(nothing(alloc)),
        Body::Content { .. } => return Ok(nothing(alloc)),
        Body::Ended { .. } => return Ok(nothing(alloc)),
        Body::EndedAck => return acknowledged(state, alloc, at, false),
        Body::Refused => return Ok(nothing(alloc)),
        Body::Give(_) => return Ok(nothing(alloc)),
        Body::Given => return acknowledged(state, alloc, at, true),
    }
}

/// What another node says of a connection.
fn hear_node(
    state: &mut NodeState,
    alloc: Global,
    setting: &Setting<'_>,
    from: NodeId,
    at: &At,
    body: Body,
) -> Result<Out, NoMemory>
    requires node { at.now.n ≡ setting.now.n }
    requires sound { IsNodeSound state.old }
    requires stream { setting.now.stream ≤ MAX_STREAM_BYTES }
    requires few { length state.old.disk < 2 ^ 31 }
    ensures ok { IfOk result (λ out. (state.new, out) ≡ node_hears (node_setting_seen setting.now) state.old (Place.Node from) at.now.c at.now.epoch.0 body) }
    ensures sound { OnOk result (IsNodeSound state.new) }
    ensures fits { IfOk result IsNodeOut }
{
    match body {
        Body::Offer(_) => return Ok(nothing(alloc)),
        Body::Taken => return Ok(nothing(alloc)),
        Body::Forward(_) => return Ok(nothing(alloc)),
        Body::Ask { .. } => return Ok(nothing(alloc)),
        Body::Tag { .. } => return Ok(nothing(alloc)),
        Body::Fetch { r, path } => return fetch(state, alloc, setting, from, at, r, path),
        Body::Content { r, bytes: _ } => return content(state, alloc, setting, at, from, r),
        Body::Ended { .. } => return Ok(nothing(alloc)),
        Body::EndedAck => return Ok(nothing(alloc)),
        Body::Refused => return Ok(nothing(alloc)),
        Body::Give(_) => return Ok(nothing(alloc)),
        Body::Given => return Ok(nothing(alloc)),
    }
}

//! What the front end says to nodes of a connection that is away, and what it takes of their answer to an Offer.

ghost use Rattle.std.specs.Prelude.{◌≡◌, ◌≤◌, ℕ, [], IfOk, length, Some};
ghost use Rattle.std.specs.FinMap as table;
ghost use Rattle.lard_base.specs.declared.limits.TheConstants.{MAX_SEGMENT_BYTES};
ghost use Rattle.lard_rules.specs.Front.{front_taken};
ghost use Rattle.lard_rules.specs.FrontPlace.{front_part};
ghost use Rattle.lard_front.specs.Bounds.{IsFrontTurn};
ghost use Rattle.lard_front.specs.Hand.{deed_turn};
ghost use Rattle.lard_front.specs.Told.{front_telling};
ghost use Rattle.lard_message.specs.Message.{IsOfTable};

use crate::turns::{saying, silent};
use lard_base::{Bytes, ConnId, Epoch, NoMemory, NodeId, Place, Sends, TimerKind};
use lard_message::{Body, Message, encode};
use lard_resend::PendingKey;
use lard_rules::{FrontState, FrontTurn};
use std::alloc::Global;

/// One message goes to a node, and nothing else is done. `NoMemory` where memory runs out.
pub fn telling(
    alloc: Global,
    c: ConnId,
    epoch: Epoch,
    node: NodeId,
    body: Body,
) -> Result<FrontTurn, NoMemory>
    requires { IsOfTable body }
    ensures turn { IfOk result (λ turn. turn ≡ front_telling c epoch.0 node body) }
    ensures fits { IfOk result IsFrontTurn }
{
    let bytes = encode(alloc, &Message { c, epoch, body })?;
    let mut messages = Sends::new(alloc);
    messages.push((Place::Node(node), bytes))?;
    Ok(saying(alloc, messages))
}

/// A segment of a connection that is away goes to its node, as it came: 20 to 1,520 bytes. `NoMemory` where memory runs
/// out.
pub fn forward(
    alloc: Global,
    c: ConnId,
    epoch: Epoch,
    node: NodeId,
    bytes: &[u8],
) -> Result<FrontTurn, NoMemory>
    requires some { 20 ≤ length bytes.now }
    requires short { length bytes.now ≤ MAX_SEGMENT_BYTES }
    ensures turn { IfOk result (λ turn. turn ≡ front_telling c epoch.0 node (Body.Forward bytes.now)) }
    ensures fits { IfOk result IsFrontTurn }
{
    let copy = Bytes::from_slice(alloc, bytes)?;
    telling(alloc, c, epoch, node, Body::Forward(copy))
}

/// A Taken comes. The connection is moved where its Offer of this epoch has no answer yet, and the Offer is not told again.
pub fn taken(state: &mut FrontState, alloc: Global, c: ConnId, epoch: Epoch) -> FrontTurn
    requires { table.get state.old.kept c ≡ Some [] → ⊥ }
    ensures turn { (state.new, result) ≡ deed_turn state.old c (front_taken (front_part state.old c) epoch.0) }
    ensures fits { IsFrontTurn result }
{
    if !state.conns.on_taken(c, epoch) {
        return silent(alloc);
    }
    let key = PendingKey {
        c,
        kind: TimerKind::Offer,
        r: 0,
    };
    let _ = state.kept.settle(key);
    silent(alloc)
}

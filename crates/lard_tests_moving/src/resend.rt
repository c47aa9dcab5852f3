//! Each call once, with ample memory.

use crate::compare::same;
use lard_base::limits::MAX_MESSAGE_BYTES;
use lard_base::{Bytes, ConnId, NodeId, Place, TimerKind};
use lard_resend::{Pending, PendingKey};
use std::alloc::Global;
use std::process::Abort;

fn conn(rt: &impl Abort, number: u32) -> ConnId {
    ConnId::new(number).expect(rt, "the number of a connection")
}

fn fetch(c: ConnId, r: u32) -> PendingKey {
    PendingKey {
        c,
        kind: TimerKind::Fetch,
        r,
    }
}

/// The key of a message that is the only one of its kind.
fn sole(c: ConnId, kind: TimerKind) -> PendingKey {
    PendingKey { c, kind, r: 0 }
}

/// Holds a message, where nothing is held under its key, and answers whether there was memory for it.
fn hold(pending: &mut Pending, key: PendingKey, to: Place, bytes: Bytes) -> bool {
    if pending.holds(&key) || bytes.len() > MAX_MESSAGE_BYTES {
        return false;
    }
    pending.hold(key, to, bytes).is_ok()
}

/// Holds a message in place of what is held under its key, and answers whether there was memory for it.
fn renew(pending: &mut Pending, key: PendingKey, to: Place, bytes: Bytes) -> bool {
    if bytes.len() > MAX_MESSAGE_BYTES {
        return false;
    }
    pending.renew(key, to, bytes).is_ok()
}

/// The numbers of what is held of a connection, in order.
fn numbers(pending: &Pending, c: ConnId) -> [u32; 4] {
    let mut all = [0; 4];
    for (at, kept) in pending.of(c).iter().enumerate() {
        if at < 4 {
            all[at] = kept.r;
        }
    }
    all
}

/// A message that is to be held.
fn bytes(rt: &impl Abort, alloc: Global, text: &[u8]) -> Bytes {
    Bytes::from_slice(alloc, text).ok().expect(rt, "memory")
}

/// Holds a message of these bytes.
fn holds(
    rt: &impl Abort,
    pending: &mut Pending,
    alloc: Global,
    key: PendingKey,
    to: &Place,
    text: &[u8],
) {
    let held = hold(pending, key, *to, bytes(rt, alloc, text));
    assert!(rt; held);
}

/// Holds three messages of a connection, of which one takes the place of an older one.
fn are_held(rt: &impl Abort, pending: &mut Pending, alloc: Global, one: ConnId, node: &Place) {
    holds(rt, pending, alloc, fetch(one, 7), node, b"seven");
    holds(rt, pending, alloc, fetch(one, 3), &Place::Front, b"older");
    let renewed = renew(pending, fetch(one, 3), *node, bytes(rt, alloc, b"three"));
    assert!(rt; renewed);
    holds(
        rt,
        pending,
        alloc,
        sole(one, TimerKind::Ask),
        &Place::Front,
        b"asked",
    );
}

/// Each is found under its key, and no other.
fn are_found(rt: &impl Abort, pending: &Pending, one: ConnId, node: &Place) {
    same(rt, &numbers(pending, one), &[0, 3, 7, 0]);
    let three = Some((*node, b"three".as_slice()));
    same(rt, &pending.again(fetch(one, 3)), &three);
    let asked = Some((Place::Front, b"asked".as_slice()));
    same(rt, &pending.again(sole(one, TimerKind::Ask)), &asked);
    same(rt, &pending.again(fetch(one, 4)), &None);
    same(rt, &pending.get(&fetch(one, 7)).is_some(), &true);
}

/// What is settled is held no more, and of a connection that is forgotten nothing is.
fn are_settled(rt: &impl Abort, pending: &mut Pending, one: ConnId, two: ConnId) {
    let settled = (
        pending.settle(fetch(one, 3)),
        pending.settle(fetch(one, 3)),
        pending.settle(sole(two, TimerKind::Offer)),
    );
    same(rt, &settled, &(true, false, true));
    let after = (numbers(pending, one), pending.of(two).len());
    same(rt, &after, &([0, 7, 0, 0], 0));
    pending.forget(one);
    same(rt, &pending.of(one).len(), &0);
}

#[test]
fn what_is_held_is_found_in_order(rt: HostRuntime) {
    let (one, two) = (conn(&rt, 1), conn(&rt, 2));
    let node = Place::Node(NodeId::new(2).expect(&rt, "the number of a node"));
    let mut pending = Pending::new(rt.alloc());
    are_held(&rt, &mut pending, rt.alloc(), one, &node);
    let key = sole(two, TimerKind::Offer);
    holds(&rt, &mut pending, rt.alloc(), key, &node, b"offered");
    are_found(&rt, &pending, one, &node);
    are_settled(&rt, &mut pending, one, two);
    pending.finish();
}

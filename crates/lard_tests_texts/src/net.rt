//! Each public call once.

ghost use Rattle.std.specs.Prelude.{◌≡◌, length, IfOk};

use lard_base::limits::MAX_MESSAGE_BYTES;
use lard_base::{Bytes, ConnId, NodeId, Place};
use lard_net::Net;
use std::alloc::{AllocError, Global};
use std::process::Abort;
use std::test::Fail;

#[test]
fn packets_are_numbered_found_and_lost(rt: HostRuntime) -> Result<(), Fail> {
    let alloc = rt.alloc();
    let mut net = Net::new(alloc);
    let Some(c) = ConnId::new(7) else {
        return Err(Fail::new("a number in range"));
    };
    let one = Bytes::from_slice(alloc, b"one")?;
    let three = Bytes::from_slice(alloc, b"three")?;
    let first = net.send(Place::Client(c), Place::Front, one)?;
    let second = net.send(Place::Client(c), Place::Front, three)?;
    assert_eq!(rt; (first, second), (1, 2));
    net.lose(1);
    has_two(&rt, &net);
    are_found(&rt, &net)
}

/// Two packets, and none beside them.
fn has_two(rt: &impl Abort, net: &Net) {
    assert_eq!(rt; net.sent(), 2);
    assert_eq!(rt; net.bytes(), 8);
    assert!(rt; net.get(0).is_none());
    assert!(rt; net.get(3).is_none());
}

/// The first packet was lost, and the second was not.
fn are_found(rt: &impl Abort, net: &Net) -> Result<(), Fail> {
    let (Some(first), Some(second)) = (net.get(1), net.get(2)) else {
        return Err(Fail::new("two packets"));
    };
    assert_eq!(rt; first.bytes.as_slice(), b"one".as_slice());
    assert!(rt; first.lost);
    assert_eq!(rt; second.bytes.as_slice(), b"three".as_slice());
    assert_eq!(rt; second.to, Place::Front);
    assert!(rt; !second.lost);
    Ok(())
}

/// Between places that are no clients there are longer packets than segments.
#[test]
fn messages_are_longer_than_segments(rt: HostRuntime) -> Result<(), Fail> {
    let alloc = rt.alloc();
    let mut net = Net::new(alloc);
    let Some(n) = NodeId::new(1) else {
        return Err(Fail::new("a number in range"));
    };
    let message = Bytes::from_vec(filled(alloc, 1_521)?);
    net.send(Place::Front, Place::Node(n), message)?;
    let Some(packet) = net.get(1) else {
        return Err(Fail::new("a packet"));
    };
    assert_eq!(rt; packet.bytes.len(), 1_521);
    assert_eq!(rt; net.bytes(), 1_521);
    Ok(())
}

/// The first packet fills its page but for two bytes, and the last is longer than a page.
#[test]
fn packets_on_several_pages_are_whole(rt: HostRuntime) -> Result<(), Fail> {
    let alloc = rt.alloc();
    let mut net = Net::new(alloc);
    let Some(n) = NodeId::new(1) else {
        return Err(Fail::new("a number in range"));
    };
    for len in [(1 << 20) - 2, 5, (1 << 20) + 1] {
        send_filled(&mut net, alloc, n, len)?;
    }
    for (k, len) in [(1u32, (1usize << 20) - 2), (2, 5), (3, (1 << 20) + 1)] {
        is_filled(&rt, &net, k, &filled(alloc, len)?)?;
    }
    Ok(())
}

/// A packet's bytes.
fn is_filled(rt: &impl Abort, net: &Net, k: u32, want: &[u8]) -> Result<(), Fail> {
    let Some(packet) = net.get(k) else {
        return Err(Fail::new("a packet"));
    };
    assert!(rt; packet.bytes.as_slice() == want, "packet {k}");
    Ok(())
}

/// Sends so many bytes to a node, where a number is left and they may go.
fn send_filled(net: &mut Net, alloc: Global, n: NodeId, len: usize) -> Result<(), Fail> {
    if net.sent() == u32::MAX || MAX_MESSAGE_BYTES < len {
        return Err(Fail::new("may be sent"));
    }
    let message = Bytes::from_vec(filled(alloc, len)?);
    net.send(Place::Front, Place::Node(n), message)?;
    Ok(())
}

fn filled(alloc: Global, len: usize) -> Result<Vec<u8>, AllocError>
    ensures { IfOk result (λ bytes. length bytes.items ≡ len) }
{
    vec![in alloc; b'x'; len]
}

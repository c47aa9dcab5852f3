//! Messages whose bytes were worked out by hand, and bytes that are none, fault by fault.

use crate::compare::{alike, same, same_bytes};
use lard_base::{Bytes, ConnId, EndpointParts, Epoch, NodeId, Nodes, Path, Paths, Reason};
use lard_message::{Body, Message, MsgFault, decode, encode};
use std::alloc::Global;
use std::process::Abort;

/// A request for `/a`.
const REQUEST: &[u8] = b"GET /a HTTP/1.1\r\nHost: lard\r\n\r\n";

const FIRST_OFFER: &[u8] =
    b"\x01\x01\x00\x01\x00\x02\x00\x00\x00\x42\x00\x00\x03\xe8\x00\x00\x13\x88\x00\x00\x00\x1f\x00\x00\x00\x00\x01\xff\xff\x00\x00\x03\xe9\x00\x00\x13\x89\x05\xb4\x00\x00\x00\x00\x00\x1fGET /a HTTP/1.1\r\nHost: lard\r\n\r\n";

const LATER_OFFER: &[u8] =
    b"\x01\x01\x00\x01\x00\x04\x00\x00\x00\x23\x00\x00\x03\xe8\x00\x00\x13\x88\x00\x00\x00\x1f\x01\x00\x00\x00\x2c\xff\xff\x00\x00\x04\x08\x00\x00\x13\xb4\x05\xb4\x00\x00\x00\x01\x00\x00";

const FORWARD: &[u8] =
    b"\x01\x04\x00\x01\x00\x02\x00\x00\x00\x14\x9c\x40\x00\x50\x00\x00\x04\x08\x00\x00\x13\xb4\x50\x10\xff\xff\xe7\x85\x00\x00";

const ASK: &[u8] =
    b"\x01\x05\x00\x01\x00\x02\x00\x00\x00\x26\x00\x00\x00\x01\x00\x00\x00\x01\x08\x07\x00\x02/b\x00\x02/c\x00\x02/d\x00\x02/e\x00\x02/f\x00\x02/g\x00\x02/h";

const TAG: &[u8] =
    b"\x01\x06\x00\x01\x00\x02\x00\x00\x00\x0c\x00\x00\x00\x01\x07\x01\x01\x01\x01\x01\x01\x01";

const ENDED: &[u8] =
    b"\x01\x09\x00\x01\x00\x02\x00\x00\x00\x0d\x00\x00\x00\x13\xb5\x00\x00\x04\x09\x00\x00\x00\x00";

/// Bytes that are no message.
const REFUSED: &[(&str, &[u8], MsgFault)] = &[
    ("nothing", b"", MsgFault::Short),
    (
        "nine bytes",
        b"\x01\x02\x00\x01\x00\x02\x00\x00\x00",
        MsgFault::Short,
    ),
    (
        "nine bytes of another version",
        b"\x03\x02\x00\x01\x00\x02\x00\x00\x00",
        MsgFault::Short,
    ),
    (
        "the third version",
        b"\x03\x01\x00\x01\x00\x02\x00\x00\x00\x00",
        MsgFault::Version,
    ),
    (
        "version 0 and kind 0",
        b"\x00\x00\x00\x01\x00\x02\x00\x00\x00\x00",
        MsgFault::Version,
    ),
    (
        "kind 0",
        b"\x01\x00\x00\x01\x00\x02\x00\x00\x00\x00",
        MsgFault::Kind,
    ),
    (
        "kind 3 of the first version",
        b"\x01\x03\x00\x01\x00\x02\x00\x00\x00\x00",
        MsgFault::Kind,
    ),
    (
        "kind 11 of the first version, and a byte too few",
        b"\x01\x0b\x00\x01\x00\x02\x00\x00\x00\x01",
        MsgFault::Kind,
    ),
    (
        "kind 12 of the first version",
        b"\x01\x0c\x00\x01\x00\x02\x00\x00\x00\x00",
        MsgFault::Kind,
    ),
    (
        "kind 2 of the second version",
        b"\x02\x02\x00\x01\x00\x02\x00\x00\x00\x00",
        MsgFault::Kind,
    ),
    (
        "kind 13 of the second version",
        b"\x02\x0d\x00\x01\x00\x02\x00\x00\x00\x00",
        MsgFault::Kind,
    ),
    (
        "a byte too few",
        b"\x01\x02\x00\x01\x00\x02\x00\x00\x00\x01",
        MsgFault::Length,
    ),
    (
        "a length of 32 bits",
        b"\x01\x02\x00\x00\x00\x02\xff\xff\xff\xff",
        MsgFault::Length,
    ),
    (
        "a byte too many",
        b"\x01\x02\x00\x01\x00\x02\x00\x00\x00\x00\x00",
        MsgFault::Trailing,
    ),
    (
        "a byte too many, of connection 0",
        b"\x01\x02\x00\x00\x00\x02\x00\x00\x00\x00\x00",
        MsgFault::Trailing,
    ),
    (
        "connection 0",
        b"\x01\x02\x00\x00\x00\x02\x00\x00\x00\x00",
        MsgFault::Field,
    ),
    (
        "connection 16385",
        b"\x01\x02\x40\x01\x00\x02\x00\x00\x00\x00",
        MsgFault::Field,
    ),
    (
        "a Taken with a byte",
        b"\x01\x02\x00\x01\x00\x02\x00\x00\x00\x01\x00",
        MsgFault::Field,
    ),
    (
        "an Offer that ends before its unread bytes",
        b"\x01\x01\x00\x01\x00\x02\x00\x00\x00\x21\x00\x00\x03\xe8\x00\x00\x13\x88\x00\x00\x00\x1f\x01\x00\x00\x00\x2c\xff\xff\x00\x00\x04\x08\x00\x00\x13\xb4\x05\xb4\x00\x00\x00\x01",
        MsgFault::Field,
    ),
    (
        "an Offer with a flag of 2",
        b"\x01\x01\x00\x01\x00\x04\x00\x00\x00\x23\x00\x00\x03\xe8\x00\x00\x13\x88\x00\x00\x00\x1f\x02\x00\x00\x00\x2c\xff\xff\x00\x00\x04\x08\x00\x00\x13\xb4\x05\xb4\x00\x00\x00\x01\x00\x00",
        MsgFault::Field,
    ),
    (
        "an Offer that acknowledges no SYN",
        b"\x01\x01\x00\x01\x00\x04\x00\x00\x00\x23\x00\x00\x03\xe8\x00\x00\x13\x88\x00\x00\x00\x1f\x01\x00\x00\x00\x00\xff\xff\x00\x00\x04\x08\x00\x00\x13\xb4\x05\xb4\x00\x00\x00\x01\x00\x00",
        MsgFault::Field,
    ),
    (
        "an Offer with a byte behind its unread ones",
        b"\x01\x01\x00\x01\x00\x04\x00\x00\x00\x24\x00\x00\x03\xe8\x00\x00\x13\x88\x00\x00\x00\x1f\x01\x00\x00\x00\x2c\xff\xff\x00\x00\x04\x08\x00\x00\x13\xb4\x05\xb4\x00\x00\x00\x01\x00\x00\x47",
        MsgFault::Field,
    ),
    (
        "a Refused with a byte",
        b"\x02\x03\x00\x01\x00\x02\x00\x00\x00\x01\x00",
        MsgFault::Field,
    ),
    (
        "a Give that answered more than it got",
        b"\x02\x0b\x00\x01\x00\x02\x00\x00\x00\x23\x00\x00\x03\xe8\x00\x00\x13\x88\x00\x00\x00\x1f\x00\x00\x00\x00\x2c\xff\xff\x00\x00\x04\x08\x00\x00\x13\xb4\x05\xb4\x00\x00\x00\x20\x00\x00",
        MsgFault::Field,
    ),
    (
        "a Give with a byte behind its unread ones",
        b"\x02\x0b\x00\x01\x00\x02\x00\x00\x00\x24\x00\x00\x03\xe8\x00\x00\x13\x88\x00\x00\x00\x1f\x00\x00\x00\x00\x2c\xff\xff\x00\x00\x04\x08\x00\x00\x13\xb4\x05\xb4\x00\x00\x00\x01\x00\x00\x47",
        MsgFault::Field,
    ),
    (
        "a Forward of 19 bytes",
        b"\x01\x04\x00\x01\x00\x02\x00\x00\x00\x13\x9c\x40\x00\x50\x00\x00\x04\x08\x00\x00\x13\xb4\x50\x10\xff\xff\xe7\x85\x00",
        MsgFault::Field,
    ),
    (
        "an Ask of a batch of 9",
        b"\x01\x05\x00\x01\x00\x02\x00\x00\x00\x0e\x00\x00\x00\x01\x00\x00\x00\x01\x09\x01\x00\x02/b",
        MsgFault::Field,
    ),
    (
        "an Ask with no path",
        b"\x01\x05\x00\x01\x00\x02\x00\x00\x00\x0a\x00\x00\x00\x01\x00\x00\x00\x01\x08\x00",
        MsgFault::Field,
    ),
    (
        "an Ask with more paths than its batch",
        b"\x01\x05\x00\x01\x00\x02\x00\x00\x00\x12\x00\x00\x00\x01\x00\x00\x00\x01\x01\x02\x00\x02/b\x00\x02/c",
        MsgFault::Field,
    ),
    (
        "an Ask with an empty path",
        b"\x01\x05\x00\x01\x00\x02\x00\x00\x00\x0c\x00\x00\x00\x01\x00\x00\x00\x01\x08\x01\x00\x00",
        MsgFault::Field,
    ),
    (
        "a Tag with node 0",
        b"\x01\x06\x00\x01\x00\x02\x00\x00\x00\x06\x00\x00\x00\x01\x01\x00",
        MsgFault::Field,
    ),
    (
        "a Tag with node 65",
        b"\x01\x06\x00\x01\x00\x02\x00\x00\x00\x06\x00\x00\x00\x01\x01\x41",
        MsgFault::Field,
    ),
    (
        "a Tag with no node",
        b"\x01\x06\x00\x01\x00\x02\x00\x00\x00\x05\x00\x00\x00\x01\x00",
        MsgFault::Field,
    ),
    (
        "a Tag with nine nodes",
        b"\x01\x06\x00\x01\x00\x02\x00\x00\x00\x0e\x00\x00\x00\x01\x09\x01\x01\x01\x01\x01\x01\x01\x01\x01",
        MsgFault::Field,
    ),
    (
        "a Fetch with a path that is cut off",
        b"\x01\x07\x00\x03\x00\x02\x00\x00\x00\x07\x00\x00\x00\x02\x00\x02/",
        MsgFault::Field,
    ),
    (
        "a Content with more bytes than it says",
        b"\x01\x08\x00\x03\x00\x02\x00\x00\x00\x0a\x00\x00\x00\x02\x00\x00\x00\x01ab",
        MsgFault::Field,
    ),
    (
        "an Ended for reason 3",
        b"\x01\x09\x00\x01\x00\x02\x00\x00\x00\x0d\x03\x00\x00\x13\xb5\x00\x00\x04\x09\x00\x00\x00\x00",
        MsgFault::Field,
    ),
    (
        "an Ended with a count that was closed",
        b"\x01\x09\x00\x01\x00\x02\x00\x00\x00\x0d\x00\x00\x00\x13\xb5\x00\x00\x04\x09\x00\x00\x00\x01",
        MsgFault::Field,
    ),
];

fn bytes(rt: &impl Abort, alloc: Global, text: &[u8]) -> Bytes {
    Bytes::from_slice(alloc, text).ok().expect(rt, "memory")
}

fn path(rt: &impl Abort, alloc: Global, text: &str) -> Path {
    Path::from_slice(alloc, text.as_bytes())
        .ok()
        .expect(rt, "memory")
}

/// The message is written as these bytes, and they are read as the message.
fn spells(rt: &impl Abort, alloc: Global, number: u32, epoch: u16, body: Body, bytes: &[u8]) {
    assert!(rt; body.is_of_table(), "{bytes:?}");
    let message = Message {
        c: ConnId::new(number).expect(rt, "the number of a connection"),
        epoch: Epoch(epoch),
        body,
    };
    let written = encode(alloc, &message).ok().expect(rt, "memory");
    same_bytes(rt, written.as_slice(), bytes);
    let read = decode(alloc, bytes).ok().expect(rt, "a message");
    alike(rt, alloc, &read, &message);
}

#[test]
fn offers_are_spelled(rt: HostRuntime) {
    let first = EndpointParts {
        irs: 1000,
        iss: 5000,
        got: 31,
        fin: false,
        una: 1,
        wnd: 65_535,
        wl1: 1001,
        wl2: 5001,
        mss: 1460,
        served: 0,
        unread: bytes(&rt, rt.alloc(), REQUEST),
    };
    spells(&rt, rt.alloc(), 1, 2, Body::Offer(first), FIRST_OFFER);
    let later = EndpointParts {
        irs: 1000,
        iss: 5000,
        got: 31,
        fin: true,
        una: 44,
        wnd: 65_535,
        wl1: 1032,
        wl2: 5044,
        mss: 1460,
        served: 1,
        unread: bytes(&rt, rt.alloc(), b""),
    };
    spells(&rt, rt.alloc(), 1, 4, Body::Offer(later), LATER_OFFER);
}

const TAKEN: &[u8] = b"\x01\x02\x00\x01\x00\x02\x00\x00\x00\x00";

const OVER: &[u8] =
    b"\x01\x09\x40\x00\xff\xff\x00\x00\x00\x0d\x02\x00\x00\x00\x07\x00\x00\x00\x08\x00\x00\x00\xc9";

const ENDED_ACK: &[u8] = b"\x01\x0a\x00\x01\x00\x02\x00\x00\x00\x00";

#[test]
fn words_of_a_move_are_spelled(rt: HostRuntime) {
    spells(&rt, rt.alloc(), 1, 2, Body::Taken, TAKEN);
    let segment = bytes(&rt, rt.alloc(), &FORWARD[10..]);
    spells(&rt, rt.alloc(), 1, 2, Body::Forward(segment), FORWARD);
    let ended = Body::Ended {
        reason: Reason::Closed,
        snd: 5045,
        rcv: 1033,
        count: 0,
    };
    spells(&rt, rt.alloc(), 1, 2, ended, ENDED);
    let over = Body::Ended {
        reason: Reason::Limit,
        snd: 7,
        rcv: 8,
        count: 201,
    };
    spells(&rt, rt.alloc(), 16_384, 65_535, over, OVER);
    spells(&rt, rt.alloc(), 1, 2, Body::EndedAck, ENDED_ACK);
}

const REFUSAL: &[u8] = b"\x02\x03\x00\x01\x00\x02\x00\x00\x00\x00";

const GIVE: &[u8] =
    b"\x02\x0b\x00\x01\x00\x02\x00\x00\x00\x23\x00\x00\x03\xe8\x00\x00\x13\x88\x00\x00\x00\x1f\x00\x00\x00\x00\x2c\xff\xff\x00\x00\x04\x08\x00\x00\x13\xb4\x05\xb4\x00\x00\x00\x01\x00\x00";

const GIVEN: &[u8] = b"\x02\x0c\x00\x01\x00\x02\x00\x00\x00\x00";

#[test]
fn words_of_a_move_back_are_spelled(rt: HostRuntime) {
    spells(&rt, rt.alloc(), 1, 2, Body::Refused, REFUSAL);
    let parts = EndpointParts {
        irs: 1000,
        iss: 5000,
        got: 31,
        fin: false,
        una: 44,
        wnd: 65_535,
        wl1: 1032,
        wl2: 5044,
        mss: 1460,
        served: 1,
        unread: bytes(&rt, rt.alloc(), b""),
    };
    spells(&rt, rt.alloc(), 1, 2, Body::Give(parts), GIVE);
    spells(&rt, rt.alloc(), 1, 2, Body::Given, GIVEN);
}

/// Seven paths.
fn paths(rt: &impl Abort, alloc: Global) -> Paths {
    let mut paths = Paths::new(alloc);
    for text in ["/b", "/c", "/d", "/e", "/f", "/g", "/h"] {
        paths.push(path(rt, alloc, text)).ok().expect(rt, "memory");
    }
    paths
}

/// The same node seven times.
fn nodes(rt: &impl Abort, alloc: Global) -> Nodes {
    let node = NodeId::new(1).expect(rt, "the number of a node");
    let mut nodes = Nodes::new(alloc);
    for _ in 0..7u8 {
        nodes.push(node).ok().expect(rt, "memory");
    }
    nodes
}

const FETCH: &[u8] = b"\x01\x07\x00\x03\x00\x02\x00\x00\x00\x08\x00\x00\x00\x02\x00\x02/b";

const CONTENT: &[u8] = b"\x01\x08\x00\x03\x00\x02\x00\x00\x00\x09\x00\x00\x00\x02\x00\x00\x00\x01x";

#[test]
fn words_of_later_requests_are_spelled(rt: HostRuntime) {
    let ask = Body::Ask {
        number: 1,
        queue: 1,
        size: 8,
        paths: paths(&rt, rt.alloc()),
    };
    spells(&rt, rt.alloc(), 1, 2, ask, ASK);
    let tag = Body::Tag {
        number: 1,
        nodes: nodes(&rt, rt.alloc()),
    };
    spells(&rt, rt.alloc(), 1, 2, tag, TAG);
    let fetch = Body::Fetch {
        r: 2,
        path: path(&rt, rt.alloc(), "/b"),
    };
    spells(&rt, rt.alloc(), 3, 2, fetch, FETCH);
    let content = Body::Content {
        r: 2,
        bytes: bytes(&rt, rt.alloc(), b"x"),
    };
    spells(&rt, rt.alloc(), 3, 2, content, CONTENT);
}

#[test]
fn what_is_no_message_is_refused(rt: HostRuntime) {
    for &(name, bytes, fault) in REFUSED {
        let found = decode(rt.alloc(), bytes).err();
        same(&rt, &(name, found), &(name, Some(fault)));
    }
}

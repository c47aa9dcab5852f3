//! What leaves, and how connections close: RFC 9293, 3.4, 3.6 and 3.8.

use crate::endpoint::words::Said::{Ack, Data, Fin, Push, PushFin, Rst, SynAck};
use crate::endpoint::words::Step::{
    Again, Clear, Comes, Finishes, Idle, Queues, Rests, Sends, SendsBytes, Unread,
};
use crate::endpoint::words::{
    Step, Undone, W, X, done, ended, established, is_queued_shared, listening,
};
use lard_base::{NoMemory, Reason};
use lard_endpoint::Arrival::{AckOwed, Fine, Reset};
use lard_shared::Shared;
use std::alloc::Global;

/// A name, the client's window and the size that it names, and what happens.
type WindowRun = (&'static str, u16, Option<u16>, &'static [Step]);

const WINDOWS: &[WindowRun] = &[
    (
        "segments have at most MSS bytes, and PSH where the last byte is among them",
        W,
        Some(3),
        &[
            Queues(b"abcdefg"),
            Sends(Data(5001, 1001, b"abc"), 16_384),
            Sends(Data(5004, 1001, b"def"), 16_384),
            Sends(Push(5007, 1001, b"g"), 16_384),
            Rests,
            Again(Data(5001, 1001, b"abc"), 16_384),
            Comes(Ack(1001, 5006), W, Fine),
            Again(Push(5006, 1001, b"fg"), 16_384),
            Comes(Ack(1001, 5009), W, AckOwed),
            Clear(false),
            Comes(Ack(1001, 5008), W, Fine),
            Clear(true),
        ],
    ),
    (
        "at a window of 0 the timer probes with one symbol, and again with the same",
        0,
        None,
        &[
            Queues(b"ab"),
            Finishes,
            Rests,
            Again(Data(5001, 1001, b"a"), 16_384),
            Again(Data(5001, 1001, b"a"), 16_384),
            Rests,
            Comes(Ack(1001, 5002), 0, Fine),
            Again(Push(5002, 1001, b"b"), 16_384),
            Comes(Ack(1001, 5003), 0, Fine),
            Again(Fin(5003, 1001, b""), 16_384),
            Rests,
            Comes(Ack(1001, 5004), 0, Fine),
            Clear(true),
            Idle,
        ],
    ),
    (
        "the window leaves room for bytes, and then for the FIN or not",
        3,
        None,
        &[
            Queues(b"abcdef"),
            Finishes,
            Sends(Data(5001, 1001, b"abc"), 16_384),
            Rests,
            Comes(Ack(1001, 5002), 5, Fine),
            Sends(Push(5004, 1001, b"def"), 16_384),
            Rests,
            Comes(Ack(1001, 5002), 6, Fine),
            Sends(Fin(5007, 1001, b""), 16_384),
            Again(PushFin(5002, 1001, b"bcdef"), 16_384),
        ],
    ),
    (
        "an older segment brings no window, by its number or by its ACK",
        3,
        None,
        &[
            Queues(b"abcdefghij"),
            Sends(Data(5001, 1001, b"abc"), 16_384),
            Comes(Data(1001, 5003, b"G"), 1, AckOwed),
            Comes(Data(1002, 5003, b"E"), 1, AckOwed),
            Sends(Ack(5004, 1003), 16_382),
            Comes(Data(1001, 5003, b"GET"), 9, AckOwed),
            Unread(b"GET"),
            Sends(Ack(5004, 1004), 16_381),
            Comes(Ack(1004, 5003), 2, Fine),
            Sends(Data(5004, 1004, b"d"), 16_381),
            Comes(Ack(1004, 5002), 9, Fine),
            Rests,
            Comes(Ack(1004, 5003), 3, Fine),
            Sends(Data(5005, 1004, b"e"), 16_381),
        ],
    ),
];

fn undone_in_windows(alloc: Global, runs: &[WindowRun]) -> Result<Undone, NoMemory> {
    for &(name, wnd, mss, steps) in runs {
        let count = established(alloc, wnd, mss, steps)?;
        if count < steps.len() {
            return Ok(Some((name, count)));
        }
    }
    Ok(None)
}

/// RFC 9293, 3.8.6: the peer's window, probes of it, and which segment's window counts; 3.8.1: what is sent again.
#[test]
fn windows_are_kept(rt: HostRuntime) {
    assert_eq!(rt; undone_in_windows(rt.alloc(), WINDOWS), Ok(None));
}

/// The client's SYN has the number 0xffff_fffd, and the cluster's 0xffff_fffe.
const BEGIN_AGAIN: &[Step] = &[
    Sends(SynAck(0xffff_fffe, 0xffff_fffe), 16_384),
    Comes(Ack(0xffff_fffe, 0xffff_ffff), 4, Fine),
    Comes(Push(0xffff_fffe, 0xffff_ffff, b"GET"), 4, AckOwed),
    Sends(Ack(0xffff_ffff, 1), 16_381),
    Queues(b"answer"),
    Sends(Data(0xffff_ffff, 1, b"answ"), 16_381),
    Comes(Push(0xffff_ffff, 0, b"ET /"), 4, AckOwed),
    Unread(b"GET /"),
    Sends(Data(3, 3, b"e"), 16_379),
    // an ACK of what was not sent, though its number is small
    Comes(Ack(3, 5), 4, AckOwed),
    Sends(Ack(4, 3), 16_379),
    Again(Data(0, 3, b"nswe"), 16_379),
    Comes(Ack(3, 4), 4, Fine),
    Finishes,
    Sends(PushFin(4, 3, b"r"), 16_379),
    // outside the window, on either side of 0
    Comes(Rst(0xffff_fffe), 0, Fine),
    Comes(Rst(16_382), 0, Fine),
    Comes(Fin(3, 6, b""), 4, AckOwed),
    Sends(Ack(6, 4), 16_379),
];

/// RFC 9293, 3.4: sequence numbers begin again after 2^32 - 1, in both directions.
#[test]
fn numbers_begin_again(rt: HostRuntime) {
    let came = ended(rt.alloc(), 0xffff_fffd, 0xffff_fffe, BEGIN_AGAIN);
    let last = Some((Reason::Closed, 6, 4));
    assert_eq!(rt; came, Ok((BEGIN_AGAIN.len(), last)));
}

const BEFORE_BODY: &[Step] = &[
    Sends(SynAck(5000, 1001), 16_384),
    Comes(Ack(1001, 5001), W, Fine),
    Queues(b"head, "),
];

const BEHIND_BODY: &[Step] = &[
    Sends(Push(5001, 1001, b"head, a body."), 16_384),
    Comes(Ack(1001, 5014), W, Fine),
    Clear(true),
];

/// Whether all steps are done before a body is queued, whether it is, and whether all are done behind it.
fn with_body(alloc: Global, body: Shared) -> Result<[bool; 3], NoMemory> {
    let mut endpoint = listening(alloc, 1000, 5000, W, None)?;
    let opened = done(&mut endpoint, BEFORE_BODY) == BEFORE_BODY.len();
    let queued = is_queued_shared(&mut endpoint, body);
    let came = done(&mut endpoint, BEHIND_BODY) == BEHIND_BODY.len();
    endpoint.kill();
    Ok([opened, queued, came])
}

/// Bytes that have more owners leave as copies do, here in one segment with such.
#[test]
fn shared_bytes_leave_as_copies_do(rt: HostRuntime) {
    let body = Shared::from_slice(rt.alloc(), b"a body.").expect(&rt, "memory");
    assert_eq!(rt; with_body(rt.alloc(), body), Ok([true; 3]));
}

/// The size that a SYN names, and how many bytes are sent then.
const SIZES: &[(Option<u16>, u32)] = &[
    (None, 536),
    (Some(0), 1),
    (Some(1), 1),
    (Some(1460), 1460),
    (Some(9000), 1460),
];

/// The first size with which not so many bytes are sent.
fn wrong_size(alloc: Global) -> Result<Option<Option<u16>>, NoMemory> {
    for &(mss, len) in SIZES {
        let steps = [Queues(X.as_slice()), SendsBytes(len)];
        if established(alloc, W, mss, &steps)? < 2 {
            return Ok(Some(mss));
        }
    }
    Ok(None)
}

/// The sizes that a SYN names, and how much is sent then (RFC 9293, 3.7.1).
#[test]
fn sizes_are_brought_into_range(rt: HostRuntime) {
    assert_eq!(rt; wrong_size(rt.alloc()), Ok(None));
}

/// A name, what happens, and how the connection ends then, where it does.
type Closing = (&'static str, &'static [Step], Option<(Reason, u32, u32)>);

const CLOSINGS: &[Closing] = &[
    (
        "the client closes first, and takes what is still to come",
        &[
            Sends(SynAck(5000, 1001), 16_384),
            Comes(Fin(1001, 5001, b"GET"), W, AckOwed),
            Sends(Ack(5001, 1005), 16_381),
            Queues(b"bye"),
            Sends(Push(5001, 1005, b"bye"), 16_381),
            Comes(Ack(1005, 5004), W, Fine),
            Finishes,
            Sends(Fin(5004, 1005, b""), 16_381),
            Comes(Ack(1005, 5005), W, Fine),
        ],
        Some((Reason::Closed, 5005, 1005)),
    ),
    (
        "our FIN goes with the last bytes, and the client still sends",
        &[
            Sends(SynAck(5000, 1001), 16_384),
            Comes(Ack(1001, 5001), W, Fine),
            Queues(b"bye"),
            Finishes,
            Sends(PushFin(5001, 1001, b"bye"), 16_384),
            Comes(Ack(1001, 5005), W, Fine),
            Comes(Push(1001, 5005, b"GET"), W, AckOwed),
            Sends(Ack(5005, 1004), 16_381),
            Comes(Fin(1004, 5005, b""), W, AckOwed),
            Sends(Ack(5005, 1005), 16_381),
        ],
        Some((Reason::Closed, 5005, 1005)),
    ),
    (
        "both close at once",
        &[
            Sends(SynAck(5000, 1001), 16_384),
            Comes(Ack(1001, 5001), W, Fine),
            Finishes,
            Sends(Fin(5001, 1001, b""), 16_384),
            Comes(Fin(1001, 5001, b""), W, AckOwed),
            Sends(Ack(5002, 1002), 16_384),
            Again(Fin(5001, 1002, b""), 16_384),
            Comes(Ack(1002, 5002), W, Fine),
        ],
        Some((Reason::Closed, 5002, 1002)),
    ),
    (
        "our FIN is not acknowledged yet",
        &[
            Sends(SynAck(5000, 1001), 16_384),
            Comes(Fin(1001, 5001, b""), W, AckOwed),
            Finishes,
            Sends(Fin(5001, 1002, b""), 16_384),
        ],
        None,
    ),
    (
        "theirs is not taken yet",
        &[
            Sends(SynAck(5000, 1001), 16_384),
            Comes(Ack(1001, 5001), W, Fine),
            Finishes,
            Sends(Fin(5001, 1001, b""), 16_384),
            Comes(Ack(1001, 5002), W, Fine),
        ],
        None,
    ),
    (
        "all is acknowledged, and we did not finish",
        &[
            Sends(SynAck(5000, 1001), 16_384),
            Comes(Fin(1001, 5001, b""), W, AckOwed),
            Clear(true),
        ],
        None,
    ),
    (
        "the peer resets",
        &[
            Sends(SynAck(5000, 1001), 16_384),
            Comes(Push(1001, 5001, b"GET"), W, AckOwed),
            Queues(b"bye"),
            Sends(Push(5001, 1004, b"bye"), 16_381),
            Comes(Rst(1004), 0, Reset),
        ],
        Some((Reason::Peer, 5004, 1004)),
    ),
];

/// The first run that does not end so.
fn not_closed(alloc: Global, runs: &[Closing]) -> Result<Undone, NoMemory> {
    for &(name, steps, last) in runs {
        let (count, ending) = ended(alloc, 1000, 5000, steps)?;
        if count < steps.len() || ending != last {
            return Ok(Some((name, count)));
        }
    }
    Ok(None)
}

/// RFC 9293, 3.6: closing a connection, from either side and by both at once; it ends with both FINs done, or by a reset.
#[test]
fn both_sides_close(rt: HostRuntime) {
    assert_eq!(rt; not_closed(rt.alloc(), CLOSINGS), Ok(None));
}

//! What comes: RFC 9293, 3.10.7.

use crate::endpoint::words::Said::{Ack, Bare, Data, Fin, Push, Rst, RstAck, Syn, SynAck, Whole};
use crate::endpoint::words::Step::{
    Again, Clear, Comes, Consumes, Discards, Finishes, Holds, Idle, PeerDone, Queues, Rests, Sends,
    Unread, WasReset,
};
use crate::endpoint::words::{Said, Step, Undone, W, established, from_syn};
use lard_base::NoMemory;
use lard_endpoint::Arrival::{self, AckOwed, Fine, Reset};
use std::alloc::Global;

/// A name, and what happens.
type Run = (&'static str, &'static [Step]);

const OPENINGS: &[Run] = &[
    (
        "the SYN with ACK is sent, and again until it is acknowledged",
        &[
            Sends(SynAck(5000, 1001), 16_384),
            Rests,
            Again(SynAck(5000, 1001), 16_384),
            Clear(false),
            Comes(Ack(1001, 5001), W, Fine),
            Clear(true),
            Idle,
            Rests,
        ],
    ),
    (
        "a timer before the first segment sends the SYN",
        &[Again(SynAck(5000, 1001), 16_384), Rests],
    ),
    (
        "a SYN that comes again is answered by an ACK",
        &[
            Sends(SynAck(5000, 1001), 16_384),
            Comes(Syn(1000), W, AckOwed),
            Sends(Ack(5001, 1001), 16_384),
            Rests,
        ],
    ),
    (
        "an ACK of what was not sent is answered",
        &[
            Sends(SynAck(5000, 1001), 16_384),
            Comes(Ack(1001, 5002), W, AckOwed),
            Sends(Ack(5001, 1001), 16_384),
            Clear(false),
        ],
    ),
    (
        "data is dropped while the SYN is not acknowledged, and taken of the segment that does",
        &[
            Sends(SynAck(5000, 1001), 16_384),
            Comes(Push(1001, 5000, b"GET"), W, Fine),
            Unread(b""),
            Rests,
            Comes(Push(1001, 5001, b"GET"), W, AckOwed),
            Unread(b"GET"),
            Sends(Ack(5001, 1004), 16_381),
        ],
    ),
    (
        "without an ACK a segment is dropped",
        &[
            Sends(SynAck(5000, 1001), 16_384),
            Comes(Bare(1001, b"GET"), W, Fine),
            Unread(b""),
            Rests,
        ],
    ),
];

/// Of runs that begin with the SYN of a client.
fn undone_from_syn(alloc: Global, runs: &[Run]) -> Result<Undone, NoMemory> {
    for &(name, steps) in runs {
        let count = from_syn(alloc, W, None, steps)?;
        if count < steps.len() {
            return Ok(Some((name, count)));
        }
    }
    Ok(None)
}

/// Of runs that begin where the connection is established.
fn undone_established(alloc: Global, runs: &[Run]) -> Result<Undone, NoMemory> {
    for &(name, steps) in runs {
        let count = established(alloc, W, None, steps)?;
        if count < steps.len() {
            return Ok(Some((name, count)));
        }
    }
    Ok(None)
}

/// RFC 9293, 3.10.7.2 (LISTEN), and 3.10.7.4 while the SYN is not acknowledged.
#[test]
fn connections_open(rt: HostRuntime) {
    assert_eq!(rt; undone_from_syn(rt.alloc(), OPENINGS), Ok(None));
}

/// A segment's number, its answer and its data; whether its ACK is used, and what is unread then.
type Row = (
    &'static str,
    u32,
    Arrival,
    &'static [u8],
    bool,
    &'static [u8],
);

const WINDOW_OPEN: &[Row] = &[
    (
        "no length, window above 0: the first number",
        1001,
        Fine,
        b"",
        true,
        b"",
    ),
    ("the last number", 17_384, Fine, b"", true, b""),
    ("one after the last", 17_385, AckOwed, b"", false, b""),
    ("one before the first", 1000, AckOwed, b"", false, b""),
    (
        "length, window above 0: the first number lies in it",
        17_384,
        AckOwed,
        b"y",
        true,
        b"",
    ),
    (
        "the last number lies in it",
        1000,
        AckOwed,
        b"xy",
        true,
        b"y",
    ),
    ("both lie before it", 999, AckOwed, b"xy", false, b""),
    ("both lie after it", 17_385, AckOwed, b"y", false, b""),
];

const WINDOW_SHUT: &[ShutRow] = &[
    (
        "no length, window 0: RCV.NXT",
        Ack(17_385, 5002),
        Fine,
        true,
    ),
    ("one before it", Ack(17_384, 5002), AckOwed, false),
    ("one after it", Ack(17_386, 5002), AckOwed, false),
    (
        "length, window 0: never, but the ACK is taken at RCV.NXT",
        Data(17_385, 5002, b"y"),
        AckOwed,
        true,
    ),
    ("and of a FIN", Fin(17_385, 5002, b""), AckOwed, true),
    ("not before it", Data(17_384, 5002, b"xy"), AckOwed, false),
    ("not of a SYN", SynAck(17_385, 5002), AckOwed, false),
    ("not without ACK", Bare(17_385, b"y"), AckOwed, false),
];

/// How many of five steps are done where such a segment comes.
fn at_open_window(alloc: Global, row: &Row) -> Result<usize, NoMemory> {
    let &(_, seq, answer, data, used, unread) = row;
    let steps = [
        Queues(b"z"),
        Sends(Push(5001, 1001, b"z"), 16_384),
        Comes(Data(seq, 5002, data), W, answer),
        Clear(used),
        Unread(unread),
    ];
    established(alloc, W, None, &steps)
}

/// The first row where not all five are done.
fn undone_at_open_window(alloc: Global, rows: &[Row]) -> Result<Undone, NoMemory> {
    for row in rows {
        let count = at_open_window(alloc, row)?;
        if count < 5 {
            return Ok(Some((row.0, count)));
        }
    }
    Ok(None)
}

/// A segment at a window of 0, its answer, and whether its ACK is used.
type ShutRow = (&'static str, Said, Arrival, bool);

/// How many of eight steps are done where such a segment comes at a window of 0.
fn at_shut_window(alloc: Global, row: &ShutRow) -> Result<usize, NoMemory> {
    let &(_, said, answer, used) = row;
    let steps = [
        Queues(b"z"),
        Sends(Push(5001, 1001, b"z"), 16_384),
        Comes(Whole(1001, 5001, false), W, AckOwed),
        Sends(Ack(5002, 17_385), 0),
        Comes(said, W, answer),
        Clear(used),
        Holds(16_384),
        PeerDone(false),
    ];
    established(alloc, W, None, &steps)
}

/// The first row where not all eight are done.
fn undone_at_shut_window(alloc: Global, rows: &[ShutRow]) -> Result<Undone, NoMemory> {
    for row in rows {
        let count = at_shut_window(alloc, row)?;
        if count < 8 {
            return Ok(Some((row.0, count)));
        }
    }
    Ok(None)
}

/// RFC 9293, 3.10.7.4, first: check sequence number, table 6. The ACK of an acceptable segment is used, so it tells which.
#[test]
fn four_cases_of_acceptability(rt: HostRuntime) {
    let undone = [
        undone_at_open_window(rt.alloc(), WINDOW_OPEN),
        undone_at_shut_window(rt.alloc(), WINDOW_SHUT),
    ];
    assert_eq!(rt; undone, [Ok(None); 2]);
}

const RESETS: &[Run] = &[
    (
        "a RST at RCV.NXT resets, and nothing is sent any more",
        &[
            Queues(b"abc"),
            WasReset(false),
            Comes(Rst(1001), 0, Reset),
            WasReset(true),
            Rests,
            Idle,
        ],
    ),
    (
        "elsewhere in the window it is challenged",
        &[
            Comes(RstAck(1002, 5001), 0, AckOwed),
            Sends(Ack(5001, 1001), 16_384),
            Rests,
            Comes(RstAck(17_384, 5001), 0, AckOwed),
            Sends(Ack(5001, 1001), 16_384),
        ],
    ),
    (
        "outside the window it is dropped",
        &[
            Comes(Rst(1000), 0, Fine),
            Comes(Rst(17_385), 0, Fine),
            Rests,
        ],
    ),
    (
        "at a window of 0 it resets at RCV.NXT",
        &[
            Comes(Whole(1001, 5001, false), W, AckOwed),
            Sends(Ack(5001, 17_385), 0),
            Comes(Rst(17_384), 0, Fine),
            Comes(Rst(17_385), 0, Reset),
        ],
    ),
    (
        "in FIN-WAIT",
        &[
            Finishes,
            Sends(Fin(5001, 1001, b""), 16_384),
            Comes(Ack(1001, 5002), W, Fine),
            Comes(Rst(1001), 0, Reset),
        ],
    ),
    (
        "in CLOSE-WAIT its number is behind the FIN",
        &[
            Comes(Fin(1001, 5001, b""), W, AckOwed),
            Comes(Rst(1001), 0, Fine),
            Comes(Rst(1003), 0, AckOwed),
            Comes(Rst(1002), 0, Reset),
        ],
    ),
    (
        "a SYN in the window is challenged, and its ACK is not used",
        &[
            Queues(b"z"),
            Sends(Push(5001, 1001, b"z"), 16_384),
            Comes(Syn(1001), W, AckOwed),
            Sends(Ack(5002, 1001), 16_384),
            Comes(SynAck(1005, 5002), W, AckOwed),
            Clear(false),
        ],
    ),
];

/// How many of two steps are done where such a RST comes before the SYN is acknowledged.
fn reset_early(alloc: Global, said: Said, answer: Arrival) -> Result<usize, NoMemory> {
    let steps = [Sends(SynAck(5000, 1001), 16_384), Comes(said, 0, answer)];
    from_syn(alloc, W, None, &steps)
}

/// RFC 9293, 3.10.7.4, second: check the RST bit, and fourth: check the SYN bit.
#[test]
fn resets_and_challenges(rt: HostRuntime) {
    assert_eq!(rt; undone_established(rt.alloc(), RESETS), Ok(None));
    let early = [
        reset_early(rt.alloc(), Rst(1001), Reset),
        reset_early(rt.alloc(), Rst(1002), AckOwed),
    ];
    assert_eq!(rt; early, [Ok(2); 2], "before the SYN is acknowledged too");
}

const TEXTS: &[Run] = &[
    (
        "old data alone is acknowledged again, old and new at once is cut",
        &[
            Comes(Push(1001, 5001, b"GET"), W, AckOwed),
            Sends(Ack(5001, 1004), 16_381),
            Comes(Push(1001, 5001, b"GET"), W, AckOwed),
            Sends(Ack(5001, 1004), 16_381),
            Comes(Push(1002, 5001, b"ET / H"), W, AckOwed),
            Unread(b"GET / H"),
            Sends(Ack(5001, 1008), 16_377),
            Rests,
        ],
    ),
    (
        "what begins after RCV.NXT is dropped, its FIN too",
        &[
            Comes(Fin(1002, 5001, b"ET"), W, AckOwed),
            Unread(b""),
            PeerDone(false),
            Sends(Ack(5001, 1001), 16_384),
            Comes(Fin(1001, 5001, b"GET"), W, AckOwed),
            Unread(b"GET"),
            PeerDone(true),
            Sends(Ack(5001, 1005), 16_381),
        ],
    ),
    (
        "a FIN alone is taken, once, and nothing after it",
        &[
            Comes(Fin(1002, 5001, b""), W, AckOwed),
            PeerDone(false),
            Comes(Fin(1001, 5001, b""), W, AckOwed),
            PeerDone(true),
            Sends(Ack(5001, 1002), 16_384),
            Comes(Data(1002, 5001, b"more"), W, AckOwed),
            Unread(b""),
            Sends(Ack(5001, 1002), 16_384),
            Comes(Fin(1001, 5001, b""), W, AckOwed),
            Sends(Ack(5001, 1002), 16_384),
        ],
    ),
    (
        "bytes are taken up to the window, and then the FIN is not",
        &[
            Comes(Data(1001, 5001, b"12"), W, AckOwed),
            Comes(Whole(1003, 5001, true), W, AckOwed),
            Holds(16_384),
            PeerDone(false),
            Sends(Ack(5001, 17_385), 0),
            Rests,
            Consumes(3),
            Sends(Ack(5001, 17_385), 3),
            Rests,
            Consumes(2),
            Rests,
            Comes(Fin(17_385, 5001, b"xx"), W, AckOwed),
            PeerDone(true),
            Sends(Ack(5001, 17_388), 3),
        ],
    ),
    (
        "what is discarded is acknowledged, and leaves the window open",
        &[
            Comes(Data(1001, 5001, b"GET"), W, AckOwed),
            Discards,
            Unread(b""),
            Comes(Data(1004, 5001, b"more"), W, AckOwed),
            Unread(b""),
            Sends(Ack(5001, 1008), 16_384),
        ],
    ),
];

/// RFC 9293, 3.10.7.4, seventh: process the segment text, and eighth: check the FIN bit; 3.8.6.2.2 on windows that open.
#[test]
fn text_is_taken_in_order(rt: HostRuntime) {
    assert_eq!(rt; undone_established(rt.alloc(), TEXTS), Ok(None));
}

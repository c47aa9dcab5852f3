//! A client's calls, beside what RFC 9293 asks for. Expected segments are worked out by hand.

mod words;

use lard_base::ConnId;
use lard_client::{Client, Heard};
use lard_segment::{Dir, Segment, encode};
use lard_seq::Seq;
use std::process::Abort;
use words::Call::{self, Emit, Hears, Hold, Is, Refuses, Shut, Take, Timer, Write};
use words::{
    ACK, BARE, FIN, NOTHING, Numbers, PSH, PSH_FIN, RST, RST_ACK, SYN, SYN_ACK, is_written,
};

/// The client's SYN, with a window of 10, is met by the cluster's.
const GREETED: &[Call] = &[
    Emit(Some((SYN, 0, 0, 10, 0, 0))),
    Emit(None),
    Is(true, false),
    Hears(
        (SYN_ACK, 0, 1, 100, b""),
        NOTHING,
        Some((ACK, 1, 1, 10, 0, 0)),
    ),
    Is(false, false),
];

/// What is written before the handshake waits for it.
const EARLY: &[Call] = &[
    Hears(
        (SYN_ACK, 0, 1, 9, b""),
        NOTHING,
        Some((SYN, 0, 0, 10, 0, 0)),
    ),
    Write(b"abcdef", true),
    Emit(None),
    Timer(Some((SYN, 0, 0, 10, 0, 0))),
    Hears(
        (SYN_ACK, 0, 1, 4, b""),
        NOTHING,
        Some((ACK, 1, 1, 10, 0, 4)),
    ),
    Hears((ACK, 1, 1, 9, b""), NOTHING, Some((PSH, 5, 1, 10, 4, 2))),
    Timer(Some((ACK, 1, 1, 10, 0, 4))),
    Hears((ACK, 1, 6, 9, b""), NOTHING, None),
    Timer(Some((PSH, 6, 1, 10, 5, 1))),
    Is(true, false),
    Hears((ACK, 1, 7, 9, b""), NOTHING, None),
    Is(false, false),
    Timer(None),
];

/// Before the handshake only an answer to the SYN counts.
const UNANSWERED: &[Call] = &[
    Emit(Some((SYN, 0, 0, 10, 0, 0))),
    Take,
    Hears((SYN_ACK, 0, 0, 9, b""), NOTHING, None),
    Hears((SYN_ACK, 0, 2, 9, b""), NOTHING, None),
    Hears((SYN, 0, 1, 9, b""), NOTHING, None),
    Hears((ACK, 1, 1, 9, b""), NOTHING, None),
    Hears((PSH, 1, 1, 9, b"abc"), NOTHING, None),
    Hears((RST, 0, 1, 0, b""), NOTHING, None),
    Hears((RST_ACK, 0, 2, 0, b""), NOTHING, None),
    Is(true, false),
];

const ANSWERED: &[Call] = &[
    Hears(
        (SYN_ACK, 0, 1, 9, b"abc"),
        NOTHING,
        Some((ACK, 1, 1, 10, 0, 0)),
    ),
    Is(false, false),
];

const REFUSED: &[Call] = &[
    Hears((RST_ACK, 0, 1, 0, b""), NOTHING, None),
    Is(false, false),
    Timer(None),
    Hears((SYN_ACK, 0, 1, 9, b""), NOTHING, None),
];

/// Bytes are accepted in order, and once.
const IN_ORDER: &[Call] = &[
    Hears((PSH, 3, 1, 9, b"cd"), NOTHING, Some((ACK, 1, 1, 10, 0, 0))),
    Hears(
        (PSH, 1, 1, 9, b"ab"),
        (0, 2, false),
        Some((ACK, 1, 3, 10, 0, 0)),
    ),
    Hears((PSH, 1, 1, 9, b"ab"), NOTHING, Some((ACK, 1, 3, 10, 0, 0))),
    Hears(
        (PSH, 1, 1, 9, b"abcd"),
        (2, 2, false),
        Some((ACK, 1, 5, 10, 0, 0)),
    ),
    Hears((ACK, 5, 1, 9, b""), NOTHING, None),
    Hears((BARE, 5, 0, 9, b"x"), NOTHING, None),
    Hears((SYN, 5, 0, 9, b""), NOTHING, Some((ACK, 1, 5, 10, 0, 0))),
    Hears((PSH, 5, 2, 9, b"x"), NOTHING, Some((ACK, 1, 5, 10, 0, 0))),
    Hears((PSH, 15, 1, 9, b"x"), NOTHING, Some((ACK, 1, 5, 10, 0, 0))),
    Hears((PSH, 14, 1, 9, b"x"), NOTHING, Some((ACK, 1, 5, 10, 0, 0))),
    Hears((FIN, 7, 1, 9, b""), NOTHING, Some((ACK, 1, 5, 10, 0, 0))),
    // Neither the first nor the last number lies in the window.
    Hears(
        (PSH, 4, 1, 9, b"defghijklmnop"),
        NOTHING,
        Some((ACK, 1, 5, 10, 0, 0)),
    ),
    Hears(
        (FIN, 5, 1, 9, b"efghijklmnop"),
        (0, 10, false),
        Some((ACK, 1, 15, 10, 0, 0)),
    ),
    // The FIN shuts the client, whose own FIN is sent.
    Hears(
        (FIN, 13, 1, 9, b"mnop"),
        (2, 2, true),
        Some((FIN, 1, 18, 10, 0, 0)),
    ),
    Hears(
        (FIN, 13, 1, 9, b"mnop"),
        NOTHING,
        Some((ACK, 2, 18, 10, 0, 0)),
    ),
    Hears((PSH, 18, 1, 9, b"q"), NOTHING, Some((ACK, 2, 18, 10, 0, 0))),
    Write(b"q", false),
    Hears((ACK, 18, 2, 9, b""), NOTHING, None),
    Is(false, false),
];

/// Bytes that are held fill the window of 10 bytes, and are told to be read.
const HELD: &[Call] = &[
    Hold,
    Is(false, true),
    Hears(
        (PSH, 1, 1, 9, b"abcdefg"),
        (0, 7, false),
        Some((ACK, 1, 8, 3, 0, 0)),
    ),
    Hears(
        (PSH, 8, 1, 9, b"hijk"),
        (0, 3, false),
        Some((ACK, 1, 11, 0, 0, 0)),
    ),
    Hears((PSH, 11, 1, 9, b"k"), NOTHING, Some((ACK, 1, 11, 0, 0, 0))),
    Hears((FIN, 11, 1, 9, b""), NOTHING, Some((ACK, 1, 11, 0, 0, 0))),
    Hears((ACK, 11, 1, 9, b""), NOTHING, None),
    Hears((ACK, 12, 1, 9, b""), NOTHING, Some((ACK, 1, 11, 0, 0, 0))),
    Hears((RST, 12, 0, 0, b""), NOTHING, None),
    Take,
    Is(false, false),
    Emit(Some((ACK, 1, 11, 10, 0, 0))),
    Emit(None),
    Hears(
        (PSH, 11, 1, 9, b"kl"),
        (0, 2, false),
        Some((ACK, 1, 13, 10, 0, 0)),
    ),
    Take,
    Emit(Some((ACK, 1, 13, 10, 0, 0))),
    Emit(None),
];

/// Both windows are of one byte at first, and each segment has one. At a window of 0 an acknowledgement is taken.
const NARROW: &[Call] = &[
    Emit(Some((SYN, 0, 0, 1, 0, 0))),
    Write(b"abcd", true),
    Shut,
    Hold,
    Hears((SYN_ACK, 0, 1, 1, b""), NOTHING, Some((ACK, 1, 1, 1, 0, 1))),
    Hears(
        (PSH, 1, 1, 1, b"xy"),
        (0, 1, false),
        Some((ACK, 2, 2, 0, 4, 0)),
    ),
    Hears((PSH, 2, 2, 1, b"yz"), NOTHING, Some((ACK, 2, 2, 0, 1, 1))),
    Hears((PSH, 2, 2, 0, b"y"), NOTHING, Some((ACK, 3, 2, 0, 4, 0))),
    Timer(Some((ACK, 2, 2, 0, 1, 1))),
    Hears((ACK, 2, 3, 0, b""), NOTHING, None),
    // Probes of one symbol go beyond the window.
    Timer(Some((ACK, 3, 2, 0, 2, 1))),
    Hears((ACK, 2, 4, 0, b""), NOTHING, None),
    Timer(Some((PSH, 4, 2, 0, 3, 1))),
    Hears((ACK, 2, 5, 0, b""), NOTHING, None),
    Timer(Some((FIN, 5, 2, 0, 4, 0))),
    Is(true, true),
    Hears((ACK, 2, 6, 0, b""), NOTHING, None),
    Is(false, true),
    Take,
    Emit(Some((ACK, 6, 2, 1, 4, 0))),
];

/// It is reset at its next number alone, and is silent then.
const RESET: &[Call] = &[
    Write(b"abcdef", true),
    Emit(Some((ACK, 1, 1, 10, 0, 4))),
    Emit(Some((PSH, 5, 1, 10, 4, 2))),
    Hears((RST, 2, 0, 0, b""), NOTHING, Some((ACK, 7, 1, 10, 6, 0))),
    Hears((RST, 10, 0, 0, b""), NOTHING, Some((ACK, 7, 1, 10, 6, 0))),
    Hears((RST, 11, 0, 0, b""), NOTHING, None),
    Hears((RST, 0, 0, 0, b""), NOTHING, None),
    Hears(
        (SYN_ACK, 0, 1, 9, b""),
        NOTHING,
        Some((ACK, 7, 1, 10, 6, 0)),
    ),
    Hears((RST_ACK, 1, 1, 0, b"x"), NOTHING, None),
    Is(false, false),
    Timer(None),
    Hold,
    Take,
    Shut,
    Is(false, false),
    Write(b"g", false),
    Call::Abort(None),
    Hears((PSH, 1, 1, 9, b"x"), NOTHING, None),
    Hears((ACK, 1, 7, 9, b""), NOTHING, None),
];

/// It aborts before the handshake.
const ABORTED_EARLY: &[Call] = &[
    Emit(Some((SYN, 0, 0, 10, 0, 0))),
    Call::Abort(None),
    Is(false, false),
    Timer(None),
    Refuses((SYN_ACK, 0, 1, 9, b""), Some((RST, 1, 0, 0, 0, 0))),
];

/// It aborts with bytes on the way.
const ABORTED: &[Call] = &[
    Write(b"abcdef", true),
    Emit(Some((ACK, 1, 1, 10, 0, 4))),
    Hears(
        (PSH, 1, 1, 100, b"xyz"),
        (0, 3, false),
        Some((PSH, 5, 4, 10, 4, 2)),
    ),
    Hold,
    Call::Abort(Some((RST_ACK, 7, 4, 0, 6, 0))),
    Is(false, false),
    Write(b"g", false),
    Call::Abort(None),
    Timer(None),
    Emit(None),
    Refuses((PSH, 4, 7, 9, b"x"), Some((RST, 7, 0, 0, 6, 0))),
    Refuses((FIN, 4, 3, 9, b""), Some((RST, 3, 0, 0, 6, 0))),
    Refuses((BARE, 4, 3, 9, b"x"), None),
    Refuses((RST, 4, 3, 0, b""), None),
    Refuses((RST_ACK, 4, 3, 0, b""), None),
];

/// It aborts after both sides were closed.
const ABORTED_LATE: &[Call] = &[
    Hears(
        (PSH_FIN, 1, 1, 9, b"xyz"),
        (0, 3, true),
        Some((FIN, 1, 5, 10, 0, 0)),
    ),
    Hears((ACK, 5, 2, 9, b""), NOTHING, None),
    Call::Abort(Some((RST_ACK, 2, 5, 0, 0, 0))),
    Refuses((FIN, 4, 2, 9, b""), Some((RST, 2, 0, 0, 0, 0))),
];

/// It closes its side first, before the handshake, and goes on accepting.
const CLOSED: &[Call] = &[
    Emit(Some((SYN, 0, 0, 10, 0, 0))),
    Write(b"abc", true),
    Shut,
    Write(b"d", false),
    Hears(
        (SYN_ACK, 0, 1, 9, b""),
        NOTHING,
        Some((PSH_FIN, 1, 1, 10, 0, 3)),
    ),
    Hears(
        (PSH, 1, 5, 9, b"xyz"),
        (0, 3, false),
        Some((ACK, 5, 4, 10, 3, 0)),
    ),
    Is(false, false),
    Hears(
        (FIN, 4, 5, 9, b""),
        (0, 0, true),
        Some((ACK, 5, 5, 10, 3, 0)),
    ),
    Hears((FIN, 4, 5, 9, b""), NOTHING, Some((ACK, 5, 5, 10, 3, 0))),
];

/// What comes first, and then.
type Run = (&'static [Call], &'static [Call]);

/// Runs of a client with a window of 10 bytes and segments of 4.
const RUNS: &[Run] = &[
    (EARLY, &[]),
    (UNANSWERED, ANSWERED),
    (UNANSWERED, REFUSED),
    (GREETED, IN_ORDER),
    (GREETED, HELD),
    (GREETED, RESET),
    (ABORTED_EARLY, &[]),
    (GREETED, ABORTED),
    (GREETED, ABORTED_LATE),
    (CLOSED, &[]),
];

/// A client of these numbers does all calls of both parts.
fn plays(rt: &(impl Abort + AllocGlobal), n: Numbers, first: &[Call], then: &[Call]) {
    let mut client = n.open(rt, rt.alloc());
    let counts = (n.done(&mut client, first), n.done(&mut client, then));
    assert_eq!(rt; counts, (first.len(), then.len()));
}

fn all_play(rt: &(impl Abort + AllocGlobal), runs: &[Run]) {
    for (first, then) in runs {
        plays(rt, Numbers::plain(10, 4), first, then);
        plays(rt, Numbers::wrapping(10, 4), first, then);
    }
}

#[test]
fn runs_are_as_the_standard_says(rt: HostRuntime) {
    all_play(&rt, RUNS);
}

#[test]
fn narrow_windows_are_kept(rt: HostRuntime) {
    plays(&rt, Numbers::plain(1, 1), NARROW, &[]);
    plays(&rt, Numbers::wrapping(1, 1), NARROW, &[]);
    // The SYN has the number 2^32 - 1, so 0 acknowledges it; a RST that says no number does not.
    let last = Numbers {
        isn: 0xffff_ffff,
        iss: 5000,
        wnd: 10,
        mss: 4,
    };
    plays(&rt, last, UNANSWERED, ANSWERED);
}

/// The SYN of client 1 from 1000 on, with a window of 65,535 and a maximum segment size of 1,460.
const OPENING: &[u8] =
    b"\x9c\x40\x00\x50\x00\x00\x03\xe8\x00\x00\x00\x00\x60\x02\xff\xff\xe3\xab\x00\x00\x02\x04\x05\xb4";

/// Its request, which acknowledges the SYN of the cluster from 5000 on.
const REQUEST: &[u8] =
    b"\x9c\x40\x00\x50\x00\x00\x03\xe9\x00\x00\x13\x89\x50\x18\xff\xff\x0d\xd5\x00\x00GET /x HTTP/1.1\r\nHost: lard\r\n\r\n";

/// Whether the next segment of a client is spelled by these bytes.
fn is_spelled(client: &mut Client, c: ConnId, want: &[u8]) -> bool {
    let mut data = [0; 1460];
    let mut bytes = [0; 1520];
    let len = match client.emit() {
        Some(ready) => {
            let segment = client.segment(ready, &mut data);
            encode(&segment, c, Dir::ToCluster, &mut bytes)
        }
        None => 0,
    };
    bytes.get(..len) == Some(want)
}

#[test]
fn segments_are_filled(rt: HostRuntime) {
    let c = ConnId::new(1).expect(&rt, "the number of a connection");
    let mut client = Client::open(rt.alloc(), c, Seq(1000), 65_535, 1460);
    let opens = is_spelled(&mut client, c, OPENING);
    let writes = is_written(&mut client, &REQUEST[20..], true);
    let greeting = Segment {
        seq: Seq(5000),
        ack: Seq(1001),
        flags: SYN_ACK,
        wnd: 16_384,
        mss: Some(1460),
        payload: b"",
    };
    let heard = client.arrive(&greeting);
    let asks = is_spelled(&mut client, c, REQUEST);
    assert_eq!(rt; (client.number(), heard), (c, Heard::nothing()));
    assert_eq!(rt; (opens, writes, asks), (true, true, true));
}

//! How an endpoint goes on at another place.

use crate::endpoint::words::Said::{Ack, Fin, Push, Rst, SynAck};
use crate::endpoint::words::Step::{
    Again, Clear, Comes, Consumes, Discards, Finishes, Idle, PeerDone, Queues, Rests, Sends, Unread,
};
use crate::endpoint::words::{Step, Undone, W, X, done, listening};
use lard_base::{Bytes, EndpointParts, NoMemory, Reason};
use lard_endpoint::Arrival::{AckOwed, Fine, Reset};
use lard_endpoint::{Endpoint, Frozen};
use std::alloc::Global;
use std::process::Abort;

/// What may be frozen, or nothing.
fn frozen(endpoint: Endpoint) -> Option<Frozen> {
    if endpoint.can_freeze() {
        return Some(endpoint.freeze());
    }
    endpoint.kill();
    None
}

/// A request is taken and answered, and two bytes of it are read.
const STANDING: &[Step] = &[
    Sends(SynAck(5000, 1001), 16_384),
    Comes(Push(1001, 5001, b"GET /a"), 200, AckOwed),
    Queues(b"ok"),
    Sends(Push(5001, 1007, b"ok"), 16_378),
    Comes(Ack(1007, 5003), 300, Fine),
    Consumes(2),
];

/// An endpoint that did these steps, and stands still then.
fn stood(alloc: Global) -> Result<Option<Frozen>, NoMemory> {
    let mut endpoint = listening(alloc, 1000, 5000, 100, Some(20))?;
    if done(&mut endpoint, STANDING) < STANDING.len() {
        endpoint.kill();
        return Ok(None);
    }
    Ok(frozen(endpoint))
}

/// How many of the steps a frozen endpoint does where it goes on itself, and where it is cut off then.
fn goes_on(standing: Frozen, steps: &[Step]) -> (usize, Reason, u32, u32) {
    let mut thawed = standing.thaw();
    let count = done(&mut thawed, steps);
    let last = thawed.kill();
    (count, last.reason, last.snd.0, last.rcv.0)
}

/// How many of the steps an endpoint does that is made of these parts, and how many bytes were queued in all; nothing where they
/// are no endpoint's.
fn adopted(
    alloc: Global,
    parts: &EndpointParts,
    steps: &[Step],
) -> Result<Option<(usize, u32)>, NoMemory> {
    if !parts.is_valid() {
        return Ok(None);
    }
    let mut endpoint = Endpoint::adopt(alloc, parts)?;
    let count = done(&mut endpoint, steps);
    let total = endpoint.total();
    endpoint.kill();
    Ok(Some((count, total)))
}

/// What came, and what is said beside the bytes that are not read.
type Numbers = ((u32, u32, u32, bool), (u32, u16, u32, u32), u16, u32);

fn numbers_of(parts: &EndpointParts) -> Numbers {
    (
        (parts.irs, parts.iss, parts.got, parts.fin),
        (parts.una, parts.wnd, parts.wl1, parts.wl2),
        parts.mss,
        parts.served,
    )
}

/// An ACK is owed.
const BEHIND_MOVE: &[Step] = &[
    Sends(Ack(5003, 1007), 16_380),
    Rests,
    Idle,
    Comes(Push(1007, 5003, b" HTTP"), 300, AckOwed),
    Unread(b"T /a HTTP"),
    Queues(b"more"),
    Sends(Push(5003, 1012, b"more"), 16_375),
    Again(Push(5003, 1012, b"more"), 16_375),
];

/// An endpoint goes on from these parts, those of the one that stood.
fn moves_on(rt: &(impl Abort + AllocGlobal), parts: &EndpointParts) {
    let numbers = ((1000, 5000, 6, false), (3, 300, 1007, 5003), 20, 0);
    let count = adopted(rt.alloc(), parts, BEHIND_MOVE);
    assert_eq!(rt; parts.unread.as_slice(), b"T /a".as_slice());
    assert_eq!(rt;
        (numbers_of(parts), count),
        (numbers, Ok(Some((BEHIND_MOVE.len(), 6))))
    );
}

/// An endpoint goes on from the parts of a frozen one, and owes an ACK; the frozen one can go on as well.
#[test]
fn endpoints_move(rt: HostRuntime) {
    let stood = stood(rt.alloc()).expect(&rt, "memory");
    let standing = stood.expect(&rt, "it is frozen");
    let parts = standing.parts(rt.alloc(), 0);
    let thawed = goes_on(standing, &[Rests, Unread(b"T /a"), Clear(true)]);
    assert_eq!(rt; thawed, (3, Reason::Limit, 5003, 1007));
    moves_on(&rt, &parts.expect(&rt, "memory"));
}

/// What comes of parts with a full window and a FIN, with a response more, behind an endpoint that was made of them and stood still; and
/// how many steps it does then.
fn told_again(alloc: Global) -> Result<(usize, EndpointParts), NoMemory> {
    let parts = EndpointParts {
        irs: 0xffff_ffff,
        iss: 0xffff_fff0,
        got: 20_000,
        fin: true,
        una: 41,
        wnd: 0,
        wl1: 7,
        wl2: 8,
        mss: 1460,
        served: 2,
        unread: Bytes::from_slice(alloc, &X)?,
    };
    let standing = Endpoint::adopt(alloc, &parts)?.freeze();
    let again = standing.parts(alloc, 3);
    let steps = [Sends(Ack(25, 20_001), 0), Rests, PeerDone(true)];
    let (count, _, _, _) = goes_on(standing, &steps);
    Ok((count, again?))
}

/// Whether an endpoint is made of these parts that may stand still. It is given up then.
fn is_released(alloc: Global, parts: &EndpointParts) -> Result<bool, NoMemory> {
    if !parts.is_valid() {
        return Ok(false);
    }
    match frozen(Endpoint::adopt(alloc, parts)?) {
        Some(standing) => standing.release(),
        None => return Ok(false),
    }
    Ok(true)
}

/// Parts come again as they were, with the FIN and the number of responses, and from a window of 0.
#[test]
fn parts_come_again(rt: HostRuntime) {
    let (count, again) = told_again(rt.alloc()).expect(&rt, "memory");
    let numbers = (
        (0xffff_ffff, 0xffff_fff0, 20_000, true),
        (41, 0, 7, 8),
        1460,
        3,
    );
    let released = is_released(rt.alloc(), &again);
    assert_eq!(rt; (numbers_of(&again), released), (numbers, Ok(true)));
    assert_eq!(rt; (count, again.unread.len()), (3, 16_384));
}

/// A name, what happens, and whether it may move then.
type Stand = (&'static str, &'static [Step], bool);

const STANDINGS: &[Stand] = &[
    (
        "the SYN is not acknowledged",
        &[Sends(SynAck(5000, 1001), 16_384)],
        false,
    ),
    (
        "all is acknowledged, and an ACK is owed",
        &[
            Sends(SynAck(5000, 1001), 16_384),
            Comes(Push(1001, 5001, b"GET"), W, AckOwed),
        ],
        true,
    ),
    (
        "queued bytes are not",
        &[
            Sends(SynAck(5000, 1001), 16_384),
            Comes(Push(1001, 5001, b"GET"), W, AckOwed),
            Queues(b"z"),
        ],
        false,
    ),
    (
        "it is finished, and the FIN acknowledged",
        &[
            Sends(SynAck(5000, 1001), 16_384),
            Comes(Ack(1001, 5001), W, Fine),
            Finishes,
            Sends(Fin(5001, 1001, b""), 16_384),
            Comes(Ack(1001, 5002), W, Fine),
            Clear(true),
        ],
        false,
    ),
    (
        "it discards",
        &[
            Sends(SynAck(5000, 1001), 16_384),
            Comes(Ack(1001, 5001), W, Fine),
            Discards,
        ],
        false,
    ),
    (
        "it was reset",
        &[
            Sends(SynAck(5000, 1001), 16_384),
            Comes(Ack(1001, 5001), W, Fine),
            Comes(Rst(1001), 0, Reset),
        ],
        false,
    ),
];

/// How many of the steps are done, and whether the endpoint may be frozen then.
fn stands(alloc: Global, steps: &[Step]) -> Result<(usize, bool), NoMemory> {
    let mut endpoint = listening(alloc, 1000, 5000, W, None)?;
    let count = done(&mut endpoint, steps);
    let can = endpoint.can_freeze();
    endpoint.kill();
    Ok((count, can))
}

/// The first run behind which it is not as it says.
fn wrongly_standing(alloc: Global, runs: &[Stand]) -> Result<Undone, NoMemory> {
    for &(name, steps, may) in runs {
        let (count, can) = stands(alloc, steps)?;
        if count < steps.len() || can != may {
            return Ok(Some((name, count)));
        }
    }
    Ok(None)
}

/// What keeps an endpoint from being frozen.
#[test]
fn some_cannot_move(rt: HostRuntime) {
    assert_eq!(rt; wrongly_standing(rt.alloc(), STANDINGS), Ok(None));
}

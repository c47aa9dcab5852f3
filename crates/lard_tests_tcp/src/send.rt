//! Each call once, with ample memory, beside what the rules give.

use Said::{Fin, Last, Nothing, Syn};
use Step::{Acks, Again, Armed, Clear, Finishes, Has, Sends, Shares, Window, Writes};
use lard_base::limits::MAX_STREAM_BYTES;
use lard_base::{Bytes, EndpointParts, NoMemory};
use lard_send::{Ack, Piece, SendHalf};
use lard_seq::Seq;
use lard_shared::Shared;
use std::alloc::Global;

const ISS: u32 = 0xffff_fffe;

/// What a half gives to be sent: all but the SYN by how many bytes stand before it, and how many it has.
#[derive(Clone, Copy)]
enum Said {
    Syn,
    Bytes(u32, u32),
    /// The last queued byte is among these.
    Last(u32, u32),
    Fin(u32),
    Nothing,
}

/// What happens to a half, and what it makes of it.
#[derive(Clone, Copy)]
enum Step {
    /// `next` gives this.
    Sends(Said),
    /// `resend` gives this.
    Again(Said),
    /// A segment's acknowledgement number, its own, and its window; what it acknowledges.
    Acks(u32, u32, u16, Ack),
    Writes(&'static [u8]),
    /// It is given bytes that have other owners.
    Shares(&'static [u8]),
    Finishes,
    /// So many bytes stand at a place, and these are in a buffer of four then.
    Has(u32, u32, [u8; 4]),
    /// The peer's window has so many bytes.
    Window(u16),
    /// Something is to be acknowledged.
    Armed,
    /// All is acknowledged.
    Clear,
}

fn piece(at: u32, len: u32, fin: bool, push: bool) -> Option<Piece> {
    Some(Piece {
        at,
        len,
        syn: false,
        fin,
        push,
    })
}

/// The piece that is said.
fn piece_of(said: Said) -> Option<Piece> {
    match said {
        Syn => return Some(Piece::syn()),
        Said::Bytes(at, len) => return piece(at, len, false, false),
        Last(at, len) => return piece(at, len, false, true),
        Fin(at) => return piece(at, 0, true, false),
        Nothing => return None,
    }
}

/// Whether a half is given these bytes: it has room and memory for them.
fn is_written(half: &mut SendHalf, bytes: &[u8]) -> bool {
    let room = (MAX_STREAM_BYTES - half.total()) as usize;
    !half.finished() && bytes.len() <= room && half.queue(bytes).is_ok()
}

/// Whether a half is given bytes that have other owners: it has room and memory for them.
fn is_given(half: &mut SendHalf, bytes: Shared) -> bool {
    let room = (MAX_STREAM_BYTES - half.total()) as usize;
    !half.finished() && bytes.len() <= room && half.queue_shared(bytes).is_ok()
}

/// Whether a half is given these bytes as ones that have other owners.
fn is_shared(alloc: Global, half: &mut SendHalf, bytes: &[u8]) -> bool {
    match Shared::from_slice(alloc, bytes) {
        Ok(shared) => return is_given(half, shared),
        Err(_) => return false,
    }
}

/// Up to four bytes that a half has at a place, in front of what a buffer held. Where it has none there, the buffer is as it was.
fn bytes_at(half: &SendHalf, at: u32, len: u32) -> [u8; 4] {
    let mut buf = [b'-'; 4];
    let total = half.total();
    if len <= 4 && at >= half.una().saturating_sub(1) && total >= len && total - len >= at {
        half.fill(at, len, &mut buf);
    }
    buf
}

fn is_finished(half: &mut SendHalf) -> bool {
    half.finish();
    half.finished()
}

/// Whether the half does what the step says.
fn agrees(alloc: Global, half: &mut SendHalf, step: Step) -> bool {
    match step {
        Sends(piece) => return half.next() == piece_of(piece),
        Again(piece) => return half.resend() == piece_of(piece),
        Acks(ack, seq, wnd, answer) => return half.ack(Seq(ack), Seq(seq), wnd) == answer,
        Writes(bytes) => return is_written(half, bytes),
        Shares(bytes) => return is_shared(alloc, half, bytes),
        Finishes => return is_finished(half),
        Has(at, len, bytes) => return bytes_at(half, at, len) == bytes,
        Window(wnd) => return half.window() == wnd,
        Armed => return half.armed(),
        Clear => return half.clear(),
    }
}

/// How many of the steps come out as they are written down, up to the first that does not.
fn done(alloc: Global, half: &mut SendHalf, steps: &[Step]) -> usize {
    for (count, step) in steps.iter().enumerate() {
        if !agrees(alloc, half, *step) {
            return count;
        }
    }
    steps.len()
}

const IN_ORDER: &[Step] = &[
    Writes(b"abcdefg"),
    Finishes,
    Sends(Syn),
    Sends(Nothing),
    Again(Syn),
    Acks(ISS, 8, 5, Ack::Same),
    Acks(0, 8, 5, Ack::Beyond),
    Acks(0xffff_ffff, 8, 5, Ack::New(1)),
    Sends(Said::Bytes(0, 3)),
    Sends(Said::Bytes(3, 2)),
    Sends(Nothing),
    Again(Said::Bytes(0, 3)),
    Acks(1, 8, 0, Ack::New(2)),
    Acks(4, 8, 0, Ack::New(3)),
    Again(Said::Bytes(5, 1)),
    Acks(4, 8, 1, Ack::Same),
    Sends(Nothing),
    Acks(4, 8, 2, Ack::Same),
    Sends(Last(6, 1)),
    // it is older, and brings no window
    Acks(6, 7, 9, Ack::New(2)),
    Window(2),
    Sends(Fin(7)),
    Again(Fin(7)),
    Armed,
    Acks(7, 8, 9, Ack::New(1)),
    Clear,
    Again(Nothing),
];

#[test]
fn symbols_are_sent_in_order(rt: HostRuntime) {
    let mut half = SendHalf::make(rt.alloc(), Seq(ISS), Seq(7), 9, 3);
    let count = done(rt.alloc(), &mut half, IN_ORDER);
    assert_eq!(rt; count, IN_ORDER.len());
}

/// A half of which 40 bytes were sent and acknowledged elsewhere.
fn resumed(alloc: Global) -> Result<SendHalf, NoMemory> {
    let parts = EndpointParts {
        irs: 7,
        iss: 1,
        got: 0,
        fin: false,
        una: 41,
        wnd: 6,
        wl1: 8,
        wl2: 42,
        mss: 1460,
        served: 0,
        unread: Bytes::from_slice(alloc, b"")?,
    };
    Ok(SendHalf::restore(alloc, &parts))
}

const UNTIL_ACKNOWLEDGED: &[Step] = &[
    Clear,
    Writes(b"abcd"),
    Sends(Last(40, 4)),
    Acks(44, 8, 6, Ack::New(2)),
    Writes(b"ef"),
    Sends(Last(44, 2)),
    Has(43, 3, *b"def-"),
];

/// What is acknowledged, sent and queued, and the numbers of the segment that brought the window.
fn numbers_of(half: &SendHalf) -> [u32; 5] {
    [
        half.una(),
        half.nxt(),
        half.total(),
        half.wl1().0,
        half.wl2().0,
    ]
}

/// Whether a half does all steps, and has these numbers then.
fn is_resumed(alloc: Global, half: &mut SendHalf) -> bool {
    done(alloc, half, UNTIL_ACKNOWLEDGED) == UNTIL_ACKNOWLEDGED.len()
        && numbers_of(half) == [43, 47, 46, 8, 44]
}

#[test]
fn bytes_are_written_until_they_are_acknowledged(rt: HostRuntime) {
    let mut half = resumed(rt.alloc()).expect(&rt, "memory");
    assert!(rt; is_resumed(rt.alloc(), &mut half));
}

/// A client learns the cluster's first number, and the size that it names.
#[test]
fn peers_are_introduced(rt: HostRuntime) {
    let mut client = SendHalf::make(rt.alloc(), Seq(1), Seq(0), 9, 536);
    client.peer(Seq(5), 20);
    let told = (client.mss(), client.finished(), client.iss(), client.irs());
    assert_eq!(rt; told, (20, false, Seq(1), Seq(5)));
}

const SHARED: &[Step] = &[
    Writes(b"ab"),
    Shares(b"cde"),
    Shares(b"fg"),
    Has(1, 4, *b"bcde"),
    Sends(Syn),
    Acks(0xffff_ffff, 8, 9, Ack::New(1)),
    Sends(Said::Bytes(0, 3)),
    Acks(2, 8, 9, Ack::New(3)),
    Has(3, 4, *b"defg"),
];

#[test]
fn shared_bytes_stand_where_copies_do(rt: HostRuntime) {
    let mut half = SendHalf::make(rt.alloc(), Seq(ISS), Seq(7), 9, 3);
    let count = done(rt.alloc(), &mut half, SHARED);
    assert_eq!(rt; count, SHARED.len());
}

const FILE_BYTES: usize = 1 << 20;

const PARTS: usize = 1000;

const HALVES: usize = 64;

/// A file that begins with these bytes.
fn file(alloc: Global, len: usize, begin: &[u8]) -> Result<Shared, NoMemory> {
    let mut bytes = Vec::from_slice(alloc, begin)?;
    bytes.resize(len, b'x')?;
    Shared::from_slice(alloc, &bytes)
}

/// All of a file, as a part of it.
fn whole(file: &Shared) -> Result<Shared, NoMemory> {
    file.share()?.part(0, file.len())
}

/// A half that was given the whole file so often.
fn loaded(alloc: Global, file: &Shared, times: usize) -> Result<SendHalf, NoMemory> {
    let mut half = SendHalf::make(alloc, Seq(ISS), Seq(7), 9, 3);
    for _ in 0..times {
        if !is_given(&mut half, whole(file)?) {
            return Err(NoMemory);
        }
    }
    Ok(half)
}

/// Halves that were given one file so often.
fn all_loaded(alloc: Global, file: &Shared, count: usize) -> Result<Vec<SendHalf>, NoMemory> {
    let mut halves = Vec::new(alloc);
    for _ in 0..count {
        halves.push(loaded(alloc, file, PARTS)?)?;
    }
    Ok(halves)
}

/// Whether a half was given all parts, of which the last stands at its end.
fn is_loaded(half: &SendHalf) -> bool {
    let total = half.total();
    total as usize == PARTS * FILE_BYTES && bytes_at(half, total - FILE_BYTES as u32, 4) == *b"file"
}

/// All halves together were given 67,108,864,000 bytes, which are one file's.
#[test]
fn one_file_is_held_once(rt: HostRuntime) {
    let file = file(rt.alloc(), FILE_BYTES, b"file").expect(&rt, "memory");
    let halves = all_loaded(rt.alloc(), &file, HALVES).expect(&rt, "memory");
    for half in &halves {
        assert!(rt; is_loaded(half));
    }
}

//! Each call once, with ample memory, beside what the rules give.

use Step::{Comes, Consumes, Discards, Finished, Unread, Window};
use lard_recv::{RecvHalf, Took};
use lard_seq::Seq;

/// What happens to a half, and what it makes of it.
#[derive(Clone, Copy)]
enum Step {
    /// A segment's number, its bytes and whether a FIN follows; how it is taken; how many bytes came in all then, and the next number.
    Comes(u32, &'static [u8], bool, Took, u32, u32),
    /// The window has so many bytes.
    Window(u32),
    Consumes(usize),
    /// These bytes are unread.
    Unread(&'static [u8]),
    /// The FIN was taken.
    Finished,
    /// It begins to discard.
    Discards,
}

fn is_consumed(half: &mut RecvHalf, n: usize) -> bool {
    if n > half.unread().len() {
        return false;
    }
    half.consume(n);
    true
}

fn begins_to_discard(half: &mut RecvHalf) -> bool {
    let before = half.discarding();
    half.discard_on();
    !before && half.discarding()
}

/// Whether the half does what the step says.
fn agrees(half: &mut RecvHalf, step: Step) -> bool {
    match step {
        Comes(seq, payload, fin, took, got, next) => {
            return half.arrive(Seq(seq), payload, fin) == took
                && half.got() == got
                && half.next() == Seq(next);
        }
        Window(bytes) => return half.window() == bytes,
        Consumes(n) => return is_consumed(half, n),
        Unread(bytes) => return half.unread() == bytes,
        Finished => return half.finished(),
        Discards => return begins_to_discard(half),
    }
}

/// How many of the steps come out as they are written down, up to the first that does not.
fn done(half: &mut RecvHalf, steps: &[Step]) -> usize {
    for (count, step) in steps.iter().enumerate() {
        if !agrees(half, *step) {
            return count;
        }
    }
    steps.len()
}

/// The byte after the SYN has the number 0xffff_fffe.
const IN_ORDER: &[Step] = &[
    Comes(0xffff_ffff, b"b", false, Took::Ahead, 0, 0xffff_fffe),
    Comes(0xffff_fffe, b"abc", false, Took::Bytes(3), 3, 1),
    Comes(0xffff_fffe, b"abc", false, Took::Old, 3, 1),
    Comes(0xffff_ffff, b"bcde", false, Took::Bytes(2), 5, 3),
    Comes(4, b"", true, Took::Ahead, 5, 3),
    Comes(2, b"e", true, Took::Bytes(0), 5, 4),
    Comes(4, b"f", false, Took::Old, 5, 4),
    Comes(5, b"f", false, Took::Ahead, 5, 4),
    Finished,
    Unread(b"abcde"),
    Window(16_379),
    Consumes(2),
    Unread(b"cde"),
];

#[test]
fn segments_are_taken_in_order(rt: HostRuntime) {
    let half = RecvHalf::make(rt.alloc(), Seq(0xffff_fffd));
    let mut half = half.expect(&rt, "memory");
    assert_eq!(rt; done(&mut half, IN_ORDER), IN_ORDER.len());
}

/// One byte fits, and two where all are read.
const FITS: &[Step] = &[
    Window(1),
    Comes(16_393, b"yz", true, Took::Bytes(1), 16_384, 16_394),
    Window(0),
    Consumes(16_383),
    Comes(16_394, b"z", true, Took::Bytes(1), 16_385, 16_396),
    Unread(b"yz"),
];

#[test]
fn the_window_is_what_fits(rt: HostRuntime) {
    let bytes = [b'x'; 16_384];
    let half = RecvHalf::restore(rt.alloc(), Seq(9), 16_383, false, &bytes[1..]);
    let mut half = half.expect(&rt, "memory");
    assert_eq!(rt; done(&mut half, FITS), FITS.len());
}

/// A stream has 2^30 bytes at most, and the last of them is discarded.
const LAST: &[Step] = &[
    Window(1),
    Discards,
    Comes(
        1 << 30,
        b"ab",
        false,
        Took::Bytes(1),
        1 << 30,
        (1 << 30) + 1,
    ),
    Window(0),
    Unread(b""),
];

#[test]
fn the_window_ends_with_the_stream(rt: HostRuntime) {
    let half = RecvHalf::restore(rt.alloc(), Seq(0), (1 << 30) - 1, false, b"");
    let mut half = half.expect(&rt, "memory");
    assert_eq!(rt; (half.irs(), done(&mut half, LAST)), (Seq(0), LAST.len()));
}

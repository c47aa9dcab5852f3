//! Rows worked out by hand from RFC 9293: table 6 of 3.10.7.4, on both sides of where the numbers begin again, and the
//! sizes of 3.7.1.

use lard_arrival::{bare, is_acceptable, is_allowed, peer_mss};
use lard_segment::{Flags, Segment};
use lard_seq::Seq;

/// ACK alone.
const ACK: Flags = Flags {
    syn: false,
    ack: true,
    fin: false,
    rst: false,
    psh: false,
};

const SYN: Flags = Flags { syn: true, ..ACK };

const FIN: Flags = Flags { fin: true, ..ACK };

const RST: Flags = Flags { rst: true, ..ACK };

/// A segment's number, control bits and data, RCV.NXT and RCV.WND, and whether it is acceptable, or allowed.
type Row = (u32, Flags, &'static [u8], u32, u32, bool, bool);

const NO_LENGTH: &[Row] = &[
    (100, ACK, b"", 100, 0, true, true),
    (101, ACK, b"", 100, 0, false, false),
    (99, RST, b"", 100, 0, false, false),
    (99, ACK, b"", 100, 10, false, false),
    (100, ACK, b"", 100, 10, true, false),
    (109, RST, b"", 100, 10, true, false),
    (110, ACK, b"", 100, 10, false, false),
    (0xffff_fffd, ACK, b"", 0xffff_fffe, 6, false, false),
    (0xffff_fffe, ACK, b"", 0xffff_fffe, 6, true, false),
    (3, ACK, b"", 0xffff_fffe, 6, true, false),
    (4, ACK, b"", 0xffff_fffe, 6, false, false),
];

const SOME_LENGTH: &[Row] = &[
    (100, ACK, b"a", 100, 0, false, true),
    (100, FIN, b"", 100, 0, false, true),
    (101, FIN, b"", 100, 0, false, false),
    (100, RST, b"a", 100, 0, false, false),
    (100, SYN, b"", 100, 0, false, false),
    (109, ACK, b"ab", 100, 10, true, false),
    (110, ACK, b"ab", 100, 10, false, false),
    (98, ACK, b"ab", 100, 10, false, false),
    (98, ACK, b"abc", 100, 10, true, false),
    (98, FIN, b"ab", 100, 10, true, false),
    (99, SYN, b"", 100, 10, false, false),
    (99, SYN, b"a", 100, 10, true, false),
    // it begins before a window of one number, and ends behind it
    (99, ACK, b"abc", 100, 1, false, false),
    (0xffff_fffd, ACK, b"a", 0xffff_fffe, 6, false, false),
    (0xffff_fffd, ACK, b"ab", 0xffff_fffe, 6, true, false),
    (3, ACK, b"ab", 0xffff_fffe, 6, true, false),
    (0xffff_ffff, ACK, b"ab", 1, 4, false, false),
    (0xffff_ffff, ACK, b"abc", 1, 4, true, false),
];

/// Whether the answers are those of the row.
fn is_right(row: &Row) -> bool {
    let &(seq, flags, payload, nxt, wnd, acceptable, allowed) = row;
    let segment = segment(seq, flags, payload);
    is_acceptable(&segment, Seq(nxt), wnd) == acceptable
        && is_allowed(&segment, Seq(nxt), wnd) == allowed
}

/// The first row whose answers are others.
fn wrong_row(rows: &[Row]) -> Option<usize> {
    for (at, row) in rows.iter().enumerate() {
        if !is_right(row) {
            return Some(at);
        }
    }
    None
}

#[test]
fn four_cases_of_acceptability(rt: HostRuntime) {
    assert_eq!(rt;
        (wrong_row(NO_LENGTH), wrong_row(SOME_LENGTH)),
        (None, None)
    );
}

/// Whether a segment with these bits and with text is an ACK without any as it is bare.
fn is_bared(flags: Flags) -> bool {
    bare(&segment(7, flags, b"abc")) == segment(7, ACK, b"")
}

#[test]
fn bare_segments_have_no_text(rt: HostRuntime) {
    assert_eq!(rt; (is_bared(ACK), is_bared(FIN)), (true, true));
}

/// The size that a SYN names, and the one that is used.
const SIZES: &[(Option<u16>, u16)] = &[
    (None, 536),
    (Some(0), 1),
    (Some(1), 1),
    (Some(1460), 1460),
    (Some(1461), 1460),
    (Some(65_535), 1460),
];

/// The first size that is named for which another one is used.
fn wrong_size() -> Option<Option<u16>> {
    for &(named, size) in SIZES {
        if peer_mss(named) != size {
            return Some(named);
        }
    }
    None
}

#[test]
fn sizes_are_brought_into_range(rt: HostRuntime) {
    assert_eq!(rt; wrong_size(), None);
}

/// A segment with these parts.
fn segment(seq: u32, flags: Flags, payload: &[u8]) -> Segment<'_> {
    Segment {
        seq: Seq(seq),
        ack: Seq(5000),
        flags,
        wnd: 9,
        mss: Some(536),
        payload,
    }
}

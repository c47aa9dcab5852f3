//! Ranges beside what RFC 9110, 14 says of each, and parts beside what its rules give.

use lard_ranges::{Part, Range, apply, read, trimmed};

/// The first and the last byte that are named: `5-` has the first alone, and `-9` the second alone, which counts from the end then.
type Named = (Option<u64>, Option<u64>);

/// The range that names these.
fn range((first, last): Named) -> Option<Range> {
    match first {
        Some(first) => Some(Range::From { first, last }),
        None => Some(Range::Suffix(last?)),
    }
}

const READABLE: &[(&[u8], Named)] = &[
    (b"bytes=1-3", (Some(1), Some(3))),
    (b"bytes=0-0", (Some(0), Some(0))),
    (b"bytes=5-", (Some(5), None)),
    (b"bytes=-9", (None, Some(9))),
    (b"bytes=-0", (None, Some(0))),
    (b"bytes=0-499", (Some(0), Some(499))),
    (b"bytes=9500-", (Some(9_500), None)),
    (b"bytes=007-07", (Some(7), Some(7))),
    (b"bytes=000000000000000000-", (Some(0), None)),
    (
        b"BYTES=4-999999999999999999",
        (Some(4), Some(999_999_999_999_999_999)),
    ),
    (
        b"bYtEs=-999999999999999999",
        (None, Some(999_999_999_999_999_999)),
    ),
    (b" \t bytes=1-3\t ", (Some(1), Some(3))),
];

/// The first value that is read otherwise.
fn misread(rows: &[(&'static [u8], Named)]) -> Option<&'static [u8]> {
    for &(value, named) in rows {
        if read(value) != range(named) {
            return Some(value);
        }
    }
    None
}

#[test]
fn ranges_are_read(rt: HostRuntime) {
    assert_eq!(rt; misread(READABLE), None);
}

const NO_RANGES: &[&[u8]] = &[
    b"",
    b"bytes",
    b"bytes=",
    b"bytes=-",
    b"bytes=1",
    b"bytes=3-1",
    b"bytes=0-0,2-3",
    b"bytes=0-0,",
    b"bytes=0-0,-1",
    b"bytes=0-1000000000000000000",
    b"bytes=0000000000000000000-",
    b"bytes=-1000000000000000000",
    b"bytes= 0-1",
    b"bytes =0-1",
    b"bytes=0 -1",
    b"bytes=0- 1",
    b"bytes:0-1",
    b"byte=0-1",
    b"bytess=0-1",
    b"items=0-1",
    b"bytes=+0-1",
    b"bytes=--1",
    b"bytes=1--2",
    b"bytes=1-2-3",
    b"bytes=a-",
    b"bytes=0-:",
    b"bytes=0-/",
    b"\nbytes=0-1",
    b"bytes=0-1\r",
];

/// The first value that is read as a range.
fn read_as_range(values: &[&'static [u8]]) -> Option<&'static [u8]> {
    for &value in values {
        if read(value).is_some() {
            return Some(value);
        }
    }
    None
}

#[test]
fn other_values_are_none(rt: HostRuntime) {
    assert_eq!(rt; read_as_range(NO_RANGES), None);
}

/// A range, how many bytes there are, and the first and the last one of the part.
const SLICES: &[(Named, u64, u64, u64)] = &[
    ((Some(1), Some(3)), 5, 1, 3),
    ((Some(0), Some(499)), 10_000, 0, 499),
    ((Some(4), Some(999_999_999_999_999_999)), 5, 4, 4),
    ((Some(0), None), 5, 0, 4),
    ((Some(4), None), 5, 4, 4),
    ((Some(9_500), None), 10_000, 9_500, 9_999),
    ((None, Some(9)), 5, 0, 4),
    ((None, Some(5)), 5, 0, 4),
    ((None, Some(1)), 5, 4, 4),
    ((None, Some(500)), 10_000, 9_500, 9_999),
    (
        (Some(u64::MAX - 1), None),
        u64::MAX,
        u64::MAX - 1,
        u64::MAX - 1,
    ),
];

/// What lies behind the end, of so many bytes.
const UNSATISFIABLE: &[(Named, u64)] = &[
    ((Some(5), None), 5),
    ((Some(5), Some(9)), 5),
    ((None, Some(0)), 5),
    ((Some(u64::MAX), None), u64::MAX),
];

/// Where there are no bytes all of them are the part.
const OF_NONE: &[Named] = &[
    (Some(0), None),
    (Some(0), Some(4)),
    (None, Some(5)),
    (None, Some(0)),
];

/// Whether a range of so many bytes is this part.
fn is_part(named: Named, n: u64, part: Part) -> bool {
    match range(named) {
        Some(range) => return apply(range, n) == part,
        None => return false,
    }
}

fn wrong_slice() -> Option<Named> {
    for &(named, n, first, last) in SLICES {
        if !is_part(named, n, Part::Slice { first, last }) {
            return Some(named);
        }
    }
    None
}

fn satisfiable() -> Option<Named> {
    for &(named, n) in UNSATISFIABLE {
        if !is_part(named, n, Part::Unsatisfiable) {
            return Some(named);
        }
    }
    None
}

fn not_whole() -> Option<Named> {
    for &named in OF_NONE {
        if !is_part(named, 0, Part::Whole) {
            return Some(named);
        }
    }
    None
}

#[test]
fn parts_are_found(rt: HostRuntime) {
    assert_eq!(rt; [wrong_slice(), satisfiable(), not_whole()], [None; 3]);
}

const TRIMMED: &[(&[u8], &[u8])] = &[
    (b"", b""),
    (b" \t ", b""),
    (b" \ta b\t ", b"a b"),
    (b"\na\r", b"\na\r"),
];

fn wrongly_trimmed() -> Option<&'static [u8]> {
    for &(bytes, want) in TRIMMED {
        if trimmed(bytes) != want {
            return Some(bytes);
        }
    }
    None
}

#[test]
fn blanks_are_trimmed(rt: HostRuntime) {
    assert_eq!(rt; wrongly_trimmed(), None);
}

//! The cut at and beside each limit, beside what the rule gives.

use lard_block::{Found, cut};
use std::alloc::{AllocError, Global};

const SHORT: &[(&[u8], Found)] = &[
    (b"", Found::More { skip: 0 }),
    (b"\r", Found::More { skip: 0 }),
    (b"\n", Found::More { skip: 0 }),
    (b"\r\n", Found::More { skip: 2 }),
    (b"\r\n\r", Found::More { skip: 2 }),
    (b"\r\n\r\n", Found::More { skip: 4 }),
    (b"\r\n\r\n\r\n", Found::More { skip: 6 }),
    (b"\r\r\n\r\n", Found::Block { skip: 0, len: 5 }),
    (b"\n\r\n\r\n", Found::Block { skip: 0, len: 5 }),
    (b"\r\n\r\r\n\r\n", Found::Block { skip: 2, len: 5 }),
    (b"a\r\n\r", Found::More { skip: 0 }),
    (b"a\n\n", Found::More { skip: 0 }),
    (b"a\r\n\n", Found::More { skip: 0 }),
    (b"a\r\n\r\n\r\n\r\n", Found::Block { skip: 0, len: 5 }),
    (b"a\r\n\r\nb\r\n\r\n", Found::Block { skip: 0, len: 5 }),
    (
        b"\r\nGET / HTTP/1.1\r\nHost: a\r\n\r\nGET",
        Found::Block { skip: 2, len: 27 },
    ),
];

/// The first text that is cut otherwise.
fn wrong_short(rows: &[(&'static [u8], Found)]) -> Option<&'static [u8]> {
    for &(bytes, want) in rows {
        if cut(bytes) != want {
            return Some(bytes);
        }
    }
    None
}

#[test]
fn short_texts_are_cut(rt: HostRuntime) {
    assert_eq!(rt; wrong_short(SHORT), None);
}

/// So many pairs CR LF, so many bytes `x`, and then these bytes; and where they are cut.
type LongRow = (usize, usize, &'static [u8], Found);

const LONG: &[LongRow] = &[
    (
        0,
        8_187,
        b"\r\n\r\n",
        Found::Block {
            skip: 0,
            len: 8_191,
        },
    ),
    (
        0,
        8_188,
        b"\r\n\r\n",
        Found::Block {
            skip: 0,
            len: 8_192,
        },
    ),
    (0, 8_189, b"\r\n\r\n", Found::TooLong { skip: 0 }),
    (0, 8_192, b"\r\n\r\n", Found::TooLong { skip: 0 }),
    (0, 8_188, b"\r\n\r", Found::More { skip: 0 }),
    (0, 8_189, b"\r\n\r", Found::TooLong { skip: 0 }),
    (0, 8_191, b"", Found::More { skip: 0 }),
    (0, 8_192, b"", Found::TooLong { skip: 0 }),
    (0, 8_193, b"", Found::TooLong { skip: 0 }),
    (
        2,
        8_188,
        b"\r\n\r\n",
        Found::Block {
            skip: 4,
            len: 8_192,
        },
    ),
    (2, 8_189, b"\r\n\r\n", Found::TooLong { skip: 4 }),
    (2, 8_191, b"", Found::More { skip: 4 }),
    (2, 8_192, b"", Found::TooLong { skip: 4 }),
    (4_096, 0, b"", Found::More { skip: 8_192 }),
    (
        5_000,
        1,
        b"\r\n\r\nx",
        Found::Block {
            skip: 10_000,
            len: 5,
        },
    ),
];

/// So many pairs CR LF, so many bytes `x`, and then these bytes.
fn text(alloc: Global, pairs: usize, fill: usize, end: &[u8]) -> Result<Vec<u8>, AllocError> {
    let mut text = Vec::new(alloc);
    for _ in 0..pairs {
        text.extend_from_slice(b"\r\n")?;
    }
    text.extend_from_slice(&vec![in alloc; b'x'; fill]?)?;
    text.extend_from_slice(end)?;
    Ok(text)
}

/// Where such a text is cut.
fn cut_of(alloc: Global, pairs: usize, fill: usize, end: &[u8]) -> Result<Found, AllocError> {
    let text = text(alloc, pairs, fill, end)?;
    Ok(cut(&text))
}

/// The first text that is cut otherwise.
fn wrong_long(alloc: Global, rows: &[LongRow]) -> Result<Option<usize>, AllocError> {
    for (at, &(pairs, fill, end, want)) in rows.iter().enumerate() {
        if cut_of(alloc, pairs, fill, end)? != want {
            return Ok(Some(at));
        }
    }
    Ok(None)
}

#[test]
fn long_texts_are_cut(rt: HostRuntime) {
    assert_eq!(rt; wrong_long(rt.alloc(), LONG), Ok(None));
}

//! Batches of pipelined requests, beside the verdicts and the bytes that the rules give.

use lard_base::NoMemory;
use lard_reader::batch;
use lard_request::{Code, Verdict};
use std::alloc::{AllocError, Global};

/// The code of a fault, as text.
fn code_text(code: Code) -> &'static [u8] {
    match code {
        Code::Ok => b"200",
        Code::BadRequest => b"400",
        Code::NotFound => b"404",
        Code::TooLarge => b"413",
        Code::FieldsTooLarge => b"431",
        Code::NotImplemented => b"501",
    }
}

/// The verdicts as text: a path or a code, `^` for HEAD, `!` where the connection closes, and a space.
fn spelled(alloc: Global, verdicts: &[Verdict]) -> Result<Vec<u8>, AllocError> {
    let mut text = Vec::new(alloc);
    for verdict in verdicts {
        match verdict {
            Verdict::Serve { path, head, close } => {
                text.extend_from_slice(path.as_slice())?;
                text.extend_from_slice(if *head { b"^" } else { b"" })?;
                text.extend_from_slice(if *close { b"! " } else { b" " })?;
            }
            Verdict::Fault(code) => {
                text.extend_from_slice(code_text(*code))?;
                text.extend_from_slice(b"! ")?;
            }
        }
    }
    Ok(text)
}

/// The first bytes, so many bytes `x`, so many times the same 28 bytes of a request, and then the last bytes.
fn text(
    alloc: Global,
    first: &[u8],
    fill: usize,
    times: usize,
    last: &[u8],
) -> Result<Vec<u8>, AllocError> {
    let mut text = Vec::from_slice(alloc, first)?;
    text.extend_from_slice(&vec![in alloc; b'x'; fill]?)?;
    for _ in 0..times {
        text.extend_from_slice(b"GET /a HTTP/1.1\r\nHost: h\r\n\r\n")?;
    }
    text.extend_from_slice(last)?;
    Ok(text)
}

/// The parts of a text; the verdicts on it, and how many of its bytes they use.
type Row = (
    &'static [u8],
    usize,
    usize,
    &'static [u8],
    &'static [u8],
    usize,
);

const ROWS: &[Row] = &[
    (b"", 0, 0, b"", b"", 0),
    (b"\r\n", 0, 0, b"", b"", 2),
    (b"\r\n\r\n\r", 0, 0, b"", b"", 4),
    (b"\r\n", 0, 0, b"GET /a", b"", 2),
    (b"", 0, 1, b"", b"/a ", 28),
    (b"\r\n", 0, 1, b"\r\nGET", b"/a ", 32),
    (
        b"HEAD /b HTTP/1.1\r\nHost: h\r\n\r\n",
        0,
        1,
        b"GET /c HTTP/1.0\r\n\r\n\r\n",
        b"/b^ /a /c! ",
        76,
    ),
    (b"GET /c HTTP/1.0\r\n\r\n", 0, 2, b"", b"/c! ", 19),
    (b"x\r\n\r\n", 0, 1, b"", b"400! ", 5),
    (b"", 0, 8, b"\r\n", b"/a /a /a /a /a /a /a /a ", 224),
    (b"", 0, 9, b"", b"/a /a /a /a /a /a /a /a ", 224),
    (b"\r\n\r\n", 0, 7, b"\r\n", b"/a /a /a /a /a /a /a ", 202),
    (b"", 8_191, 0, b"", b"", 0),
    (b"", 8_192, 0, b"", b"431! ", 8_192),
    (b"\r\n", 8_192, 2, b"", b"431! ", 8_250),
    (
        b"GET /b HTTP/1.1\r\nHost: h\r\n\r\n",
        8_192,
        1,
        b"",
        b"/b 431! ",
        8_248,
    ),
];

/// Whether a batch of the row's text has its verdicts, and uses so many bytes.
fn is_read(alloc: Global, row: &Row) -> Result<bool, NoMemory> {
    let &(first, fill, times, last, verdicts, used) = row;
    let bytes = text(alloc, first, fill, times, last)?;
    let reading = batch(alloc, &bytes)?;
    let told = spelled(alloc, reading.verdicts.as_slice())?;
    Ok(told.as_slice() == verdicts && reading.used == used)
}

/// The first row that is read otherwise.
fn misread(alloc: Global, rows: &[Row]) -> Result<Option<usize>, NoMemory> {
    for (at, row) in rows.iter().enumerate() {
        if !is_read(alloc, row)? {
            return Ok(Some(at));
        }
    }
    Ok(None)
}

#[test]
fn batches_are_read(rt: HostRuntime) {
    assert_eq!(rt; misread(rt.alloc(), ROWS), Ok(None));
}

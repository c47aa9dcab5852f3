//! Responses beside their bytes, as RFC 9112 writes them.

use lard_base::{Bytes, NoMemory};
use lard_request::Code;
use lard_response::{head, may_write, write};
use std::alloc::Global;

/// The head of a response, where one of this code may tell of so many bytes, and close or not.
fn head_of(alloc: Global, code: Code, n: u64, close: bool) -> Result<Option<Bytes>, NoMemory> {
    match code {
        Code::Ok => Ok(Some(head(alloc, code, n, close)?)),
        Code::NotFound => {
            if n > 0 {
                return Ok(None);
            }
            Ok(Some(head(alloc, code, n, close)?))
        }
        _ => {
            if n > 0 || !close {
                return Ok(None);
            }
            Ok(Some(head(alloc, code, n, close)?))
        }
    }
}

/// A code, a body, whether the head alone is written, whether the connection closes, and the bytes of the response.
type Row = (Code, &'static [u8], bool, bool, &'static [u8]);

const RESPONSES: &[Row] = &[
    (
        Code::Ok,
        b"hello",
        false,
        false,
        b"HTTP/1.1 200 OK\r\nContent-Length: 5\r\n\r\nhello",
    ),
    (
        Code::Ok,
        b"hello",
        true,
        false,
        b"HTTP/1.1 200 OK\r\nContent-Length: 5\r\n\r\n",
    ),
    (
        Code::Ok,
        b"0123456789",
        false,
        true,
        b"HTTP/1.1 200 OK\r\nContent-Length: 10\r\nConnection: close\r\n\r\n0123456789",
    ),
    (
        Code::Ok,
        b"",
        true,
        true,
        b"HTTP/1.1 200 OK\r\nContent-Length: 0\r\nConnection: close\r\n\r\n",
    ),
    (
        Code::NotFound,
        b"",
        false,
        false,
        b"HTTP/1.1 404 Not Found\r\nContent-Length: 0\r\n\r\n",
    ),
    (
        Code::BadRequest,
        b"",
        false,
        true,
        b"HTTP/1.1 400 Bad Request\r\nContent-Length: 0\r\nConnection: close\r\n\r\n",
    ),
    (
        Code::TooLarge,
        b"",
        false,
        true,
        b"HTTP/1.1 413 Content Too Large\r\nContent-Length: 0\r\nConnection: close\r\n\r\n",
    ),
    (
        Code::FieldsTooLarge,
        b"",
        false,
        true,
        b"HTTP/1.1 431 Request Header Fields Too Large\r\nContent-Length: 0\r\nConnection: close\r\n\r\n",
    ),
    (
        Code::NotImplemented,
        b"",
        false,
        true,
        b"HTTP/1.1 501 Not Implemented\r\nContent-Length: 0\r\nConnection: close\r\n\r\n",
    ),
];

/// Whether a response may be written, and is these bytes.
fn is_written(alloc: Global, row: &Row) -> Result<bool, NoMemory> {
    let &(code, body, head, close, want) = row;
    if !may_write(code, body, close) {
        return Ok(false);
    }
    Ok(write(alloc, code, body, head, close)?.as_slice() == want)
}

/// Whether there is a head, and it is these bytes up to the body, where the body is written.
fn is_headed(alloc: Global, row: &Row) -> Result<bool, NoMemory> {
    let &(code, body, head, close, want) = row;
    let rest: &[u8] = if head { b"" } else { body };
    match head_of(alloc, code, body.len() as u64, close)? {
        Some(first) => Ok(is_joined(want, first.as_slice(), rest)),
        None => Ok(false),
    }
}

/// Whether bytes are these, one part behind the other.
fn is_joined(bytes: &[u8], first: &[u8], rest: &[u8]) -> bool {
    bytes.get(..first.len()) == Some(first) && bytes.get(first.len()..) == Some(rest)
}

/// The first response that is written otherwise, or whose head is another.
fn wrong_response(alloc: Global, rows: &[Row]) -> Result<Option<usize>, NoMemory> {
    for (at, row) in rows.iter().enumerate() {
        if !is_written(alloc, row)? || !is_headed(alloc, row)? {
            return Ok(Some(at));
        }
    }
    Ok(None)
}

/// Each response, beside its head with the body behind it.
#[test]
fn responses_are_written(rt: HostRuntime) {
    assert_eq!(rt; wrong_response(rt.alloc(), RESPONSES), Ok(None));
}

/// How long a head is, where there is one.
fn head_len(alloc: Global, code: Code, n: u64, close: bool) -> Result<Option<usize>, NoMemory> {
    match head_of(alloc, code, n, close)? {
        Some(first) => Ok(Some(first.len())),
        None => Ok(None),
    }
}

/// A code, how many bytes the body has, whether the connection closes, and the length of the head, where there is one.
type Length = (Code, u64, bool, Option<usize>);

const LENGTHS: &[Length] = &[
    (Code::Ok, 5, false, Some(38)),
    (Code::Ok, 0, false, Some(38)),
    (Code::Ok, 1_048_576, true, Some(63)),
    (Code::Ok, u64::MAX, true, Some(76)),
    (Code::NotFound, 0, false, Some(45)),
    (Code::FieldsTooLarge, 0, true, Some(86)),
    (Code::NotFound, 1, false, None),
    (Code::NotFound, 1, true, None),
    (Code::BadRequest, 0, false, None),
    (Code::BadRequest, 1, true, None),
];

/// The first head of another length.
fn wrong_length(alloc: Global, rows: &[Length]) -> Result<Option<usize>, NoMemory> {
    for (at, &(code, n, close, want)) in rows.iter().enumerate() {
        if head_len(alloc, code, n, close)? != want {
            return Ok(Some(at));
        }
    }
    Ok(None)
}

#[test]
fn heads_have_their_lengths(rt: HostRuntime) {
    assert_eq!(rt; wrong_length(rt.alloc(), LENGTHS), Ok(None));
}

/// A code, a body, whether the connection closes, and whether such a response may be written.
const WRITABLE: &[(Code, &[u8], bool, bool)] = &[
    (Code::Ok, b"x", false, true),
    (Code::Ok, b"x", true, true),
    (Code::NotFound, b"", false, true),
    (Code::NotFound, b"x", false, false),
    (Code::BadRequest, b"", true, true),
    (Code::BadRequest, b"", false, false),
    (Code::BadRequest, b"x", true, false),
    (Code::NotImplemented, b"", false, false),
];

/// The first row of which something else is told.
fn wrongly_told() -> Option<usize> {
    for (at, &(code, body, close, want)) in WRITABLE.iter().enumerate() {
        if may_write(code, body, close) != want {
            return Some(at);
        }
    }
    None
}

#[test]
fn what_may_not_be_written_is_told(rt: HostRuntime) {
    assert_eq!(rt; wrongly_told(), None);
}

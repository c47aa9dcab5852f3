//! The bytes of one response, written to one buffer, or of its head alone.

ghost use Rattle.std.specs.Prelude.{◌≡◌, ◌↔◌, ◌++◌, IsTrue, IfOk, OnOk};
ghost use Rattle.lard_response.specs.Response.{status_line, length_line, close_line, response, response_body, response_head, IsClosing, HasItsBody, HasItsLength};

use itoa::Buffer;
use lard_base::{Bytes, NoMemory};
use lard_request::Code;
use std::alloc::{AllocError, Global};

/// Room for the longest head: 46 bytes of a status line, 38 of a length, 19 of a close and 2 of the empty line.
const HEAD_BYTES: usize = 105;

/// Whether a response of this code may have this body, and leave the connection open or close it as `close` says. Only
/// the answer 200 has a body, and all but 200 and 404 close.
pub fn may_write(code: Code, body: &[u8], close: bool) -> bool
    ensures { IsTrue result ↔ (HasItsBody code body.now × IsClosing code close) }
{
    match code {
        Code::Ok => true,
        Code::NotFound => body.is_empty(),
        _ => body.is_empty() && close,
    }
}

/// The head of a response (RFC 9112, 4), up to and with its empty line: `n` bytes of a body follow, where it is not the
/// answer to HEAD. Where `close`, it says that the connection closes behind it (RFC 9112, 9.6). The code, `n` and
/// `close` are such as `may_write` allows. `NoMemory` where memory runs out.
pub fn head(alloc: Global, code: Code, n: u64, close: bool) -> Result<Bytes, NoMemory>
    requires length { HasItsLength code n }
    requires close { IsClosing code close }
    ensures { IfOk result (λ bytes. bytes ≡ response_head code n close) }
{
    let mut bytes = Vec::with_capacity(alloc, HEAD_BYTES)?;
    push_head(&mut bytes, code, n, close)?;
    Ok(Bytes::from_vec(bytes))
}

/// The response with this body, of which the answer to HEAD has the length alone (RFC 9110, 9.3.2): its head, as `head`
/// gives it, and the body. The code, the body and `close` are such as `may_write` allows. `NoMemory` where memory runs
/// out.
#[tactic(auto, unfolding(crate::specs::Response::response))]
pub fn write(
    alloc: Global,
    code: Code,
    body: &[u8],
    head: bool,
    close: bool,
) -> Result<Bytes, NoMemory>
    requires body { HasItsBody code body.now }
    requires close { IsClosing code close }
    ensures { IfOk result (λ bytes. bytes ≡ response code body.now head close) }
{
    let sent = sent_of(body, head);
    let mut bytes = Vec::with_capacity(alloc, HEAD_BYTES + sent.len())?;
    push_head(&mut bytes, code, body.len() as u64, close)?;
    bytes.extend_from_slice(sent)?;
    Ok(Bytes::from_vec(bytes))
}

/// Adds the head of a response with `n` bytes of a body.
fn push_head(bytes: &mut Vec<u8>, code: Code, n: u64, close: bool) -> Result<(), AllocError>
    ensures { OnOk result (bytes.new.items ≡ bytes.old.items ++ response_head code n close) }
{
    bytes.extend_from_slice(status_of(code))?;
    push_length(bytes, n)?;
    bytes.extend_from_slice(close_of(close))?;
    bytes.extend_from_slice(b"\r\n")?;
    Ok(())
}

/// The status line of a code (RFC 9112, 4).
fn status_of(code: Code) -> &'static [u8]
    ensures { result.now ≡ status_line code }
{
    match code {
        Code::Ok => b"HTTP/1.1 200 OK\r\n",
        Code::BadRequest => b"HTTP/1.1 400 Bad Request\r\n",
        Code::NotFound => b"HTTP/1.1 404 Not Found\r\n",
        Code::TooLarge => b"HTTP/1.1 413 Content Too Large\r\n",
        Code::FieldsTooLarge => b"HTTP/1.1 431 Request Header Fields Too Large\r\n",
        Code::NotImplemented => b"HTTP/1.1 501 Not Implemented\r\n",
    }
}

/// Adds the line that gives a length (RFC 9110, 8.6).
fn push_length(bytes: &mut Vec<u8>, len: u64) -> Result<(), AllocError>
    ensures { OnOk result (bytes.new.items ≡ bytes.old.items ++ length_line len) }
{
    let mut digits = Buffer::new();
    bytes.extend_from_slice(b"Content-Length: ")?;
    bytes.extend_from_slice(digits.format(len).as_bytes())?;
    bytes.extend_from_slice(b"\r\n")?;
    Ok(())
}

/// The line that says that the connection closes, or nothing.
fn close_of(close: bool) -> &'static [u8]
    ensures { result.now ≡ close_line close }
{
    if close { b"Connection: close\r\n" } else { b"" }
}

/// The body as it is sent.
fn sent_of(body: &[u8], head: bool) -> &[u8]
    ensures { result.now ≡ response_body body.now head }
{
    if head { b"" } else { body }
}

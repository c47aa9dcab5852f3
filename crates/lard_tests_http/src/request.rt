//! Verdicts at and beside each limit, beside what RFC 9110, RFC 9112 and the rules of this server give.

use Want::{Refuses, Serves};
use lard_base::NoMemory;
use lard_request::{Code, Verdict, judge};
use std::alloc::{AllocError, Global};

/// How a block is to be judged.
#[derive(Clone, Copy)]
enum Want {
    /// Its path is served, by HEAD or not, and the connection closes or not.
    Serves(&'static [u8], bool, bool),
    /// It is this fault, behind whose answer the connection closes.
    Refuses(Code),
}

/// Served by GET, and the connection goes on.
const GOES_ON: Want = Serves(b"/", false, false);

/// Served by GET, and the connection closes.
const CLOSES: Want = Serves(b"/", false, true);

const IS_BAD: Want = Refuses(Code::BadRequest);

/// Whether a verdict is as it has to be.
fn is_so(verdict: &Verdict, want: Want) -> bool {
    match verdict {
        Verdict::Serve {
            path,
            head,
            close: _,
        } => match want {
            Serves(wanted, by_head, close) => {
                return path.as_slice() == wanted && *head == by_head && verdict.closes() == close;
            }
            Refuses(_) => return false,
        },
        Verdict::Fault(found) => match want {
            Serves(_, _, _) => return false,
            Refuses(code) => return *found == code && verdict.closes(),
        },
    }
}

/// A request in HTTP/1.1 with a Host field and these fields behind it.
fn request(alloc: Global, line: &str, fields: &str) -> Result<Vec<u8>, AllocError> {
    let mut block = Vec::new(alloc);
    block.extend_from_slice(line.as_bytes())?;
    block.extend_from_slice(b" HTTP/1.1\r\nHost: h\r\n")?;
    block.extend_from_slice(fields.as_bytes())?;
    block.extend_from_slice(b"\r\n")?;
    Ok(block)
}

/// Whether a block is judged so.
fn judges(alloc: Global, block: &[u8], want: Want) -> Result<bool, NoMemory> {
    let verdict = judge(alloc, block)?;
    Ok(is_so(&verdict, want))
}

/// Whether a request with this line and these fields is.
fn judges_request(alloc: Global, line: &str, fields: &str, want: Want) -> Result<bool, NoMemory> {
    let block = request(alloc, line, fields)?;
    judges(alloc, &block, want)
}

/// The row that is judged otherwise, where there is one.
type Wrong = Option<&'static str>;

/// The first of the blocks that is not judged so.
fn wrong_block(alloc: Global, blocks: &[&'static str], want: Want) -> Result<Wrong, NoMemory> {
    for &block in blocks {
        if !judges(alloc, block.as_bytes(), want)? {
            return Ok(Some(block));
        }
    }
    Ok(None)
}

/// A line, and the path that it names.
const TARGETS: &[(&str, &[u8])] = &[
    ("GET /", b"/"),
    ("GET /a/b.html", b"/a/b.html"),
    ("GET /a?b=/c?d", b"/a"),
    ("GET /?", b"/"),
    ("GET //a", b"//a"),
    ("GET /%2e%2E/a#b", b"/%2e%2E/a#b"),
    ("GET /a\\b\"<>^`{|}", b"/a\\b\"<>^`{|}"),
    ("GET /\u{e9}", b"/\xc3\xa9"),
    ("GET http://h", b"/"),
    ("GET http://h/", b"/"),
    ("GET http://h/a?b/c", b"/a"),
    ("GET http://h?x/y", b"/"),
    ("GET http://h:80/a", b"/a"),
    ("GET HTTP://h/a", b"/a"),
    ("GET hTtP://u@h//a", b"//a"),
];

fn wrong_target(alloc: Global, rows: &[(&'static str, &'static [u8])]) -> Result<Wrong, NoMemory> {
    for &(line, path) in rows {
        if !judges_request(alloc, line, "", Serves(path, false, false))? {
            return Ok(Some(line));
        }
    }
    Ok(None)
}

#[test]
fn targets_are_read(rt: HostRuntime) {
    assert_eq!(rt; wrong_target(rt.alloc(), TARGETS), Ok(None));
}

const REFUSED_LINES: &[(&str, Code)] = &[
    ("GET *", Code::BadRequest),
    ("GET ?", Code::BadRequest),
    ("GET a", Code::BadRequest),
    ("GET h:80", Code::BadRequest),
    ("GET http://", Code::BadRequest),
    ("GET http:///a", Code::BadRequest),
    ("GET http://?a", Code::BadRequest),
    ("GET http:/h/a", Code::BadRequest),
    ("GET http:", Code::BadRequest),
    ("GET https://h/a", Code::BadRequest),
    ("GET  /", Code::BadRequest),
    ("GET / ", Code::BadRequest),
    ("GET /a b", Code::BadRequest),
    ("GET", Code::BadRequest),
    ("GET ", Code::BadRequest),
    (" GET /", Code::BadRequest),
    ("GET\t/", Code::BadRequest),
    ("G@T /", Code::BadRequest),
    ("GET /\u{7f}", Code::BadRequest),
    ("get /", Code::NotImplemented),
    ("Head /", Code::NotImplemented),
    ("GETS /", Code::NotImplemented),
    ("GE /", Code::NotImplemented),
    ("POST /", Code::NotImplemented),
    ("OPTIONS *", Code::NotImplemented),
    ("CONNECT h:80", Code::NotImplemented),
];

fn wrong_line(alloc: Global, rows: &[(&'static str, Code)]) -> Result<Wrong, NoMemory> {
    for &(line, code) in rows {
        if !judges_request(alloc, line, "", Refuses(code))? {
            return Ok(Some(line));
        }
    }
    Ok(None)
}

#[test]
fn targets_and_methods_are_refused(rt: HostRuntime) {
    assert_eq!(rt; wrong_line(rt.alloc(), REFUSED_LINES), Ok(None));
}

/// Hosts in HTTP/1.1, whose connections go on.
const HOSTS: &[&str] = &[
    "GET / HTTP/1.1\r\nHost: \r\n\r\n",
    "GET / HTTP/1.1\r\nHost:\r\n\r\n",
    "GET / HTTP/1.1\r\nhost:a\r\n\r\n",
    "GET / HTTP/1.1\r\nHOST: \t a.example:8080\t \r\n\r\n",
    "GET / HTTP/1.1\r\nHost: [::1]:80\r\n\r\n",
    "GET / HTTP/1.1\r\nHost: AZaz09-._~!$&'()*+,;=:[]%\r\n\r\n",
    "\r\n\r\nGET / HTTP/1.1\r\nHost: h\r\n\r\n",
];

/// Requests in HTTP/1.0, behind which the connection closes.
const OLD_VERSION: &[&str] = &[
    "GET / HTTP/1.0\r\n\r\n",
    "GET / HTTP/1.0\r\nHost: h\r\n\r\n",
    "GET / HTTP/1.0\r\nConnection: keep-alive\r\n\r\n",
];

const WRONG_HOSTS_AND_VERSIONS: &[&str] = &[
    "GET / HTTP/1.1\r\n\r\n",
    "GET / HTTP/1.1\r\nHost: h\r\nHost: h\r\n\r\n",
    "GET / HTTP/1.1\r\nHost: h\r\nhOST:\r\n\r\n",
    "GET / HTTP/1.0\r\nHost: h\r\nHost: h\r\n\r\n",
    "GET / HTTP/1.1\r\nHost: a b\r\n\r\n",
    "GET / HTTP/1.1\r\nHost: a/b\r\n\r\n",
    "GET / HTTP/1.1\r\nHost: u@h\r\n\r\n",
    "GET / HTTP/1.1\r\nHost: a\\b\r\n\r\n",
    "GET / HTTP/1.1\r\nHost: \u{e9}\r\n\r\n",
    "GET / HTTP/1.2\r\nHost: h\r\n\r\n",
    "GET / HTTP/2.0\r\nHost: h\r\n\r\n",
    "GET / HTTP/0.9\r\nHost: h\r\n\r\n",
    "GET / http/1.1\r\nHost: h\r\n\r\n",
    "GET / HTTP/1.1 \r\nHost: h\r\n\r\n",
    "GET / HTTP/1.01\r\nHost: h\r\n\r\n",
    "GET /\r\nHost: h\r\n\r\n",
];

#[test]
fn hosts_and_versions_are_judged(rt: HostRuntime) {
    let wrong = [
        wrong_block(rt.alloc(), HOSTS, GOES_ON),
        wrong_block(rt.alloc(), OLD_VERSION, CLOSES),
        wrong_block(rt.alloc(), WRONG_HOSTS_AND_VERSIONS, IS_BAD),
    ];
    assert_eq!(rt; wrong, [Ok(None); 3]);
}

/// Fields of a HEAD, and whether the connection closes.
const FIELDS: &[(&str, bool)] = &[
    ("Content-Length: 0\r\n", false),
    ("content-length:\t0 \r\n", false),
    ("Content-Length: 0\r\nContent-Length: 0\r\n", false),
    ("Connection: close\r\n", true),
    ("CONNECTION:close\r\n", true),
    ("Connection: Close\r\n", true),
    ("Connection: keep-alive,\tCLOSE\t, te\r\n", true),
    ("Connection: ,close\r\n", true),
    ("Connection: keep-alive\r\nConnection: close\r\n", true),
    ("Connection: keep-alive\r\n", false),
    ("Connection: closed\r\n", false),
    ("Connection: clo se\r\n", false),
    ("Connection: \"close\"\r\n", false),
    ("Connection: close;q=1\r\n", false),
    ("Connection:\r\n", false),
    ("Connections: close\r\n", false),
    ("Proxy-Connection: close\r\n", false),
];

/// Fields of content, of which a request has none here.
const CONTENT: &[&str] = &[
    "Content-Length: 1\r\n",
    "Content-Length: 00\r\n",
    "Content-Length: +0\r\n",
    "Content-Length: 0,0\r\n",
    "Content-Length:\r\n",
    "Content-Length: 0\r\nContent-Length: 1\r\n",
    "Content-Length: 1\r\nContent-Length: 0\r\n",
    "Transfer-Encoding: chunked\r\n",
    "transfer-encoding:identity\r\n",
    "Transfer-Encoding:\r\n",
    "Content-Length: 0\r\nTransfer-Encoding: chunked\r\n",
    "Transfer-Encoding: chunked\r\nContent-Length: 0\r\n",
];

fn wrong_fields(alloc: Global, rows: &[(&'static str, bool)]) -> Result<Wrong, NoMemory> {
    for &(fields, close) in rows {
        if !judges_request(alloc, "HEAD /a", fields, Serves(b"/a", true, close))? {
            return Ok(Some(fields));
        }
    }
    Ok(None)
}

fn wrong_content(alloc: Global, rows: &[&'static str]) -> Result<Wrong, NoMemory> {
    for &fields in rows {
        if !judges_request(alloc, "GET /a", fields, Refuses(Code::TooLarge))? {
            return Ok(Some(fields));
        }
    }
    Ok(None)
}

#[test]
fn content_and_close_are_judged(rt: HostRuntime) {
    let wrong = [
        wrong_fields(rt.alloc(), FIELDS),
        wrong_content(rt.alloc(), CONTENT),
    ];
    assert_eq!(rt; wrong, [Ok(None); 2]);
}

/// A line, fields, and the first fault.
const ORDER: &[(&str, &str, Code)] = &[
    (
        "POST *",
        "Content-Length: 1\r\nHost: g\r\n",
        Code::BadRequest,
    ),
    ("POST *", "Content-Length: 1\r\n", Code::TooLarge),
    ("POST *", "", Code::NotImplemented),
    ("GET *", "Content-Length: 1\r\n", Code::TooLarge),
    ("GET *", "Connection: close\r\n", Code::BadRequest),
];

fn wrong_order(
    alloc: Global,
    rows: &[(&'static str, &'static str, Code)],
) -> Result<Wrong, NoMemory> {
    for &(line, fields, code) in rows {
        if !judges_request(alloc, line, fields, Refuses(code))? {
            return Ok(Some(fields));
        }
    }
    Ok(None)
}

/// Where several judgements apply, the first of them is told.
#[test]
fn judgements_have_an_order(rt: HostRuntime) {
    assert_eq!(rt; wrong_order(rt.alloc(), ORDER), Ok(None));
}

const SMUGGLED: &[&str] = &[
    "",
    "\r\n\r\n",
    "GET / HTTP/1.1\r\nHost: h\r\n",
    "GET / HTTP/1.1\r\nHost: h\r\n\r\nG",
    "GET / HTTP/1.1\r\nHost: h\r\n\r\n\r\n",
    "GET / HTTP/1.1\r\nHost: h\r\n\r\nGET / HTTP/1.1\r\nHost: h\r\n\r\n",
    "GET / HTTP/1.1\nHost: h\r\n\r\n",
    "GET / HTTP/1.1\r\nHost: h\n\r\n",
    "GET / HTTP/1.1\r\nHost: h\r\n\n",
    "\nGET / HTTP/1.1\r\nHost: h\r\n\r\n",
    "GET / HTTP/1.1\r\nHost: h\r\nA: b\nTransfer-Encoding: chunked\r\n\r\n",
    "GET / HTTP/1.1\r\nHost: h\r\nA: b\rc\r\n\r\n",
    "GET / HTTP/1.1\r\nHost: h\r\nA: b\r\r\n\r\n",
    "GET /\r HTTP/1.1\r\nHost: h\r\n\r\n",
    "\rGET / HTTP/1.1\r\nHost: h\r\n\r\n",
    "GET / HTTP/1.1\r\nHost : h\r\n\r\n",
    "GET / HTTP/1.1\r\nHost: h\r\nTransfer-Encoding : chunked\r\n\r\n",
    "GET / HTTP/1.1\r\n Host: h\r\n\r\n",
    "GET / HTTP/1.1\r\nHost: h\r\n A: b\r\n\r\n",
    "GET / HTTP/1.1\r\nHost: h\r\nA: b\r\n\tc\r\n\r\n",
    "GET / HTTP/1.1\r\nHost: h\r\nA: b\0\r\n\r\n",
    "GET / HTTP/1.1\r\nHost: h\r\nA\0: b\r\n\r\n",
    "GET / HTTP/1.1\r\nHost: h\r\nA: \u{7f}\r\n\r\n",
    "GET / HTTP/1.1\r\nHost: h\r\n: b\r\n\r\n",
    "GET / HTTP/1.1\r\nHost: h\r\nA\r\n\r\n",
    "GET / HTTP/1.1\r\nHost: h\r\nA b: c\r\n\r\n",
];

/// What two readers of one stream of bytes could read in two ways.
#[test]
fn nothing_is_smuggled(rt: HostRuntime) {
    assert_eq!(rt; wrong_block(rt.alloc(), SMUGGLED, IS_BAD), Ok(None));
}

#[test]
fn bytes_past_ascii_are_judged(rt: HostRuntime) {
    let value = b"GET / HTTP/1.1\r\nHost: h\r\nA: \xff\r\n\r\n";
    let target = b"GET /\xff HTTP/1.1\r\nHost: h\r\n\r\n";
    let name = b"GET / HTTP/1.1\r\nHost: h\r\n\xff: b\r\n\r\n";
    let judged = [
        judges(rt.alloc(), value, GOES_ON),
        judges(rt.alloc(), target, IS_BAD),
        judges(rt.alloc(), name, IS_BAD),
    ];
    assert_eq!(rt; judged, [Ok(true); 3]);
}

/// So many bytes `x`.
fn long(alloc: Global, len: usize) -> Result<Vec<u8>, AllocError> {
    vec![in alloc; b'x'; len]
}

/// A request with a Host field, so many fields more, and then these bytes.
fn with_fields(alloc: Global, more: usize, end: &[u8]) -> Result<Vec<u8>, AllocError> {
    let mut block = Vec::from_slice(alloc, b"GET / HTTP/1.1\r\nHost: h\r\n")?;
    for _ in 0..more {
        block.extend_from_slice(b"A: b\r\n")?;
    }
    block.extend_from_slice(end)?;
    Ok(block)
}

/// Whether a request with so many fields more is judged so.
fn judges_many(alloc: Global, more: usize, end: &[u8], want: Want) -> Result<bool, NoMemory> {
    let block = with_fields(alloc, more, end)?;
    judges(alloc, &block, want)
}

#[test]
fn fields_are_counted(rt: HostRuntime) {
    let too_many = Refuses(Code::FieldsTooLarge);
    let judged = [
        judges_many(rt.alloc(), 63, b"\r\n", GOES_ON),
        judges_many(rt.alloc(), 62, b"Connection: close\r\n\r\n", CLOSES),
        judges_many(rt.alloc(), 64, b"\r\n", too_many),
        judges_many(rt.alloc(), 1_000, b"\r\n", too_many),
        judges_many(rt.alloc(), 64, b"\n\r\n", too_many),
        judges_many(rt.alloc(), 64, b"", IS_BAD),
    ];
    assert_eq!(rt; judged, [Ok(true); 6]);
}

/// Whether a request is served, and closes, with a name of so many bytes in front of what closes it.
fn passes_over(alloc: Global, len: usize) -> Result<bool, NoMemory> {
    let mut end = long(alloc, len)?;
    end.extend_from_slice(b": y\r\nConnection: close\r\n\r\n")?;
    judges_many(alloc, 0, &end, CLOSES)
}

/// No map takes a name of more than 65,535 bytes, but a head may have one.
#[test]
fn long_names_are_passed_over(rt: HostRuntime) {
    let passed = [
        passes_over(rt.alloc(), 65_535),
        passes_over(rt.alloc(), 65_536),
    ];
    assert_eq!(rt; passed, [Ok(true); 2]);
}

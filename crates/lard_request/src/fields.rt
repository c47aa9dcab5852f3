//! The fields of a head: kept by name, and what they say.

ghost use Rattle.std.specs.Prelude.{◌≡◌, ◌≤◌, ◌||◌, length, map, nat_eq, nat_lt, codes, All, IfOk, OnOk};
ghost use Rattle.std.specs.List.{list_all, list_any};
ghost use Rattle.http_header.specs.HeaderMap.{get_all};
ghost use Rattle.httparse.specs.Spans.{IsHeaderWithin, header_bytes};
ghost use Rattle.lard_request.specs.Fields.{good_hosts, is_zero, told_content, lists_close};
ghost use Rattle.lard_request.specs.Kept.{HasRoomForField, GrowsByOne, Keeps, KeepsMore};

use crate::values::{has_close, names_host};
use http_header::{HeaderMap, HeaderMapError, HeaderName, HeaderNameError};
use httparse::spans::HeaderSpan;
use lard_base::{Bytes, NoMemory};
use std::alloc::Global;

/// The fields at these places, kept by name. A map takes 24,576 names.
pub(crate) fn keep_fields(
    alloc: Global,
    block: &[u8],
    spans: &[HeaderSpan],
) -> Result<HeaderMap<Bytes>, NoMemory>
    requires within { All (IsHeaderWithin (length block.now)) spans.now }
    requires few { length spans.now ≤ 24576 }
    ensures { IfOk result (λ m. Keeps m (map (header_bytes block.now) spans.now)) }
{
    let mut fields: HeaderMap<Bytes> = HeaderMap::empty(alloc);
    for span in spans {
        keep_field(
            alloc,
            &mut fields,
            span.name.of(block),
            span.value.of(block),
        )?;
    }
    Ok(fields)
}

/// Keeps one more field. One with a name that no map takes, as of more than 65,535 bytes, is left out: nobody asks for it.
fn keep_field(
    alloc: Global,
    fields: &mut HeaderMap<Bytes>,
    name: &[u8],
    value: &[u8],
) -> Result<(), NoMemory>
    requires { HasRoomForField fields.old }
    ensures kept { OnOk result (KeepsMore fields.old fields.new name.now value.now) }
    ensures grown { OnOk result (GrowsByOne fields.old fields.new) }
{
    let name = match HeaderName::from_bytes(alloc, name) {
        Ok(name) => name,
        Err(HeaderNameError::Invalid) => return Ok(()),
        Err(HeaderNameError::OutOfMemory) => return Err(NoMemory),
    };
    let value = Bytes::from_slice(alloc, value)?;
    match fields.append(name, value) {
        Ok(_) => Ok(()),
        Err(HeaderMapError::OutOfMemory) => Err(NoMemory),
        Err(HeaderMapError::MaxSizeReached) => unreachable!(),
    }
}

/// Whether the Host fields name one host, or none in HTTP/1.0.
pub(crate) fn has_good_host(minor: u8, fields: &HeaderMap<Bytes>) -> bool
    ensures { result ≡ good_hosts minor (get_all fields.now (codes "host")) }
{
    let mut hosts = fields.get_all("host").iter();
    let Some(host) = hosts.next() else {
        return minor == 0;
    };
    if hosts.next().is_some() {
        return false;
    }
    names_host(host.as_slice())
}

/// Whether a field tells of content: a transfer coding, or a length other than 0.
pub(crate) fn has_content(fields: &HeaderMap<Bytes>) -> bool
    ensures { result ≡ told_content (get_all fields.now (codes "transfer-encoding")) (get_all fields.now (codes "content-length")) }
{
    has_coding(fields) || !has_no_length(fields)
}

/// Whether there is a Transfer-Encoding field.
fn has_coding(fields: &HeaderMap<Bytes>) -> bool
    ensures { result ≡ nat_lt 0 (length (get_all fields.now (codes "transfer-encoding"))) }
{
    fields.get_all("transfer-encoding").iter().next().is_some()
}

/// Whether each Content-Length field has the value `0`.
fn has_no_length(fields: &HeaderMap<Bytes>) -> bool
    ensures { result ≡ list_all is_zero (get_all fields.now (codes "content-length")) }
{
    fields
        .get_all("content-length")
        .iter()
        .all(|length| says_none(length.as_slice()))
}

/// Whether a length is written `0`.
fn says_none(length: &[u8]) -> bool
    ensures { result ≡ is_zero length.now }
{
    length == b"0".as_slice()
}

/// Whether the connection closes behind the answer: always in HTTP/1.0, else where a Connection field says so.
pub(crate) fn closes_behind(minor: u8, fields: &HeaderMap<Bytes>) -> bool
    ensures { result ≡ (nat_eq minor 0 || list_any lists_close (get_all fields.now (codes "connection"))) }
{
    minor == 0 || says_close(fields)
}

/// Whether a member of a Connection field is `close`.
fn says_close(fields: &HeaderMap<Bytes>) -> bool
    ensures { result ≡ list_any lists_close (get_all fields.now (codes "connection")) }
{
    fields
        .get_all("connection")
        .iter()
        .any(|value| has_close(value.as_slice()))
}

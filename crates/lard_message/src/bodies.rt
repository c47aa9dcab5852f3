//! Bodies, each read with the bytes after it, or `Field` where there is none.

ghost use Rattle.std.specs.Prelude.{◌≡◌};
ghost use Rattle.lard_message.specs.Reading.{Reads, counted_at, taken_at, parts_at, parts_behind, offer_at, give_at, ask_at, tag_at, fetch_at, content_at, ended_body_at, body_at};

use crate::fault::MsgFault;
use crate::kind::Kind;
use crate::lists::{nodes, paths};
use crate::message::Body;
use crate::numbers::{byte, counted, flag, number, reason, short_number, taken};
use lard_base::{Bytes, EndpointParts, Path};
use std::alloc::Global;

/// The body of a message of this kind, and the bytes after it. `Field` where there is none, `NoMemory` where memory
/// runs out.
pub fn body(alloc: Global, kind: Kind, bytes: &[u8]) -> Result<(Body, &[u8]), MsgFault>
    ensures { Reads (λ x. (x.0, x.1.now)) result (body_at kind bytes.now) }
{
    match kind {
        Kind::Offer => return offer(alloc, bytes),
        Kind::Taken => return Ok((Body::Taken, bytes)),
        Kind::Forward => return Ok((Body::Forward(Bytes::from_slice(alloc, bytes)?), &[])),
        Kind::Ask => return ask(alloc, bytes),
        Kind::Tag => return tag(alloc, bytes),
        Kind::Fetch => return fetch(alloc, bytes),
        Kind::Content => return content(alloc, bytes),
        Kind::Ended => return ended(bytes),
        Kind::EndedAck => return Ok((Body::EndedAck, bytes)),
        Kind::Refused => return Ok((Body::Refused, bytes)),
        Kind::Give => return give(alloc, bytes),
        Kind::Given => return Ok((Body::Given, bytes)),
    }
}

/// What an endpoint goes on from.
#[tactic(auto, unfolding(crate::specs::Reading::parts_at, crate::specs::Reading::parts_behind))]
fn parts(alloc: Global, bytes: &[u8]) -> Result<(EndpointParts, &[u8]), MsgFault>
    ensures { Reads (λ x. (x.0, x.1.now)) result (parts_at bytes.now) }
{
    let (irs, rest) = number(bytes)?;
    let (iss, rest) = number(rest)?;
    let (got, rest) = number(rest)?;
    let (fin, rest) = flag(rest)?;
    let (una, rest) = number(rest)?;
    parts_behind(alloc, irs, iss, got, fin, una, rest)
}

/// The same, once its first five numbers are read.
#[tactic(auto, unfolding(crate::specs::Reading::parts_behind))]
fn parts_behind(
    alloc: Global,
    irs: u32,
    iss: u32,
    got: u32,
    fin: bool,
    una: u32,
    bytes: &[u8],
) -> Result<(EndpointParts, &[u8]), MsgFault>
    ensures { Reads (λ x. (x.0, x.1.now)) result (parts_behind irs iss got fin una bytes.now) }
{
    let (wnd, rest) = short_number(bytes)?;
    let (wl1, rest) = number(rest)?;
    let (wl2, rest) = number(rest)?;
    let (mss, rest) = short_number(rest)?;
    let (served, rest) = number(rest)?;
    let (unread, rest) = counted_bytes(alloc, rest)?;
    let parts = EndpointParts {
        irs,
        iss,
        got,
        fin,
        una,
        wnd,
        wl1,
        wl2,
        mss,
        served,
        unread,
    };
    Ok((parts, rest))
}

#[tactic(auto, unfolding(crate::specs::Reading::offer_at))]
fn offer(alloc: Global, bytes: &[u8]) -> Result<(Body, &[u8]), MsgFault>
    ensures { Reads (λ x. (x.0, x.1.now)) result (offer_at bytes.now) }
{
    let (parts, rest) = parts(alloc, bytes)?;
    Ok((Body::Offer(parts), rest))
}

#[tactic(auto, unfolding(crate::specs::Reading::give_at))]
fn give(alloc: Global, bytes: &[u8]) -> Result<(Body, &[u8]), MsgFault>
    ensures { Reads (λ x. (x.0, x.1.now)) result (give_at bytes.now) }
{
    let (parts, rest) = parts(alloc, bytes)?;
    Ok((Body::Give(parts), rest))
}

#[tactic(auto, unfolding(crate::specs::Reading::ask_at))]
fn ask(alloc: Global, bytes: &[u8]) -> Result<(Body, &[u8]), MsgFault>
    ensures { Reads (λ x. (x.0, x.1.now)) result (ask_at bytes.now) }
{
    let (number_of_ask, rest) = number(bytes)?;
    let (queue, rest) = number(rest)?;
    let (size, rest) = byte(rest)?;
    let (count, rest) = byte(rest)?;
    let (paths, rest) = paths(alloc, count, rest)?;
    let body = Body::Ask {
        number: number_of_ask,
        queue,
        size,
        paths,
    };
    Ok((body, rest))
}

#[tactic(auto, unfolding(crate::specs::Reading::tag_at))]
fn tag(alloc: Global, bytes: &[u8]) -> Result<(Body, &[u8]), MsgFault>
    ensures { Reads (λ x. (x.0, x.1.now)) result (tag_at bytes.now) }
{
    let (number, rest) = number(bytes)?;
    let (count, rest) = byte(rest)?;
    let (bytes, rest) = taken(rest, count as usize)?;
    let nodes = nodes(alloc, bytes)?;
    Ok((Body::Tag { number, nodes }, rest))
}

#[tactic(auto, unfolding(crate::specs::Reading::fetch_at))]
fn fetch(alloc: Global, bytes: &[u8]) -> Result<(Body, &[u8]), MsgFault>
    ensures { Reads (λ x. (x.0, x.1.now)) result (fetch_at bytes.now) }
{
    let (r, rest) = number(bytes)?;
    let (path, rest) = counted_path(alloc, rest)?;
    Ok((Body::Fetch { r, path }, rest))
}

#[tactic(auto, unfolding(crate::specs::Reading::content_at))]
fn content(alloc: Global, bytes: &[u8]) -> Result<(Body, &[u8]), MsgFault>
    ensures { Reads (λ x. (x.0, x.1.now)) result (content_at bytes.now) }
{
    let (r, rest) = number(bytes)?;
    let (len, rest) = number(rest)?;
    let (bytes, rest) = taken_bytes(alloc, rest, len as usize)?;
    Ok((Body::Content { r, bytes }, rest))
}

/// As many bytes as the two before them say, copied, and those after them.
fn counted_bytes(alloc: Global, bytes: &[u8]) -> Result<(Bytes, &[u8]), MsgFault>
    ensures { Reads (λ x. (x.0, x.1.now)) result (counted_at bytes.now) }
{
    let (front, rest) = counted(bytes)?;
    Ok((Bytes::from_slice(alloc, front)?, rest))
}

/// The same, as a path.
fn counted_path(alloc: Global, bytes: &[u8]) -> Result<(Path, &[u8]), MsgFault>
    ensures { Reads (λ x. (x.0, x.1.now)) result (counted_at bytes.now) }
{
    let (front, rest) = counted(bytes)?;
    Ok((Path::from_slice(alloc, front)?, rest))
}

/// The first `n` bytes, copied, and those after them.
fn taken_bytes(alloc: Global, bytes: &[u8], n: usize) -> Result<(Bytes, &[u8]), MsgFault>
    ensures { Reads (λ x. (x.0, x.1.now)) result (taken_at n bytes.now) }
{
    let (front, rest) = taken(bytes, n)?;
    Ok((Bytes::from_slice(alloc, front)?, rest))
}

#[tactic(auto, unfolding(crate::specs::Reading::ended_body_at))]
fn ended(bytes: &[u8]) -> Result<(Body, &[u8]), MsgFault>
    ensures { Reads (λ x. (x.0, x.1.now)) result (ended_body_at bytes.now) }
{
    let (reason, rest) = reason(bytes)?;
    let (snd, rest) = number(rest)?;
    let (rcv, rest) = number(rest)?;
    let (count, rest) = number(rest)?;
    let body = Body::Ended {
        reason,
        snd,
        rcv,
        count,
    };
    Ok((body, rest))
}

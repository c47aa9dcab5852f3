//! Writing a message to its bytes.

ghost use Rattle.std.specs.Prelude.{◌≡◌, ◌≤◌, [], ◌∷◌, ◌++◌, length, All, OnOk, IfOk};
ghost use Rattle.std.specs.List.{flat_map};
ghost use Rattle.std.specs.Int.{w16, w32, to_be_bytes};
ghost use Rattle.lard_base.specs.declared.limits.TheConstants.{MAX_MESSAGE_BYTES};
ghost use Rattle.lard_base.specs.Parts.{IsValidParts};
ghost use Rattle.lard_message.specs.Message.{IsOfTable, IsPath, counted_bytes, flag_byte, reason_byte, first_numbers, second_numbers, parts_bytes, body_bytes, header_bytes, spelled_message, kind_of};
ghost use Rattle.lard_message.specs.Kinds.{kind_number, version_of};

use crate::message::{Body, Message};
use crate::reading::HEADER_BYTES;
use byteorder::{BigEndian, ByteOrder};
use lard_base::{Bytes, EndpointParts, NoMemory, NodeId, Path, Reason};
use std::alloc::Global;

/// How many bytes the numbers of an endpoint's parts take.
const NUMBERS_BYTES: usize = 33;

/// The one spelling of the message, at most 2^21 bytes. Its numbers and lengths are in their ranges, as
/// `Body::is_of_table` tells. `NoMemory` where memory runs out.
#[tactic(auto, unfolding(crate::specs::Message::spelled_message))]
pub fn encode(alloc: Global, message: &Message) -> Result<Bytes, NoMemory>
    requires { IsOfTable message.now.body }
    ensures bytes { IfOk result (λ bytes. bytes ≡ spelled_message message.now) }
    ensures size { IfOk result (λ bytes. length bytes ≤ MAX_MESSAGE_BYTES) }
{
    let len = body_len(&message.body);
    let mut out = Vec::with_capacity(alloc, HEADER_BYTES + len)?;
    put_header(&mut out, message, len as u32)?;
    put_body(&mut out, &message.body)?;
    Ok(Bytes::from_vec(out))
}

/// How many bytes a body takes.
fn body_len(body: &Body) -> usize
    requires { IsOfTable body.now }
    ensures value { result ≡ length (body_bytes body.now) }
    ensures small { result ≤ 1048584 }
{
    match body {
        Body::Offer(parts) => parts_len(parts),
        Body::Taken => 0,
        Body::Forward(bytes) => bytes.len(),
        Body::Ask { paths, .. } => 10 + paths_len(paths.as_slice()),
        Body::Tag { nodes, .. } => 5 + nodes.len(),
        Body::Fetch { path, .. } => 6 + path.as_slice().len(),
        Body::Content { bytes, .. } => 8 + bytes.len(),
        Body::Ended { .. } => 13,
        Body::EndedAck => 0,
        Body::Refused => 0,
        Body::Give(parts) => parts_len(parts),
        Body::Given => 0,
    }
}

/// How many bytes an endpoint's parts take.
fn parts_len(parts: &EndpointParts) -> usize
    requires { IsValidParts parts.now }
    ensures value { result ≡ length (parts_bytes parts.now) }
    ensures small { result ≤ 16419 }
{
    NUMBERS_BYTES + 2 + parts.unread.len()
}

/// How many bytes the paths of an Ask take, each behind its length.
fn paths_len(paths: &[Path]) -> usize
    requires few { length paths.now ≤ 8 }
    requires short { All IsPath paths.now }
    ensures value { result ≡ length (flat_map counted_bytes paths.now) }
    ensures small { result ≤ 8208 }
{
    let mut total = 0;
    for path in paths {
        total += 2 + path.as_slice().len();
    }
    total
}

/// The ten bytes before the body, of this length.
fn put_header(out: &mut Vec<u8>, message: &Message, len: u32) -> Result<(), NoMemory>
    ensures { OnOk result (out.new.items ≡ out.old.items ++ header_bytes (version_of (kind_of message.now.body)) (kind_number (kind_of message.now.body)) message.now.c message.now.epoch.0 len) }
{
    let kind = message.body.kind();
    put_byte(out, kind.version())?;
    put_byte(out, kind.number())?;
    put_short(out, message.c.number() as u16)?;
    put_short(out, message.epoch.0)?;
    put_number(out, len)
}

fn put_body(out: &mut Vec<u8>, body: &Body) -> Result<(), NoMemory>
    requires { IsOfTable body.now }
    ensures { OnOk result (out.new.items ≡ out.old.items ++ body_bytes body.now) }
{
    match body {
        Body::Offer(parts) => return put_parts(out, parts),
        Body::Taken => return Ok(()),
        Body::Forward(bytes) => return put_bytes(out, bytes.as_slice()),
        Body::Ask {
            number,
            queue,
            size,
            paths,
        } => {
            put_number(out, *number)?;
            put_number(out, *queue)?;
            put_byte(out, *size)?;
            return put_paths(out, paths.as_slice());
        }
        Body::Tag { number, nodes } => {
            put_number(out, *number)?;
            return put_nodes(out, nodes.as_slice());
        }
        Body::Fetch { r, path } => {
            put_number(out, *r)?;
            return put_counted(out, path.as_slice());
        }
        Body::Content { r, bytes } => {
            put_number(out, *r)?;
            put_number(out, bytes.len() as u32)?;
            return put_bytes(out, bytes.as_slice());
        }
        Body::Ended {
            reason,
            snd,
            rcv,
            count,
        } => {
            put_byte(out, reason_byte(*reason))?;
            put_number(out, *snd)?;
            put_number(out, *rcv)?;
            return put_number(out, *count);
        }
        Body::EndedAck => return Ok(()),
        Body::Refused => return Ok(()),
        Body::Give(parts) => return put_parts(out, parts),
        Body::Given => return Ok(()),
    }
}

/// An endpoint's parts.
fn put_parts(out: &mut Vec<u8>, parts: &EndpointParts) -> Result<(), NoMemory>
    requires { IsValidParts parts.now }
    ensures { OnOk result (out.new.items ≡ out.old.items ++ parts_bytes parts.now) }
{
    put_first(out, parts)?;
    put_second(out, parts)?;
    let unread = parts.unread.as_slice();
    put_counted(out, unread)
}

/// The first half of the numbers of an endpoint's parts.
fn put_first(out: &mut Vec<u8>, parts: &EndpointParts) -> Result<(), NoMemory>
    ensures { OnOk result (out.new.items ≡ out.old.items ++ first_numbers parts.now) }
{
    put_number(out, parts.irs)?;
    put_number(out, parts.iss)?;
    put_number(out, parts.got)?;
    put_flag(out, parts.fin)?;
    put_number(out, parts.una)
}

/// The second half of them.
fn put_second(out: &mut Vec<u8>, parts: &EndpointParts) -> Result<(), NoMemory>
    ensures { OnOk result (out.new.items ≡ out.old.items ++ second_numbers parts.now) }
{
    put_short(out, parts.wnd)?;
    put_number(out, parts.wl1)?;
    put_number(out, parts.wl2)?;
    put_short(out, parts.mss)?;
    put_number(out, parts.served)
}

/// The number of paths, and each behind its length.
fn put_paths(out: &mut Vec<u8>, paths: &[Path]) -> Result<(), NoMemory>
    requires few { length paths.now ≤ 8 }
    requires short { All IsPath paths.now }
    ensures { OnOk result (out.new.items ≡ out.old.items ++ length paths.now ∷ flat_map counted_bytes paths.now) }
{
    put_byte(out, paths.len() as u8)?;
    for path in paths {
        put_counted(out, path.as_slice())?;
    }
    Ok(())
}

/// The number of nodes, and each in a byte.
fn put_nodes(out: &mut Vec<u8>, nodes: &[NodeId]) -> Result<(), NoMemory>
    requires { length nodes.now ≤ 8 }
    ensures { OnOk result (out.new.items ≡ out.old.items ++ length nodes.now ∷ nodes.now) }
{
    put_byte(out, nodes.len() as u8)?;
    for node in nodes {
        put_byte(out, node.number() as u8)?;
    }
    Ok(())
}

/// Two bytes of length, and the bytes.
fn put_counted(out: &mut Vec<u8>, bytes: &[u8]) -> Result<(), NoMemory>
    requires { length bytes.now ≤ 65535 }
    ensures { OnOk result (out.new.items ≡ out.old.items ++ counted_bytes bytes.now) }
{
    put_short(out, bytes.len() as u16)?;
    put_bytes(out, bytes)
}

/// The byte of a reason.
fn reason_byte(reason: Reason) -> u8
    ensures { result ≡ reason_byte reason }
{
    match reason {
        Reason::Closed => 0,
        Reason::Peer => 1,
        Reason::Limit => 2,
    }
}

/// A byte that is 0 or 1.
fn put_flag(out: &mut Vec<u8>, flag: bool) -> Result<(), NoMemory>
    ensures { OnOk result (out.new.items ≡ out.old.items ++ flag_byte flag ∷ []) }
{
    put_byte(out, u8::from(flag))
}

fn put_byte(out: &mut Vec<u8>, byte: u8) -> Result<(), NoMemory>
    ensures { OnOk result (out.new.items ≡ out.old.items ++ byte ∷ []) }
{
    out.push(byte)?;
    Ok(())
}

/// A number of 16 bits.
fn put_short(out: &mut Vec<u8>, number: u16) -> Result<(), NoMemory>
    ensures { OnOk result (out.new.items ≡ out.old.items ++ to_be_bytes w16 number) }
{
    let mut bytes = [0; 2];
    BigEndian::write_u16(&mut bytes, number);
    put_bytes(out, &bytes)
}

/// A number of 32 bits.
fn put_number(out: &mut Vec<u8>, number: u32) -> Result<(), NoMemory>
    ensures { OnOk result (out.new.items ≡ out.old.items ++ to_be_bytes w32 number) }
{
    let mut bytes = [0; 4];
    BigEndian::write_u32(&mut bytes, number);
    put_bytes(out, &bytes)
}

fn put_bytes(out: &mut Vec<u8>, bytes: &[u8]) -> Result<(), NoMemory>
    ensures { OnOk result (out.new.items ≡ out.old.items ++ bytes.now) }
{
    out.extend_from_slice(bytes)?;
    Ok(())
}

//! The fields of bodies: each a value, and the bytes after it, or `Field` where there is none.

ghost use Rattle.std.specs.Prelude.{◌≡◌, ◌≤◌};
ghost use Rattle.std.specs.Int.{w16, w32};
ghost use Rattle.lard_message.specs.Reading.{Reads, byte_at, number_at, taken_at, flag_at, reason_at, node_of, counted_at};

use crate::fault::MsgFault;
use lard_base::{NodeId, Reason};

/// The first byte, and the bytes after it. `Field` where there is none.
pub fn byte(bytes: &[u8]) -> Result<(u8, &[u8]), MsgFault>
    ensures { Reads (λ x. (x.0, x.1.now)) result (byte_at bytes.now) }
{
    match bytes {
        [] => Err(MsgFault::Field),
        [byte, rest @ ..] => Ok((*byte, rest)),
    }
}

/// A number of 16 bits, its high byte first, and the bytes after it. `Field` where there are fewer than two bytes.
pub fn short_number(bytes: &[u8]) -> Result<(u16, &[u8]), MsgFault>
    ensures { Reads (λ x. (x.0, x.1.now)) result (number_at w16 bytes.now) }
{
    if bytes.len() < 2 {
        return Err(MsgFault::Field);
    }
    let (front, rest) = bytes.split_at(2);
    let number = u16::from_be_bytes([front[0], front[1]]);
    Ok((number, rest))
}

/// A number of 32 bits, its high byte first, and the bytes after it. `Field` where there are fewer than four bytes.
pub fn number(bytes: &[u8]) -> Result<(u32, &[u8]), MsgFault>
    ensures { Reads (λ x. (x.0, x.1.now)) result (number_at w32 bytes.now) }
{
    if bytes.len() < 4 {
        return Err(MsgFault::Field);
    }
    let (front, rest) = bytes.split_at(4);
    let number = u32::from_be_bytes([front[0], front[1], front[2], front[3]]);
    Ok((number, rest))
}

/// The first `n` bytes, and those after them. `Field` where there are fewer.
pub fn taken(bytes: &[u8], n: usize) -> Result<(&[u8], &[u8]), MsgFault>
    ensures { Reads (λ x. (x.0.now, x.1.now)) result (taken_at n bytes.now) }
{
    if bytes.len() < n {
        return Err(MsgFault::Field);
    }
    let (front, rest) = bytes.split_at(n);
    Ok((front, rest))
}

/// As many bytes as the two before them say, and those after them. `Field` where there are fewer.
#[tactic(auto, unfolding(crate::specs::Reading::counted_at))]
pub fn counted(bytes: &[u8]) -> Result<(&[u8], &[u8]), MsgFault>
    ensures { Reads (λ x. (x.0.now, x.1.now)) result (counted_at bytes.now) }
{
    let (len, rest) = short_number(bytes)?;
    taken(rest, len as usize)
}

/// A flag, of a byte that is 0 or 1, and the bytes after it. `Field` where there is none, or another byte.
#[tactic(auto, unfolding(crate::specs::Reading::flag_at))]
pub fn flag(bytes: &[u8]) -> Result<(bool, &[u8]), MsgFault>
    ensures { Reads (λ x. (x.0, x.1.now)) result (flag_at bytes.now) }
{
    let (byte, rest) = byte(bytes)?;
    match byte {
        0 => Ok((false, rest)),
        1 => Ok((true, rest)),
        _ => Err(MsgFault::Field),
    }
}

/// Why a connection ended, of a byte that is 0, 1 or 2, and the bytes after it. `Field` where there is none, or another
/// byte.
#[tactic(auto, unfolding(crate::specs::Reading::reason_at))]
pub fn reason(bytes: &[u8]) -> Result<(Reason, &[u8]), MsgFault>
    ensures { Reads (λ x. (x.0, x.1.now)) result (reason_at bytes.now) }
{
    let (byte, rest) = byte(bytes)?;
    match byte {
        0 => Ok((Reason::Closed, rest)),
        1 => Ok((Reason::Peer, rest)),
        2 => Ok((Reason::Limit, rest)),
        _ => Err(MsgFault::Field),
    }
}

/// The node of a byte, 1 to 64. `Field` for any other byte.
pub fn node(byte: u8) -> Result<NodeId, MsgFault>
    ensures { Reads (λ x. x) result (node_of byte) }
{
    match NodeId::new(u32::from(byte)) {
        Some(node) => Ok(node),
        None => Err(MsgFault::Field),
    }
}

//! Reading a message from its bytes.

ghost use Rattle.std.specs.Prelude.{◌≡◌, ℕ, ◌+◌, ◌≤◌, length, drop, IfOk, IfErr};
ghost use Rattle.std.specs.Int.{w16, w32};
ghost use Rattle.lard_message.specs.declared.message.Message as the_message;
ghost use Rattle.lard_message.specs.Faults.{IsFirstFault};
ghost use Rattle.lard_message.specs.Message.{IsMessage, spelled_message};
ghost use Rattle.lard_message.specs.Reading.{GivesMessage, decoded_message, connection_at, epoch_at, length_at, with_kind, with_body};

use crate::bodies::body;
use crate::fault::MsgFault;
use crate::kind::{Kind, is_version, kind_named};
use crate::message::{Body, Message, passes};
use lard_base::{ConnId, Epoch};
use std::alloc::Global;

/// How many bytes come before the body.
pub const HEADER_BYTES: usize = 10;

/// The message that the bytes spell, or the first fault in the order of its variants. Nothing is known of the bytes
/// where the fault is `NoMemory`.
pub fn decode(alloc: Global, bytes: &[u8]) -> Result<Message, MsgFault>
    // What is read is spelled so, each byte of it.
    ensures found { IfOk result (λ m. IsMessage m × (spelled_message m ≡ bytes.now)) }
    // What is spelled so is read, unless memory runs out.
    ensures only { (m : the_message.Message) → IsMessage m → spelled_message m ≡ bytes.now → GivesMessage result (Ok m) }
    // A fault is the first that applies.
    ensures fault { IfErr result (IsFirstFault bytes.now) }
    ensures exact { GivesMessage result (decoded_message bytes.now) }
{
    message(alloc, bytes)
}

#[tactic(auto, unfolding(crate::specs::Reading::decoded_message))]
fn message(alloc: Global, bytes: &[u8]) -> Result<Message, MsgFault>
    ensures { GivesMessage result (decoded_message bytes.now) }
{
    if bytes.len() < HEADER_BYTES {
        return Err(MsgFault::Short);
    }
    if !is_version(bytes[0]) {
        return Err(MsgFault::Version);
    }
    let Some(kind) = kind_named(bytes[0], bytes[1]) else {
        return Err(MsgFault::Kind);
    };
    after_kind(alloc, kind, bytes)
}

/// The message of this kind.
fn after_kind(alloc: Global, kind: Kind, bytes: &[u8]) -> Result<Message, MsgFault>
    requires { 10 ≤ length bytes.now }
    ensures { GivesMessage result (with_kind bytes.now (Some kind)) }
{
    let (_, rest) = bytes.split_at(HEADER_BYTES);
    let len = named_length(bytes) as usize;
    if rest.len() < len {
        return Err(MsgFault::Length);
    }
    if rest.len() > len {
        return Err(MsgFault::Trailing);
    }
    let Some(c) = ConnId::new(u32::from(named_connection(bytes))) else {
        return Err(MsgFault::Field);
    };
    let epoch = named_epoch(bytes);
    let (body, rest) = body(alloc, kind, rest)?;
    whole(c, epoch, body, rest)
}

/// The message with this body, behind which nothing may stand.
fn whole(c: ConnId, epoch: u16, body: Body, rest: &[u8]) -> Result<Message, MsgFault>
    ensures { GivesMessage result (with_body c epoch (Some (body, rest.now))) }
{
    if !rest.is_empty() || !passes(&body) {
        return Err(MsgFault::Field);
    }
    Ok(Message {
        c,
        epoch: Epoch(epoch),
        body,
    })
}

/// The number of the connection that the first ten bytes name.
fn named_connection(bytes: &[u8]) -> u16
    requires { 10 ≤ length bytes.now }
    ensures { result ≡ connection_at bytes.now }
{
    u16::from_be_bytes([bytes[2], bytes[3]])
}

/// The epoch that they name.
fn named_epoch(bytes: &[u8]) -> u16
    requires { 10 ≤ length bytes.now }
    ensures { result ≡ epoch_at bytes.now }
{
    u16::from_be_bytes([bytes[4], bytes[5]])
}

/// The length of the body that they name.
fn named_length(bytes: &[u8]) -> u32
    requires { 10 ≤ length bytes.now }
    ensures { result ≡ length_at bytes.now }
{
    u32::from_be_bytes([bytes[6], bytes[7], bytes[8], bytes[9]])
}

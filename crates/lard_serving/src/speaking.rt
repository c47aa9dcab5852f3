//! What a place sends: segments as the bytes of packets, one by one, and call by call until none is left.

ghost use Rattle.std.specs.Prelude.{◌≡◌, ◌+◌, ◌^◌, ◌≤◌, false, ◌++◌, length, IfOk, IfSome, OnOk};
ghost use Rattle.lard_base.specs.declared.limits.TheConstants.{MAX_STREAM_BYTES};
ghost use Rattle.lard_endpoint.specs.Leaving.{IsReady};
ghost use Rattle.lard_rules.specs.Serving.{serving_ready_of};
ghost use Rattle.lard_rules.specs.Speaking.{AreShort, has_symbol, speaks, speaks_symbols, to_client};
ghost use Rattle.lard_segment.specs.Segment.{said, spelled};
ghost use Rattle.lard_serving.specs.Serving.{env_seen};

use crate::answering::Env;
use lard_base::limits::{MAX_SEGMENT_BYTES, MAX_SEGMENT_DATA};
use lard_base::{Bytes, ConnId, NoMemory, Place, Sends};
use lard_endpoint::Endpoint;
use lard_segment::{Dir, Ready, Segment, encode};
use std::alloc::Global;

/// The most bytes of data in a segment, as the length of a buffer.
const DATA: usize = MAX_SEGMENT_DATA as usize;

/// The bytes of a segment, at most 1,520. It is as `lard_segment::encode` wants it. `NoMemory` where memory runs out.
pub fn packet(alloc: Global, segment: &Segment<'_>, c: ConnId, dir: Dir) -> Result<Bytes, NoMemory>
    requires some_mss { IfSome segment.now.mss (λ m. 1 ≤ m) }
    requires small_mss { IfSome segment.now.mss (λ m. m ≤ MAX_SEGMENT_DATA) }
    requires small_payload { length segment.now.payload.now ≤ MAX_SEGMENT_DATA }
    requires no_ack { segment.now.flags.ack ≡ false → segment.now.ack.0 ≡ 0 }
    ensures bytes { IfOk result (λ bytes. bytes ≡ spelled c dir (said segment.now)) }
    ensures short { IfOk result (λ bytes. length bytes ≤ MAX_SEGMENT_BYTES) }
{
    let mut buf = [0; MAX_SEGMENT_BYTES];
    let len = encode(segment, c, dir, &mut buf);
    Bytes::from_slice(alloc, &buf[..len])
}

/// The packet of a segment that the endpoint gave last. `NoMemory` where memory runs out.
pub fn to_client(
    alloc: Global,
    c: ConnId,
    endpoint: &Endpoint,
    ready: Ready,
) -> Result<(Place, Bytes), NoMemory>
    requires { IsReady endpoint.now ready }
    ensures packet { IfOk result (λ packet. packet ≡ to_client c endpoint.now ready) }
    ensures short { IfOk result (λ packet. length packet.1 ≤ MAX_SEGMENT_BYTES) }
{
    let mut data = [0; DATA];
    let segment = endpoint.segment(ready, &mut data);
    let bytes = packet(alloc, &segment, c, Dir::ToClient)?;
    Ok((Place::Client(c), bytes))
}

/// The packet of the segment that is ready, where there is one. `NoMemory` where memory runs out.
pub fn ready_of(
    alloc: Global,
    env: &Env<'_>,
    endpoint: &Endpoint,
    ready: Option<Ready>,
) -> Result<Sends, NoMemory>
    requires { IfSome ready (λ ready. IsReady endpoint.now ready) }
    ensures packets { IfOk result (λ sends. sends ≡ serving_ready_of (env_seen env.now) endpoint.now ready) }
    ensures short { IfOk result AreShort }
    ensures few { IfOk result (λ sends. length sends ≤ 1) }
{
    let mut sends = Sends::new(alloc);
    match ready {
        None => return Ok(sends),
        Some(ready) => {
            sends.push(to_client(alloc, env.c, endpoint, ready)?)?;
            return Ok(sends);
        }
    }
}

/// Sends what the endpoint may send, behind these packets. `NoMemory` where memory runs out; nothing is said of the
/// endpoint then.
pub fn speak(
    alloc: Global,
    c: ConnId,
    endpoint: &mut Endpoint,
    before: Sends,
) -> Result<Sends, NoMemory>
    requires { AreShort before }
    ensures sends { IfOk result (λ sends. sends ≡ before ++ (speaks c endpoint.old).0) }
    ensures after { OnOk result (endpoint.new ≡ (speaks c endpoint.old).1) }
    ensures short { IfOk result AreShort }
    ensures few { IfOk result (λ sends. length sends ≤ length before + MAX_STREAM_BYTES + 3) }
{
    let mut sends = before;
    endpoint.law();
    while let Some(ready) = endpoint.emit() {
        sends.push(to_client(alloc, c, endpoint, ready)?)?;
        endpoint.law();
    }
    Ok(sends)
}

/// Sends of an endpoint what has a symbol, up to the first plain ACK. `NoMemory` where memory runs out; nothing is said
/// of the endpoint then.
pub fn speak_symbols(alloc: Global, c: ConnId, endpoint: &mut Endpoint) -> Result<Sends, NoMemory>
    ensures sends { IfOk result (λ sends. sends ≡ (speaks_symbols c endpoint.old).0) }
    ensures after { OnOk result (endpoint.new ≡ (speaks_symbols c endpoint.old).1) }
    ensures short { IfOk result AreShort }
    ensures few { IfOk result (λ sends. length sends ≤ MAX_STREAM_BYTES + 3) }
{
    let mut sends = Sends::new(alloc);
    endpoint.law();
    while let Some(ready) = endpoint.emit() {
        if !has_symbol(ready) {
            return Ok(sends);
        }
        sends.push(to_client(alloc, c, endpoint, ready)?)?;
        endpoint.law();
    }
    Ok(sends)
}

/// Whether a segment sends a symbol, and is no plain ACK.
fn has_symbol(ready: Ready) -> bool
    ensures { result ≡ has_symbol ready }
{
    ready.flags.syn || ready.flags.fin || 0 < ready.len
}

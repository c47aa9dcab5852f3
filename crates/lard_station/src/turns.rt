//! The rules of a client's place, each over one client.

ghost use Rattle.std.specs.Prelude.{◌≡◌, ◌+◌, ◌-◌, ◌^◌, ◌≤◌, ◌++◌, [], length, drop, IfOk, IfSome, OnOk};
ghost use Rattle.lard_base.specs.declared.limits.TheConstants.{MAX_SEGMENT_BYTES, MAX_STREAM_BYTES};
ghost use Rattle.lard_client.specs.Control.{written_len};
ghost use Rattle.lard_client.specs.Leaving.{IsHeld, IsWritable};
ghost use Rattle.lard_history.specs.Journal.{request};
ghost use Rattle.lard_rules.specs.Client.{accepted_note, client_aborts, client_gets, client_heard, client_holds, client_injects, client_shuts, client_takes, client_timer, client_writes, eof_note, station_ready_of, speaking};
ghost use Rattle.lard_rules.specs.Speaking.{AreShort};
ghost use Rattle.lard_segment.specs.Segment.{decoded};
ghost use Rattle.lard_serving.specs.Bounds.{IsTurn};

use crate::speaking::{client_speak, to_front};
use lard_base::{Bytes, ConnId, NoMemory, Path, Place, Sends};
use lard_client::{Client, Heard};
use lard_journal::{Rec, Recs};
use lard_rules::Turn;
use lard_segment::{Dir, Ready, decode};
use lard_serving::silent;
use lard_shared::Shared;
use std::alloc::Global;

/// The client notes this, and sends these packets and then what it may. `NoMemory` where memory runs out; nothing is
/// said of the client then.
pub fn speaking(
    alloc: Global,
    notes: Recs,
    before: Sends,
    client: &mut Client,
) -> Result<Turn, NoMemory>
    requires short { AreShort before }
    requires few { length before ≤ 1 }
    ensures turn { IfOk result (λ turn. (client.new, turn) ≡ speaking notes before client.old) }
    ensures fits { IfOk result IsTurn }
{
    let segments = client_speak(alloc, client, before)?;
    Ok(Turn {
        notes,
        segments,
        answered: 0,
    })
}

/// The packet of the segment that is ready, where there is one.
fn packets_of(alloc: Global, client: &Client, ready: Option<Ready>) -> Result<Sends, NoMemory>
    requires held { IfSome ready (λ ready. IsHeld client.now ready) }
    requires writable { IfSome ready IsWritable }
    ensures packets { IfOk result (λ sends. sends ≡ station_ready_of client.now ready) }
    ensures short { IfOk result AreShort }
    ensures few { IfOk result (λ sends. length sends ≤ 1) }
{
    let mut sends = Sends::new(alloc);
    match ready {
        None => return Ok(sends),
        Some(ready) => {
            let packet = to_front(alloc, client, ready)?;
            sends.push(packet)?;
            return Ok(sends);
        }
    }
}

/// The client opens: its SYN goes out (RFC 9293, 3.10.1). `NoMemory` where memory runs out; nothing is said of the
/// client then.
pub fn open(alloc: Global, client: &mut Client) -> Result<Turn, NoMemory>
    ensures turn { IfOk result (λ turn. (client.new, turn) ≡ speaking [] [] client.old) }
    ensures fits { IfOk result IsTurn }
{
    speaking(alloc, Recs::new(alloc), Sends::new(alloc), client)
}

/// The client writes (RFC 9293, 3.10.2), unless it writes no longer; in all at most 2^30 bytes, as `written_len` tells.
/// `NoMemory` where memory runs out; nothing is said of the client then.
pub fn write(alloc: Global, client: &mut Client, bytes: Bytes) -> Result<Turn, NoMemory>
    requires { written_len client.old bytes ≤ MAX_STREAM_BYTES }
    ensures turn { IfOk result (λ turn. (client.new, turn) ≡ client_writes client.old bytes) }
    ensures fits { IfOk result IsTurn }
{
    if !client.write(bytes.as_slice())? {
        return Ok(silent(alloc));
    }
    let mut notes = Recs::new(alloc);
    let c = client.number();
    notes.push(Rec::Wrote { c, bytes })?;
    speaking(alloc, notes, Sends::new(alloc), client)
}

/// The client closes its side (RFC 9293, 3.10.4). `NoMemory` where memory runs out; nothing is said of the client then.
pub fn shut(alloc: Global, client: &mut Client) -> Result<Turn, NoMemory>
    ensures turn { IfOk result (λ turn. (client.new, turn) ≡ client_shuts client.old) }
    ensures fits { IfOk result IsTurn }
{
    client.shut();
    speaking(alloc, Recs::new(alloc), Sends::new(alloc), client)
}

/// The client leaves accepted bytes in its window from now on. `NoMemory` where memory runs out; nothing is said of the
/// client then.
pub fn hold(alloc: Global, client: &mut Client) -> Result<Turn, NoMemory>
    ensures turn { IfOk result (λ turn. (client.new, turn) ≡ client_holds client.old) }
    ensures fits { IfOk result IsTurn }
{
    client.hold();
    speaking(alloc, Recs::new(alloc), Sends::new(alloc), client)
}

/// The client reads all that lies in its window (RFC 9293, 3.10.3). `NoMemory` where memory runs out; nothing is said
/// of the client then.
pub fn take(alloc: Global, client: &mut Client) -> Result<Turn, NoMemory>
    ensures turn { IfOk result (λ turn. (client.new, turn) ≡ client_takes client.old) }
    ensures fits { IfOk result IsTurn }
{
    client.take();
    speaking(alloc, Recs::new(alloc), Sends::new(alloc), client)
}

/// The client resets its connection (RFC 9293, 3.10.5), by a RST where there is one to send. `NoMemory` where memory
/// runs out; nothing is said of the client then.
pub fn abort(alloc: Global, client: &mut Client) -> Result<Turn, NoMemory>
    ensures turn { IfOk result (λ turn. (client.new, turn) ≡ client_aborts client.old) }
    ensures fits { IfOk result IsTurn }
{
    let ready = client.abort();
    let mut notes = Recs::new(alloc);
    notes.push(Rec::Aborted(client.number()))?;
    let segments = packets_of(alloc, client, ready)?;
    Ok(Turn {
        notes,
        segments,
        answered: 0,
    })
}

/// The schedule puts a packet with these bytes, at most 1,520, on the way from a client, which itself does nothing.
/// `NoMemory` where memory runs out.
pub fn inject(alloc: Global, client: &Client, bytes: Bytes) -> Result<Turn, NoMemory>
    requires short { length bytes ≤ MAX_SEGMENT_BYTES }
    ensures turn { IfOk result (λ turn. (client.now, turn) ≡ client_injects client.now bytes) }
    ensures fits { IfOk result IsTurn }
{
    let mut segments = Sends::new(alloc);
    segments.push((Place::Front, bytes))?;
    Ok(Turn {
        notes: Recs::new(alloc),
        segments,
        answered: 0,
    })
}

/// The client's timer fires (RFC 9293, 3.10.8). `NoMemory` where memory runs out; nothing is said of the client then.
pub fn fire(alloc: Global, client: &mut Client) -> Result<Turn, NoMemory>
    ensures turn { IfOk result (λ turn. (client.new, turn) ≡ client_timer client.old) }
    ensures fits { IfOk result IsTurn }
{
    let ready = client.timer();
    let before = packets_of(alloc, client, ready)?;
    speaking(alloc, Recs::new(alloc), before, client)
}

/// A packet comes (RFC 9293, 3.10.7), of at most 1,520 bytes. What does not decode is dropped. `NoMemory` where memory
/// runs out; nothing is said of the client then.
pub fn receive(
    alloc: Global,
    c: ConnId,
    client: &mut Client,
    bytes: &Shared,
) -> Result<Turn, NoMemory>
    requires { length bytes.now ≤ MAX_SEGMENT_BYTES }
    ensures turn { IfOk result (λ turn. (client.new, turn) ≡ client_gets client.old (decoded bytes.now c Dir.ToClient)) }
    ensures fits { IfOk result IsTurn }
{
    match decode(bytes.as_slice(), c, Dir::ToClient) {
        Ok(segment) => {
            let heard = client.arrive(&segment);
            let payload = data_in(bytes, segment.payload)?;
            return answer(alloc, client, &payload, heard);
        }
        Err(_) => return Ok(silent(alloc)),
    }
}

/// The data of a packet's segment, which is the last of the packet, without a copy of it.
fn data_in(packet: &Shared, payload: &[u8]) -> Result<Shared, NoMemory>
    requires within { length payload.now ≤ length packet.now }
    requires last { drop (length packet.now - length payload.now) packet.now ≡ payload.now }
    ensures { IfOk result (λ part. part ≡ payload.now) }
{
    let len = payload.len();
    packet.part(packet.len() - len, len)
}

/// What the client says of what it heard of a segment with this data.
fn answer(
    alloc: Global,
    client: &mut Client,
    payload: &Shared,
    heard: Heard,
) -> Result<Turn, NoMemory>
    requires part { heard.from + heard.len ≤ length payload.now }
    requires held { IfSome heard.reply (λ ready. IsHeld client.old ready) }
    requires writable { IfSome heard.reply IsWritable }
    ensures turn { IfOk result (λ turn. (client.new, turn) ≡ client_heard payload.now (heard, client.old)) }
    ensures fits { IfOk result IsTurn }
{
    let mut notes = Recs::new(alloc);
    note_accepted(&mut notes, client.number(), heard, payload)?;
    note_eof(&mut notes, client.number(), heard)?;
    let before = packets_of(alloc, client, heard.reply)?;
    speaking(alloc, notes, before, client)
}

/// Notes what was accepted of a segment's data, as a part of it.
fn note_accepted(
    notes: &mut Recs,
    c: ConnId,
    heard: Heard,
    payload: &Shared,
) -> Result<(), NoMemory>
    requires part { heard.from + heard.len ≤ length payload.now }
    ensures { OnOk result (notes.new ≡ notes.old ++ accepted_note c heard payload.now) }
{
    if heard.len == 0 {
        return Ok(());
    }
    let bytes = payload.part(heard.from as usize, heard.len as usize)?;
    notes.push(Rec::Accepted { c, bytes })
}

/// Notes the end of the stream, where it was taken.
fn note_eof(notes: &mut Recs, c: ConnId, heard: Heard) -> Result<(), NoMemory>
    ensures { OnOk result (notes.new ≡ notes.old ++ eof_note c heard) }
{
    if heard.eof {
        return notes.push(Rec::Eof(c));
    }
    Ok(())
}

// ---- what it writes

/// What a plain request for a path says (RFC 9112, 3). `NoMemory` where memory runs out.
pub fn request(alloc: Global, path: &Path) -> Result<Bytes, NoMemory>
    ensures { IfOk result (λ bytes. bytes ≡ request path.now) }
{
    let mut text = Vec::from_slice(alloc, b"GET ")?;
    text.extend_from_slice(path.as_slice())?;
    text.extend_from_slice(b" HTTP/1.1\r\nHost: lard\r\n\r\n")?;
    Ok(Bytes::from_vec(text))
}

/// How many bytes a client has written once it writes these, which do not count where it writes no longer.
pub fn written_len(client: &Client, bytes: &[u8]) -> u64
    ensures { result ≡ written_len client.now bytes.now }
{
    let more = if client.writes() { bytes.len() } else { 0 };
    u64::from(client.written()) + more as u64
}

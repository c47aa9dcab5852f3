//! What a client sends: segments as the bytes of packets, call by call until none is left.

ghost use Rattle.std.specs.Prelude.{◌≡◌, ◌+◌, ◌^◌, ◌≤◌, ◌++◌, length, IfOk, OnOk};
ghost use Rattle.lard_base.specs.declared.limits.TheConstants.{MAX_STREAM_BYTES};
ghost use Rattle.lard_client.specs.Leaving.{IsHeld, IsWritable};
ghost use Rattle.lard_rules.specs.Speaking.{AreShort, client_speaks, to_front};

use lard_base::limits::{MAX_SEGMENT_BYTES, MAX_SEGMENT_DATA};
use lard_base::{Bytes, NoMemory, Place, Sends};
use lard_client::Client;
use lard_segment::{Dir, Ready};
use lard_serving::packet;
use std::alloc::Global;

/// The most bytes of data in a segment, as the length of a buffer.
const DATA: usize = MAX_SEGMENT_DATA as usize;

/// The packet of a segment that the client gave last. `NoMemory` where memory runs out.
pub fn to_front(alloc: Global, client: &Client, ready: Ready) -> Result<(Place, Bytes), NoMemory>
    requires held { IsHeld client.now ready }
    requires writable { IsWritable ready }
    ensures packet { IfOk result (λ packet. packet ≡ to_front client.now ready) }
    ensures short { IfOk result (λ packet. length packet.1 ≤ MAX_SEGMENT_BYTES) }
{
    let mut data = [0; DATA];
    let segment = client.segment(ready, &mut data);
    let bytes = packet(alloc, &segment, client.number(), Dir::ToCluster)?;
    Ok((Place::Front, bytes))
}

/// Sends what the client may send, behind these packets. `NoMemory` where memory runs out; nothing is said of the
/// client then.
pub fn client_speak(alloc: Global, client: &mut Client, before: Sends) -> Result<Sends, NoMemory>
    requires { AreShort before }
    ensures sends { IfOk result (λ sends. sends ≡ before ++ (client_speaks client.old).0) }
    ensures after { OnOk result (client.new ≡ (client_speaks client.old).1) }
    ensures short { IfOk result AreShort }
    ensures few { IfOk result (λ sends. length sends ≤ length before + MAX_STREAM_BYTES + 3) }
{
    let mut sends = before;
    client.law();
    while let Some(ready) = client.emit() {
        sends.push(to_front(alloc, client, ready)?)?;
        client.law();
    }
    Ok(sends)
}

//! Reading a segment from its bytes.

ghost use Rattle.std.specs.Prelude.{◌≡◌, ◌+◌, ◌≤◌, length, IfSome, IfOk};
ghost use Rattle.lard_segment.specs.Segment.{are_ports, begins_at, decoded, GivesSegment};

use crate::checksum::checksum;
use crate::fault::SegFault;
use crate::fields::{
    ACK_NUMBER, CHECKSUM, CONTROL, FIXED, OFFSET, SEQ, SOURCE, TARGET, WINDOW, flags, number,
    source, target, word,
};
use crate::options::mss_of;
use crate::segment::{Dir, Segment};
use lard_base::ConnId;
use lard_base::limits::MAX_SEGMENT_DATA;
use lard_seq::Seq;

/// What the bytes say of connection `c`, where they come this way, or the first fault in the order of its variants
/// (RFC 9293, 3.1). They are at most 65,535. Urgent data, the two bits on congestion, reserved bits and unknown options
/// are passed over. A maximum segment size is brought into the range 1 to 1,460.
#[tactic(auto, unfolding(crate::specs::Segment::decoded))]
pub fn decode(bytes: &[u8], c: ConnId, dir: Dir) -> Result<Segment<'_>, SegFault>
    requires { length bytes.now ≤ 65535 }
    ensures given { GivesSegment result (decoded bytes.now c dir) }
    ensures size { IfOk result (λ s. IfSome s.mss (λ m. (1 ≤ m) × (m ≤ MAX_SEGMENT_DATA))) }
    ensures within { IfOk result (λ s. 20 + length s.payload.now ≤ length bytes.now) }
{
    if bytes.len() < FIXED {
        return Err(SegFault::Short);
    }
    if word(bytes, CHECKSUM) != checksum(bytes, c) {
        return Err(SegFault::Sum);
    }
    if !has_ports(bytes, dir) {
        return Err(SegFault::Port);
    }
    let Some(begins) = data_at(bytes) else {
        return Err(SegFault::Offset);
    };
    let mss = mss_of(&bytes[FIXED..begins])?;
    Ok(Segment {
        seq: Seq(number(bytes, SEQ)),
        ack: Seq(number(bytes, ACK_NUMBER)),
        flags: flags(bytes[CONTROL]),
        wnd: word(bytes, WINDOW),
        mss,
        payload: &bytes[begins..],
    })
}

/// Whether the segment goes between the ports of its direction.
fn has_ports(bytes: &[u8], dir: Dir) -> bool
    requires { 20 ≤ length bytes.now }
    ensures { result ≡ are_ports bytes.now dir }
{
    word(bytes, SOURCE) == source(dir) && word(bytes, TARGET) == target(dir)
}

/// Where the data begins, unless that is in the header's fixed part or past the end.
fn data_at(bytes: &[u8]) -> Option<usize>
    requires { 20 ≤ length bytes.now }
    ensures value { result ≡ begins_at bytes.now }
    ensures within { IfSome result (λ n. (20 ≤ n) × (n ≤ length bytes.now)) }
{
    let begins = bytes[OFFSET] as usize / 16 * 4;
    if begins < FIXED || bytes.len() < begins {
        return None;
    }
    Some(begins)
}

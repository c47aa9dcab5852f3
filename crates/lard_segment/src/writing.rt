//! Writing a segment to its bytes.

ghost use Rattle.std.specs.Prelude.{◌≡◌, ◌+◌, ◌≤◌, ◌++◌, length, take, drop, IfSome, false};
ghost use Rattle.byteorder.specs.Endian.{big_bytes};
ghost use Rattle.lard_segment.specs.Options.{option_bytes};
ghost use Rattle.lard_segment.specs.Segment.{said, spelled, fixed_bytes};

use crate::checksum::checksum;
use crate::fields::{
    ACK_NUMBER, CHECKSUM, CONTROL, FIXED, OFFSET, SEQ, SOURCE, TARGET, WINDOW, byte, source, target,
};
use crate::options::{MSS, MSS_LEN};
use crate::segment::{Dir, Segment};
use byteorder::{BigEndian, ByteOrder};
use lard_base::ConnId;
use lard_base::limits::{MAX_SEGMENT_BYTES, MAX_SEGMENT_DATA};

/// Writes the one spelling of the segment on connection `c` to the front of `buf`, and answers its length, 20 to 1,484
/// (RFC 9293, 3.1). `buf` has at least 1,520 bytes. The segment names a maximum segment size of 1 to 1,460 or none, has
/// at most 1,460 bytes of data, and the acknowledgement number 0 where it has no ACK.
pub fn encode(segment: &Segment<'_>, c: ConnId, dir: Dir, buf: &mut [u8]) -> usize
    requires room { MAX_SEGMENT_BYTES ≤ length buf.old }
    requires some_mss { IfSome segment.now.mss (λ m. 1 ≤ m) }
    requires small_mss { IfSome segment.now.mss (λ m. m ≤ MAX_SEGMENT_DATA) }
    requires small_payload { length segment.now.payload.now ≤ MAX_SEGMENT_DATA }
    requires no_ack { segment.now.flags.ack ≡ false → segment.now.ack.0 ≡ 0 }
    ensures len { result ≡ length (spelled c dir (said segment.now)) }
    ensures within { (20 ≤ result) × (result ≤ 24 + MAX_SEGMENT_DATA) }
    ensures bytes { buf.new ≡ spelled c dir (said segment.now) ++ drop result buf.old }
{
    let len = put_rest(buf, segment.mss, segment.payload);
    put_fixed(buf, segment, dir, len - segment.payload.len());
    let agreeing = checksum(&buf[..len], c);
    put_checksum(buf, agreeing);
    len
}

/// Writes the options and the data behind the fixed part, and answers where they end.
fn put_rest(buf: &mut [u8], mss: Option<u16>, payload: &[u8]) -> usize
    requires { 24 + length payload.now ≤ length buf.old }
    ensures len { result ≡ 20 + length (option_bytes mss) + length payload.now }
    ensures bytes { buf.new ≡ take 20 buf.old ++ (option_bytes mss ++ payload.now) ++ drop result buf.old }
{
    let rest = &mut buf[FIXED..];
    let len = put_options(rest, mss);
    put_payload(rest, len, payload);
    FIXED + len + payload.len()
}

/// Writes the options, and answers how many bytes they take.
fn put_options(buf: &mut [u8], mss: Option<u16>) -> usize
    requires { 4 ≤ length buf.old }
    ensures len { result ≡ length (option_bytes mss) }
    ensures bytes { buf.new ≡ option_bytes mss ++ drop result buf.old }
{
    let Some(size) = mss else {
        return 0;
    };
    buf[0] = MSS;
    buf[1] = MSS_LEN;
    BigEndian::write_u16(&mut buf[2..], size);
    4
}

/// Writes the data at its place.
fn put_payload(buf: &mut [u8], at: usize, payload: &[u8])
    requires { at + length payload.now ≤ length buf.old }
    ensures { buf.new ≡ take at buf.old ++ payload.now ++ drop (at + length payload.now) buf.old }
{
    let place = &mut buf[at..at + payload.len()];
    place.copy_from_slice(payload);
}

/// Writes the header without its options, where the data begins at `begins`, with checksum 0.
fn put_fixed(buf: &mut [u8], segment: &Segment<'_>, dir: Dir, begins: usize)
    requires room { 20 ≤ length buf.old }
    requires header { begins ≤ 60 }
    ensures { buf.new ≡ fixed_bytes dir (said segment.now) begins 0 ++ drop 20 buf.old }
{
    BigEndian::write_u16(&mut buf[SOURCE..], source(dir));
    BigEndian::write_u16(&mut buf[TARGET..], target(dir));
    BigEndian::write_u32(&mut buf[SEQ..], segment.seq.0);
    BigEndian::write_u32(&mut buf[ACK_NUMBER..], segment.ack.0);
    buf[OFFSET] = (begins / 4 * 16) as u8;
    buf[CONTROL] = byte(segment.flags);
    BigEndian::write_u16(&mut buf[WINDOW..], segment.wnd);
    // the urgent pointer as well
    BigEndian::write_u32(&mut buf[CHECKSUM..], 0);
}

/// Writes the checksum to its place.
fn put_checksum(buf: &mut [u8], checksum: u16)
    requires { 20 ≤ length buf.old }
    ensures { buf.new ≡ take 16 buf.old ++ big_bytes 2 checksum ++ drop 18 buf.old }
{
    BigEndian::write_u16(&mut buf[CHECKSUM..], checksum);
}

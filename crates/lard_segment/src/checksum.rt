//! The checksum of a segment (RFC 9293, 3.1).

ghost use Rattle.std.specs.Prelude.{◌≡◌, ◌+◌, ◌*◌, ◌≤◌, length};
ghost use Rattle.lard_segment.specs.declared.segment.Dir.{Dir};
ghost use Rattle.lard_segment.specs.Checksum.{words_sum, pseudo_header, checksum_of};

use crate::fields::{CHECKSUM, word};
use lard_base::ConnId;

/// The number of TCP among the protocols over IP.
const PROTOCOL: u32 = 6;

/// The sum of the words of 16 bits, the last one filled up by a zero byte.
fn sum(bytes: &[u8]) -> u32
    requires { length bytes.now ≤ 65535 }
    ensures value { result ≡ words_sum bytes.now }
    ensures small { 2 * result ≤ 65535 * (length bytes.now + 1) }
{
    let mut total = 0;
    let mut rest = bytes;
    while let [high, low, more @ ..] = rest {
        total += u32::from(*high) * 256 + u32::from(*low);
        rest = more;
    }
    match rest {
        [high, ..] => total + u32::from(*high) * 256,
        [] => total,
    }
}

/// The sum of the pseudo header of a segment of this length. Which of the two addresses is the source
/// makes no difference to it.
fn pseudo_sum(c: ConnId, len: usize) -> u32
    requires { len ≤ 65535 }
    ensures value { (dir : Dir) → result ≡ words_sum (pseudo_header c dir len) }
    ensures small { result ≤ 100000 }
{
    // 10.0.0.1, and 10.1 before the connection's number
    let cluster = 10 * 256 + 1;
    let client = 10 * 256 + 1 + c.number();
    cluster + client + PROTOCOL + len as u32
}

/// The checksum that belongs to a segment of connection `c`, whatever its checksum field holds (RFC 9293, 3.1). The
/// segment has 20 to 65,535 bytes.
pub fn checksum(bytes: &[u8], c: ConnId) -> u16
    requires header { 20 ≤ length bytes.now }
    requires small { length bytes.now ≤ 65535 }
    ensures { (dir : Dir) → result ≡ checksum_of c dir bytes.now }
{
    let field = u32::from(word(bytes, CHECKSUM));
    let total = pseudo_sum(c, bytes.len()) + (sum(bytes) - field);
    ((65_535 - total % 65_535) % 65_535) as u16
}

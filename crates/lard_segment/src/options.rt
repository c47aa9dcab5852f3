//! The options of a segment (RFC 9293, 3.1 and 3.2).

ghost use Rattle.std.specs.Prelude.{◌≡◌, ◌+◌, ◌≤◌, length, IfSome};
ghost use Rattle.lard_segment.specs.Options.{option_len, mss_after, mss_in};

use crate::fault::SegFault;
use crate::fields::word;
use lard_base::limits::MAX_SEGMENT_DATA;

/// The kind of the option that ends the list.
const END: u8 = 0;
/// The kind of the option of one byte that says nothing.
const NOTHING: u8 = 1;
/// The kind of the option that names the maximum segment size.
pub const MSS: u8 = 2;
/// The length of that option.
pub const MSS_LEN: u8 = 4;

/// The length of an option of this kind, of which `after` begins with the length byte.
fn length_of(kind: u8, after: &[u8]) -> Option<usize>
    ensures value { result ≡ option_len kind after.now }
    ensures within { IfSome result (λ l. (2 ≤ l) × (l ≤ length after.now + 1)) }
{
    let [len, more @ ..] = after else {
        return None;
    };
    if *len < 2 || more.len() < *len as usize - 2 {
        return None;
    }
    if kind == MSS && *len != MSS_LEN {
        return None;
    }
    Some(*len as usize)
}

/// The maximum segment size once this option is read. The first one that is named counts.
fn after_option(mss: Option<u16>, kind: u8, after: &[u8]) -> Option<u16>
    requires { kind ≡ 2 → 3 ≤ length after.now }
    ensures { result ≡ mss_after mss kind after.now }
{
    if kind != MSS || mss.is_some() {
        return mss;
    }
    Some(word(after, 1).clamp(1, MAX_SEGMENT_DATA))
}

/// The maximum segment size that the options name, brought into the range 1 to 1,460, and `None` where they name none
/// (RFC 9293, 3.1 and 3.2). The first that is named counts. `SegFault::Option` where an option is cut off, or has a
/// wrong length.
pub fn mss_of(bytes: &[u8]) -> Result<Option<u16>, SegFault>
    ensures { result ≡ mss_in bytes.now }
{
    let mut rest = bytes;
    let mut mss = None;
    while let Some((kind, after)) = rest.split_first() {
        if *kind == END {
            return Ok(mss);
        }
        if *kind == NOTHING {
            rest = after;
            continue;
        }
        let Some(len) = length_of(*kind, after) else {
            return Err(SegFault::Option);
        };
        mss = after_option(mss, *kind, after);
        rest = after.split_at(len - 1).1;
    }
    Ok(mss)
}

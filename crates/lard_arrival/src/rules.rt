//! The rules of a segment that arrives. `nxt` is RCV.NXT, and `wnd` is RCV.WND (RFC 9293, 3.3.1).

ghost use Rattle.std.specs.Prelude.{◌≡◌, ◌≤◌};
ghost use Rattle.lard_arrival.specs.Arrival.{seg_len, last_number, is_acceptable, is_allowed, bare, peer_mss};
ghost use Rattle.lard_segment.specs.Segment.{said};

use lard_base::limits::MAX_SEGMENT_DATA;
use lard_segment::{Flags, Segment};
use lard_seq::Seq;

/// The maximum segment size of a peer whose SYN names none (RFC 9293, 3.7.1).
pub const DEFAULT_MSS: u16 = 536;

/// Whether a segment is acceptable, by the four cases of RFC 9293, 3.10.7.4, table 6.
pub fn is_acceptable(segment: &Segment<'_>, nxt: Seq, wnd: u32) -> bool
    ensures { result ≡ is_acceptable nxt.0 wnd (said segment.now) }
{
    let closed = wnd == 0;
    if seg_len(segment) == 0 {
        return if closed {
            segment.seq == nxt
        } else {
            segment.seq.in_window(nxt, wnd)
        };
    }
    !closed && (segment.seq.in_window(nxt, wnd) || last_number(segment).in_window(nxt, wnd))
}

/// Whether a segment may acknowledge, and no more, though its data or FIN does not fit: the window is 0, and the
/// segment begins at `nxt` with neither RST nor SYN (RFC 9293, 3.10.7.4, first).
pub fn is_allowed(segment: &Segment<'_>, nxt: Seq, wnd: u32) -> bool
    ensures { result ≡ is_allowed nxt.0 wnd (said segment.now) }
{
    (wnd == 0 && segment.seq == nxt) && (!segment.flags.rst && !segment.flags.syn)
}

/// The segment without its data and FIN, as one that may acknowledge alone is taken.
pub fn bare<'a>(segment: &Segment<'a>) -> Segment<'a>
    ensures { said result ≡ bare (said segment.now) }
{
    Segment {
        flags: Flags {
            fin: false,
            ..segment.flags
        },
        payload: &[],
        ..*segment
    }
}

/// The maximum segment size of a peer whose SYN names this one, or none: 1 to 1,460 bytes, and 536 where it names none
/// (RFC 9293, 3.7.1).
pub fn peer_mss(named: Option<u16>) -> u16
    ensures value { result ≡ peer_mss named }
    ensures some { 1 ≤ result }
    ensures small { result ≤ MAX_SEGMENT_DATA }
{
    named.unwrap_or(DEFAULT_MSS).clamp(1, MAX_SEGMENT_DATA)
}

/// How many numbers a segment takes: its data, its SYN and its FIN (RFC 9293, 3.4).
fn seg_len(segment: &Segment<'_>) -> usize
    ensures { result ≡ seg_len (said segment.now) }
{
    segment.payload.len() + segment.flags.syn as usize + segment.flags.fin as usize
}

/// The last of the numbers of a segment that takes some.
fn last_number(segment: &Segment<'_>) -> Seq
    ensures { result.0 ≡ last_number (said segment.now) }
{
    let behind = seg_len(segment).saturating_sub(1);
    // the numbers begin again, so only the low 32 bits of the length count
    segment.seq.add((behind & 0xffff_ffff) as u32)
}

//! A connection's endpoint, taken apart for its way to another place.

ghost use Rattle.std.specs.Prelude.{◌↔◌, IsTrue};

use crate::bytes::Bytes;
use crate::limits::{MAX_SEGMENT_DATA, MAX_STREAM_BYTES, RECEIVE_WINDOW};

/// The numbers and bytes from which an endpoint goes on elsewhere.
#[derive(Debug, Drop)]
pub struct EndpointParts {
    /// The client's initial sequence number.
    pub irs: u32,
    /// The cluster's initial sequence number.
    pub iss: u32,
    /// The client's bytes received in order, the unread ones among them; at most 2^30.
    pub got: u32,
    /// The client's FIN was taken.
    pub fin: bool,
    /// The sequence numbers of the send side that are acknowledged, the SYN among them; 1 to 2^30 + 1.
    pub una: u32,
    /// The client's window.
    pub wnd: u16,
    /// The sequence number of the segment that last changed the window.
    pub wl1: u32,
    /// The acknowledgement number of that segment.
    pub wl2: u32,
    /// The client's maximum segment size, 1 to 1,460.
    pub mss: u16,
    /// The responses that were queued before; at most `got` less the unread bytes.
    pub served: u32,
    /// The received bytes that no request was read from yet; at most 16,384, and no more than `got`.
    pub unread: Bytes,
}

impl EndpointParts {
    ghost use Rattle.lard_base.specs.Parts.{IsValidParts};

    /// Whether an endpoint can be made of these parts: each number is in the range that stands beside it.
    pub fn is_valid(&self) -> bool
        ensures { IsTrue result ↔ IsValidParts self.now }
    {
        let unread = self.unread.len();
        let got = self.got as usize;
        if unread > RECEIVE_WINDOW as usize || unread > got || self.got > MAX_STREAM_BYTES {
            return false;
        }
        if self.una < 1
            || self.una > MAX_STREAM_BYTES + 1
            || self.mss < 1
            || self.mss > MAX_SEGMENT_DATA
        {
            return false;
        }
        self.served as usize <= got - unread
    }
}

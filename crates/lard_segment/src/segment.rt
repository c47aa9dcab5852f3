//! What a segment says, its data aside or at hand, and the direction that it goes.

ghost use Rattle.std.specs.Prelude.{◌≡◌};
ghost use Rattle.lard_segment.specs.Control.{control_ready, control_said};
ghost use Rattle.lard_segment.specs.Segment.{said};

use lard_seq::Seq;

/// The control bits that the cluster speaks of (RFC 9293, 3.1).
#[derive(Clone, Copy, Debug, PartialEq, Eq)]
pub struct Flags {
    /// The sequence number is the first of its direction.
    pub syn: bool,
    /// The acknowledgement number counts.
    pub ack: bool,
    /// The sender has no more data.
    pub fin: bool,
    /// The connection is reset.
    pub rst: bool,
    /// The data is to be handed on at once.
    pub psh: bool,
}

impl Flags {
    /// No control bit.
    pub const NONE: Flags = Flags {
        syn: false,
        ack: false,
        fin: false,
        rst: false,
        psh: false,
    };
    /// ACK alone.
    pub const ACK: Flags = Flags {
        syn: false,
        ack: true,
        fin: false,
        rst: false,
        psh: false,
    };
    /// RST alone.
    pub const RST: Flags = Flags {
        syn: false,
        ack: false,
        fin: false,
        rst: true,
        psh: false,
    };
    /// RST and ACK.
    pub const RST_ACK: Flags = Flags {
        syn: false,
        ack: true,
        fin: false,
        rst: true,
        psh: false,
    };
}

/// A segment, with its data at hand (RFC 9293, 3.1).
#[derive(Clone, Copy, Debug, PartialEq, Eq)]
pub struct Segment<'a> {
    /// The sequence number of the first byte of data, or of the SYN.
    pub seq: Seq,
    /// The next sequence number that the sender expects.
    pub ack: Seq,
    pub flags: Flags,
    /// The window that the sender offers, in bytes.
    pub wnd: u16,
    /// The maximum segment size that the sender names, in bytes, where it names one.
    pub mss: Option<u16>,
    pub payload: &'a [u8],
}

impl Segment<'_> {
    /// A segment with no data, that names no maximum segment size: `<SEQ=seq><ACK=ack><CTL=flags>` and a window in
    /// bytes (RFC 9293, 3.1).
    pub fn control(seq: Seq, ack: Seq, flags: Flags, wnd: u16) -> Segment<'static>
        ensures { said result ≡ control_said seq.0 ack.0 flags wnd }
    {
        Segment {
            seq,
            ack,
            flags,
            wnd,
            mss: None,
            payload: &[],
        }
    }
}

/// A segment whose data is named by its place among queued bytes.
#[derive(Clone, Copy, Debug, PartialEq, Eq)]
pub struct Ready {
    /// The sequence number of the first byte of data, or of the SYN.
    pub seq: Seq,
    /// The next sequence number that the sender expects.
    pub ack: Seq,
    pub flags: Flags,
    /// The window that the sender offers, in bytes.
    pub wnd: u16,
    /// The maximum segment size that the sender names, in bytes, where it names one.
    pub mss: Option<u16>,
    /// How many queued bytes come before the data.
    pub at: u32,
    /// How many bytes of data there are.
    pub len: u32,
}

impl Ready {
    /// A segment with no data, that names no maximum segment size; `at` queued bytes come before its number.
    pub fn control(seq: Seq, ack: Seq, flags: Flags, wnd: u16, at: u32) -> Ready
        ensures { result ≡ control_ready seq.0 ack.0 flags wnd at }
    {
        Ready {
            seq,
            ack,
            flags,
            wnd,
            mss: None,
            at,
            len: 0,
        }
    }
}

/// Which way a segment goes: from a client to the cluster, or from the cluster to a client.
#[derive(Clone, Copy, Debug, PartialEq, Eq)]
pub enum Dir {
    ToCluster,
    ToClient,
}

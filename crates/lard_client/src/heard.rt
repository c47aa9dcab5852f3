//! What a client made of a segment.

ghost use Rattle.std.specs.Prelude.{◌≡◌};

use lard_segment::Ready;

/// The part of a segment's data that a client accepted, and what it answers at once.
#[derive(Clone, Copy, Debug, PartialEq, Eq)]
pub struct Heard {
    /// How many bytes of the data stand before the accepted ones.
    pub from: u32,
    /// How many bytes it accepted.
    pub len: u32,
    /// It took the segment's FIN.
    pub eof: bool,
    /// The RST of a client that was aborted.
    pub reply: Option<Ready>,
}

impl Heard {
    ghost use Rattle.lard_client.specs.Arriving.{heard_nothing};

    /// Nothing was accepted, and nothing is answered at once.
    pub fn nothing() -> Heard
        ensures { result ≡ heard_nothing }
    {
        Heard {
            from: 0,
            len: 0,
            eof: false,
            reply: None,
        }
    }
}

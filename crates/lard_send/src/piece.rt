//! What one segment carries of the symbols that are to be sent.

ghost use Rattle.std.specs.Prelude.{◌≡◌};

/// A run of symbols: the SYN alone, or queued bytes and the FIN behind them.
#[derive(Clone, Copy, Debug, PartialEq, Eq)]
pub struct Piece {
    /// How many queued bytes stand before it.
    pub at: u32,
    /// How many bytes it has.
    pub len: u32,
    /// It is the SYN.
    pub syn: bool,
    /// The FIN follows its bytes.
    pub fin: bool,
    /// The last queued byte is among its bytes.
    pub push: bool,
}

impl Piece {
    ghost use Rattle.lard_send.specs.Send.{syn_piece};

    /// The SYN.
    pub fn syn() -> Piece
        ensures { result ≡ syn_piece }
    {
        Piece {
            at: 0,
            len: 0,
            syn: true,
            fin: false,
            push: false,
        }
    }
}

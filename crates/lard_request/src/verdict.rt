//! What is found of a block.

ghost use Rattle.std.specs.Prelude.{◌≡◌};
ghost use Rattle.lard_request.specs.Verdict.{closes};

use lard_base::{Items, Path};

/// What a block is answered with (RFC 9110, 15; RFC 6585, 5 for 431).
#[derive(Clone, Copy, Debug, PartialEq, Eq)]
pub enum Code {
    /// 200
    Ok,
    /// 400
    BadRequest,
    /// 404
    NotFound,
    /// 413
    TooLarge,
    /// 431
    FieldsTooLarge,
    /// 501
    NotImplemented,
}

/// How a block is judged.
#[derive(Debug, Drop)]
pub enum Verdict {
    /// A request for a path, by GET, or by HEAD where `head`. The connection closes behind its answer where `close`.
    Serve { path: Path, head: bool, close: bool },
    /// Anything else. It is answered by this code, and the connection closes behind that answer.
    Fault(Code),
}

impl Verdict {
    /// Whether the connection closes behind the answer (RFC 9112, 9.6).
    pub fn closes(&self) -> bool
        ensures { result ≡ closes self.now }
    {
        match self {
            Verdict::Serve {
                path: _,
                head: _,
                close,
            } => *close,
            Verdict::Fault(_) => true,
        }
    }
}

/// Verdicts, in the order of their blocks.
pub type Verdicts = Items<Verdict>;

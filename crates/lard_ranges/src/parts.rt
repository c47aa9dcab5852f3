//! Which part of a file a range is.

ghost use Rattle.std.specs.Prelude.{◌≡◌, ◌<◌};
ghost use Rattle.lard_ranges.specs.Parts.{last_within, satisfied, applied};

use crate::reading::Range;

/// The part of a file that a range is. Bytes are counted from 0.
#[derive(Clone, Copy, Debug, PartialEq, Eq)]
pub enum Part {
    /// The whole file: one without bytes, whatever range was asked for.
    Whole,
    /// The bytes from `first` to `last`, both of them too.
    Slice { first: u64, last: u64 },
    /// The range has no byte of the file (RFC 9110, 15.5.17).
    Unsatisfiable,
}

/// The last byte of a range from a first byte on, where the file has bytes.
fn last_within(last: Option<u64>, n: u64) -> u64
    requires { 0 < n }
    ensures { result ≡ last_within last n }
{
    match last {
        None => n - 1,
        Some(last) => last.min(n - 1),
    }
}

/// The part of a file with at least one byte.
fn satisfy(range: Range, n: u64) -> Part
    requires { 0 < n }
    ensures { result ≡ satisfied range n }
{
    match range {
        Range::From { first, last } => {
            if first >= n {
                return Part::Unsatisfiable;
            }
            let last = last_within(last, n);
            return Part::Slice { first, last };
        }
        Range::Suffix(len) => {
            if len == 0 {
                return Part::Unsatisfiable;
            }
            let first = n.saturating_sub(len);
            return Part::Slice { first, last: n - 1 };
        }
    }
}

/// The part of a file of `n` bytes that a range is (RFC 9110, 14.1.2). A range that ends behind the file's last byte
/// ends there, and one of more last bytes than the file has is all of it. No byte is in a range that begins behind the
/// last one, or is of no last bytes. A file without bytes is whole.
#[tactic(auto, unfolding(crate::specs::Parts::applied))]
pub fn apply(range: Range, n: u64) -> Part
    ensures { result ≡ applied range n }
{
    if n == 0 {
        return Part::Whole;
    }
    satisfy(range, n)
}

//! How the value of a Range field is read.

ghost use Rattle.std.specs.Prelude.{◌≡◌, ◌<◌, ◌≤◌, length, IfSome, true};
ghost use Rattle.std.specs.List.{list_all, position};
ghost use Rattle.std.specs.Char.{is_ascii_digit};
ghost use Rattle.std.specs.Str.Parse.{digits_value};
ghost use Rattle.lard_ranges.specs.Reading.{is_dash, number_told, starting, suffix_of, spec_around, spec_at, is_bytes_unit, set_read, range_read, IsForward};

use crate::blanks::trimmed;

/// How many digits a number of a range may have. Each number of 18 digits fits 64 bits.
pub const MAX_DIGITS: usize = 18;

/// A range of the bytes of a file (RFC 9110, 14.1.2). Bytes are counted from 0.
#[derive(Clone, Copy, Debug, PartialEq, Eq)]
pub enum Range {
    /// From the byte `first` to the byte `last`, both of them too, or to the end where no last one is named. In a range
    /// that was read the last one is not before the first.
    From { first: u64, last: Option<u64> },
    /// The last bytes, so many of them.
    Suffix(u64),
}

/// Whether each byte is a digit.
fn are_digits(bytes: &[u8]) -> bool
    ensures { result ≡ list_all is_ascii_digit bytes.now }
{
    bytes.iter().all(|byte| byte.is_ascii_digit())
}

/// The number that these digits are.
fn value_of(digits: &[u8]) -> u64
    requires few { length digits.now ≤ MAX_DIGITS }
    requires digits { list_all is_ascii_digit digits.now ≡ true }
    ensures { result ≡ digits_value 10 digits.now }
{
    let mut value = 0;
    for digit in digits {
        value = value * 10 + u64::from(*digit - b'0');
    }
    value
}

/// The number that these bytes are, where they are 1 to 18 digits.
#[tactic(auto, unfolding(crate::specs::Reading::number_told))]
fn number_in(bytes: &[u8]) -> Option<u64>
    ensures { result ≡ number_told bytes.now }
{
    if bytes.is_empty() || bytes.len() > MAX_DIGITS || !are_digits(bytes) {
        return None;
    }
    Some(value_of(bytes))
}

/// The range of the last bytes, so many as these digits say.
fn read_suffix(behind: &[u8]) -> Option<Range>
    ensures { result ≡ suffix_of (number_told behind.now) }
{
    let len = number_in(behind)?;
    Some(Range::Suffix(len))
}

/// The range from a first byte on, and what stands behind its dash.
fn read_last(first: u64, behind: &[u8]) -> Option<Range>
    ensures { result ≡ starting first behind.now }
{
    match behind {
        [] => return Some(Range::From { first, last: None }),
        [_, ..] => {
            let last = number_in(behind)?;
            if last < first {
                return None;
            }
            return Some(Range::From {
                first,
                last: Some(last),
            });
        }
    }
}

/// The range of what stands before the first dash, and behind it.
fn read_around(before: &[u8], behind: &[u8]) -> Option<Range>
    ensures { result ≡ spec_around before.now behind.now }
{
    match before {
        [] => return read_suffix(behind),
        [_, ..] => {
            let first = number_in(before)?;
            return read_last(first, behind);
        }
    }
}

/// Where the first dash stands.
fn place_of_dash(bytes: &[u8]) -> Option<usize>
    ensures place { result ≡ position is_dash bytes.now }
    ensures within { IfSome result (λ place. place < length bytes.now) }
{
    bytes.iter().position(|byte| *byte == b'-')
}

/// The range that stands behind the unit.
fn read_spec(spec: &[u8]) -> Option<Range>
    ensures { result ≡ spec_at spec.now (position is_dash spec.now) }
{
    let dash = place_of_dash(spec)?;
    let (before, _) = spec.split_at(dash);
    let (_, behind) = spec.split_at(dash + 1);
    read_around(before, behind)
}

/// Whether these bytes name the unit of bytes, and tell by `=` that a set follows.
fn is_bytes_unit(front: &[u8]) -> bool
    ensures { result ≡ is_bytes_unit front.now }
{
    front.eq_ignore_ascii_case(b"bytes=")
}

/// The range that a unit and a set of one range ask for.
#[tactic(auto, using(std::proofs::lemmas::List::take_min, std::proofs::lemmas::List::drop_min), unfolding(crate::specs::Reading::set_read))]
fn read_set(set: &[u8]) -> Option<Range>
    ensures { result ≡ set_read set.now }
{
    let (front, spec) = set.split_at(6_usize.min(set.len()));
    if !is_bytes_unit(front) {
        return None;
    }
    read_spec(spec)
}

/// The range that the value of a Range field asks for, where it is one range of bytes: `bytes=` in any case of its
/// letters, and then `FIRST-`, `FIRST-LAST` with a last byte that is not before the first, or `-LENGTH`, each a number
/// of 1 to 18 digits. Spaces and tabs may stand around the value and nowhere else. Any other value is none, and a
/// server may pass it over (RFC 9110, 14.1.1, 14.1.2 and 14.2).
pub fn read(value: &[u8]) -> Option<Range>
    ensures value { result ≡ range_read value.now }
    ensures forward { IfSome result IsForward }
{
    read_set(trimmed(value))
}

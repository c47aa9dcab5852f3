//! Numbers in decimal, and what they count.

ghost use Rattle.std.specs.Prelude.{◌≡◌, ◌≤◌, ◌-◌, ◌^◌, IfSome};
ghost use Rattle.lard_schedule.specs.Words.{Finds, client_then, count_up_to, count_then, digit_on, digits_on, left_of, number_of, number_then, words_seen};

use crate::words::{Words, next};
use lard_base::{ConnId, NodeId};

/// A number to `most`: decimal digits without a sign, and without a leading zero.
pub fn number_in(word: &[u8], most: u64) -> Option<u64>
    ensures read { result ≡ number_of most word.now }
    ensures within { IfSome result (λ n. n ≤ most) }
{
    match word {
        [] | [b'0', _, ..] => return None,
        _ => return digits(word, most),
    }
}

fn digits(word: &[u8], most: u64) -> Option<u64>
    ensures read { result ≡ digits_on most 0 word.now }
    ensures within { IfSome result (λ n. n ≤ most) }
{
    let mut number = 0;
    for digit in word {
        number = more(number, *digit, most)?;
    }
    Some(number)
}

/// A number with one more digit, as long as it is at most `most`.
fn more(number: u64, digit: u8, most: u64) -> Option<u64>
    ensures read { result ≡ digit_on most number digit }
    ensures within { IfSome result (λ n. n ≤ most) }
{
    if !digit.is_ascii_digit() {
        return None;
    }
    let longer = 10 * u128::from(number) + u128::from(digit - b'0');
    if longer > u128::from(most) {
        return None;
    }
    Some(longer as u64)
}

/// A number from 1 to `most`.
#[tactic(auto, unfolding(crate::specs::Words::count_up_to))]
pub fn count_in(word: &[u8], most: u32) -> Option<u32>
    ensures read { result ≡ count_up_to most word.now }
    ensures within { IfSome result (λ n. (1 ≤ n) × (n ≤ most)) }
{
    let n = number_in(word, u64::from(u32::MAX))?;
    if n < 1 || n > u64::from(most) {
        return None;
    }
    Some(n as u32)
}

/// A client's number: 1 to 16,384.
pub fn client_in(word: &[u8]) -> Option<ConnId>
    ensures { result ≡ count_up_to ConnId.MAX word.now }
{
    ConnId::new(count_in(word, ConnId::MAX)?)
}

/// A node's number: 1 to 64.
pub fn node_in(word: &[u8]) -> Option<NodeId>
    ensures { result ≡ count_up_to 64 word.now }
{
    NodeId::new(count_in(word, NodeId::MAX)?)
}

/// A number to `most`, as the next word.
#[tactic(auto, unfolding(crate::specs::Words::number_then))]
pub fn number_to(words: Words<'_>, most: u64) -> Option<(u64, Words<'_>)>
    ensures found { Finds words_seen result (number_then most (left_of words.entry)) }
    ensures within { IfSome result (λ found. found.0 ≤ most) }
{
    let (word, rest) = next(words)?;
    let n = number_in(word, most)?;
    Some((n, rest))
}

/// A number below 2^32, as the next word.
pub fn number(words: Words<'_>) -> Option<(u32, Words<'_>)>
    ensures { Finds words_seen result (number_then (2 ^ 32 - 1) (left_of words.entry)) }
{
    let (n, rest) = number_to(words, u64::from(u32::MAX))?;
    Some((n as u32, rest))
}

/// A number from 1 to `most`, as the next word.
#[tactic(auto, unfolding(crate::specs::Words::count_then))]
pub fn count(words: Words<'_>, most: u32) -> Option<(u32, Words<'_>)>
    ensures found { Finds words_seen result (count_then most (left_of words.entry)) }
    ensures within { IfSome result (λ found. (1 ≤ found.0) × (found.0 ≤ most)) }
{
    let (word, rest) = next(words)?;
    let n = count_in(word, most)?;
    Some((n, rest))
}

/// A client's number, 1 to 16,384, as the next word.
pub fn client(words: Words<'_>) -> Option<(u32, Words<'_>)>
    ensures found { Finds words_seen result (client_then (left_of words.entry)) }
    ensures within { IfSome result (λ found. (1 ≤ found.0) × (found.0 ≤ ConnId.MAX)) }
{
    count(words, ConnId::MAX)
}

/// The connection with a number that was tested.
pub fn conn(number: u32) -> ConnId
    requires { (1 ≤ number) × (number ≤ ConnId.MAX) }
    ensures { result ≡ number }
{
    match ConnId::new(number) {
        Some(c) => c,
        None => unreachable!(),
    }
}

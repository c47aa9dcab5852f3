//! A record, from its line.

ghost use Rattle.std.specs.Prelude.{◌≡◌, ◌-◌, length, take};
ghost use Rattle.lard_schedule.specs.Words.{Judges, left_of, words_of};
ghost use Rattle.lard_report.specs.Records.{loosely_of, record_of};

use crate::forms::record_after;
use crate::kinds::kind_in;
use lard_journal::Rec;
use lard_schedule::LineFault;
use lard_schedule::words::{Words, next, words_of};
use std::alloc::Global;

/// The one record whose line this is, the line given without its line feed. `Syntax` comes exactly where there is none: where
/// a word is missing or too much, a number is not spelled as the report spells it or out of the range of its field, a path is
/// none, or bytes are none or not in lower case. `NoMemory` comes where memory runs out.
#[tactic(auto, using(crate::proofs::Apart::front_is), unfolding(crate::specs::Records::record_of))]
pub fn read_record(alloc: Global, line: &[u8]) -> Result<Rec, LineFault>
    ensures { Judges result (record_of line.now) }
{
    let rec = loosely(alloc, words_of(line))?;
    let text = lard_journal::line(alloc, &rec)?;
    if front(text.as_slice()) != line {
        return Err(LineFault::Syntax);
    }
    Ok(rec)
}

/// All but the last byte, which is the line feed of a line.
fn front(text: &[u8]) -> &[u8]
    ensures { result.now ≡ take (length text.now - 1) text.now }
{
    match text {
        [front @ .., _] => front,
        [] => text,
    }
}

/// A record, from words that may be spelled otherwise too: bytes in upper case, say.
#[tactic(auto, unfolding(crate::specs::Records::loosely_of))]
fn loosely(alloc: Global, words: Words<'_>) -> Result<Rec, LineFault>
    ensures { Judges result (loosely_of (left_of words.entry)) }
{
    let (word, rest) = next(words).ok_or(LineFault::Syntax)?;
    let kind = kind_in(word).ok_or(LineFault::Syntax)?;
    record_after(alloc, kind, rest)
}

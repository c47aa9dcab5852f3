//! The lines of a report that stand before those of the records.

ghost use Rattle.std.specs.Prelude.{◌≡◌};
ghost use Rattle.lard_schedule.specs.Words.{Finds, Judges, left_of, words_seen};
ghost use Rattle.lard_report.specs.Preface.{behind_word, costs_then, file_line_of, heading_of, limits_then, policy_then, setting_then};

use lard_base::Path;
use lard_schedule::LineFault;
use lard_schedule::files::path_next;
use lard_schedule::numbers::number_to;
use lard_schedule::words::{Words, end, is, next, words_of};
use std::alloc::Global;

/// The numbers of a report's heading, in its order, each below 2^64. Whether they are in the ranges of their keys is not asked
/// here.
#[derive(Clone, Copy, Debug, PartialEq, Eq)]
pub struct Heading {
    pub nodes: u64,
    pub low: u64,
    pub high: u64,
    pub age: u64,
    pub idle: u64,
    pub over: u64,
    pub miss: u64,
    pub cache: u64,
    pub stream: u64,
}

/// The numbers of the heading that this line is, the line given without its line feed; `None` exactly where it is no heading.
#[tactic(auto, unfolding(crate::specs::Preface::heading_of))]
pub fn read_heading(line: &[u8]) -> Option<Heading>
    ensures { result ≡ heading_of line.now }
{
    let words = behind(words_of(line), "report")?;
    let words = behind(words, "1")?;
    let ((nodes, low, high, age), words) = policy(words)?;
    let ((idle, over, miss), words) = costs(words)?;
    let ((cache, stream), words) = limits(words)?;
    end(words)?;
    Some(Heading {
        nodes,
        low,
        high,
        age,
        idle,
        over,
        miss,
        cache,
        stream,
    })
}

/// The number of nodes, and the thresholds of the policy.
#[tactic(auto, unfolding(crate::specs::Preface::policy_then))]
fn policy(words: Words<'_>) -> Option<((u64, u64, u64, u64), Words<'_>)>
    ensures { Finds words_seen result (policy_then (left_of words.entry)) }
{
    let (nodes, words) = setting(words, "nodes")?;
    let (low, words) = setting(words, "low")?;
    let (high, words) = setting(words, "high")?;
    let (age, words) = setting(words, "age")?;
    Some(((nodes, low, high, age), words))
}

/// The costs of a later request.
#[tactic(auto, unfolding(crate::specs::Preface::costs_then))]
fn costs(words: Words<'_>) -> Option<((u64, u64, u64), Words<'_>)>
    ensures { Finds words_seen result (costs_then (left_of words.entry)) }
{
    let (idle, words) = setting(words, "idle")?;
    let (over, words) = setting(words, "over")?;
    let (miss, words) = setting(words, "miss")?;
    Some(((idle, over, miss), words))
}

/// The room of a cache, and the stream limit.
#[tactic(auto, unfolding(crate::specs::Preface::limits_then))]
fn limits(words: Words<'_>) -> Option<((u64, u64), Words<'_>)>
    ensures { Finds words_seen result (limits_then (left_of words.entry)) }
{
    let (cache, words) = setting(words, "cache")?;
    let (stream, words) = setting(words, "stream")?;
    Some(((cache, stream), words))
}

/// The path and the length in bytes of the file whose line this is, the line given without its line feed; the path has no `?`.
/// `Syntax` comes exactly where it is no line of a file, `NoMemory` where memory runs out.
#[tactic(auto, unfolding(crate::specs::Preface::file_line_of))]
pub fn read_file(alloc: Global, line: &[u8]) -> Result<(Path, u64), LineFault>
    ensures { Judges result (file_line_of line.now) }
{
    let words = behind(words_of(line), "file").ok_or(LineFault::Syntax)?;
    let (text, words) = path_next(words).ok_or(LineFault::Syntax)?;
    let (length, words) = number_to(words, u64::MAX).ok_or(LineFault::Syntax)?;
    end(words).ok_or(LineFault::Syntax)?;
    let path = Path::from_slice(alloc, text)?;
    Ok((path, length))
}

/// The words behind one that has to stand here.
#[tactic(auto, unfolding(crate::specs::Preface::behind_word))]
fn behind<'a>(words: Words<'a>, text: &str) -> Option<Words<'a>>
    ensures { Finds left_of result (behind_word text.now (left_of words.entry)) }
{
    let (word, rest) = next(words)?;
    if !is(word, text) {
        return None;
    }
    Some(rest)
}

/// A key and its number, which is below 2^64.
#[tactic(auto, unfolding(crate::specs::Preface::setting_then))]
fn setting<'a>(words: Words<'a>, key: &str) -> Option<(u64, Words<'a>)>
    ensures { Finds words_seen result (setting_then key.now (left_of words.entry)) }
{
    let rest = behind(words, key)?;
    number_to(rest, u64::MAX)
}

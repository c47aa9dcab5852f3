//! The first words of events.

ghost use Rattle.std.specs.Prelude.{◌≡◌};
ghost use Rattle.lard_schedule.specs.Events.{verb_among, verb_of, verb_word};

use crate::words::is;

/// What an event is, by the first word of its line.
#[derive(Clone, Copy, Debug, PartialEq, Eq)]
pub enum Verb {
    Open,
    Get,
    Write,
    Shut,
    Abort,
    Hold,
    Take,
    Deliver,
    Lose,
    Timer,
    Disk,
    Drain,
    Clock,
    Settle,
    Inject,
}

/// All verbs.
const VERBS: [Verb; 15] = [
    Verb::Open,
    Verb::Get,
    Verb::Write,
    Verb::Shut,
    Verb::Abort,
    Verb::Hold,
    Verb::Take,
    Verb::Deliver,
    Verb::Lose,
    Verb::Timer,
    Verb::Disk,
    Verb::Drain,
    Verb::Clock,
    Verb::Settle,
    Verb::Inject,
];

impl Verb {
    /// The verb's word.
    fn word(self) -> &'static str
        ensures { result.now ≡ verb_word self }
    {
        match self {
            Verb::Open => "open",
            Verb::Get => "get",
            Verb::Write => "write",
            Verb::Shut => "shut",
            Verb::Abort => "abort",
            Verb::Hold => "hold",
            Verb::Take => "take",
            Verb::Deliver => "deliver",
            Verb::Lose => "lose",
            Verb::Timer => "timer",
            Verb::Disk => "disk",
            Verb::Drain => "drain",
            Verb::Clock => "clock",
            Verb::Settle => "settle",
            Verb::Inject => "inject",
        }
    }
}

/// The verb that this word is.
pub fn verb_in(word: &[u8]) -> Option<Verb>
    ensures { result ≡ verb_of word.now }
{
    verb_among(&VERBS, word)
}

fn verb_among(verbs: &[Verb], word: &[u8]) -> Option<Verb>
    ensures { result ≡ verb_among verbs.now word.now }
{
    for verb in verbs {
        if is(word, verb.word()) {
            return Some(*verb);
        }
    }
    None
}

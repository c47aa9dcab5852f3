//! The first words of records.

ghost use Rattle.std.specs.Prelude.{◌≡◌};
ghost use Rattle.lard_report.specs.Kinds.{kind_among, kind_name, record_kind};

use lard_schedule::words::is;

/// What a record is, by the first word of its line.
#[derive(Clone, Copy, Debug, PartialEq, Eq)]
pub enum Kind {
    Event,
    Inner,
    Opened,
    Wrote,
    Sent,
    Got,
    Lost,
    Accepted,
    Eof,
    Took,
    Gave,
    Waits,
    Admitted,
    Released,
    /// A first choice and a later one begin alike.
    Assigned,
    BatchOver,
    Served,
    Hit,
    Queued,
    Read,
    Closed,
    Armed,
    Cleared,
    Reset,
    Aborted,
    Injected,
    Clock,
    Settled,
    Unsettled,
}

/// All kinds.
const KINDS: [Kind; 29] = [
    Kind::Event,
    Kind::Inner,
    Kind::Opened,
    Kind::Wrote,
    Kind::Sent,
    Kind::Got,
    Kind::Lost,
    Kind::Accepted,
    Kind::Eof,
    Kind::Took,
    Kind::Gave,
    Kind::Waits,
    Kind::Admitted,
    Kind::Released,
    Kind::Assigned,
    Kind::BatchOver,
    Kind::Served,
    Kind::Hit,
    Kind::Queued,
    Kind::Read,
    Kind::Closed,
    Kind::Armed,
    Kind::Cleared,
    Kind::Reset,
    Kind::Aborted,
    Kind::Injected,
    Kind::Clock,
    Kind::Settled,
    Kind::Unsettled,
];

impl Kind {
    /// The kind's word.
    fn name(self) -> &'static str
        ensures { result.now ≡ kind_name self }
    {
        match self {
            Kind::Event => "event",
            Kind::Inner => "inner",
            Kind::Opened => "opened",
            Kind::Wrote => "wrote",
            Kind::Sent => "sent",
            Kind::Got => "got",
            Kind::Lost => "lost",
            Kind::Accepted => "accepted",
            Kind::Eof => "eof",
            Kind::Took => "took",
            Kind::Gave => "gave",
            Kind::Waits => "waits",
            Kind::Admitted => "admitted",
            Kind::Released => "released",
            Kind::Assigned => "assigned",
            Kind::BatchOver => "batchover",
            Kind::Served => "served",
            Kind::Hit => "hit",
            Kind::Queued => "queued",
            Kind::Read => "read",
            Kind::Closed => "closed",
            Kind::Armed => "armed",
            Kind::Cleared => "cleared",
            Kind::Reset => "reset",
            Kind::Aborted => "aborted",
            Kind::Injected => "injected",
            Kind::Clock => "clock",
            Kind::Settled => "settled",
            Kind::Unsettled => "unsettled",
        }
    }
}

/// The kind that this word is.
pub fn kind_in(word: &[u8]) -> Option<Kind>
    ensures { result ≡ record_kind word.now }
{
    kind_among(&KINDS, word)
}

fn kind_among(kinds: &[Kind], word: &[u8]) -> Option<Kind>
    ensures { result ≡ kind_among kinds.now word.now }
{
    for kind in kinds {
        if is(word, kind.name()) {
            return Some(*kind);
        }
    }
    None
}

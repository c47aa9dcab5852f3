//! The timers of one connection at one place.

ghost use Rattle.std.specs.Prelude.{◌≡◌, ◌≤◌};
ghost use Rattle.lard_agenda.specs.Kinds.{how_many, is_none, no_kinds, with_timer};

use lard_base::{ConnId, Place, TimerKind};

/// Which of the six kinds of timers run.
#[derive(Clone, Copy, Debug, PartialEq, Eq)]
pub struct Kinds {
    pub tcp: bool,
    pub offer: bool,
    pub ask: bool,
    pub fetch: bool,
    pub ended: bool,
    pub give: bool,
}

impl Kinds {
    /// None of them runs.
    pub fn none() -> Kinds
        ensures { result ≡ no_kinds }
    {
        Kinds {
            tcp: false,
            offer: false,
            ask: false,
            fetch: false,
            ended: false,
            give: false,
        }
    }

    /// The same, but that the timer of this kind runs, or does not.
    pub fn with(self, kind: TimerKind, runs: bool) -> Kinds
        ensures { result ≡ with_timer self kind runs }
    {
        match kind {
            TimerKind::Tcp => Kinds { tcp: runs, ..self },
            TimerKind::Offer => Kinds {
                offer: runs,
                ..self
            },
            TimerKind::Ask => Kinds { ask: runs, ..self },
            TimerKind::Fetch => Kinds {
                fetch: runs,
                ..self
            },
            TimerKind::Ended => Kinds {
                ended: runs,
                ..self
            },
            TimerKind::Give => Kinds { give: runs, ..self },
        }
    }

    /// Whether none of them runs.
    pub fn is_none(self) -> bool
        ensures { result ≡ is_none self }
    {
        !(self.tcp || self.offer || self.ask || self.fetch || self.ended || self.give)
    }

    /// How many of them run.
    pub fn how_many(self) -> u64
        ensures value { result ≡ how_many self }
        ensures few { result ≤ 6 }
    {
        u64::from(self.tcp)
            + u64::from(self.offer)
            + u64::from(self.ask)
            + u64::from(self.fetch)
            + u64::from(self.ended)
            + u64::from(self.give)
    }
}

/// A connection of which timers run at a place.
#[derive(Clone, Copy, Debug, PartialEq, Eq)]
pub struct Running {
    pub place: Place,
    pub c: ConnId,
    /// The kinds of those that run, at least one.
    pub kinds: Kinds,
}

//! A message that awaits its answer, and what it is found by.

ghost use Rattle.std.specs.Prelude.{◌≡◌, ◌≤◌, length, option_copied};
ghost use Rattle.std.specs.List.{find};
ghost use Rattle.lard_resend.specs.Kept.{kind_rank, is_under, comes_before, kept_place_of};

use lard_base::{Bytes, ConnId, Place, TimerKind};

/// What a message is found by: its connection, its kind, and for a Fetch the number of the request, else 0.
#[derive(Clone, Copy, Debug, PartialEq, Eq)]
pub struct PendingKey {
    pub c: ConnId,
    pub kind: TimerKind,
    pub r: u32,
}

/// A message that is sent again until it is answered.
#[derive(Debug, Drop)]
pub struct Kept {
    pub kind: TimerKind,
    /// The number of the request, of a Fetch; else 0.
    pub r: u32,
    /// The place that it goes to.
    pub to: Place,
    pub bytes: Bytes,
}

/// The place of a kind in the order of kinds.
pub fn rank(kind: TimerKind) -> u8
    ensures { result ≡ kind_rank kind }
{
    match kind {
        TimerKind::Tcp => 0,
        TimerKind::Offer => 1,
        TimerKind::Ask => 2,
        TimerKind::Fetch => 3,
        TimerKind::Ended => 4,
        TimerKind::Give => 5,
    }
}

/// Whether the message is of this kind and number.
pub fn is_under(kept: &Kept, kind: TimerKind, r: u32) -> bool
    ensures { result ≡ is_under kind r kept.now }
{
    rank(kept.kind) == rank(kind) && kept.r == r
}

/// Whether the message stands before those of this kind and number.
fn comes_before(kept: &Kept, kind: TimerKind, r: u32) -> bool
    ensures { result ≡ comes_before kind r kept.now }
{
    if rank(kept.kind) == rank(kind) {
        return kept.r < r;
    }
    rank(kept.kind) < rank(kind)
}

/// The message of this kind and number; `None` where there is none.
pub fn found<'a>(all: &'a [Kept], kind: TimerKind, r: u32) -> Option<&'a Kept>
    ensures { option_copied result ≡ find (is_under kind r) all.now }
{
    all.iter().find(|kept| is_under(kept, kind, r))
}

/// Where a message of this kind and number belongs in the order, counted from 0.
pub fn place_of(all: &[Kept], kind: TimerKind, r: u32) -> usize
    ensures value { result ≡ kept_place_of kind r all.now }
    ensures within { result ≤ length all.now }
{
    for (at, kept) in all.iter().enumerate() {
        if !comes_before(kept, kind, r) {
            return at;
        }
    }
    all.len()
}

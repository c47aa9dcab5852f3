//! What a place's turn comes to in a step.

ghost use Rattle.std.specs.Prelude.{◌≡◌, IfOk};
ghost use Rattle.lard_rules.specs.Client.{silent};
ghost use Rattle.lard_rules.specs.Outs.{nothing_done, out_of, timer_change};
ghost use Rattle.lard_rules.specs.Speaking.{listed};
ghost use Rattle.lard_serving.specs.Bounds.{IsOut, IsTurn};

use lard_base::{ConnId, NoMemory, Place, Sends, TimerKind};
use lard_journal::{Rec, Recs};
use lard_rules::{Out, Turn};
use std::alloc::Global;

/// A turn in which nothing is noted or sent.
pub fn silent(alloc: Global) -> Turn
    ensures turn { result ≡ silent }
    ensures fits { IsTurn result }
{
    Turn {
        notes: Recs::new(alloc),
        segments: Sends::new(alloc),
        answered: 0,
    }
}

/// The record of the timer that changed, from its flags before and after the step.
fn timer_change(place: Place, c: ConnId, was: bool, is: bool) -> Option<Rec>
    ensures { listed result ≡ timer_change place c was is }
{
    let kind = TimerKind::Tcp;
    match (was, is) {
        (false, true) => Some(Rec::Armed { place, c, kind }),
        (true, false) => Some(Rec::Cleared { place, c, kind }),
        (false, false) | (true, true) => None,
    }
}

/// What a turn on a connection comes to, where its timer's flag was so before the step and is so after it. `NoMemory`
/// where memory runs out.
pub fn out_of(
    alloc: Global,
    place: Place,
    c: ConnId,
    was: bool,
    is: bool,
    turn: Turn,
) -> Result<Out, NoMemory>
    requires { IsTurn turn }
    ensures out { IfOk result (λ out. out ≡ out_of place c was is turn) }
    ensures fits { IfOk result IsOut }
{
    let Turn {
        notes,
        segments,
        answered,
    } = turn;
    let mut timers = Recs::new(alloc);
    if let Some(rec) = timer_change(place, c, was, is) {
        timers.push(rec)?;
    }
    Ok(Out {
        notes,
        segments,
        gave: Recs::new(alloc),
        messages: Sends::new(alloc),
        timers,
        answered,
    })
}

/// Nothing is done in the step.
pub fn nothing(alloc: Global) -> Out
    ensures out { result ≡ nothing_done }
    ensures fits { IsOut result }
{
    Out {
        notes: Recs::new(alloc),
        segments: Sends::new(alloc),
        gave: Recs::new(alloc),
        messages: Sends::new(alloc),
        timers: Recs::new(alloc),
        answered: 0,
    }
}

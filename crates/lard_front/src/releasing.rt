//! The end of a connection at its node: it is the front end's again, and its admission ends.

ghost use Rattle.std.specs.Prelude.{◌≡◌, true, is_some, [], ◌∷◌, IfOk, None};
ghost use Rattle.std.specs.FinMap as table;
ghost use Rattle.lard_dispatch.specs.Calls.{after_ended, ended_answer};
ghost use Rattle.lard_dispatch.specs.Sound.{AreBefore};
ghost use Rattle.lard_rules.specs.Front.{ack_sent, front_ended, front_saying};
ghost use Rattle.lard_rules.specs.FrontPlace.{front_part};
ghost use Rattle.lard_rules.specs.FrontSound.{IsFrontSound};
ghost use Rattle.lard_front.specs.Bounds.{IsFrontTurn};
ghost use Rattle.lard_front.specs.Hand.{deed_turn, front_env_of, next_admitted_by};
ghost use Rattle.lard_loads.specs.Tally.{home};
ghost use Rattle.lard_resend.specs.Pending.{pending_settled};

use crate::passing::telling;
use crate::turns::{Around, silent};
use lard_base::{ConnId, Epoch, NoMemory, NodeId, Place, TimerKind};
use lard_endpoint::Final;
use lard_handoff_front::OnEnded;
use lard_journal::Rec;
use lard_message::Body;
use lard_policy::FirstChoice;
use lard_resend::PendingKey;
use lard_rules::{FrontState, FrontTurn};
use std::alloc::Global;

/// What the end of a connection comes to.
#[derive(Debug, Drop)]
pub struct Released {
    /// The turn of the connection that ended.
    pub turn: FrontTurn,
    /// The connection that is admitted in its place, and where it goes.
    pub next: Option<(ConnId, FirstChoice)>,
}

/// An Ended comes, of this node. A connection that is with a node in this epoch is the front end's again, and is
/// released; an Ended that came before is acknowledged again; any other is dropped. Without memory the state is of no
/// use any more but to be spent.
pub fn end(
    state: &mut FrontState,
    alloc: Global,
    around: &Around<'_>,
    from: NodeId,
    epoch: Epoch,
    last: Final,
) -> Result<Released, NoMemory>
    requires sound { IsFrontSound state.old }
    requires clock { AreBefore around.now.time.0 state.old.dispatch.books.sets }
    ensures turn { IfOk result (λ x. (state.new, x.turn) ≡ deed_turn state.old around.now.serve.c (front_ended (front_env_of around.now state.old) (front_part state.old around.now.serve.c) from epoch.0 last)) }
    ensures fits { IfOk result (λ x. IsFrontTurn x.turn) }
    ensures quiet { IfOk result (λ x. x.turn.segments ≡ []) }
    ensures next { IfOk result (λ x. x.next ≡ next_admitted_by state.old.dispatch around.now.serve.c around.now.time (front_ended (front_env_of around.now state.old) (front_part state.old around.now.serve.c) from epoch.0 last)) }
{
    let c = around.serve.c;
    match state.conns.on_ended(c, epoch, last) {
        OnEnded::New(next) => return release(state, alloc, around, from, epoch, next),
        OnEnded::Again => {
            let turn = telling(alloc, c, epoch, from, Body::EndedAck)?;
            return Ok(Released { turn, next: None });
        }
        OnEnded::Stale => {
            return Ok(Released {
                turn: silent(alloc),
                next: None,
            });
        }
    }
}

/// A connection that is the front end's again, in this next epoch, is released.
fn release(
    state: &mut FrontState,
    alloc: Global,
    around: &Around<'_>,
    from: NodeId,
    epoch: Epoch,
    next: Epoch,
) -> Result<Released, NoMemory>
    requires admitted { is_some (home state.old.dispatch.books.loads around.now.serve.c) ≡ true }
    requires clock { AreBefore around.now.time.0 state.old.dispatch.books.sets }
    ensures state { IfOk result (λ x. state.new ≡ record state.old {
      rests = table.remove state.old.rests around.now.serve.c;
      kept = pending_settled state.old.kept around.now.serve.c TimerKind.Offer 0;
      dispatch = after_ended state.old.dispatch around.now.serve.c around.now.time;
    }) }
    ensures turn { IfOk result (λ x. x.turn ≡ record (front_saying (ack_sent (front_env_of around.now state.old) from epoch.0)) { notes = Rec.Took Place.Front around.now.serve.c next ∷ Rec.Released around.now.serve.c ∷ [] }) }
    ensures fits { IfOk result (λ x. IsFrontTurn x.turn) }
    ensures quiet { IfOk result (λ x. x.turn.segments ≡ []) }
    ensures next { IfOk result (λ x. x.next ≡ ended_answer state.old.dispatch around.now.serve.c around.now.time) }
{
    let c = around.serve.c;
    let _ = state.rests.remove(c.number());
    let key = PendingKey {
        c,
        kind: TimerKind::Offer,
        r: 0,
    };
    let _ = state.kept.settle(key);
    let admitted = state.dispatch.ended(c, around.time)?;
    let mut turn = telling(alloc, c, epoch, from, Body::EndedAck)?;
    let place = Place::Front;
    turn.notes.push(Rec::Took {
        place,
        c,
        epoch: next,
    })?;
    turn.notes.push(Rec::Released(c))?;
    Ok(Released {
        turn,
        next: admitted,
    })
}

//! A connection whose next request is good: it goes to a node, or waits in the line.

ghost use Rattle.std.specs.Prelude.{◌≡◌, ◌-◌, ◌^◌, ◌<◌, ◌≤◌, true, false, length, IfOk, IsSome, None, Some};
ghost use Rattle.std.specs.FinMap as table;
ghost use Rattle.lard_base.specs.declared.limits.TheConstants.{MAX_STREAM_BYTES};
ghost use Rattle.lard_endpoint.specs.Moving.{may_freeze};
ghost use Rattle.lard_rules.specs.Front.{leaves_by, front_rest};
ghost use Rattle.lard_rules.specs.FrontPlace.{front_part};
ghost use Rattle.lard_handoff_front.specs.Front.{may_put};
ghost use Rattle.lard_front.specs.Bounds.{IsFrontTurn};
ghost use Rattle.lard_front.specs.Hand.{IsFree, Lends, deed_turn, front_env_of, read_deed, waits_at};
ghost use Rattle.lard_dispatch.specs.Laws.{after_calls};
ghost use Rattle.lard_serving.specs.Serving.{IsCounted, service_of};

use crate::handing::hand_off;
use crate::seats::{no_rest, put_back};
use crate::turns::{Around, turn_here};
use lard_base::{ConnId, NoMemory, Path, Sends};
use lard_dispatch::{Dispatch, First};
use lard_endpoint::Endpoint;
use lard_journal::Rec;
use lard_rules::{Ending, FrontRest, FrontState, FrontTurn};
use lard_serving::{Service, spoken};
use lard_table::Table;
use std::alloc::Global;

/// The connection waits, last of the line, with its path, and says what it may.
fn wait(
    state: &mut FrontState,
    alloc: Global,
    around: &Around<'_>,
    endpoint: Endpoint,
    mut service: Service,
    path: Path,
) -> Result<FrontTurn, NoMemory>
    requires lends { Lends state.old around.now.serve.c }
    requires counted { IsCounted endpoint service }
    ensures turn { IfOk result (λ turn. (state.new, turn) ≡ waits_at (front_env_of around.now state.old) state.old (service_of endpoint service) path (table.get state.old.conns around.now.serve.c)) }
    ensures fits { IfOk result IsFrontTurn }
{
    let c = around.serve.c;
    set_target(&mut state.rests, alloc, c, path);
    if service.notes.push(Rec::Waits(c)).is_err() {
        let count = service.count;
        put_back(state, alloc, c, true, Ending::Here { endpoint, count });
        return Err(NoMemory);
    }
    let (ending, turn) = spoken(alloc, &around.serve, endpoint, service, Sends::new(alloc));
    leave_by(&mut state.dispatch, c, &ending);
    put_back(state, alloc, c, true, ending);
    Ok(turn_here(alloc, turn?))
}

/// A connection that ended while it waited leaves the line.
pub fn leave_by(dispatch: &mut Dispatch, c: ConnId, ending: &Ending)
    ensures { dispatch.new ≡ after_calls dispatch.old (leaves_by c ending.now) }
{
    match ending {
        Ending::Here { .. } => {}
        Ending::Over(_) => dispatch.leave(c),
    }
}

/// Sets the path with which a connection waits.
#[tactic(auto, using(lard_table::proofs::Map::insert_twice, lard_table::proofs::Map::get_inserted))]
fn set_target(rests: &mut Table<FrontRest>, alloc: Global, c: ConnId, path: Path)
    requires { IsSome (table.get rests.old c) }
    ensures { rests.new ≡ table.insert rests.old c (record (front_rest (table.get rests.old c)) { target = Some path }) }
{
    let mut rest = rests.replace(c.number(), no_rest(alloc));
    rest.target = Some(path);
    let _ = rests.replace(c.number(), rest);
}

/// A connection whose endpoint is in hand and may move is placed with the path of its next request: the dispatcher
/// admits it to a node, or it waits. Without memory the state is of no use any more but to be spent.
pub fn place(
    state: &mut FrontState,
    alloc: Global,
    around: &Around<'_>,
    endpoint: Endpoint,
    service: Service,
    path: Path,
) -> Result<FrontTurn, NoMemory>
    requires lends { Lends state.old around.now.serve.c }
    requires lent { may_put (table.get state.old.conns around.now.serve.c) ≡ true }
    requires free { IsFree state.old.dispatch around.now.serve.c around.now.time.0 }
    requires may { may_freeze endpoint ≡ true }
    requires counted { IsCounted endpoint service }
    requires few { service.count < 2 ^ 31 }
    requires answered { service.answered ≤ MAX_STREAM_BYTES }
    requires asked { service.count ≤ endpoint.recv.got - length endpoint.recv.unread }
    ensures turn { IfOk result (λ turn. (state.new, turn) ≡ deed_turn state.old around.now.serve.c (read_deed (front_env_of around.now state.old) (front_part state.old around.now.serve.c) (service_of endpoint service) (Some path) (table.get state.old.conns around.now.serve.c))) }
    ensures fits { IfOk result IsFrontTurn }
{
    let c = around.serve.c;
    match state.dispatch.first(c, &path, around.time) {
        Ok(First::Go(choice)) => {
            state.conns.put(c, endpoint, false);
            return hand_off(state, alloc, around, service, path, choice);
        }
        Ok(First::Waits) => return wait(state, alloc, around, endpoint, service, path),
        Err(NoMemory) => {
            let count = service.count;
            put_back(state, alloc, c, false, Ending::Here { endpoint, count });
            return Err(NoMemory);
        }
    }
}

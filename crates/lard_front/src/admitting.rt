//! The first of the line goes to a node when another connection ended.

ghost use Rattle.std.specs.Prelude.{◌≡◌, ◌^◌, ◌<◌, true, [], IfOk, None, Some, option_map, option_copied};
ghost use Rattle.std.specs.FinMap as table;
ghost use Rattle.lard_endpoint.specs.Moving.{may_freeze};
ghost use Rattle.lard_rules.specs.Front.{front_admitted};
ghost use Rattle.lard_rules.specs.FrontPlace.{front_part};
ghost use Rattle.lard_rules.specs.FrontSound.{HasTarget};
ghost use Rattle.lard_front.specs.Bounds.{IsFrontTurn};
ghost use Rattle.lard_front.specs.Hand.{Holds, front_count_of, front_env_of, gives, target_of};
ghost use Rattle.lard_handoff_front.specs.Front.{MayBeOffered};

use crate::handing::hand_off;
use crate::seats::count_of;
use crate::turns::Around;
use lard_base::{ConnId, NoMemory, Path};
use lard_policy::FirstChoice;
use lard_rules::{FrontRest, FrontState, FrontTurn};
use lard_serving::Service;
use lard_table::Table;
use std::alloc::Global;

/// A connection that waits is handed off by the dispatcher's choice, with the path that it waits with. Without memory
/// the state is of no use any more but to be spent.
pub fn admit(
    state: &mut FrontState,
    alloc: Global,
    around: &Around<'_>,
    choice: FirstChoice,
) -> Result<FrontTurn, NoMemory>
    requires holds { Holds state.old around.now.serve.c true }
    requires may { MayBeOffered (table.get state.old.conns around.now.serve.c) (front_count_of (table.get state.old.rests around.now.serve.c)) }
    requires few { front_count_of (table.get state.old.rests around.now.serve.c) < 2 ^ 31 }
    requires target { HasTarget (table.get state.old.rests around.now.serve.c) }
    ensures turn { IfOk result (λ turn. option_map (gives state.old around.now.serve.c) (front_admitted (front_env_of around.now state.old) (front_part state.old around.now.serve.c) choice) ≡ Some (state.new, turn)) }
    ensures fits { IfOk result IsFrontTurn }
    ensures quiet { IfOk result (λ turn. turn.segments ≡ []) }
{
    let c = around.serve.c;
    let service = Service::new(alloc, count_of(&state.rests, c));
    let path = target(&state.rests, alloc, c)?;
    let turn = hand_off(state, alloc, around, service, path, choice)?;
    Ok(turn)
}

/// The path with which a connection waits.
fn target(rests: &Table<FrontRest>, alloc: Global, c: ConnId) -> Result<Path, NoMemory>
    requires { HasTarget (table.get rests.now c) }
    ensures { IfOk result (λ path. target_of (table.get rests.now c) ≡ Some path) }
{
    match rests.get(c.number()) {
        Some(
            FrontRest {
                target: Some(path),
                ..
            },
        ) => path.copy(alloc),
        _ => unreachable!(),
    }
}

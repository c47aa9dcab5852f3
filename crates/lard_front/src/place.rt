//! The front end's state at its beginning and at its end.

ghost use Rattle.std.specs.Prelude.{◌≡◌, IfOk, Ok};
ghost use Rattle.lard_base.specs.Config.{config_check};
ghost use Rattle.lard_dispatch.specs.Sound.{AreBefore};
ghost use Rattle.lard_rules.specs.FrontPlace.{no_connections};
ghost use Rattle.lard_rules.specs.FrontSound.{IsFrontSound};

use lard_base::{Config, NoMemory};
use lard_dispatch::Dispatch;
use lard_handoff_front::FrontTable;
use lard_resend::Pending;
use lard_rules::FrontState;
use lard_table::Table;
use std::alloc::Global;

/// No connection was taken, and nobody waits. The configuration passes its check. `NoMemory` where memory runs out.
pub fn begin(alloc: Global, config: Config) -> Result<FrontState, NoMemory>
    requires { config_check config ≡ Ok tt }
    ensures value { IfOk result (λ state. state ≡ no_connections config) }
    ensures sound { IfOk result IsFrontSound }
    ensures clock { IfOk result (λ state. AreBefore 0 state.dispatch.books.sets) }
{
    let dispatch = Dispatch::new(alloc, config)?;
    Ok(FrontState {
        conns: FrontTable::new(alloc),
        rests: Table::new(alloc),
        kept: Pending::new(alloc),
        dispatch,
    })
}

/// Spends every endpoint, and the state.
pub fn finish(state: FrontState) {
    let FrontState {
        conns,
        mut rests,
        kept,
        dispatch: _,
    } = state;
    conns.finish();
    while let Some(_rest) = rests.pop() {}
    rests.destroy_empty();
    kept.finish();
}

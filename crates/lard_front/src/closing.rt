//! A node that the operator closes to new assignments.

ghost use Rattle.std.specs.Prelude.{◌≡◌, true, IfOk};
ghost use Rattle.lard_rules.specs.FrontPlace.{front_drains};
ghost use Rattle.lard_front.specs.Bounds.{IsFrontOut};
ghost use Rattle.lard_loads.specs.Tally.{has_other_open};

use lard_base::{NoMemory, NodeId};
use lard_journal::Rec;
use lard_rules::{FrontState, Out};
use lard_serving::nothing;
use std::alloc::Global;

/// Closes a node to new assignments, and notes it where the node was open. Connections stay there. Another node is open.
/// Without memory the state is of no use any more but to be spent.
pub fn drain(state: &mut FrontState, alloc: Global, n: NodeId) -> Result<Out, NoMemory>
    requires other { has_other_open state.old.dispatch.books.loads n ≡ true }
    ensures out { IfOk result (λ out. (state.new, out) ≡ front_drains state.old n) }
    ensures fits { IfOk result IsFrontOut }
{
    let mut out = nothing(alloc);
    if !state.dispatch.close(n) {
        return Ok(out);
    }
    out.notes.push(Rec::Closed(n))?;
    Ok(out)
}

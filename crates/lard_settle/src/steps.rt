//! Inner steps, one after another.

ghost use Rattle.std.specs.Prelude.{◌≡◌, false, OnOk};
ghost use Rattle.std.specs.List.{AllByRecursion};
ghost use Rattle.lard_rules.specs.Bounds.{HasRule};
ghost use Rattle.lard_settling.specs.Settling.{DoesSettle, IsFrontOf, all_inner};

use lard_base::Events;
use lard_rules::StepFault;
use lard_world::World;
use std::alloc::Global;

/// Does an inner step of each of these events, up to one that is not done. Its fault is the answer, and the world is as
/// the steps before have left it. If memory ran out, its journal is a front of what it would have been.
pub fn do_all(world: &mut World, alloc: Global, events: Events) -> Result<(), StepFault>
    requires usable { world.old.spoiled ≡ false }
    requires ruled { AllByRecursion HasRule events }
    ensures does { DoesSettle (all_inner world.old.machine events) world.new.machine result }
    ensures usable { OnOk result (world.new.spoiled ≡ false) }
    ensures grows { IsFrontOf world.old.machine.journal world.new.machine.journal }
    ensures config { OnOk result (world.new.machine.config ≡ world.old.machine.config) }
{
    for event in events.into_vec() {
        world.inner(alloc, event)?;
    }
    Ok(())
}

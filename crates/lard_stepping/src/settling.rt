//! What a settle does of the whole: its event, inner steps, and its closing record.

ghost use Rattle.std.specs.Prelude.{◌≡◌, OnOk, OnErr};
ghost use Rattle.lard_rules.specs.Bounds.{HasRule};
ghost use Rattle.lard_rules.specs.Machine.{Steps};
ghost use Rattle.lard_stepping.specs.Sound.{IsSet, IsMachineSound, MayStep};
ghost use Rattle.lard_settling.specs.Steps.{closing, inner_step, settle_begun, settle_closed};

use crate::acting::{append, mark};
use crate::steps::{limit_reached, machine_step};
use lard_base::{Event, NoMemory};
use lard_journal::Rec;
use lard_rules::{Machine, StepFault};
use std::alloc::Global;

/// Begins a settle of at most so many rounds. After a fault, which is the limit that was reached before, everything is
/// as it was; if memory ran out, only the journal is.
#[tactic(auto, unfolding(lard_settling::specs::Steps::settle_begun))]
pub fn begin(machine: &mut Machine, alloc: Global, rounds: u32) -> Result<(), StepFault>
    requires sound { IsMachineSound machine.old }
    ensures step { Steps (settle_begun machine.old rounds) machine.old machine.new result }
    ensures sound { OnOk result (IsMachineSound machine.new) }
{
    if let Some(what) = limit_reached(machine) {
        return Err(StepFault::Limit(what));
    }
    mark(machine, alloc, Event::Settle(rounds))?;
    Ok(())
}

/// Does an inner step. After a fault everything is as it was; if memory ran out, only the journal is.
#[tactic(auto, unfolding(lard_settling::specs::Steps::inner_step))]
pub fn step_inside(machine: &mut Machine, alloc: Global, event: Event) -> Result<(), StepFault>
    requires ruled { HasRule event }
    requires sound { IsMachineSound machine.old }
    requires set { IsSet machine.old.config }
    requires closes { MayStep machine.old event }
    ensures step { Steps (inner_step machine.old event) machine.old machine.new result }
    ensures sound { OnOk result (IsMachineSound machine.new) }
{
    let (at, events) = (machine.journal.len(), machine.events);
    machine_step(machine, alloc, event)?;
    machine.journal.turn_inner(at);
    machine.events = events;
    Ok(())
}

/// Ends a settle: so many rounds were done, and so much is left. Without memory the journal is as it was.
pub fn close(machine: &mut Machine, alloc: Global, rounds: u32, left: u64) -> Result<(), NoMemory>
    requires sound { IsMachineSound machine.old }
    ensures ok { OnOk result (machine.new ≡ settle_closed machine.old rounds left) }
    ensures sound { OnOk result (IsMachineSound machine.new) }
    ensures err { OnErr result (machine.new.journal ≡ machine.old.journal) }
{
    append(&mut machine.journal, alloc, closing(rounds, left))
}

/// The record of what a settle came to.
fn closing(rounds: u32, left: u64) -> Rec
    ensures { result ≡ closing rounds left }
{
    if left == 0 {
        return Rec::Settled(rounds);
    }
    Rec::Unsettled { rounds, left }
}

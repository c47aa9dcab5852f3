//! Rounds of a settle: packets are delivered, nodes complete their jobs, and where there was nothing of these the timers fire.

ghost use Rattle.std.specs.Prelude.{◌≡◌, ◌≤◌, false, OnOk};
ghost use Rattle.lard_agenda.specs.Agenda.{IsAgendaOf};
ghost use Rattle.lard_settling.specs.Settling.{DoesSettle, DoesRounds, IsFrontOf, all_inner, completed_since, completions, deliveries, fired_since, firings, nodes_complete, round, rounds_from};

use crate::left::is_quiet;
use crate::lists::{completions, deliveries, firings};
use crate::steps::do_all;
use lard_agenda::Agenda;
use lard_rules::StepFault;
use lard_world::World;
use std::alloc::Global;

/// Rounds until nothing is left or so many were done, and how many were done. A fault of a step ends them, and the
/// world is as the steps before have left it. If memory ran out, its journal is a front of what it would have been.
pub fn do_rounds(
    world: &mut World,
    agenda: &mut Agenda,
    alloc: Global,
    rounds: u32,
) -> Result<u32, StepFault>
    requires usable { world.old.spoiled ≡ false }
    requires agenda { IsAgendaOf agenda.old world.old.machine.journal }
    ensures does { DoesRounds (rounds_from rounds 0 world.old.machine) world.new.machine result }
    ensures usable { OnOk result (world.new.spoiled ≡ false) }
    ensures grows { IsFrontOf world.old.machine.journal world.new.machine.journal }
    ensures agenda { IsAgendaOf agenda.new world.new.machine.journal }
{
    for done in 0..rounds {
        if is_quiet(world, agenda)? {
            return Ok(done);
        }
        round(world, agenda, alloc)?;
    }
    Ok(rounds)
}

/// One round.
fn round(world: &mut World, agenda: &mut Agenda, alloc: Global) -> Result<(), StepFault>
    requires usable { world.old.spoiled ≡ false }
    requires agenda { IsAgendaOf agenda.old world.old.machine.journal }
    ensures does { DoesSettle (round world.old.machine) world.new.machine result }
    ensures usable { OnOk result (world.new.spoiled ≡ false) }
    ensures grows { IsFrontOf world.old.machine.journal world.new.machine.journal }
    ensures agenda { IsAgendaOf agenda.new world.new.machine.journal }
{
    let records = world.journal().len();
    deliver_all(world, agenda, alloc)?;
    complete_since(world, agenda, alloc, records)
}

/// Each packet that is on its way is delivered.
fn deliver_all(world: &mut World, agenda: &mut Agenda, alloc: Global) -> Result<(), StepFault>
    requires usable { world.old.spoiled ≡ false }
    requires agenda { IsAgendaOf agenda.old world.old.machine.journal }
    ensures does { DoesSettle (all_inner world.old.machine (deliveries world.old.machine)) world.new.machine result }
    ensures usable { OnOk result (world.new.spoiled ≡ false) }
    ensures grows { IsFrontOf world.old.machine.journal world.new.machine.journal }
    ensures agenda { IsAgendaOf agenda.new world.new.machine.journal }
{
    let events = deliveries(world, agenda, alloc)?;
    do_all(world, alloc, events)
}

/// The nodes complete their jobs. Where the journal then has no more than so many records, the timers fire.
fn complete_since(
    world: &mut World,
    agenda: &mut Agenda,
    alloc: Global,
    records: u64,
) -> Result<(), StepFault>
    requires usable { world.old.spoiled ≡ false }
    requires agenda { IsAgendaOf agenda.old world.old.machine.journal }
    ensures does { DoesSettle (completed_since records world.old.machine) world.new.machine result }
    ensures usable { OnOk result (world.new.spoiled ≡ false) }
    ensures grows { IsFrontOf world.old.machine.journal world.new.machine.journal }
    ensures agenda { IsAgendaOf agenda.new world.new.machine.journal }
{
    nodes_complete(world, alloc)?;
    fire_since(world, agenda, alloc, records)
}

/// Each node, by number, completes the jobs that it has when its turn comes.
fn nodes_complete(world: &mut World, alloc: Global) -> Result<(), StepFault>
    requires { world.old.spoiled ≡ false }
    ensures does { DoesSettle (nodes_complete world.old.machine 1 world.old.machine.config.nodes) world.new.machine result }
    ensures usable { OnOk result (world.new.spoiled ≡ false) }
    ensures grows { IsFrontOf world.old.machine.journal world.new.machine.journal }
{
    for at in 0..world.config().nodes {
        node_completes(world, alloc, at + 1)?;
    }
    Ok(())
}

/// Node n completes the jobs that it has.
fn node_completes(world: &mut World, alloc: Global, n: u8) -> Result<(), StepFault>
    requires usable { world.old.spoiled ≡ false }
    requires there { (1 ≤ n) × (n ≤ world.old.machine.config.nodes) }
    ensures does { DoesSettle (all_inner world.old.machine (completions world.old.machine n)) world.new.machine result }
    ensures usable { OnOk result (world.new.spoiled ≡ false) }
    ensures grows { IsFrontOf world.old.machine.journal world.new.machine.journal }
    ensures config { OnOk result (world.new.machine.config ≡ world.old.machine.config) }
{
    let events = completions(world, n, alloc)?;
    do_all(world, alloc, events)
}

/// Where the journal has no more than so many records, the timers fire.
fn fire_since(
    world: &mut World,
    agenda: &mut Agenda,
    alloc: Global,
    records: u64,
) -> Result<(), StepFault>
    requires usable { world.old.spoiled ≡ false }
    requires agenda { IsAgendaOf agenda.old world.old.machine.journal }
    ensures does { DoesSettle (fired_since records world.old.machine) world.new.machine result }
    ensures usable { OnOk result (world.new.spoiled ≡ false) }
    ensures grows { IsFrontOf world.old.machine.journal world.new.machine.journal }
    ensures agenda { IsAgendaOf agenda.new world.new.machine.journal }
{
    if world.journal().len() == records {
        return fire_all(world, agenda, alloc);
    }
    Ok(())
}

/// Each timer fires that runs and is not stalled.
fn fire_all(world: &mut World, agenda: &mut Agenda, alloc: Global) -> Result<(), StepFault>
    requires usable { world.old.spoiled ≡ false }
    requires agenda { IsAgendaOf agenda.old world.old.machine.journal }
    ensures does { DoesSettle (all_inner world.old.machine (firings world.old.machine)) world.new.machine result }
    ensures usable { OnOk result (world.new.spoiled ≡ false) }
    ensures grows { IsFrontOf world.old.machine.journal world.new.machine.journal }
    ensures agenda { IsAgendaOf agenda.new world.new.machine.journal }
{
    let events = firings(world, agenda, alloc)?;
    do_all(world, alloc, events)
}

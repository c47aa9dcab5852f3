//! What an event does to the world, a step or a settle, and how a fault of it ends a run.

ghost use Rattle.std.specs.Prelude.{◌≡◌, false, OnOk};
ghost use Rattle.lard_agenda.specs.Agenda.{IsAgendaOf};
ghost use Rattle.lard_rules.specs.Bounds.{HasRule};
ghost use Rattle.lard_rules.specs.Machine.{machine_step};
ghost use Rattle.lard_schedule.specs.Events.{IsInLineRange};
ghost use Rattle.lard_settling.specs.Events.{event_step, settled_to, stepped_from};
ghost use Rattle.lard_settling.specs.Settling.{settled};
ghost use Rattle.lard_app.specs.Generate.{Happens};
ghost use Rattle.lard_app.specs.Replay.{ended_by};
ghost use Rattle.lard_app.specs.Seen.{rounds_of};

use crate::status::{Status, Why, refused};
use lard_agenda::Agenda;
use lard_agenda::laws::agendas_go_on;
use lard_base::Event;
use lard_rules::StepFault;
use lard_settle::{World, settle};
use std::alloc::Global;

/// Does what an event does. After a fault the world is as it was, or, of a settle that had begun, as far as it came. If
/// memory ran out, nothing is said of it.
#[tactic(auto, unfolding(lard_settling::specs::Events::event_step))]
pub fn settle_or_step(
    world: &mut World,
    agenda: &mut Agenda,
    alloc: Global,
    event: Event,
) -> Result<(), StepFault>
    requires usable { world.old.spoiled ≡ false }
    requires agenda { IsAgendaOf agenda.old world.old.machine.journal }
    requires range { IsInLineRange event }
    ensures happens { Happens (event_step world.old.machine event) world.new.machine result }
    ensures usable { OnOk result (world.new.spoiled ≡ false) }
    ensures agenda { OnOk result (IsAgendaOf agenda.new world.new.machine.journal) }
{
    match rounds_of(&event) {
        Some(rounds) => return settle_all(world, agenda, alloc, rounds),
        None => return step_world(world, agenda, alloc, event),
    }
}

/// Does the step of an event that is no settle.
fn step_world(
    world: &mut World,
    agenda: &Agenda,
    alloc: Global,
    event: Event,
) -> Result<(), StepFault>
    requires usable { world.old.spoiled ≡ false }
    requires agenda { IsAgendaOf agenda.now world.old.machine.journal }
    requires ruled { HasRule event }
    ensures happens { Happens (stepped_from world.old.machine (machine_step world.old.machine event)) world.new.machine result }
    ensures usable { OnOk result (world.new.spoiled ≡ false) }
    ensures agenda { OnOk result (IsAgendaOf agenda.now world.new.machine.journal) }
{
    agendas_go_on();
    let _kept = agenda;
    world.step(alloc, event)
}

/// Settles.
fn settle_all(
    world: &mut World,
    agenda: &mut Agenda,
    alloc: Global,
    rounds: u32,
) -> Result<(), StepFault>
    requires usable { world.old.spoiled ≡ false }
    requires agenda { IsAgendaOf agenda.old world.old.machine.journal }
    ensures happens { Happens (settled_to (settled world.old.machine rounds)) world.new.machine result }
    ensures usable { OnOk result (world.new.spoiled ≡ false) }
    ensures agenda { OnOk result (IsAgendaOf agenda.new world.new.machine.journal) }
{
    match settle(world, agenda, alloc, rounds) {
        Ok(_) => Ok(()),
        Err(fault) => Err(fault),
    }
}

/// For how many rounds an event settles, if it does.
fn rounds_of(event: &Event) -> Option<u32>
    ensures { result ≡ rounds_of event.now }
{
    match event {
        Event::Settle(rounds) => Some(*rounds),
        _ => None,
    }
}

/// How a fault of a step ends the run at a line.
pub fn ended_by(line: u64, fault: StepFault) -> Status
    ensures { result ≡ ended_by line fault }
{
    match fault {
        StepFault::Refused(reason) => refused(line, Why::Untimely(reason)),
        StepFault::Limit(what) => Status::Limit { line, what },
        StepFault::NoMemory => Status::NoMemory,
    }
}

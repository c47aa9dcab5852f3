//! A settle.

ghost use Rattle.std.specs.Prelude.{◌≡◌, false, Ok, IfOk, OnOk};
ghost use Rattle.lard_agenda.specs.Agenda.{IsAgendaOf};
ghost use Rattle.lard_world.specs.Enough.{EndsWithEnough, RestsWithEnough};
ghost use Rattle.lard_settling.specs.Settling.{DoesSettle, IsFrontOf, Settles, all_inner, settle_answer, closed_by, rounds_from, settled, settled_from, takes};

use crate::left::left;
use crate::lists::takes;
use crate::rounds::do_rounds;
use crate::steps::do_all;
use lard_agenda::Agenda;
use lard_rules::StepFault;
use lard_settling::Settled;
use lard_world::World;
use std::alloc::Global;

/// Settles: first each client that holds takes; then rounds of inner steps, at most so many, until no timer runs but
/// those that are stalled and no job waits. A fault of a step ends it, and the world is as the steps before have left
/// it. If memory ran out, its journal is a front of what it would have been, at a step's end. With as many rounds as
/// the bound of the journal nothing is left, where no packet was put on the way in a client's name and each client
/// wrote fewer than 16,383 bytes. However it ends, no record is taken back. Before it, and behind it where it was done,
/// the world is not spoiled and the agenda is one of its journal.
pub fn settle(
    world: &mut World,
    agenda: &mut Agenda,
    alloc: Global,
    rounds: u32,
) -> Result<Settled, StepFault>
    requires usable { world.old.spoiled ≡ false }
    requires agenda { IsAgendaOf agenda.old world.old.machine.journal }
    ensures settled { Settles (settled world.old.machine rounds) world.new.machine result }
    ensures grows { IsFrontOf world.old.machine.journal world.new.machine.journal }
    ensures enough { IfOk result (λ s. EndsWithEnough world.old.machine rounds s) }
    ensures usable { OnOk result (world.new.spoiled ≡ false) }
    ensures agenda { IsAgendaOf agenda.new world.new.machine.journal }
{
    world.begin_settle(alloc, rounds)?;
    settle_from(world, agenda, alloc, rounds)
}

/// A settle that has begun.
fn settle_from(
    world: &mut World,
    agenda: &mut Agenda,
    alloc: Global,
    rounds: u32,
) -> Result<Settled, StepFault>
    requires usable { world.old.spoiled ≡ false }
    requires agenda { IsAgendaOf agenda.old world.old.machine.journal }
    ensures settled { Settles (settled_from world.old.machine rounds) world.new.machine result }
    ensures grows { IsFrontOf world.old.machine.journal world.new.machine.journal }
    ensures rests { OnOk result (RestsWithEnough world.new.machine) }
    ensures usable { OnOk result (world.new.spoiled ≡ false) }
    ensures agenda { IsAgendaOf agenda.new world.new.machine.journal }
{
    take_all(world, agenda, alloc)?;
    do_and_close(world, agenda, alloc, rounds)
}

/// Each client that holds takes.
fn take_all(world: &mut World, agenda: &mut Agenda, alloc: Global) -> Result<(), StepFault>
    requires usable { world.old.spoiled ≡ false }
    requires agenda { IsAgendaOf agenda.old world.old.machine.journal }
    ensures does { DoesSettle (all_inner world.old.machine (takes world.old.machine)) world.new.machine result }
    ensures grows { IsFrontOf world.old.machine.journal world.new.machine.journal }
    ensures usable { OnOk result (world.new.spoiled ≡ false) }
    ensures agenda { IsAgendaOf agenda.new world.new.machine.journal }
{
    let events = takes(world, agenda, alloc)?;
    do_all(world, alloc, events)
}

/// The rounds, and the closing record.
fn do_and_close(
    world: &mut World,
    agenda: &mut Agenda,
    alloc: Global,
    rounds: u32,
) -> Result<Settled, StepFault>
    requires usable { world.old.spoiled ≡ false }
    requires agenda { IsAgendaOf agenda.old world.old.machine.journal }
    ensures settled { Settles (closed_by (rounds_from rounds 0 world.old.machine)) world.new.machine result }
    ensures grows { IsFrontOf world.old.machine.journal world.new.machine.journal }
    ensures rests { OnOk result (RestsWithEnough world.new.machine) }
    ensures usable { OnOk result (world.new.spoiled ≡ false) }
    ensures agenda { IsAgendaOf agenda.new world.new.machine.journal }
{
    let done = do_rounds(world, agenda, alloc, rounds)?;
    close(world, agenda, alloc, done)
}

/// The closing record, behind so many rounds.
fn close(
    world: &mut World,
    agenda: &mut Agenda,
    alloc: Global,
    done: u32,
) -> Result<Settled, StepFault>
    requires usable { world.old.spoiled ≡ false }
    requires agenda { IsAgendaOf agenda.old world.old.machine.journal }
    ensures settled { Settles (closed_by (Ok (world.old.machine, done))) world.new.machine result }
    ensures grows { IsFrontOf world.old.machine.journal world.new.machine.journal }
    ensures rests { OnOk result (RestsWithEnough world.new.machine) }
    ensures usable { OnOk result (world.new.spoiled ≡ false) }
    ensures agenda { IsAgendaOf agenda.new world.new.machine.journal }
{
    let count = left(world, agenda)?;
    world.end_settle(alloc, done, count)?;
    Ok(answer(done, count))
}

/// So many rounds were done, and this was left.
fn answer(rounds: u32, left: u64) -> Settled
    ensures { result ≡ settle_answer rounds left }
{
    if left == 0 {
        return Settled::Quiet(rounds);
    }
    Settled::Open { rounds, left }
}

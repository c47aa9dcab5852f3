//! The replay of a generated schedule, of which four lines are printed in place of a report.

ghost use Rattle.std.specs.Prelude.{◌≡◌, ◌≤◌, ◌+◌, false, All};
ghost use Rattle.lard_schedule.specs.Events.{IsInLineRange};
ghost use Rattle.lard_summary.specs.Lines.{summary};
ghost use Rattle.lard_app.specs.Generate.{Generated, GivesRun, Plays, run_begins, first_line, large, played, run_of};
ghost use Rattle.lard_app.specs.Replay.{EndsCount};

use crate::happening::{ended_by, settle_or_step};
use crate::status::Status;
use lard_agenda::Agenda;
use lard_agenda::laws::agendas_go_on;
use lard_base::{Bytes, Config, Events, Failed, NoMemory, Sink, write_all};
use lard_generate::Schedule;
use lard_journal::Journal;
use lard_settle::World;
use lard_summary::summary;
use std::alloc::Global;

/// The line of the first event, where the schedule is written: behind `lard 1`, `nodes 64`, 256 files, and `go`.
const FIRST_LINE: u64 = 260;

/// Replays the generated schedule of a seed and of so many clients, 1 to 2,000, and writes its four lines.
pub fn generate<K: Sink>(alloc: Global, sink: &mut K, seed: u64, clients: u32) -> Status
    requires clients { (1 ≤ clients) × (clients ≤ 2000) }
    ensures generated { Generated seed clients result (K.written sink.old) (K.written sink.new) }
    ensures faults { EndsCount (K.faults sink.old) (K.faults sink.new) result }
{
    let text = match four_lines(alloc, seed, clients) {
        Ok(text) => text,
        Err(status) => return status,
    };
    match write_all(sink, text.as_slice()) {
        Ok(()) => return Status::Done,
        Err(Failed) => return Status::WriteFault,
    }
}

/// The four lines.
fn four_lines(alloc: Global, seed: u64, clients: u32) -> Result<Bytes, Status>
    requires clients { (1 ≤ clients) × (clients ≤ 2000) }
    ensures { GivesRun (run_of seed clients) (λ m. summary seed clients m.journal) result }
{
    let schedule = match lard_generate::generate(alloc, seed, clients) {
        Ok(schedule) => schedule,
        Err(NoMemory) => return Err(Status::NoMemory),
    };
    let journal = match play(alloc, schedule) {
        Ok(journal) => journal,
        Err(status) => return Err(status),
    };
    match summary(alloc, seed, clients, journal.as_slice()) {
        Ok(text) => return Ok(text),
        Err(NoMemory) => return Err(Status::NoMemory),
    }
}

/// The journal of a schedule's replay.
fn play(alloc: Global, schedule: Schedule) -> Result<Journal, Status>
    requires range { All IsInLineRange schedule.events }
    ensures { GivesRun (played first_line (run_begins schedule) schedule.events) (λ m. m.journal) result }
{
    let mut world = match World::new(alloc, large(), schedule.files) {
        Ok(world) => world,
        Err(NoMemory) => return Err(Status::NoMemory),
    };
    let done = play_events(&mut world, alloc, schedule.events);
    let journal = world.finish();
    match done {
        Ok(()) => return Ok(journal),
        Err(status) => return Err(status),
    }
}

/// 64 nodes, and the standard numbers.
fn large() -> Config
    ensures { result ≡ large }
{
    let mut config = Config::standard();
    config.nodes = 64;
    config
}

/// Does the events one after another, as long as each is done.
fn play_events(world: &mut World, alloc: Global, events: Events) -> Result<(), Status>
    requires usable { world.old.spoiled ≡ false }
    requires range { All IsInLineRange events }
    ensures { Plays (played first_line world.old.machine events) world.new.machine result }
{
    agendas_go_on();
    let mut agenda = Agenda::new(alloc);
    let mut line = FIRST_LINE;
    for event in events.into_vec() {
        match settle_or_step(world, &mut agenda, alloc, event) {
            Ok(()) => line += 1,
            Err(fault) => return Err(ended_by(line, fault)),
        }
    }
    Ok(())
}

//! The top call.

ghost use Rattle.std.specs.Prelude.{◌≡◌, ◌↔◌, ◌⊎◌, ℕ, false, []};
ghost use Rattle.std.specs.Io.KnownBytes.{Keeps};
ghost use Rattle.lard_agenda.specs.Agenda.{IsAgendaOf};
ghost use Rattle.lard_base.specs.Causes.{Rose};
ghost use Rattle.lard_app.specs.declared.status.Status.{Status};
ghost use Rattle.lard_app.specs.Replay.{EndsCount, begin};
ghost use Rattle.lard_app.specs.Generate.{Generated, run_of};
ghost use Rattle.lard_app.specs.Run.{IsSettled, Ran, ReadsInput};
ghost use Rattle.lard_app.specs.Seen.{replay_seen};
ghost use Rattle.lard_app.specs.Words.{IsAudit, IsGenerate, IsLab, IsNone, IsReplay};
ghost use Rattle.lard_app.specs.Audit.{Audits, IsAuditSettled};
ghost use Rattle.lard_app.specs.Lab.{IsLabSettled, Labs};
ghost use Rattle.lard_lab.specs.declared.policy.Policy.{Policy};

use crate::audits::audit_report;
use crate::generating::generate;
use crate::labs::lab;
use crate::replay::Replay;
use crate::status::Status;
use crate::words::{Command, asked};
use lard_base::limits::MAX_INPUT_BYTES;
use lard_base::{InputFault, NoMemory, Sink, Source};
use lard_journal::report_tells_all;
use lard_law_audit::reports_of_runs_pass;
use lard_lines::Lines;
use std::alloc::Global;

/// Does all that the program does for these words, which are those after its name. `replay` reads a schedule of at
/// most 2^26 bytes from the source and writes the report of its replay to the sink; `generate` with a seed and a number of clients
/// replays the schedule that is generated of them and writes four lines of what is counted of it; `lab` with a policy reads a
/// trace of at most 2^26 bytes, runs it through the policy, and writes the report of that; `audit` reads a report of at most 2^30
/// bytes, and writes how many records it has where each keeps the rules; all other words are `Usage`. `generate` and `Usage` read
/// nothing, and nothing is written for `Usage`.
pub fn run<S: Source, K: Sink>(
    alloc: Global,
    words: &[String],
    source: &mut S,
    sink: &mut K,
) -> Status
    ensures usage { (result ≡ Status.Usage) ↔ IsNone words.now }
    ensures unread { ¬ IsReplay words.now → ((policy : Policy) → ¬ (IsLab words.now policy)) → ¬ IsAudit words.now → Keeps (S.left source.old) (S.left source.new) }
    ensures unwritten { result ≡ Status.Usage → Keeps (K.written sink.old) (K.written sink.new) }

    ensures replay { IsReplay words.now → Ran result (S.left source.old) (S.left source.new) (K.written sink.old) (K.written sink.new) }
    ensures generate { (seed clients : ℕ) → IsGenerate words.now seed clients → Generated seed clients result (K.written sink.old) (K.written sink.new) }
    ensures lab { (policy : Policy) → IsLab words.now policy → Labs policy result (S.left source.old) (S.left source.new) (K.written sink.old) (K.written sink.new) }
    ensures audit { IsAudit words.now → Audits result (S.left source.old) (S.left source.new) (K.written sink.old) (K.written sink.new) }

    // The first fault ends the run: where it ends otherwise, the count of faults is as it was.
    ensures read_fault { result ≡ Status.ReadFault → Rose (S.faults source.old) (S.faults source.new) }
    ensures no_read_fault { ¬ (result ≡ Status.ReadFault) → S.faults source.new ≡ S.faults source.old }
    ensures write_fault { result ≡ Status.WriteFault → Rose (K.faults sink.old) (K.faults sink.new) }
    ensures no_write_fault { ¬ (result ≡ Status.WriteFault) → K.faults sink.new ≡ K.faults sink.old }

    // Where no count of faults rose, the input alone decides how a replay, a lab and an audit end, and the words alone how a generated
    // run does, unless memory runs out.
    ensures complete { IsReplay words.now → ¬ Rose (S.faults source.old) (S.faults source.new) → ¬ Rose (K.faults sink.old) (K.faults sink.new)
        → IsSettled result (S.left source.old) }
    ensures complete_generate { (seed clients : ℕ) → IsGenerate words.now seed clients → ¬ Rose (K.faults sink.old) (K.faults sink.new)
        → (result ≡ (run_of seed clients).1) ⊎ (result ≡ Status.NoMemory) }
    ensures complete_lab { (policy : Policy) → IsLab words.now policy → ¬ Rose (S.faults source.old) (S.faults source.new) → ¬ Rose (K.faults sink.old) (K.faults sink.new)
        → IsLabSettled policy result (S.left source.old) }
    ensures complete_audit { IsAudit words.now → ¬ Rose (S.faults source.old) (S.faults source.new) → ¬ Rose (K.faults sink.old) (K.faults sink.new)
        → IsAuditSettled result (S.left source.old) }
{
    report_tells_all();
    reports_of_runs_pass();
    match asked(words) {
        Some(Command::Replay) => return replay(alloc, source, sink),
        Some(Command::Generate { seed, clients }) => return generate(alloc, sink, seed, clients),
        Some(Command::Lab(policy)) => return lab(alloc, policy, source, sink),
        Some(Command::Audit) => return audit_report(alloc, source, sink),
        None => return Status::Usage,
    }
}

/// Replays the input line by line.
fn replay<S: Source, K: Sink>(alloc: Global, source: &mut S, sink: &mut K) -> Status
    ensures reads { ReadsInput result (S.left source.old) (S.left source.new) (K.written sink.old) (K.written sink.new) }
    ensures read_fault { result ≡ Status.ReadFault → Rose (S.faults source.old) (S.faults source.new) }
    ensures no_read_fault { ¬ (result ≡ Status.ReadFault) → S.faults source.new ≡ S.faults source.old }
    ensures faults { EndsCount (K.faults sink.old) (K.faults sink.new) result }
{
    let mut lines = match Lines::new(alloc, MAX_INPUT_BYTES) {
        Ok(lines) => lines,
        Err(NoMemory) => return Status::NoMemory,
    };
    let mut replay = match Replay::new(alloc) {
        Ok(replay) => replay,
        Err(NoMemory) => return Status::NoMemory,
    };
    let status = replay_lines(&mut replay, alloc, &mut lines, source, sink);
    replay.finish();
    status
}

/// Passes each line of a source, once it is whole and before the next is read, to a replay that has read nothing.
fn replay_lines<S: Source, K: Sink>(
    replay: &mut Replay,
    alloc: Global,
    lines: &mut Lines,
    source: &mut S,
    sink: &mut K,
) -> Status
    requires begins { replay_seen replay.old ≡ begin }
    requires usable { replay.old.world.spoiled ≡ false }
    requires agenda { IsAgendaOf replay.old.agenda replay.old.world.machine.journal }
    requires unread { lines.old ≡ record { rest = []; read = 0; most = MAX_INPUT_BYTES } }
    ensures reads { ReadsInput result (S.left source.old) (S.left source.new) (K.written sink.old) (K.written sink.new) }
    ensures read_fault { result ≡ Status.ReadFault → Rose (S.faults source.old) (S.faults source.new) }
    ensures no_read_fault { ¬ (result ≡ Status.ReadFault) → S.faults source.new ≡ S.faults source.old }
    ensures faults { EndsCount (K.faults sink.old) (K.faults sink.new) result }
{
    loop {
        match lines.find_line(source) {
            Ok(Some(len)) => match replay.pass(alloc, sink, &lines.rest()[..len]) {
                Ok(()) => lines.pass(len),
                Err(status) => {
                    replay.tell_widths();
                    return status;
                }
            },
            Ok(None) => {
                replay.tell_widths();
                return replay.end(lines.rest());
            }
            Err(InputFault::Failed) => {
                replay.tell_widths();
                return Status::ReadFault;
            }
            Err(InputFault::NoMemory) => return Status::NoMemory,
        }
    }
}

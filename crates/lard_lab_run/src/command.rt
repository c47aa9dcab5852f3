//! The command.

ghost use Rattle.std.specs.Prelude.{◌≡◌, []};
ghost use Rattle.lard_base.specs.Causes.{Rose};
ghost use Rattle.lard_base.specs.declared.limits.TheConstants.{MAX_INPUT_BYTES};
ghost use Rattle.lard_lab_run.specs.Run.{IsSettledLab, LabReads};
ghost use Rattle.lard_lab_run.specs.Seen.{lab_seen};
ghost use Rattle.lard_lab_run.specs.Told.{LabRan};
ghost use Rattle.lard_lab_run.specs.Trial.{EndsLabCount, lab_begin};

use crate::end::LabEnd;
use crate::trial::Trial;
use lard_base::limits::MAX_INPUT_BYTES;
use lard_base::{InputFault, NoMemory, Sink, Source};
use lard_lab::Policy;
use lard_lines::Lines;
use std::alloc::Global;

/// Reads a trace of at most 2^26 bytes from the source, runs it through the policy, and writes the report to the sink: the
/// heading by the line `go`, the line of each request before the next line is read, and the totals at the end.
pub fn run_lab<S: Source, K: Sink>(
    alloc: Global,
    policy: Policy,
    source: &mut S,
    sink: &mut K,
) -> LabEnd
    ensures ran { LabRan policy result (S.left source.old) (S.left source.new) (K.written sink.old) (K.written sink.new) }
    ensures read_fault { result ≡ LabEnd.ReadFault → Rose (S.faults source.old) (S.faults source.new) }
    ensures no_read_fault { ¬ (result ≡ LabEnd.ReadFault) → S.faults source.new ≡ S.faults source.old }
    ensures faults { EndsLabCount (K.faults sink.old) (K.faults sink.new) result }
    // Where no count of faults rose, the input alone decides how the lab ends, unless memory runs out.
    ensures complete { ¬ Rose (S.faults source.old) (S.faults source.new) → ¬ Rose (K.faults sink.old) (K.faults sink.new) → IsSettledLab policy result (S.left source.old) }
{
    let mut lines = match Lines::new(alloc, MAX_INPUT_BYTES) {
        Ok(lines) => lines,
        Err(NoMemory) => return LabEnd::NoMemory,
    };
    let mut trial = match Trial::new(alloc, policy) {
        Ok(trial) => trial,
        Err(NoMemory) => return LabEnd::NoMemory,
    };
    pass_lines(&mut trial, alloc, policy, &mut lines, source, sink)
}

/// Passes each line of a source, once it is whole and before the next is read, to a lab that has read nothing.
fn pass_lines<S: Source, K: Sink>(
    trial: &mut Trial,
    alloc: Global,
    policy: Policy,
    lines: &mut Lines,
    source: &mut S,
    sink: &mut K,
) -> LabEnd
    requires begins { lab_seen trial.old ≡ lab_begin policy }
    requires unread { lines.old ≡ record { rest = []; read = 0; most = MAX_INPUT_BYTES } }
    ensures reads { LabReads policy result (S.left source.old) (S.left source.new) (K.written sink.old) (K.written sink.new) }
    ensures read_fault { result ≡ LabEnd.ReadFault → Rose (S.faults source.old) (S.faults source.new) }
    ensures no_read_fault { ¬ (result ≡ LabEnd.ReadFault) → S.faults source.new ≡ S.faults source.old }
    ensures faults { EndsLabCount (K.faults sink.old) (K.faults sink.new) result }
{
    loop {
        match lines.find_line(source) {
            Ok(Some(len)) => match trial.pass(alloc, sink, &lines.rest()[..len]) {
                Ok(()) => lines.pass(len),
                Err(end) => return end,
            },
            Ok(None) => return trial.end(sink, lines.rest()),
            Err(InputFault::Failed) => return LabEnd::ReadFault,
            Err(InputFault::NoMemory) => return LabEnd::NoMemory,
        }
    }
}

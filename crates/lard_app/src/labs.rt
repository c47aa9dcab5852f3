//! The lab's command.

ghost use Rattle.std.specs.Prelude.{◌≡◌};
ghost use Rattle.lard_base.specs.Causes.{Rose};
ghost use Rattle.lard_app.specs.Lab.{IsLabSettled, Labs, lab_limit, lab_why, lab_status};
ghost use Rattle.lard_app.specs.Replay.{EndsCount};

use crate::status::{Status, Why, refused};
use lard_base::{Sink, Source};
use lard_lab::Policy;
use lard_lab_run::{LabEnd, LabLimit, LabWhy, run_lab};
use lard_rules::What;
use std::alloc::Global;

/// Runs the trace of a source through a policy, and writes its report to a sink.
pub fn lab<S: Source, K: Sink>(
    alloc: Global,
    policy: Policy,
    source: &mut S,
    sink: &mut K,
) -> Status
    ensures labs { Labs policy result (S.left source.old) (S.left source.new) (K.written sink.old) (K.written sink.new) }
    ensures read_fault { result ≡ Status.ReadFault → Rose (S.faults source.old) (S.faults source.new) }
    ensures no_read_fault { ¬ (result ≡ Status.ReadFault) → S.faults source.new ≡ S.faults source.old }
    ensures faults { EndsCount (K.faults sink.old) (K.faults sink.new) result }
    ensures complete { ¬ Rose (S.faults source.old) (S.faults source.new) → ¬ Rose (K.faults sink.old) (K.faults sink.new) → IsLabSettled policy result (S.left source.old) }
{
    lab_status(run_lab(alloc, policy, source, sink))
}

/// How the program ends where a lab ended so.
fn lab_status(end: LabEnd) -> Status
    ensures { result ≡ lab_status end }
{
    match end {
        LabEnd::Done => Status::Done,
        LabEnd::Refused { line, why } => refused(line, lab_why(why)),
        LabEnd::ReadFault => Status::ReadFault,
        LabEnd::WriteFault => Status::WriteFault,
        LabEnd::NoMemory => Status::NoMemory,
        LabEnd::Limit { line, what } => Status::Limit {
            line,
            what: lab_limit(what),
        },
    }
}

fn lab_why(why: LabWhy) -> Why
    ensures { result ≡ lab_why why }
{
    match why {
        LabWhy::Syntax => Why::Syntax,
        LabWhy::Config(fault) => Why::Config(fault),
        LabWhy::File(fault) => Why::File(fault),
        LabWhy::NoFile => Why::NoFile,
        LabWhy::NotOpen(number) => Why::NotOpen(number),
    }
}

fn lab_limit(what: LabLimit) -> What
    ensures { result ≡ lab_limit what }
{
    match what {
        LabLimit::Input => What::Input,
        LabLimit::Requests => What::Requests,
    }
}

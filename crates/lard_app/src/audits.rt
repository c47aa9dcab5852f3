//! The audit's command.

ghost use Rattle.std.specs.Prelude.{◌≡◌};
ghost use Rattle.lard_base.specs.Causes.{Rose};
ghost use Rattle.lard_app.specs.Audit.{Audits, IsAuditSettled, audit_status, flaw_why};
ghost use Rattle.lard_app.specs.Replay.{EndsCount};

use crate::status::{Status, Why, refused};
use lard_audit_run::{Flaw, Verdict, audit};
use lard_base::{Sink, Source};
use lard_rules::What;
use std::alloc::Global;

/// Audits the report of a source, and writes how many records it has to a sink, where it is sound.
pub fn audit_report<S: Source, K: Sink>(alloc: Global, source: &mut S, sink: &mut K) -> Status
    ensures audits { Audits result (S.left source.old) (S.left source.new) (K.written sink.old) (K.written sink.new) }
    ensures read_fault { result ≡ Status.ReadFault → Rose (S.faults source.old) (S.faults source.new) }
    ensures no_read_fault { ¬ (result ≡ Status.ReadFault) → S.faults source.new ≡ S.faults source.old }
    ensures faults { EndsCount (K.faults sink.old) (K.faults sink.new) result }
    ensures complete { ¬ Rose (S.faults source.old) (S.faults source.new) → ¬ Rose (K.faults sink.old) (K.faults sink.new) → IsAuditSettled result (S.left source.old) }
{
    audit_status(audit(alloc, source, sink))
}

/// How the program ends behind this verdict.
fn audit_status(verdict: Verdict) -> Status
    ensures { result ≡ audit_status verdict }
{
    match verdict {
        Verdict::Sound(_) => Status::Done,
        Verdict::Refused { line, flaw } => refused(line, flaw_why(flaw)),
        Verdict::TooLong { line } => Status::Limit {
            line,
            what: What::Input,
        },
        Verdict::ReadFault => Status::ReadFault,
        Verdict::WriteFault => Status::WriteFault,
        Verdict::NoMemory => Status::NoMemory,
    }
}

fn flaw_why(flaw: Flaw) -> Why
    ensures { result ≡ flaw_why flaw }
{
    match flaw {
        Flaw::Syntax => Why::Syntax,
        Flaw::Config(fault) => Why::Config(fault),
        Flaw::File(fault) => Why::File(fault),
        Flaw::Broken(rule) => Why::Broken(rule),
    }
}

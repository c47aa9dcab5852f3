//! The audit of a report that is read from a source.

ghost use Rattle.std.specs.Prelude.{◌≡◌, ◌++◌, [], IfOk};
ghost use Rattle.lard_base.specs.Causes.{Rose};
ghost use Rattle.lard_audit_run.specs.Audited.{audit_begin, records_line};
ghost use Rattle.lard_audit_run.specs.Runs.{Audited, AuditEndsCount, IsVerdictSettled, Judged, AuditWrote};
ghost use Rattle.lard_audit_run.specs.Seen.{IsAt, IsAuditCounted};

use crate::auditor::{Auditor, MAX_REPORT_BYTES};
use crate::verdict::{Verdict, refused};
use itoa::Buffer;
use lard_base::{Failed, InputFault, NoMemory, Sink, Source, write_all};
use lard_lines::Lines;
use std::alloc::Global;

/// Reads a report of at most 2^30 bytes from the source, line by line, and judges each of its records. Where the report is whole and
/// sound, the line `records N` is written to the sink, and nothing else.
pub fn audit<S: Source, K: Sink>(alloc: Global, source: &mut S, sink: &mut K) -> Verdict
    ensures audited { Audited result (S.left source.old) (S.left source.new) (K.written sink.old) (K.written sink.new) }
    ensures read_fault { result ≡ Verdict.ReadFault → Rose (S.faults source.old) (S.faults source.new) }
    ensures no_read_fault { ¬ (result ≡ Verdict.ReadFault) → S.faults source.new ≡ S.faults source.old }
    ensures faults { AuditEndsCount (K.faults sink.old) (K.faults sink.new) result }
    // Where no count of faults rose, the input alone decides the verdict, unless memory runs out.
    ensures settled { ¬ (result ≡ Verdict.ReadFault) → ¬ (result ≡ Verdict.WriteFault) → IsVerdictSettled result (S.left source.old) }
{
    match judge(alloc, source) {
        Verdict::Sound(records) => return write_records(alloc, sink, records),
        Verdict::Refused { line, flaw } => return refused(line, flaw),
        Verdict::TooLong { line } => return Verdict::TooLong { line },
        Verdict::ReadFault => return Verdict::ReadFault,
        Verdict::WriteFault => return Verdict::WriteFault,
        Verdict::NoMemory => return Verdict::NoMemory,
    }
}

/// The verdict on the report that is read from a source; `WriteFault` is none.
fn judge<S: Source>(alloc: Global, source: &mut S) -> Verdict
    ensures judged { Judged result (S.left source.old) (S.left source.new) }
    ensures read_fault { result ≡ Verdict.ReadFault → Rose (S.faults source.old) (S.faults source.new) }
    ensures no_read_fault { ¬ (result ≡ Verdict.ReadFault) → S.faults source.new ≡ S.faults source.old }
{
    let mut lines = match Lines::new(alloc, MAX_REPORT_BYTES) {
        Ok(lines) => lines,
        Err(NoMemory) => return Verdict::NoMemory,
    };
    let mut auditor = match Auditor::new(alloc) {
        Ok(auditor) => auditor,
        Err(NoMemory) => return Verdict::NoMemory,
    };
    judge_lines(&mut auditor, alloc, &mut lines, source)
}

/// Passes each line of a source, once it is whole and before the next is read, to an auditor that has passed nothing.
fn judge_lines<S: Source>(
    auditor: &mut Auditor,
    alloc: Global,
    lines: &mut Lines,
    source: &mut S,
) -> Verdict
    requires begins { IsAt auditor.old audit_begin }
    requires counted { IsAuditCounted auditor.old }
    requires unread { lines.old ≡ record { rest = []; read = 0; most = MAX_REPORT_BYTES } }
    ensures judged { Judged result (S.left source.old) (S.left source.new) }
    ensures read_fault { result ≡ Verdict.ReadFault → Rose (S.faults source.old) (S.faults source.new) }
    ensures no_read_fault { ¬ (result ≡ Verdict.ReadFault) → S.faults source.new ≡ S.faults source.old }
{
    loop {
        match lines.find_line(source) {
            Ok(Some(len)) => match auditor.pass(alloc, &lines.rest()[..len]) {
                Ok(()) => lines.pass(len),
                Err(verdict) => return verdict,
            },
            Ok(None) => return auditor.end(lines.rest()),
            Err(InputFault::Failed) => return Verdict::ReadFault,
            Err(InputFault::NoMemory) => return Verdict::NoMemory,
        }
    }
}

/// Writes how many records a sound report has.
fn write_records<K: Sink>(alloc: Global, sink: &mut K, records: u64) -> Verdict
    ensures wrote { AuditWrote records result (K.written sink.old) (K.written sink.new) }
    ensures faults { AuditEndsCount (K.faults sink.old) (K.faults sink.new) result }
{
    let text = match records_line(alloc, records) {
        Ok(text) => text,
        Err(NoMemory) => return Verdict::NoMemory,
    };
    match write_all(sink, text.as_slice()) {
        Ok(()) => return Verdict::Sound(records),
        Err(Failed) => return Verdict::WriteFault,
    }
}

/// The line that tells how many records a sound report has.
fn records_line(alloc: Global, records: u64) -> Result<Vec<u8>, NoMemory>
    ensures { IfOk result (λ text. text.items ≡ records_line records) }
{
    let mut digits = Buffer::new();
    let mut text = Vec::new(alloc);
    text.extend_from_slice(b"records ")?;
    text.extend_from_slice(digits.format(records).as_bytes())?;
    text.push(b'\n')?;
    Ok(text)
}

//! What comes behind a run over standard output: the end of the report is passed on.

ghost use Rattle.std.specs.Prelude.{◌≡◌, ◌⊎◌, []};
ghost use Rattle.std.specs.Io.KnownBytes.{Keeps};
ghost use Rattle.lard_base.specs.Causes.{Rose};
ghost use Rattle.lard_base.specs.Outside.{contents_of};

use crate::status::Status;
use lard_base::{Failed, StdSink};
use std::io::Write;

/// Passes on what the sink holds back of a report, and answers how a run ends that had ended with this status: where that
/// fails, with a write fault.
pub fn flush_report<W: Write + Drop>(sink: &mut StdSink<W>, status: Status) -> Status
    ensures bytes { Keeps (contents_of W.contents sink.old) (contents_of W.contents sink.new) }
    ensures all { ¬ (result ≡ Status.WriteFault) → sink.new.held ≡ [] }
    ensures same { ¬ (result ≡ Status.WriteFault) → result ≡ status }
    ensures fault { result ≡ Status.WriteFault → (status ≡ Status.WriteFault) ⊎ Rose sink.old.faults sink.new.faults }
    ensures no_fault { ¬ (result ≡ Status.WriteFault) → sink.new.faults ≡ sink.old.faults }
{
    match sink.flush() {
        Ok(()) => return status,
        Err(Failed) => return Status::WriteFault,
    }
}

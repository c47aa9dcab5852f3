//! How a lab ends.

ghost use Rattle.std.specs.Prelude.{◌≡◌};
ghost use Rattle.lard_lab_run.specs.Trial.{lab_ended_by, lab_file_ends};

use lard_base::ConfigFault;
use lard_files::FileFault;
use lard_lab::LabFault;

/// Why a line of a trace was refused.
#[derive(Clone, Copy, Debug, PartialEq, Eq)]
pub enum LabWhy {
    /// It is no line of a trace in its place.
    Syntax,
    /// It gives a number that the configuration can't have, or `go` follows numbers that don't go together.
    Config(ConfigFault),
    /// It adds a file that may not be added, for another cause than running out of memory, which is `LabEnd::NoMemory`.
    File(FileFault),
    /// It requests a path that no file has.
    NoFile,
    /// It says that this request is done, which was not made, was full, or was done before.
    NotOpen(u32),
}

/// A limit that a line goes past.
#[derive(Clone, Copy, Debug, PartialEq, Eq)]
pub enum LabLimit {
    /// The input has more than 2^26 bytes.
    Input,
    /// More than 16,384 requests are made.
    Requests,
}

/// How a lab ended. Lines are counted from 1.
#[derive(Clone, Copy, Debug, PartialEq, Eq)]
pub enum LabEnd {
    /// The input was read to its end, and the whole report was written.
    Done,
    /// The line was refused; the heading and the lines of the requests before it were written, where `go` had passed.
    Refused { line: u64, why: LabWhy },
    /// The input could not be read.
    ReadFault,
    /// The report could not be written.
    WriteFault,
    /// Memory ran out.
    NoMemory,
    /// The line goes past a limit; what was written is as where it is refused.
    Limit { line: u64, what: LabLimit },
}

/// A line was refused.
pub fn refused(line: u64, why: LabWhy) -> LabEnd
    ensures { result ≡ LabEnd.Refused line why }
{
    LabEnd::Refused { line, why }
}

/// How a fault of a file ends the lab at a line.
pub fn file_ends(line: u64, fault: FileFault) -> LabEnd
    ensures { result ≡ lab_file_ends line fault }
{
    match fault {
        FileFault::Repeated => refused(line, LabWhy::File(fault)),
        FileFault::TooLong(_) => refused(line, LabWhy::File(fault)),
        FileFault::TooMany(_) => refused(line, LabWhy::File(fault)),
        FileFault::TooMuch(_) => refused(line, LabWhy::File(fault)),
        FileFault::NoMemory => LabEnd::NoMemory,
    }
}

/// How a fault of an event ends the lab at a line.
pub fn ended_by(line: u64, fault: LabFault) -> LabEnd
    ensures { result ≡ lab_ended_by line fault }
{
    match fault {
        LabFault::NoFile => refused(line, LabWhy::NoFile),
        LabFault::NotOpen(number) => refused(line, LabWhy::NotOpen(number)),
        LabFault::Limit => LabEnd::Limit {
            line,
            what: LabLimit::Requests,
        },
        LabFault::NoMemory => LabEnd::NoMemory,
    }
}

//! How the audit of a report ends.

ghost use Rattle.std.specs.Prelude.{◌≡◌};

use lard_audit::Rule;
use lard_base::ConfigFault;
use lard_files::FileFault;

/// Why a line of a report is refused.
#[derive(Clone, Copy, Debug, PartialEq, Eq)]
pub enum Flaw {
    /// It is in its place no heading, no line of a file and no line of a record, or it has no line feed.
    Syntax,
    /// The numbers of the heading are no configuration that can be used.
    Config(ConfigFault),
    /// The file may not be added to those before.
    File(FileFault),
    /// The record breaks this rule, as its first, after the records before.
    Broken(Rule),
}

/// How the audit of a report ends. Lines are counted from 1.
#[derive(Clone, Copy, Debug, PartialEq, Eq)]
pub enum Verdict {
    /// The report is whole and sound, with so many records.
    Sound(u64),
    /// This line is refused.
    Refused { line: u64, flaw: Flaw },
    /// This line holds the byte after the 2^30 that a report may have.
    TooLong { line: u64 },
    /// Reading failed.
    ReadFault,
    /// Writing failed.
    WriteFault,
    /// Memory ran out.
    NoMemory,
}

/// The line is refused.
pub fn refused(line: u64, flaw: Flaw) -> Verdict
    ensures { result ≡ Verdict.Refused line flaw }
{
    Verdict::Refused { line, flaw }
}

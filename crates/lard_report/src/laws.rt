//! What is read is what has this line, and nothing else.

ghost use Rattle.lard_report.specs.Laws.{FilesAreRead, HeadingsAreRead, OthersAreNot, ReadableAreInRange, RecordsAreRead, RecordsAreReadAgain};

/// A line is read as a record exactly where, with its line feed, it is the line of this record and a line can stand for it; and
/// as none exactly where there is no such record. So a line has one record at most, and a record is read again from its line.
pub fn records_are_read()
    ensures record { RecordsAreRead }
    ensures nothing { OthersAreNot }
    ensures again { RecordsAreReadAgain }
    ensures range { ReadableAreInRange }
{}

/// A line is read as nine numbers exactly where it is the heading with these numbers, and as a path and a length exactly where
/// it is the line of a file of this path and length.
pub fn prefaces_are_read()
    ensures heading { HeadingsAreRead }
    ensures file { FilesAreRead }
{}

//! Which texts pass an audit.

ghost use Rattle.lard_audit_run.specs.Reports.{FrontsAreSound, IsOneReport, RecordsAreCounted, SoundReportsPass};

/// A text passes exactly where it has at most 2^30 bytes and is a sound report: a heading, the lines of files and those of
/// records, of which nothing is refused, and each record keeps all rules behind those before it. What it is said to have are as
/// many records as it has, and it is one such report only. A front of it, cut behind the line of any record, is a sound report too.
pub fn sound_reports_pass()
    ensures sound { SoundReportsPass }
    ensures count { RecordsAreCounted }
    ensures one { IsOneReport }
    ensures fronts { FrontsAreSound }
{}

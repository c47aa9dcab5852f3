//! That the journal of every run is one that an audit finds sound, and its report a text that passes one.
//!
//! It stands above the record of all laws, the laws of settles and the audit, and joins them: from the laws of a journal to each rule of
//! an audit, record by record. The laws are of the journal with its settles written out, and the audit reads it as it is: what is counted,
//! and what stands directly before a record, is the same in both. A line can stand for each record, since paths name files and bytes are
//! at least one (`lard_laws`). It has no code, and nothing stands on it.
#![tactic(auto)]

ghost use Rattle.lard_law_audit.specs.Laws.{LawfulIsSound, RunsAreSound, SettledIsSound, SettledRunsAreSound};
ghost use Rattle.lard_law_audit.specs.Reports.{ReportsAreSound, ReportsPass};

/// A lawful journal is sound: an audit that knows the configuration and how long the files are finds that each of its records keeps all
/// rules. So is the journal of every run without settles.
pub fn runs_are_sound()
    ensures lawful { LawfulIsSound }
    ensures runs { RunsAreSound }
{}

/// A journal whose settles stand in order is sound, where it is lawful with these written out. So is the journal of every run with
/// settles, wherever it ended, also inside one.
pub fn settled_runs_are_sound()
    ensures lawful { SettledIsSound }
    ensures runs { SettledRunsAreSound }
{}

/// The report of every run, with its settles and wherever it ended, is a sound report, as it is written: its files may be told, each of
/// its records is one that a line can stand for, and keeps all rules. So an audit reads it record by record, and passes it with as many
/// records as the run has, unless it has more than 2^30 bytes.
pub fn reports_of_runs_pass()
    ensures sound { ReportsAreSound }
    ensures passes { ReportsPass }
{
    lard_audit_run::laws::sound_reports_pass();
}

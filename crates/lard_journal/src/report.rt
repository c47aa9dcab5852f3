//! What a report is, as laws without code.

ghost use Rattle.std.specs.Prelude.{◌≡◌, [], ◌∷◌, ◌++◌, ℕ, List};
ghost use Rattle.std.specs.List.{flat_map};
ghost use Rattle.lard_base.specs.declared.config.Config.{Config};
ghost use Rattle.lard_journal.specs.declared.rec.Rec.{Rec};
ghost use Rattle.lard_journal.specs.Range.{IsRecordInRange, IsReportInRange};
ghost use Rattle.lard_journal.specs.Report.{heading_line, file_text, rec_line, report};

/// A report grows at its end: it begins with the heading, goes on with a line for each file in their
/// order, and then with a line for each record.
pub fn report_grows()
    ensures heading { (config : Config) → report config [] [] ≡ heading_line config }
    ensures file { (config : Config) (files : List (List ℕ × ℕ)) (file : List ℕ × ℕ)
        → report config (files ++ file ∷ []) [] ≡ report config files [] ++ file_text file }
    ensures records { (config : Config) (files : List (List ℕ × ℕ)) (recs more : List Rec)
        → report config files (recs ++ more) ≡ report config files recs ++ flat_map rec_line more }
{}

/// A report tells its configuration, its files and its records: two that differ in one of them differ.
/// Numbers are to be below 2^64, bytes to be bytes, and paths to have no spaces and control bytes.
pub fn report_tells_all()
    ensures record { (r s : Rec) → IsRecordInRange r → IsRecordInRange s → rec_line r ≡ rec_line s → r ≡ s }
    ensures whole { (config also : Config) (files others : List (List ℕ × ℕ)) (recs more : List Rec)
        → IsReportInRange config files recs → IsReportInRange also others more
        → report config files recs ≡ report also others more
        → (config ≡ also) × (files ≡ others) × (recs ≡ more) }
{}

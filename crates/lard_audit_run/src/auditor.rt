//! An audit under way: what the lines that were passed have told.

ghost use Rattle.std.specs.Prelude.{◌≡◌, ◌+◌, ◌≤◌, ◌<◌, ◌^◌, true, length, Ok, IfOk, OnOk};
ghost use Rattle.lard_audit.specs.Sound.{broken};
ghost use Rattle.lard_audit.specs.State.{audit_add_check};
ghost use Rattle.lard_base.specs.Config.{config_check};
ghost use Rattle.lard_report.specs.Preface.{file_line_of, heading_of};
ghost use Rattle.lard_report.specs.Records.{record_of};
ghost use Rattle.lard_audit_run.specs.Audited.{Course, audit_begin, begun, audit_ending, audit_entered, audit_filed, headed, audit_listed, audit_passed, recorded, ruled};
ghost use Rattle.lard_audit_run.specs.Seen.{Enters, IsAt, IsAuditCounted, AuditPasses};

use crate::heading::config_with;
use crate::verdict::{Flaw, Verdict, refused};
use lard_audit::{Audit, AuditFault};
use lard_base::{Config, NoMemory, Path};
use lard_files::FileFault;
use lard_journal::Rec;
use lard_report::{read_file, read_heading, read_record};
use lard_schedule::LineFault;
use std::alloc::Global;

/// The most bytes of a report.
pub const MAX_REPORT_BYTES: usize = 1 << 30;

/// What the next line may be.
#[derive(Clone, Copy, Debug, PartialEq, Eq)]
pub enum Stage {
    /// The heading.
    Heading,
    /// The line of a file or of a record.
    Files,
    /// The line of a record.
    Records,
}

/// Why a line is not passed.
enum Fault {
    Flawed(Flaw),
    NoMemory,
}

/// What was passed of a report.
#[derive(Drop)]
pub struct Auditor {
    pub stage: Stage,
    /// What the records so far have led to.
    pub audit: Audit,
    /// How many lines were passed.
    pub lines: u64,
    /// How many bytes these lines have, with their line feeds.
    pub read: u64,
    /// How many of the lines were of records.
    pub records: u64,
}

impl Auditor {
    /// Nothing was passed. `NoMemory` where memory runs out.
    pub fn new(alloc: Global) -> Result<Auditor, NoMemory>
        ensures begins { IfOk result (λ auditor. IsAt auditor audit_begin) }
        ensures counted { IfOk result IsAuditCounted }
    {
        let audit = Audit::new(alloc, Config::standard())?;
        Ok(Auditor {
            stage: Stage::Heading,
            audit,
            lines: 0,
            read: 0,
            records: 0,
        })
    }

    /// Takes a line, which is given without its line feed. `Refused` and `TooLong` come where the line ends the audit, and
    /// `NoMemory` where memory runs out.
    #[tactic(auto, unfolding(crate::specs::Audited::audit_passed))]
    pub fn pass(&mut self, alloc: Global, line: &[u8]) -> Result<(), Verdict>
        requires counted { IsAuditCounted self.old }
        requires small { length line.now < 2 ^ 32 }
        ensures passed { (s : Course) → IsAt self.old s → AuditPasses (audit_passed s line.now) self.new result }
        ensures counted { OnOk result (IsAuditCounted self.new) }
    {
        let number = self.lines + 1;
        let len = line.len() as u64;
        if self.read + len + 1 > MAX_REPORT_BYTES as u64 {
            return Err(Verdict::TooLong { line: number });
        }
        match self.enter(alloc, line) {
            Ok(()) => {
                self.lines = number;
                self.read = self.read + len + 1;
                return Ok(());
            }
            Err(Fault::Flawed(flaw)) => return Err(refused(number, flaw)),
            Err(Fault::NoMemory) => return Err(Verdict::NoMemory),
        }
    }

    /// Takes what a line stands for in its place. The line is not counted yet.
    #[tactic(auto, unfolding(crate::specs::Audited::audit_entered))]
    fn enter(&mut self, alloc: Global, line: &[u8]) -> Result<(), Fault>
        requires room { self.old.records ≤ 2 ^ 30 }
        ensures entered { (s : Course) → IsAt self.old s → Enters (audit_entered s line.now) self.new result }
        ensures lines { self.new.lines ≡ self.old.lines }
        ensures read { self.new.read ≡ self.old.read }
        ensures records { self.new.records ≤ self.old.records + 1 }
    {
        match self.stage {
            Stage::Heading => return self.head(alloc, line),
            Stage::Files => return self.list(alloc, line),
            Stage::Records => return self.record(alloc, line),
        }
    }

    /// Takes the heading: the audit begins with its configuration, where that can be used.
    fn head(&mut self, alloc: Global, line: &[u8]) -> Result<(), Fault>
        ensures headed { (s : Course) → IsAt self.old s → Enters (headed s (heading_of line.now)) self.new result }
        ensures lines { self.new.lines ≡ self.old.lines }
        ensures read { self.new.read ≡ self.old.read }
        ensures records { self.new.records ≤ self.old.records }
    {
        let heading = match read_heading(line) {
            Some(heading) => heading,
            None => return Err(Fault::Flawed(Flaw::Syntax)),
        };
        match config_with(&heading) {
            Ok(config) => return self.begin(alloc, config),
            Err(fault) => return Err(Fault::Flawed(Flaw::Config(fault))),
        }
    }

    /// Begins the audit with a configuration.
    fn begin(&mut self, alloc: Global, config: Config) -> Result<(), Fault>
        requires { config_check config ≡ Ok tt }
        ensures begun { (s : Course) → IsAt self.old s → Enters (begun s (Ok config)) self.new result }
        ensures lines { self.new.lines ≡ self.old.lines }
        ensures read { self.new.read ≡ self.old.read }
        ensures records { self.new.records ≤ self.old.records }
    {
        match Audit::new(alloc, config) {
            Ok(audit) => {
                self.stage = Stage::Files;
                self.audit = audit;
                self.records = 0;
                return Ok(());
            }
            Err(NoMemory) => return Err(Fault::NoMemory),
        }
    }

    /// Takes the line of a file; and where it is none, that of the first record.
    fn list(&mut self, alloc: Global, line: &[u8]) -> Result<(), Fault>
        requires room { self.old.records ≤ 2 ^ 30 }
        ensures listed { (s : Course) → s.stage ≡ Stage.Files → IsAt self.old s → Enters (audit_listed s line.now (file_line_of line.now)) self.new result }
        ensures lines { self.new.lines ≡ self.old.lines }
        ensures read { self.new.read ≡ self.old.read }
        ensures records { self.new.records ≤ self.old.records + 1 }
    {
        match read_file(alloc, line) {
            Ok((path, size)) => return self.file(&path, size),
            Err(LineFault::Syntax) => return self.record(alloc, line),
            Err(LineFault::NoMemory) => return Err(Fault::NoMemory),
        }
    }

    /// Adds a file, where it may be added.
    fn file(&mut self, path: &Path, size: u64) -> Result<(), Fault>
        ensures filed { (s : Course) → s.stage ≡ Stage.Files → IsAt self.old s → Enters (audit_filed s (path.now, size) (audit_add_check s.files path.now size)) self.new result }
        ensures lines { self.new.lines ≡ self.old.lines }
        ensures read { self.new.read ≡ self.old.read }
        ensures records { self.new.records ≤ self.old.records }
    {
        match self.audit.file(path.as_slice(), size) {
            Ok(()) => return Ok(()),
            Err(FileFault::NoMemory) => return Err(Fault::NoMemory),
            Err(fault) => return Err(Fault::Flawed(Flaw::File(fault))),
        }
    }

    /// Takes the line of a record, where it breaks no rule.
    fn record(&mut self, alloc: Global, line: &[u8]) -> Result<(), Fault>
        requires room { self.old.records ≤ 2 ^ 30 }
        ensures recorded { (s : Course) → IsAt self.old s → Enters (recorded s (record_of line.now)) self.new result }
        ensures lines { self.new.lines ≡ self.old.lines }
        ensures read { self.new.read ≡ self.old.read }
        ensures records { self.new.records ≤ self.old.records + 1 }
    {
        match read_record(alloc, line) {
            Ok(rec) => return self.feed(&rec),
            Err(LineFault::Syntax) => return Err(Fault::Flawed(Flaw::Syntax)),
            Err(LineFault::NoMemory) => return Err(Fault::NoMemory),
        }
    }

    /// Judges a record.
    fn feed(&mut self, rec: &Rec) -> Result<(), Fault>
        requires room { self.old.records ≤ 2 ^ 30 }
        ensures ruled { (s : Course) → IsAt self.old s → Enters (ruled s rec.now (broken s.config s.files s.journal rec.now)) self.new result }
        ensures lines { self.new.lines ≡ self.old.lines }
        ensures read { self.new.read ≡ self.old.read }
        ensures records { self.new.records ≤ self.old.records + 1 }
    {
        match self.audit.feed(rec) {
            Ok(()) => {
                self.stage = Stage::Records;
                self.records += 1;
                return Ok(());
            }
            Err(AuditFault::Broken(rule)) => return Err(Fault::Flawed(Flaw::Broken(rule))),
            Err(AuditFault::NoMemory) => return Err(Fault::NoMemory),
        }
    }

    /// How an audit ends whose report ends with these bytes, which no line feed follows.
    pub fn end(&self, rest: &[u8]) -> Verdict
        requires counted { IsAuditCounted self.now }
        requires small { length rest.now < 2 ^ 32 }
        ensures { (s : Course) → IsAt self.now s → result ≡ audit_ending s rest.now }
    {
        let number = self.lines + 1;
        if rest.is_empty() {
            match self.stage {
                Stage::Heading => return refused(number, Flaw::Syntax),
                Stage::Files => return Verdict::Sound(self.records),
                Stage::Records => return Verdict::Sound(self.records),
            }
        }
        if self.read + rest.len() as u64 > MAX_REPORT_BYTES as u64 {
            return Verdict::TooLong { line: number };
        }
        refused(number, Flaw::Syntax)
    }
}

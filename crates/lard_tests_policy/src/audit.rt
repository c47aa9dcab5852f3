//! A report by hand, record by record, with a record that breaks each rule.

use lard_audit::{Audit, AuditFault, Rule};
use lard_base::{Config, NoMemory};
use lard_report::read_record;
use std::alloc::Global;

/// Lines of a report, each with the first rule that its record breaks. One that breaks a rule is left out of the report.
const LINES: &[(&'static str, Option<Rule>)] = &[
    ("sent 1 c1 front 00", None),
    ("got 2", Some(Rule::Network)),
    ("got 1", None),
    ("took front 1 1", None),
    ("took n1 1 2", Some(Rule::Owner)),
    ("sent 2 n1 c1 00", Some(Rule::Sender)),
    ("sent 2 front c1 00", None),
    ("assigned 1 1 first /a 1 1 -", Some(Rule::Admission)),
    ("admitted 1", None),
    ("released 1", Some(Rule::Admission)),
    ("assigned 1 1 first /a 2 2 -", Some(Rule::Choice)),
    ("assigned 1 1 first /a 1 1 -", None),
    ("hit n1 /a", Some(Rule::Cache)),
    ("queued n1 n1 1 1 /a", None),
    ("read n1 n1 1 1 /a", Some(Rule::Cache)),
    ("event 1 disk 1 1", None),
    ("read n1 n1 1 1 /a", None),
    ("hit n1 /a", None),
    ("clock 5", None),
    ("clock 4", Some(Rule::Clock)),
    ("closed n3", Some(Rule::Choice)),
    ("closed n1", None),
    ("closed n1", Some(Rule::Choice)),
    ("closed n2", Some(Rule::Choice)),
    ("admitted 2", None),
    ("closed n2", Some(Rule::Admission)),
    ("assigned 2 1 first /a 1 - -", Some(Rule::Choice)),
    ("assigned 2 1 first /a 2 - -", Some(Rule::Choice)),
    ("assigned 2 1 first /a 2 2 -", None),
];

/// The first rule that the record of a line breaks, if it breaks one. A line that is none counts as one without memory.
fn broken(audit: &mut Audit, alloc: Global, line: &str) -> Result<Option<Rule>, NoMemory> {
    let Ok(rec) = read_record(alloc, line.as_bytes()) else {
        return Err(NoMemory);
    };
    match audit.feed(&rec) {
        Ok(()) => Ok(None),
        Err(AuditFault::Broken(rule)) => Ok(Some(rule)),
        Err(AuditFault::NoMemory) => Err(NoMemory),
    }
}

/// The first line that is judged otherwise.
fn first_wrong(audit: &mut Audit, alloc: Global) -> Result<Option<&'static str>, NoMemory> {
    for (line, rule) in LINES {
        if broken(audit, alloc, line)? != *rule {
            return Ok(Some(*line));
        }
    }
    Ok(None)
}

/// The same, where one file is told.
fn judged(alloc: Global) -> Result<Option<&'static str>, NoMemory> {
    let mut audit = Audit::new(alloc, Config::standard())?;
    if audit.file(b"/a", 5).is_err() {
        return Err(NoMemory);
    }
    first_wrong(&mut audit, alloc)
}

#[test]
fn the_first_broken_rule_is_told(rt: HostRuntime) {
    assert_eq!(rt; judged(rt.alloc()), Ok(None));
}

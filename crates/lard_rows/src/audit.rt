//! Audits of reports that were worked out by hand.

use crate::slow::Trickle;
use crate::tests::words_of;
use lard_app::{FileFault, Rule, Status, Why, run};
use lard_base::{Bytes, Calls, ConfigFault, Key, MemSink, MemSource, NoMemory};
use std::alloc::Global;
use std::test::Fail;

/// Two requests for a file: the first is read, and the second hits.
const SOUND: &str = "\
report 1 nodes 2 low 25 high 65 age 20000 idle 25 over 130 miss 50 cache 1048576 stream 1073741824
file /a 5
clock 10
admitted 1
assigned 1 1 first /a 1 1 -
queued n1 n1 1 1 /a
event 1 disk 1 1
read n1 n1 1 1 /a
admitted 2
assigned 2 1 first /a 1 - -
hit n1 /a
released 1
released 2
";

/// What an audit of a report says, with a sink of which these calls fail.
fn audited(alloc: Global, report: &[u8], failing: Calls) -> Result<(Status, Bytes), NoMemory> {
    let words = words_of(alloc, "audit")?;
    let mut source = MemSource::new(Bytes::from_slice(alloc, report)?, Calls::new(alloc));
    let mut sink = MemSink::new(alloc, 1_000, failing)?;
    let status = run(alloc, words.as_slice(), &mut source, &mut sink);
    Ok((status, Bytes::from_slice(alloc, sink.bytes())?))
}

#[test]
fn a_sound_report_has_its_records_counted(rt: HostRuntime) -> Result<(), Fail> {
    let alloc = rt.alloc();
    let (status, written) = audited(alloc, SOUND.as_bytes(), Calls::new(alloc))?;
    assert_eq!(rt; status, Status::Done);
    assert_eq!(rt; written.as_slice(), b"records 11\n".as_slice());
    Ok(())
}

/// A front of the report, and one more line behind it.
#[test]
fn lines_that_end_an_audit(rt: HostRuntime) -> Result<(), Fail> {
    let alloc = rt.alloc();
    let refused = |line, why| Status::Refused { line, why };
    let broken = |line, rule| refused(line, Why::Broken(rule));
    let value = 65;
    let key = Key::Nodes;
    let unfit = ConfigFault::Range { key, value };
    for (front, line, status) in [
        (0, "", refused(1, Why::Syntax)),
        (0, "clock 10\n", refused(1, Why::Syntax)),
        (
            0,
            "report 1 nodes 65 low 25 high 65 age 20000 idle 25 over 130 miss 50 cache 1 stream 1\n",
            refused(1, Why::Config(unfit)),
        ),
        (2, "file /a 5\n", refused(3, Why::File(FileFault::Repeated))),
        (3, "file /b 5\n", refused(4, Why::Syntax)),
        (3, "clock 11", refused(4, Why::Syntax)),
        (3, "clock 9\n", broken(4, Rule::Clock)),
        (3, "sent 2 c1 front 00\n", broken(4, Rule::Network)),
        (3, "gave front 1 1\n", broken(4, Rule::Owner)),
        (3, "sent 1 front c1 00\n", broken(4, Rule::Sender)),
        (3, "released 1\n", broken(4, Rule::Admission)),
        (4, "assigned 1 1 first /a 2 2 -\n", broken(5, Rule::Choice)),
        (5, "hit n1 /a\n", broken(6, Rule::Cache)),
    ] {
        let mut report = Vec::new(alloc);
        for kept in SOUND.split('\n').take(front) {
            report.extend_from_slice(kept.as_bytes())?;
            report.push(b'\n')?;
        }
        report.extend_from_slice(line.as_bytes())?;
        let (given, written) = audited(alloc, report.as_slice(), Calls::new(alloc))?;
        assert_eq!(rt; given, status, "at {line:?}");
        assert_eq!(rt; written.len(), 0, "at {line:?}");
    }
    Ok(())
}

#[test]
fn an_audit_whose_line_cannot_be_written(rt: HostRuntime) -> Result<(), Fail> {
    let alloc = rt.alloc();
    let mut failing = Calls::new(alloc);
    failing.push(1)?;
    let (status, written) = audited(alloc, SOUND.as_bytes(), failing)?;
    assert_eq!(rt; status, Status::WriteFault);
    assert_eq!(rt; written.len(), 0);
    Ok(())
}

/// A source that fails behind the heading, byte by byte.
#[test]
fn a_report_that_cannot_be_read(rt: HostRuntime) -> Result<(), Fail> {
    let alloc = rt.alloc();
    let words = words_of(alloc, "audit")?;
    let mut source = Trickle {
        rest: SOUND.as_bytes(),
        before_fault: 120,
        faults: 0,
    };
    let mut sink = MemSink::new(alloc, 1_000, Calls::new(alloc))?;
    let status = run(alloc, words.as_slice(), &mut source, &mut sink);
    assert_eq!(rt; status, Status::ReadFault);
    assert!(rt; sink.bytes().is_empty());
    Ok(())
}

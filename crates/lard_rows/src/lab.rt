//! The lab, by rows that were worked out by hand.

use crate::slow::Trickle;
use crate::tests::words_of;
use lard_app::{FileFault, Status, What, Why, run};
use lard_base::{Bytes, Calls, ConfigFault, Key, MemSink, MemSource, NoMemory};
use std::alloc::Global;
use std::process::Abort;
use std::test::Fail;

/// Two files, either of which fills a cache.
const TWO: &str = "\
lab 1
nodes 2
cache 10
file /a 6
file /b 6
go
req /a
req /a
req /b
";

/// Words, a trace, how the lab ends, and what it writes.
struct LabRow {
    words: &'static str,
    trace: &'static str,
    status: Status,
    report: &'static str,
}

const ROWS: &[LabRow] = &[
    LabRow {
        words: "lab hash",
        trace: TWO,
        status: Status::Done,
        report: "\
lab hash nodes 2 low 25 high 65 age 20000 cache 10
1 /a n1 miss
2 /a n1 hit
3 /b n2 miss
requests 3 hits 1 full 0
n1 requests 2 hits 1 peak 2
n2 requests 1 hits 0 peak 1
",
    },
    LabRow {
        words: "lab rr",
        trace: TWO,
        status: Status::Done,
        report: "\
lab rr nodes 2 low 25 high 65 age 20000 cache 10
1 /a n1 miss
2 /a n2 miss
3 /b n1 miss
requests 3 hits 0 full 0
n1 requests 2 hits 0 peak 2
n2 requests 1 hits 0 peak 1
",
    },
    LabRow {
        words: "lab lard",
        trace: "lab 1\nnodes 2\ncache 10\nfile /a 6\nfile /b 6\ngo\nreq /a\nreq /a\nreq /b\ndone 4\n",
        status: Status::Refused {
            line: 10,
            why: Why::NotOpen(4),
        },
        report: "\
lab lard nodes 2 low 25 high 65 age 20000 cache 10
1 /a n1 miss
2 /a n1 hit
3 /b n2 miss
",
    },
    LabRow {
        words: "lab lardr",
        trace: "lab 1\nlow 1\nhigh 1\nfile /a 1\ngo\nreq /a\nreq /a\ndone 1\nclock 5\nreq /a\n",
        status: Status::Done,
        report: "\
lab lardr nodes 2 low 1 high 1 age 20000 cache 1048576
1 /a n1 miss
2 /a full
3 /a n1 hit
requests 3 hits 1 full 1
n1 requests 2 hits 1 peak 1
n2 requests 0 hits 0 peak 0
",
    },
];

/// Runs words over an input, with a sink of which these calls fail.
fn labeled(
    alloc: Global,
    line: &str,
    input: &[u8],
    failing: Calls,
) -> Result<(Status, Bytes), NoMemory> {
    let words = words_of(alloc, line)?;
    let mut source = MemSource::new(Bytes::from_slice(alloc, input)?, Calls::new(alloc));
    let mut sink = MemSink::new(alloc, 100_000, failing)?;
    let status = run(alloc, words.as_slice(), &mut source, &mut sink);
    Ok((status, Bytes::from_slice(alloc, sink.bytes())?))
}

fn check_rows(rt: &(impl Abort + AllocGlobal), rows: &[LabRow]) -> Result<(), NoMemory> {
    let alloc = rt.alloc();
    for row in rows {
        let (status, report) = labeled(alloc, row.words, row.trace.as_bytes(), Calls::new(alloc))?;
        assert_eq!(rt; status, row.status, "at {:?}", row.trace);
        assert_eq!(rt;
            report.as_slice(),
            row.report.as_bytes(),
            "at {:?}",
            row.trace
        );
    }
    Ok(())
}

#[test]
fn traces_and_their_reports(rt: HostRuntime) -> Result<(), Fail> {
    check_rows(&rt, ROWS)?;
    Ok(())
}

/// Traces that are refused, before `go` or in the first line behind it, so that at most the heading is written.
#[test]
fn lines_that_end_a_lab(rt: HostRuntime) -> Result<(), Fail> {
    let alloc = rt.alloc();
    let refused = |line, why| Status::Refused { line, why };
    let config = |line, fault| refused(line, Why::Config(fault));
    let out_of_range = |key, value| ConfigFault::Range { key, value };
    for (trace, status, bytes) in [
        ("", refused(1, Why::Syntax), 0),
        ("lard 1\ngo\n", refused(1, Why::Syntax), 0),
        ("lab 1\nidle 5\ngo\n", refused(2, Why::Syntax), 0),
        ("lab 1\nfile /a 1048577\n", refused(2, Why::Syntax), 0),
        (
            "lab 1\nnodes 65\n",
            config(2, out_of_range(Key::Nodes, 65)),
            0,
        ),
        (
            "lab 1\nlow 66\ngo\n",
            config(3, ConfigFault::LowHigh { low: 66, high: 65 }),
            0,
        ),
        (
            "lab 1\nfile /a 1\nfile /a 1\n",
            refused(3, Why::File(FileFault::Repeated)),
            0,
        ),
        ("lab 1\ngo\nreq /a\n", refused(3, Why::NoFile), 54),
        ("lab 1\ngo\ndone 1\n", refused(3, Why::NotOpen(1)), 54),
        ("lab 1\ngo\nreq a\n", refused(3, Why::Syntax), 54),
    ] {
        let (given, report) = labeled(alloc, "lab rr", trace.as_bytes(), Calls::new(alloc))?;
        assert_eq!(rt; given, status, "at {trace:?}");
        assert_eq!(rt; report.len(), bytes, "at {trace:?}");
    }
    Ok(())
}

/// The request behind 16,384.
#[test]
fn a_request_too_many(rt: HostRuntime) -> Result<(), Fail> {
    let alloc = rt.alloc();
    let mut trace = Vec::from_slice(alloc, b"lab 1\nfile /a 1\ngo\n")?;
    for _ in 0..16_385 {
        trace.extend_from_slice(b"req /a\n")?;
    }
    let mut failing = Calls::new(alloc);
    failing.push(100_000)?;
    let words = words_of(alloc, "lab hash")?;
    let mut source = MemSource::new(Bytes::from_vec(trace), Calls::new(alloc));
    let mut sink = MemSink::new(alloc, 1_000_000, failing)?;
    let status = run(alloc, words.as_slice(), &mut source, &mut sink);
    let what = What::Requests;
    assert_eq!(rt; status, Status::Limit { line: 16_388, what });
    Ok(())
}

/// A sink whose third call fails, which is the second request's line.
#[test]
fn a_report_that_cannot_be_written(rt: HostRuntime) -> Result<(), Fail> {
    let alloc = rt.alloc();
    let mut failing = Calls::new(alloc);
    failing.push(3)?;
    let (status, report) = labeled(alloc, "lab rr", TWO.as_bytes(), failing)?;
    assert_eq!(rt; status, Status::WriteFault);
    assert_eq!(rt; report.len(), 49 + 13);
    Ok(())
}

/// A source that fails behind the first request's line, byte by byte.
#[test]
fn a_source_that_fails_behind_a_request(rt: HostRuntime) -> Result<(), Fail> {
    let alloc = rt.alloc();
    let words = words_of(alloc, "lab rr")?;
    let mut source = Trickle {
        rest: TWO.as_bytes(),
        before_fault: 57,
        faults: 0,
    };
    let mut sink = MemSink::new(alloc, 10_000, Calls::new(alloc))?;
    let status = run(alloc, words.as_slice(), &mut source, &mut sink);
    assert_eq!(rt; status, Status::ReadFault);
    assert_eq!(rt; sink.bytes().len(), 49 + 13);
    Ok(())
}

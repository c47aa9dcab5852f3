//! The rows: for each input the status and the report that the rules give, worked out by hand.

use crate::report::{HEADING, PARTS};
use crate::rows::{ALONE, BATCHES, LONG_SETTLES, MOVED, Row, SETTLES, TOLD};
use crate::slow::{Counting, Drip, Trickle, Waiting};
use lard_app::{FileFault, Refusal, Status, What, Why, run};
use lard_base::{Bytes, Calls, ConfigFault, Key, MemSink, MemSource, NoMemory};
use std::alloc::Global;
use std::cell::Cell;
use std::process::Abort;
use std::test::Fail;

const WORKED: &str = "\
lard 1
go
open 1 1000 5000 65535 1460
get 1 /x
deliver 1
deliver 2
deliver 3
deliver 4
deliver 5
";

/// A client whose connection is established.
const ESTABLISHED: &str = "\
lard 1
go
open 1 1000 5000 65535 1460
deliver 1
deliver 2
deliver 3
";

/// A request is answered by 404, in 45 bytes.
const NOT_FOUND: [&[&str]; 2] = [
    &["served front 1 1 404 45 own"],
    &[
        "accepted 1 485454502f312e3120343034204e6f7420466f756e640d0a436f6e74656e742d4c656e6774683a20300d0a0d0a",
    ],
];

/// A head is answered by 431, in 86 bytes, and the connection closes.
const TOO_LONG: [&[&str]; 3] = [
    &["served front 1 1 431 86 own"],
    &[
        "accepted 1 485454502f312e3120343331205265717565737420486561646572204669656c647320546f6f204c617267650d0a436f6e74656e742d4c656e6774683a20300d0a436f6e6e656374696f6e3a20636c6f73650d0a0d0a",
    ],
    &["eof 1"],
];

/// The words of a command line, as `run` takes them.
pub fn words_of(alloc: Global, line: &str) -> Result<Vec<String>, NoMemory> {
    let mut all = Vec::new(alloc);
    for word in line.split_whitespace() {
        all.push(String::from_str(alloc, word)?)?;
    }
    Ok(all)
}

/// Runs `replay` over an input, with a sink of which these calls fail.
pub fn replayed(alloc: Global, input: &[u8], failing: Calls) -> Result<(Status, Bytes), NoMemory> {
    let words = words_of(alloc, "replay")?;
    let mut source = MemSource::new(Bytes::from_slice(alloc, input)?, Calls::new(alloc));
    let mut sink = MemSink::new(alloc, 100_000, failing)?;
    let status = run(alloc, words.as_slice(), &mut source, &mut sink);
    Ok((status, Bytes::from_slice(alloc, sink.bytes())?))
}

/// The first parts of the worked example's report.
fn first_parts(alloc: Global, count: usize) -> Result<Vec<u8>, NoMemory> {
    let mut text = Vec::new(alloc);
    for part in PARTS.iter().take(count) {
        text.extend_from_slice(part.as_bytes())?;
    }
    Ok(text)
}

/// Two texts, one after the other.
fn joined(alloc: Global, first: &str, second: &str) -> Result<Vec<u8>, NoMemory> {
    let mut text = Vec::from_slice(alloc, first.as_bytes())?;
    text.extend_from_slice(second.as_bytes())?;
    Ok(text)
}

/// Each input gives its status, and a report of so many parts of the worked example's.
fn check(rt: &(impl Abort + AllocGlobal), rows: &[(&str, Status, usize)]) -> Result<(), NoMemory> {
    let alloc = rt.alloc();
    for (input, status, parts) in rows {
        let (given, report) = replayed(alloc, input.as_bytes(), Calls::new(alloc))?;
        assert_eq!(rt; given, *status, "at {input:?}");
        assert_eq!(rt;
            report.as_slice(),
            first_parts(alloc, *parts)?.as_slice(),
            "at {input:?}"
        );
    }
    Ok(())
}

fn refused(line: u64, why: Why) -> Status {
    Status::Refused { line, why }
}

/// Each row gives its status and its report, byte for byte. The rows are lent: over a table by value the prover writes all of it out.
fn check_rows(rt: &(impl Abort + AllocGlobal), rows: &[Row]) -> Result<(), NoMemory> {
    let alloc = rt.alloc();
    for row in rows {
        let (status, report) = replayed(alloc, row.input.as_bytes(), Calls::new(alloc))?;
        assert_eq!(rt; status, row.status, "at {:?}", row.input);
        assert_eq!(rt;
            report.as_slice(),
            row.report.as_bytes(),
            "at {:?}",
            row.input
        );
    }
    Ok(())
}

#[test]
fn rows_of_connections_that_stay(rt: HostRuntime) -> Result<(), Fail> {
    check_rows(&rt, &ALONE)?;
    Ok(())
}

#[test]
fn rows_of_connections_that_move(rt: HostRuntime) -> Result<(), Fail> {
    check_rows(&rt, &MOVED)?;
    Ok(())
}

#[test]
fn rows_of_batches(rt: HostRuntime) -> Result<(), Fail> {
    check_rows(&rt, &BATCHES)?;
    Ok(())
}

#[test]
fn rows_that_settle(rt: HostRuntime) -> Result<(), Fail> {
    check_rows(&rt, &SETTLES)?;
    Ok(())
}

#[test]
fn rows_that_settle_long(rt: HostRuntime) -> Result<(), Fail> {
    check_rows(&rt, &LONG_SETTLES)?;
    Ok(())
}

/// These lists of lines stand in the report, in this order, each of them line by line.
fn check_steps(rt: &impl Abort, report: &[u8], steps: &[&[&str]]) {
    let mut left = report.split(|byte| *byte == b'\n');
    for lines in steps {
        let Some((first, others)) = lines.split_first() else {
            continue;
        };
        assert!(rt;
            left.any(|part| part == first.as_bytes()),
            "no line {first:?}"
        );
        for line in others {
            assert_eq!(rt; left.next(), Some(line.as_bytes()), "behind {first:?}");
        }
    }
}

#[test]
fn rows_of_which_parts_are_told(rt: HostRuntime) -> Result<(), Fail> {
    let alloc = rt.alloc();
    for row in &TOLD {
        let (status, report) = replayed(alloc, row.input.as_bytes(), Calls::new(alloc))?;
        assert_eq!(rt; status, Status::Done, "at {:?}", row.input);
        check_steps(&rt, report.as_slice(), row.steps);
    }
    Ok(())
}

/// A client writes a head for an unknown path, of 35 bytes, so many more, and this end. All its packets are delivered,
/// and the answer.
fn long_head(alloc: Global, filled: usize, end: &str) -> Result<Vec<u8>, NoMemory> {
    let mut text = joined(
        alloc,
        ESTABLISHED,
        "write 1 474554202f7820485454502f312e310d0a486f73743a206c6172640d0a46696c6c3a20",
    )?;
    for _ in 0..filled {
        text.extend_from_slice(b"66")?;
    }
    text.extend_from_slice(end.as_bytes())?;
    text.extend_from_slice(
        b"\ndeliver 4\ndeliver 5\ndeliver 6\ndeliver 7\ndeliver 8\ndeliver 9\ndeliver 15\n",
    )?;
    Ok(text)
}

/// The longest head that is answered has 8,192 bytes with the empty line that ends it. One that has not ended by then is
/// too long.
#[test]
fn heads_of_8192_bytes(rt: HostRuntime) -> Result<(), Fail> {
    let alloc = rt.alloc();
    let whole = long_head(alloc, 8_192 - 35 - 4, "0d0a0d0a")?;
    let (status, report) = replayed(alloc, whole.as_slice(), Calls::new(alloc))?;
    assert_eq!(rt; status, Status::Done);
    check_steps(&rt, report.as_slice(), &NOT_FOUND);
    let unended = long_head(alloc, 8_192 - 35, "")?;
    let (status, report) = replayed(alloc, unended.as_slice(), Calls::new(alloc))?;
    assert_eq!(rt; status, Status::Done);
    check_steps(&rt, report.as_slice(), &TOO_LONG);
    Ok(())
}

#[test]
fn what_does_not_depend_on_a_world(rt: HostRuntime) -> Result<(), Fail> {
    check(
        &rt,
        &[
            ("lard 1\n", refused(2, Why::Syntax), 0),
            (
                "lard 1\ngo\ndeliver 1\n",
                refused(3, Why::Untimely(Refusal::NotSent { k: 1, sent: 0 })),
                1,
            ),
            (
                "lard 1\ngo\nget 1 /x\n",
                refused(3, Why::Untimely(Refusal::NoClient(1))),
                1,
            ),
        ],
    )?;
    Ok(())
}

#[test]
fn nodes_and_jobs_that_are_not_there(rt: HostRuntime) -> Result<(), Fail> {
    let no_node = |line, n| refused(line, Why::Untimely(Refusal::NoNode { n, nodes: 2 }));
    let no_job = |line, n, j| refused(line, Why::Untimely(Refusal::NoJob { n, j, len: 0 }));
    check(
        &rt,
        &[
            ("lard 1\ngo\ndisk 0 1\n", no_node(3, 0), 1),
            ("lard 1\ngo\ndisk 2 0\n", no_job(3, 2, 0), 1),
            ("lard 1\ngo\ndrain 0\n", no_node(3, 0), 1),
            ("lard 1\ngo\ndrain 3\n", no_node(3, 3), 1),
            (
                "lard 1\ngo\ntimer n3 1\n",
                refused(3, Why::Untimely(Refusal::NoClient(1))),
                1,
            ),
            (
                "lard 1\ngo\nopen 1 1000 5000 65535 1460\ntimer n3 1\n",
                no_node(4, 3),
                2,
            ),
            (
                "lard 1\ngo\nopen 1 1000 5000 65535 1460\nget 1 /x\ndisk 3 1\n",
                no_node(5, 3),
                3,
            ),
            (
                "lard 1\ngo\nopen 1 1000 5000 65535 1460\nget 1 /x\ndisk 1 1\n",
                no_job(5, 1, 1),
                3,
            ),
        ],
    )?;
    Ok(())
}

#[test]
fn configurations_that_cannot_be_used(rt: HostRuntime) -> Result<(), Fail> {
    let unfit = |line, fault| refused(line, Why::Config(fault));
    check(
        &rt,
        &[
            (
                "lard 1\nnodes 65\n",
                unfit(
                    2,
                    ConfigFault::Range {
                        key: Key::Nodes,
                        value: 65,
                    },
                ),
                0,
            ),
            (
                "lard 1\nlow 70\ngo\n",
                unfit(3, ConfigFault::LowHigh { low: 70, high: 65 }),
                0,
            ),
            (
                "lard 1\nnodes 1\nlow 1\ngo\n",
                unfit(4, ConfigFault::NoRoom),
                0,
            ),
        ],
    )?;
    Ok(())
}

#[test]
fn settles_in_no_place(rt: HostRuntime) -> Result<(), Fail> {
    check(
        &rt,
        &[
            ("settle /a -\n", refused(1, Why::Syntax), 0),
            ("lard 1\nsettle 10\ngo\n", refused(2, Why::Syntax), 0),
            ("lard 1\ngo\nsettle /a -\n", refused(3, Why::Syntax), 1),
            ("lard 1\ngo\nsettle", refused(3, Why::Syntax), 1),
            ("lard 1\ngo\ndrain n1\n", refused(3, Why::Syntax), 1),
        ],
    )?;
    Ok(())
}

#[test]
fn files_that_may_not_be_added(rt: HostRuntime) -> Result<(), Fail> {
    check(
        &rt,
        &[
            (
                "lard 1\nfile /a -\nfile /a 00\n",
                refused(3, Why::File(FileFault::Repeated)),
                0,
            ),
            (
                "lard 1\nfill /a 1048577 00\n",
                refused(2, Why::File(FileFault::TooLong(1_048_577))),
                0,
            ),
            ("lard 1\nfile /a 0\n", refused(2, Why::Syntax), 0),
            ("lard 1\nfile /a?b -\n", refused(2, Why::Syntax), 0),
            ("lard 1\ngo\nfile /a -\n", refused(3, Why::Syntax), 1),
            ("lard 1\nfile /a -\nstream 5\n", refused(3, Why::Syntax), 0),
        ],
    )?;
    Ok(())
}

#[test]
fn files_stand_behind_the_heading(rt: HostRuntime) -> Result<(), Fail> {
    let alloc = rt.alloc();
    let (status, report) = replayed(
        alloc,
        b"lard 1\nfile /b 616263\nfill /a 5 00\nfile /empty -\ngo\n",
        Calls::new(alloc),
    )?;
    let wanted = joined(alloc, HEADING, "file /b 3\nfile /a 5\nfile /empty 0\n")?;
    assert_eq!(rt; status, Status::Done);
    assert_eq!(rt; report.as_slice(), wanted.as_slice());
    Ok(())
}

#[test]
fn lines_that_are_none(rt: HostRuntime) -> Result<(), Fail> {
    let rt = &rt;
    for line in [
        "open  1 1000 5000 65535 1460\n",
        "open 1 1000 5000 65535 1460 \n",
        " open 1 1000 5000 65535 1460\n",
        "open 1 1000 5000 65535\n",
        "open 01 1000 5000 65535 1460\n",
        "open 1 +1000 5000 65535 1460\n",
        "open 1 -1 5000 65535 1460\n",
        "open 0 1000 5000 65535 1460\n",
        "open 16385 1000 5000 65535 1460\n",
        "open 1 4294967296 5000 65535 1460\n",
        "open 1 1000 5000 0 1460\n",
        "open 1 1000 5000 65536 1460\n",
        "open 1 1000 5000 65535 0\n",
        "open 1 1000 5000 65535 1461\n",
        "OPEN 1 1000 5000 65535 1460\n",
        "opens 1 1000 5000 65535 1460\n",
        "get 1 x\n",
        "get 1 /\u{7f}\n",
        "get 1 /x y\n",
        "get 1 \n",
        "deliver 4294967296\n",
        "deliver 1\r\n",
        "deliver 1",
        "deliver\n",
        "go\n",
        "lard 1\n",
        "\n",
    ] {
        let input = joined(rt.alloc(), "lard 1\ngo\n", line)?;
        let (status, report) = replayed(rt.alloc(), input.as_slice(), Calls::new(rt.alloc()))?;
        assert_eq!(rt; status, refused(3, Why::Syntax), "at {line:?}");
        assert_eq!(rt; report.as_slice(), HEADING.as_bytes(), "at {line:?}");
    }
    for (input, line) in [
        ("go\n", 1),
        ("lard 2\n", 1),
        ("LARD 1\n", 1),
        ("lard 1\nlard 1\n", 2),
    ] {
        let (status, report) = replayed(rt.alloc(), input.as_bytes(), Calls::new(rt.alloc()))?;
        assert_eq!(rt; status, refused(line, Why::Syntax), "at {input:?}");
        assert_eq!(rt; report.as_slice().len(), 0, "at {input:?}");
    }
    Ok(())
}

#[test]
fn paths_at_their_greatest_length(rt: HostRuntime) -> Result<(), Fail> {
    let alloc = rt.alloc();
    for (length, wanted) in [(1_023, Status::Done), (1_024, refused(4, Why::Syntax))] {
        let mut input = joined(
            alloc,
            "lard 1\ngo\nopen 1 1000 5000 65535 1460\n",
            "get 1 /",
        )?;
        for _ in 0..length {
            input.push(b'a')?;
        }
        input.push(b'\n')?;
        let (status, _) = replayed(alloc, input.as_slice(), Calls::new(alloc))?;
        assert_eq!(rt; status, wanted, "at {length}");
    }
    Ok(())
}

/// Words that ask for nothing that there is.
const NO_COMMANDS: [&str; 19] = [
    "",
    "replay x",
    "--help",
    "Replay",
    "generate",
    "generate 7",
    "generate 7 0",
    "generate 7 2001",
    "generate 7 20 1",
    "generate 07 20",
    "generate 7 +20",
    "generate -1 20",
    "generate 18446744073709551616 20",
    "lab",
    "lab LARD",
    "lab lardx",
    "lab rr x",
    "audit x",
    "AUDIT",
];

#[test]
fn words_that_are_no_command(rt: HostRuntime) -> Result<(), Fail> {
    let alloc = rt.alloc();
    for line in NO_COMMANDS {
        let words = words_of(alloc, line)?;
        let mut source = MemSource::new(
            Bytes::from_slice(alloc, b"lard 1\ngo\n")?,
            Calls::new(alloc),
        );
        let mut sink = MemSink::new(alloc, 1_000, Calls::new(alloc))?;
        let status = run(alloc, words.as_slice(), &mut source, &mut sink);
        assert_eq!(rt; status, Status::Usage);
        assert_eq!(rt; sink.bytes().len(), 0);
    }
    Ok(())
}

/// Words, and the four lines that they give: what is counted of the report of what `tools/generate-schedule` writes for them.
const GENERATED: [(&str, &str); 2] = [
    (
        "generate 7 20",
        "seed 7 clients 20\nrequests 116\naccepted 561121 packets 1656 records 6698\nsettled\n",
    ),
    (
        "generate 5 1",
        "seed 5 clients 1\nrequests 4\naccepted 27475 packets 77 records 301\nsettled\n",
    ),
];

/// Runs words that read nothing, with a sink of which these calls fail.
fn generated(alloc: Global, line: &str, failing: Calls) -> Result<(Status, Bytes), NoMemory> {
    let words = words_of(alloc, line)?;
    let mut source = MemSource::new(Bytes::from_slice(alloc, b"")?, Calls::new(alloc));
    let mut sink = MemSink::new(alloc, 1_000, failing)?;
    let status = run(alloc, words.as_slice(), &mut source, &mut sink);
    Ok((status, Bytes::from_slice(alloc, sink.bytes())?))
}

#[test]
fn generated_runs_are_counted(rt: HostRuntime) -> Result<(), Fail> {
    let alloc = rt.alloc();
    for (line, lines) in GENERATED {
        let (status, written) = generated(alloc, line, Calls::new(alloc))?;
        assert_eq!(rt; status, Status::Done);
        assert_eq!(rt; written.as_slice(), lines.as_bytes());
    }
    Ok(())
}

#[test]
fn four_lines_that_cannot_be_written(rt: HostRuntime) -> Result<(), Fail> {
    let alloc = rt.alloc();
    let mut failing = Calls::new(alloc);
    failing.push(1)?;
    let (status, written) = generated(alloc, "generate 7 1", failing)?;
    assert_eq!(rt; status, Status::WriteFault);
    assert_eq!(rt; written.as_slice().len(), 0);
    Ok(())
}

#[test]
fn a_sink_whose_third_call_fails(rt: HostRuntime) -> Result<(), Fail> {
    let alloc = rt.alloc();
    let mut failing = Calls::new(alloc);
    failing.push(3)?;
    let (status, report) = replayed(alloc, WORKED.as_bytes(), failing)?;
    assert_eq!(rt; status, Status::WriteFault);
    assert_eq!(rt; report.as_slice(), first_parts(alloc, 2)?.as_slice());
    Ok(())
}

/// Runs `replay` over an input that fails behind so many bytes.
pub fn broken(
    alloc: Global,
    input: &[u8],
    before_fault: usize,
) -> Result<(Status, Bytes), NoMemory> {
    let words = words_of(alloc, "replay")?;
    let mut source = Trickle {
        rest: input,
        before_fault,
        faults: 0,
    };
    let mut sink = MemSink::new(alloc, 10_000, Calls::new(alloc))?;
    let status = run(alloc, words.as_slice(), &mut source, &mut sink);
    Ok((status, Bytes::from_slice(alloc, sink.bytes())?))
}

#[test]
fn a_source_that_fails_in_the_middle_of_a_line(rt: HostRuntime) -> Result<(), Fail> {
    let alloc = rt.alloc();
    let (status, report) = broken(alloc, WORKED.as_bytes(), 44)?;
    assert_eq!(rt; status, Status::ReadFault);
    assert_eq!(rt; report.as_slice(), first_parts(alloc, 2)?.as_slice());
    Ok(())
}

#[test]
fn a_source_that_waits_for_the_steps_before(rt: HostRuntime) -> Result<(), Fail> {
    let alloc = rt.alloc();
    let words = words_of(alloc, "replay")?;
    let taken = Cell::new(0);
    let mut source = Waiting {
        rest: b"lard 1\ngo\n",
        line: b"clock 0\n",
        times: 100_000,
        taken: &taken,
        before_last: 0,
    };
    let mut sink = Counting { taken: &taken };
    let status = run(alloc, words.as_slice(), &mut source, &mut sink);
    assert_eq!(rt; status, Status::Done);
    assert!(rt; source.before_last > 2_000_000);
    assert!(rt; taken.get() > 2_700_000);
    Ok(())
}

#[test]
fn one_byte_at_a_time(rt: HostRuntime) -> Result<(), Fail> {
    let alloc = rt.alloc();
    let words = words_of(alloc, "replay")?;
    let mut source = Trickle {
        rest: WORKED.as_bytes(),
        before_fault: 1_000,
        faults: 0,
    };
    let mut sink = Drip {
        bytes: Vec::new(alloc),
        faults: 0,
    };
    let status = run(alloc, words.as_slice(), &mut source, &mut sink);
    let (wanted, report) = replayed(alloc, WORKED.as_bytes(), Calls::new(alloc))?;
    assert_eq!(rt; status, wanted);
    assert_eq!(rt; sink.bytes.as_slice(), report.as_slice());
    Ok(())
}

#[test]
fn an_input_past_its_limit(rt: HostRuntime) -> Result<(), Fail> {
    let alloc = rt.alloc();
    let mut input = joined(alloc, "lard 1\n", "go\n")?;
    input.resize((1 << 26) + 1, b'x')?;
    let (status, report) = replayed(alloc, input.as_slice(), Calls::new(alloc))?;
    let limit = Status::Limit {
        line: 3,
        what: What::Input,
    };
    assert_eq!(rt; status, limit);
    assert_eq!(rt; report.as_slice(), HEADING.as_bytes());
    Ok(())
}

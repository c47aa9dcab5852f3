//! Each public call once: what `run` writes for the shortest schedule, and the code and the line of each status.

use lard_app::{FileFault, Refusal, Rule, Status, What, Why, flush_report, run};
use lard_base::{Bytes, Calls, ConfigFault, Key, MemSink, MemSource, NoMemory, Sink, StdSink};
use std::alloc::Global;
use std::io::{self, Error, ErrorKind, Write};
use std::test::Fail;

/// A writer that takes all bytes, and whose flush fails where it is to.
#[derive(Drop)]
struct Held {
    fails: bool,
}

impl Write for Held {
    fn write(&mut self, buf: &[u8]) -> io::Result<usize> {
        Ok(buf.len())
    }

    fn flush(&mut self) -> io::Result<()> {
        if self.fails {
            return Err(Error::from(ErrorKind::Other));
        }
        Ok(())
    }
}

const HEADING: &[u8] =
    b"report 1 nodes 2 low 25 high 65 age 20000 idle 25 over 130 miss 50 cache 1048576 stream 1073741824\n";

/// What `run` writes for an input, and how it ends.
fn replayed(alloc: Global, input: &[u8]) -> Result<(Status, Bytes), NoMemory> {
    let words = vec![in alloc; "replay".to_string(alloc)?]?;
    let text = Bytes::from_slice(alloc, input)?;
    let mut source = MemSource::new(text, Calls::new(alloc));
    let mut sink = MemSink::new(alloc, 1_000, Calls::new(alloc))?;
    let status = run(alloc, words.as_slice(), &mut source, &mut sink);
    Ok((status, Bytes::from_slice(alloc, sink.bytes())?))
}

#[test]
fn the_shortest_schedule_has_the_heading_alone(rt: HostRuntime) -> Result<(), Fail> {
    let (status, report) = replayed(rt.alloc(), b"lard 1\ngo\n")?;
    assert_eq!(rt; (status, report.as_slice()), (Status::Done, HEADING));
    Ok(())
}

/// How a run ends that names no line, with its code and its text.
const ENDS: &[(Status, u8, &str)] = &[
    (Status::Done, 0, ""),
    (
        Status::Usage,
        1,
        "usage: lardsim replay | generate SEED CLIENTS | audit | lab POLICY",
    ),
    (Status::ReadFault, 3, "read fault"),
    (Status::WriteFault, 4, "write fault"),
    (Status::NoMemory, 5, "no memory"),
];

/// Why line 4 is refused.
const CAUSES: &[(Why, &str)] = &[
    (Why::Syntax, "line 4: not a line of the schedule"),
    (
        Why::Config(ConfigFault::Range {
            key: Key::Stream,
            value: 0,
        }),
        "line 4: stream out of range: 0",
    ),
    (
        Why::Config(ConfigFault::LowHigh { low: 3, high: 2 }),
        "line 4: low 3 above high 2",
    ),
    (
        Why::Config(ConfigFault::NoRoom),
        "line 4: no connection can be admitted",
    ),
    (Why::File(FileFault::Repeated), "line 4: file repeated"),
    (
        Why::File(FileFault::TooLong(1_048_577)),
        "line 4: file too long: 1048577",
    ),
    (
        Why::File(FileFault::TooMany(65_537)),
        "line 4: too many files: 65537",
    ),
    (
        Why::File(FileFault::TooMuch(67_108_865)),
        "line 4: files too large: 67108865",
    ),
    (
        Why::Untimely(Refusal::NotSent { k: 7, sent: 2 }),
        "line 4: packet 7 of 2 sent",
    ),
    (
        Why::Untimely(Refusal::WasLost(7)),
        "line 4: packet 7 was lost",
    ),
    (
        Why::Untimely(Refusal::NoClient(16_384)),
        "line 4: client 16384 not opened",
    ),
    (
        Why::Untimely(Refusal::Used(1)),
        "line 4: client 1 opened before",
    ),
    (
        Why::Untimely(Refusal::NoNode { n: 65, nodes: 64 }),
        "line 4: node 65 above 64",
    ),
    (
        Why::Untimely(Refusal::LastNode(64)),
        "line 4: node 64 is the last",
    ),
    (
        Why::Untimely(Refusal::NoJob { n: 3, j: 7, len: 2 }),
        "line 4: job 7 of 2 at node 3",
    ),
    (Why::Broken(Rule::Choice), "line 4: breaks choice"),
];

/// Which limit line 9 goes past.
const LIMITS: &[(What, &str)] = &[
    (What::Input, "line 9: limit input"),
    (What::Packets, "line 9: limit packets"),
    (What::PacketBytes, "line 9: limit packet-bytes"),
    (What::Records, "line 9: limit records"),
    (What::Answers, "line 9: limit answers"),
    (What::Requests, "line 9: limit requests"),
    (What::Stream, "line 9: limit stream"),
];

/// Whether a status has this code, and this line.
fn tells(alloc: Global, status: Status, code: u8, line: &str) -> Result<bool, NoMemory> {
    let told = status.line(alloc)?;
    Ok(status.code() == code && told.as_str() == line)
}

/// The place of the first end that is told otherwise.
fn first_wrong_end(alloc: Global) -> Result<Option<usize>, NoMemory> {
    for (at, (status, code, line)) in ENDS.iter().enumerate() {
        if !tells(alloc, *status, *code, line)? {
            return Ok(Some(at));
        }
    }
    Ok(None)
}

fn first_wrong_cause(alloc: Global) -> Result<Option<usize>, NoMemory> {
    for (at, (why, line)) in CAUSES.iter().enumerate() {
        let status = Status::Refused { line: 4, why: *why };
        if !tells(alloc, status, 2, line)? {
            return Ok(Some(at));
        }
    }
    Ok(None)
}

fn first_wrong_limit(alloc: Global) -> Result<Option<usize>, NoMemory> {
    for (at, (what, line)) in LIMITS.iter().enumerate() {
        let status = Status::Limit {
            line: 9,
            what: *what,
        };
        if !tells(alloc, status, 6, line)? {
            return Ok(Some(at));
        }
    }
    Ok(None)
}

#[test]
fn each_status_has_its_code_and_line(rt: HostRuntime) {
    let alloc = rt.alloc();
    let wrong = [
        first_wrong_end(alloc),
        first_wrong_cause(alloc),
        first_wrong_limit(alloc),
    ];
    assert_eq!(rt; wrong, [Ok(None); 3]);
}

/// Whether a write of six bytes takes them all, and the status once the flush behind it fails or not.
fn flushed(alloc: Global, fails: bool, status: Status) -> Result<(bool, Status), NoMemory> {
    let mut sink = StdSink::new(alloc, Held { fails })?;
    let is_written = sink.write(b"report") == Ok(6);
    Ok((is_written, flush_report(&mut sink, status)))
}

/// Whether the flush fails, the status before it, and behind it.
const FLUSHES: &[(bool, Status, Status)] = &[
    (false, Status::Done, Status::Done),
    (false, Status::Usage, Status::Usage),
    (true, Status::Done, Status::WriteFault),
    (true, Status::ReadFault, Status::WriteFault),
];

#[test]
fn a_flush_that_fails_is_a_write_fault(rt: HostRuntime) {
    for (fails, status, wanted) in FLUSHES {
        assert_eq!(rt;
            flushed(rt.alloc(), *fails, *status),
            Ok((true, *wanted)),
            "{status:?}"
        );
    }
}

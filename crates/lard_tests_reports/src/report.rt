//! Each kind of record and each way to be none, with lines that were worked out apart.

use crate::compare::{long, same, same_bytes, shows};
use lard_journal::{Rec, line};
use lard_report::{Heading, laws, read_file, read_heading, read_record};
use lard_schedule::LineFault;
use std::alloc::Global;
use std::process::Abort;
use std::test::Fail;

/// Ends the test where a row's line is read as another record than the one behind the equals sign, or as none.
fn are_read(rt: &impl Abort, alloc: Global, rows: &str) -> Result<(), Fail> {
    for row in rows.lines() {
        let (line, want) = row.split_once(" = ").ok_or("a line and its record")?;
        is_read(rt, alloc, line, want)?;
    }
    Ok(())
}

fn is_read(rt: &impl Abort, alloc: Global, line: &str, want: &str) -> Result<(), Fail> {
    let rec = read_record(alloc, line.as_bytes())?;
    shows(rt, alloc, &rec, want);
    Ok(())
}

const EVENTS: &str = "event 1 clock 20001 = Event { i: 1, event: Clock(20001) }
event 18446744073709551615 settle 4294967295 = Event { i: 18446744073709551615, event: Settle(4294967295) }
event 0 get 1 /a?b = Event { i: 0, event: Get { c: ConnId { number: 1 }, path: Path { items: [47, 97, 63, 98] } } }
inner open 16384 4294967295 0 65535 1460 = Inner(Open { c: ConnId { number: 16384 }, isn: 4294967295, iss: 0, wnd: 65535, mss: 1460 })
inner write 1 0aff = Inner(Write { c: ConnId { number: 1 }, bytes: Bytes { items: [10, 255] } })
inner timer n64 2 = Inner(Timer { place: Node(NodeId { number: 64 }), c: ConnId { number: 2 } })
inner disk 2 1 = Inner(Disk { n: 2, j: 1 })
event 2 drain 2 = Event { i: 2, event: Drain(2) }
inner drain 0 = Inner(Drain(0))
inner deliver 1 = Inner(Deliver(1))";

#[test]
fn records_of_events(rt: HostRuntime) -> Result<(), Fail> {
    are_read(&rt, rt.alloc(), EVENTS)
}

const CONNECTIONS: &str =
    "opened 1 1000 5000 65536 4294967295 = Opened { c: ConnId { number: 1 }, isn: 1000, iss: 5000, wnd: 65536, mss: 4294967295 }
wrote 16384 47ff00 = Wrote { c: ConnId { number: 16384 }, bytes: Bytes { items: [71, 255, 0] } }
got 4294967295 = Got(4294967295)
lost 0 = Lost(0)
eof 1 = Eof(ConnId { number: 1 })
took front 1 65535 = Took { place: Front, c: ConnId { number: 1 }, epoch: Epoch(65535) }
gave n2 1 0 = Gave { place: Node(NodeId { number: 2 }), c: ConnId { number: 1 }, epoch: Epoch(0) }
waits 2 = Waits(ConnId { number: 2 })
admitted 3 = Admitted(ConnId { number: 3 })
released 4 = Released(ConnId { number: 4 })
batchover 5 = BatchOver(ConnId { number: 5 })
armed c1 1 tcp = Armed { place: Client(ConnId { number: 1 }), c: ConnId { number: 1 }, kind: Tcp }
armed n1 2 offer = Armed { place: Node(NodeId { number: 1 }), c: ConnId { number: 2 }, kind: Offer }
cleared n1 2 ask = Cleared { place: Node(NodeId { number: 1 }), c: ConnId { number: 2 }, kind: Ask }
cleared c2 1 fetch = Cleared { place: Client(ConnId { number: 2 }), c: ConnId { number: 1 }, kind: Fetch }
cleared front 1 ended = Cleared { place: Front, c: ConnId { number: 1 }, kind: Ended }
reset n1 1 1073741825 = Reset { place: Node(NodeId { number: 1 }), c: ConnId { number: 1 }, count: 1073741825 }
aborted 6 = Aborted(ConnId { number: 6 })
injected 7 = Injected(ConnId { number: 7 })
clock 18446744073709551615 = Clock(Millis(18446744073709551615))
settled 4294967295 = Settled(4294967295)
unsettled 10 18446744073709551615 = Unsettled { rounds: 10, left: 18446744073709551615 }";

#[test]
fn records_of_connections(rt: HostRuntime) -> Result<(), Fail> {
    are_read(&rt, rt.alloc(), CONNECTIONS)
}

const REQUESTS: &str =
    "assigned 1 1 first /a 2 2 - = AssignedFirst { c: ConnId { number: 1 }, r: 1, path: Path { items: [47, 97] }, \
    n: NodeId { number: 2 }, add: Some(NodeId { number: 2 }), remove: None }
assigned 1 1 first / 64 - 1 = AssignedFirst { c: ConnId { number: 1 }, r: 1, path: Path { items: [47] }, \
    n: NodeId { number: 64 }, add: None, remove: Some(NodeId { number: 1 }) }
assigned 1 2 later /b 1 1 8 0 = AssignedLater { c: ConnId { number: 1 }, r: 2, path: Path { items: [47, 98] }, \
    n: NodeId { number: 1 }, add: Some(NodeId { number: 1 }), size: 8, queue: 0 }
served front 1 3 400 66 own = Served { place: Front, c: ConnId { number: 1 }, r: 3, code: 400, length: 66, via: Own }
served n1 1 2 65535 43 cache = Served { place: Node(NodeId { number: 1 }), c: ConnId { number: 1 }, r: 2, code: 65535, length: 43, via: Cache }
served n1 1 2 200 43 disk = Served { place: Node(NodeId { number: 1 }), c: ConnId { number: 1 }, r: 2, code: 200, length: 43, via: Disk }
served n1 1 1 200 43 node64 = Served { place: Node(NodeId { number: 1 }), c: ConnId { number: 1 }, r: 1, code: 200, \
    length: 43, via: Node(NodeId { number: 64 }) }
hit n2 /b = Hit { n: NodeId { number: 2 }, path: Path { items: [47, 98] } }
queued n2 n1 3 2 /b = Queued { n: NodeId { number: 2 }, m: NodeId { number: 1 }, c: ConnId { number: 3 }, r: 2, path: Path { items: [47, 98] } }
read n2 n1 3 2 /b = Read { n: NodeId { number: 2 }, m: NodeId { number: 1 }, c: ConnId { number: 3 }, r: 2, path: Path { items: [47, 98] } }
closed n2 = Closed(NodeId { number: 2 })";

#[test]
fn records_of_requests(rt: HostRuntime) -> Result<(), Fail> {
    are_read(&rt, rt.alloc(), REQUESTS)
}

#[test]
fn records_with_bytes_of_several_owners(rt: HostRuntime) -> Result<(), Fail> {
    is_packet(&rt, rt.alloc())?;
    is_accepted(&rt, rt.alloc())
}

fn is_packet(rt: &impl Abort, alloc: Global) -> Result<(), Fail> {
    let Rec::Sent { k, from, to, bytes } = read_record(alloc, b"sent 9 front n2 010a00ff")? else {
        return Err("no packet".into());
    };
    let want = "(9, Front, Node(NodeId { number: 2 }), [1, 10, 0, 255])";
    shows(rt, alloc, &(k, from, to, bytes.as_slice()), want);
    Ok(())
}

fn is_accepted(rt: &impl Abort, alloc: Global) -> Result<(), Fail> {
    let Rec::Accepted { c, bytes } = read_record(alloc, b"accepted 1 4854")? else {
        return Err("nothing accepted".into());
    };
    same(rt, &c.number(), &1);
    same_bytes(rt, bytes.as_slice(), b"HT");
    Ok(())
}

/// Lines that are no record, each of them up to a bar.
const NO_RECORDS: &str = "|
 |
got|
got |
got 1 |
 got 1|
got  1|
got 01|
got +1|
got -1|
got 1\n|
got 1\0|
got 4294967296|
Got 1|
gotten 1|
eof 0|
eof 16385|
eof 1 1|
wrote 1|
wrote 1 |
wrote 1 0|
wrote 1 FF|
wrote 1 fF|
wrote 1 0g|
sent 1 front n2|
sent 1 front n2 -|
sent 1 front c0 00|
sent 1 front c01 00|
sent 1 back n2 00|
event 1|
event 1 |
event 01 shut 1|
event 18446744073709551616 shut 1|
event 1 write 1 FF|
event 1 write 1 |
event 1 settle 0|
event 1 timer c1 2|
event shut 1|
event 1 drain n2|
event 1 drain 4294967296|
event 1 go|
inner|
inner 1 shut 1|
inner inject 1 0A|
opened 1 1 1 1|
opened 1 4294967296 1 1 1|
took 1 1 1|
took front 1 65536|
assigned 1 1 first /a 2 2|
assigned 1 1 first /a 2 2 - -|
assigned 1 1 first a 2 2 -|
assigned 1 1 first /a 0 - -|
assigned 1 1 first /a 65 - -|
assigned 1 1 first /a 1 -- -|
assigned 1 1 first /a n1 - -|
assigned 1 1 third /a 1 - 1 1|
assigned 1 1 later /a 1 - 1|
served front 1 1 65536 1 own|
served front 1 1 200 1 Own|
served front 1 1 200 1 nope7|
served front 1 1 200 1 node0|
served front 1 1 200 1 node65|
served front 1 1 200 1 node|
hit 2 /b|
hit front /b|
hit c1 /b|
hit n65 /b|
hit n2 b|
hit n2 /\x7f|
queued n2 n1 1 /b|
closed 2|
closed n0|
closed front|
closed n2 /b|
armed front 1 tcp2|
armed front 1|
reset front 1 4294967296|
clock 18446744073709551616|
unsettled 4294967296 0|
settled 1 0|
file /a 5|
report 1|
close n1";

#[test]
fn no_record_is_read(rt: HostRuntime) {
    for line in NO_RECORDS.split("|\n") {
        let answer = read_record(rt.alloc(), line.as_bytes());
        assert!(rt; matches!(&answer, Err(LineFault::Syntax)), "{line}");
    }
}

#[test]
fn paths_have_a_length(rt: HostRuntime) -> Result<(), Fail> {
    for (text, times, is_read) in [
        ("hit n1 /", 1_023, true),
        ("hit n1 /", 1_024, false),
        ("event 1 get 1 /", 1_023, true),
        ("event 1 get 1 /", 1_024, false),
    ] {
        let line = long(rt.alloc(), text, b'a', times)?;
        let was_read = read_record(rt.alloc(), &line).is_ok();
        assert!(rt; was_read == is_read, "{text} {times}");
    }
    Ok(())
}

const HEADING: &str =
    "report 1 nodes 2 low 25 high 65 age 20000 idle 0 over 130 miss 50 cache 1048576 stream 18446744073709551615";

/// Lines that are no heading, each of them up to a bar.
const NO_HEADINGS: &str = "|
report 1|
report 2 nodes 2 low 25 high 65 age 20000 idle 0 over 130 miss 50 cache 1048576 stream 1|
report 1 low 25 nodes 2 high 65 age 20000 idle 0 over 130 miss 50 cache 1048576 stream 1|
report 1 nodes 02 low 25 high 65 age 20000 idle 0 over 130 miss 50 cache 1048576 stream 1|
report 1 nodes 2 low 25 high 65 age 20000 idle 0 over 130 miss 50 cache 1048576 stream 18446744073709551616|
report 1 nodes 2 low 25 high 65 age 20000 idle 0 over 130 miss 50 cache 1048576 stream 1 |
report 1 nodes 2 low 25 high 65 age 20000 idle 0 over 130 miss 50 cache 1048576";

#[test]
fn headings(rt: HostRuntime) {
    let heading = Heading {
        nodes: 2,
        low: 25,
        high: 65,
        age: 20_000,
        idle: 0,
        over: 130,
        miss: 50,
        cache: 1_048_576,
        stream: u64::MAX,
    };
    same(&rt, &read_heading(HEADING.as_bytes()), &Some(heading));
    for line in NO_HEADINGS.split("|\n") {
        assert!(rt; read_heading(line.as_bytes()).is_none(), "{line}");
    }
}

/// Lines that are no file, each of them up to a bar.
const NO_FILES: &str = "file /a|
file /a -|
file /a 18446744073709551616|
file /a?b 1|
file a 1|
file /a 1 1|
fill /a 1 00|
got 1|
";

#[test]
fn files(rt: HostRuntime) {
    let read = read_file(rt.alloc(), b"file /a 18446744073709551615");
    let want = "Ok((Path { items: [47, 97] }, 18446744073709551615))";
    shows(&rt, rt.alloc(), &read, want);
    for line in NO_FILES.split("|\n") {
        let answer = read_file(rt.alloc(), line.as_bytes());
        assert!(rt; matches!(&answer, Err(LineFault::Syntax)), "{line}");
    }
}

/// The report of a first request, whose file there is not.
const FIRST_REQUEST: &str = "event 1 open 1 1000 5000 65535 1460
opened 1 1000 5000 65535 1460
sent 1 c1 front 9c400050000003e8000000006002ffffe3ab0000020405b4
armed c1 1 tcp
event 2 get 1 /x
wrote 1 474554202f7820485454502f312e310d0a486f73743a206c6172640d0a0d0a
event 3 deliver 1
got 1
took front 1 1
sent 2 front c1 00509c4000001388000003e96012400090120000020405b4
armed front 1 tcp
event 4 deliver 2
got 2
sent 3 c1 front 9c400050000003e9000013895018ffff0dd50000474554202f7820485454502f312e310d0a486f73743a206c6172640d0a0d0a
event 5 deliver 3
got 3
served front 1 1 404 45 own
sent 4 front c1 00509c4000001389000004085018400089300000485454502f312e3120343034204e6f7420466f756e640d0a436f6e74656e742d4c656e6774683a20300d0a0d0a
event 6 deliver 4
got 4
accepted 1 485454502f312e3120343034204e6f7420466f756e640d0a436f6e74656e742d4c656e6774683a20300d0a0d0a
sent 5 c1 front 9c40005000000408000013b65010ffffe7830000
cleared c1 1 tcp
event 7 deliver 5
got 5
cleared front 1 tcp
";

#[test]
fn the_records_of_a_report(rt: HostRuntime) -> Result<(), Fail> {
    let report = told_again(rt.alloc(), FIRST_REQUEST)?;
    same_bytes(&rt, report.as_slice(), FIRST_REQUEST.as_bytes());
    laws::records_are_read();
    laws::prefaces_are_read();
    Ok(())
}

/// The lines of the records that are read of these lines.
fn told_again(alloc: Global, report: &str) -> Result<Vec<u8>, Fail> {
    let mut told = Vec::new(alloc);
    for text in report.lines() {
        let rec = read_record(alloc, text.as_bytes())?;
        told.extend_from_slice(line(alloc, &rec)?.as_slice())?;
    }
    Ok(told)
}

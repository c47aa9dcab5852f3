//! Each form of line once, and each way to be none once.

use crate::compare::{long, same, same_bytes, shows};
use lard_schedule::{Item, Keys, LineFault, Reader, Stage, first_word, read_event};
use std::alloc::Global;
use std::process::Abort;
use std::test::Fail;

/// Lines of a schedule in their order, and what each is read as.
const FORMS: &str = "lard 1 = Header
stream 18446744073709551615 = Set(Stream, 18446744073709551615)
nodes 3 = Set(Nodes, 3)
low 0 = Set(Low, 0)
high 65 = Set(High, 65)
age 20000 = Set(Age, 20000)
idle 25 = Set(Idle, 25)
over 130 = Set(Over, 130)
miss 50 = Set(Miss, 50)
cache 10 = Set(Cache, 10)
file /a 00fFA9 = File { path: Path { items: [47, 97] }, bytes: Bytes { items: [0, 255, 169] } }
file / - = File { path: Path { items: [47] }, bytes: Bytes { items: [] } }
fill /b 3 Aa = File { path: Path { items: [47, 98] }, bytes: Bytes { items: [170, 170, 170] } }
fill /c 0 00 = File { path: Path { items: [47, 99] }, bytes: Bytes { items: [] } }
go = Go
open 16384 4294967295 0 65535 1460 = Event(Open { c: ConnId { number: 16384 }, isn: 4294967295, iss: 0, wnd: 65535, mss: 1460 })
get 1 /a?b = Event(Get { c: ConnId { number: 1 }, path: Path { items: [47, 97, 63, 98] } })
write 1 0aFf = Event(Write { c: ConnId { number: 1 }, bytes: Bytes { items: [10, 255] } })
shut 2 = Event(Shut(ConnId { number: 2 }))
abort 3 = Event(Abort(ConnId { number: 3 }))
hold 4 = Event(Hold(ConnId { number: 4 }))
take 5 = Event(Take(ConnId { number: 5 }))
deliver 0 = Event(Deliver(0))
lose 4294967295 = Event(Lose(4294967295))
timer front 1 = Event(Timer { place: Front, c: ConnId { number: 1 } })
timer n64 1 = Event(Timer { place: Node(NodeId { number: 64 }), c: ConnId { number: 1 } })
timer c7 7 = Event(Timer { place: Client(ConnId { number: 7 }), c: ConnId { number: 7 } })
disk 0 9 = Event(Disk { n: 0, j: 9 })
drain 2 = Event(Drain(2))
drain 0 = Event(Drain(0))
clock 1000 = Event(Clock(1000))
settle 4294967295 = Event(Settle(4294967295))
inject 1 45 = Event(Inject { c: ConnId { number: 1 }, bytes: Bytes { items: [69] } })";

#[test]
fn each_form_is_read(rt: HostRuntime) -> Result<(), Fail> {
    let mut reader = Reader::new();
    for row in FORMS.lines() {
        let (line, want) = row.split_once(" = ").ok_or("a line and its item")?;
        is_read(&rt, rt.alloc(), &mut reader, line, want)?;
    }
    assert!(rt; reader.is_running());
    Ok(())
}

fn is_read(
    rt: &impl Abort,
    alloc: Global,
    reader: &mut Reader,
    line: &str,
    want: &str,
) -> Result<(), Fail> {
    let item = reader.feed_line(alloc, line.as_bytes())?;
    shows(rt, alloc, &item, want);
    Ok(())
}

/// Lines that are wrong where a schedule begins, each of them up to a bar.
const AT_START: &str = "go|
lard 2|
lard 1 |
nodes 3";

/// Lines that are wrong among the settings, where one of them was `low`.
const IN_SETTINGS: &str = "lard 1|
shut 1|
nodes|
nodes 03|
nodes 3 3|
Nodes 3|
nodes 18446744073709551616|
low 1|
";

/// Lines that are wrong among the files.
const IN_FILES: &str = "nodes 3|
go |
file a 00|
file /a?b 00|
file /a 0|
file /a 0g|
file /a |
file /a - -|
fill /a 67108865 00|
fill /a 1 000|
fill /a 1 0000";

/// Lines that are wrong behind `go`.
const RUNNING: &str = "go|
file /a -|
shut 0|
shut 16385|
shut +1|
shut 1 |
 shut 1|
shut  1|
open 1 4294967296 1 1 1|
open 1 1 1 0 1|
open 1 1 1 1 1461|
get 1 a|
write 1 |
timer n65 1|
timer c1 2|
timer x1 1|
drain|
drain n2|
drain 1 1|
settle 0|
inject 1 ";

#[test]
fn no_line_is_read_elsewhere(rt: HostRuntime) {
    for (stage, lines) in [
        (Stage::Start, AT_START),
        (Stage::Settings, IN_SETTINGS),
        (Stage::Files, IN_FILES),
        (Stage::Running, RUNNING),
    ] {
        are_refused(&rt, rt.alloc(), stage, lines);
    }
}

/// A reader refuses each of these lines, and is then as before.
fn are_refused(rt: &impl Abort, alloc: Global, stage: Stage, lines: &str) {
    let mut keys = Keys::none();
    keys.low = true;
    for line in lines.split("|\n") {
        let mut reader = Reader { stage, keys };
        let answer = reader.feed_line(alloc, line.as_bytes());
        assert!(rt; matches!(&answer, Err(LineFault::Syntax)), "{line}");
        same(rt, &reader, &Reader { stage, keys });
    }
}

#[test]
fn paths_and_packets_have_a_length(rt: HostRuntime) -> Result<(), Fail> {
    for (text, letter, times, is_read) in [
        ("get 1 /", b'a', 1_023, true),
        ("get 1 /", b'a', 1_024, false),
        ("inject 1 ", b'0', 3_040, true),
        ("inject 1 ", b'0', 3_042, false),
    ] {
        let line = long(rt.alloc(), text, letter, times)?;
        let was_read = is_event(rt.alloc(), &line);
        assert!(rt; was_read == is_read, "{text} {times}");
    }
    Ok(())
}

/// Whether a line is an event behind `go`.
fn is_event(alloc: Global, line: &[u8]) -> bool {
    let mut reader = Reader {
        stage: Stage::Running,
        keys: Keys::none(),
    };
    matches!(reader.feed_line(alloc, line), Ok(Item::Event(_)))
}

#[test]
fn the_first_word_ends_at_a_space(rt: HostRuntime) {
    for (line, word) in [("disk 1 2", "disk"), ("go", "go"), (" go", ""), ("", "")] {
        same_bytes(&rt, first_word(line.as_bytes()), word.as_bytes());
    }
}

#[test]
fn an_event_is_read_by_itself(rt: HostRuntime) {
    let event = read_event(rt.alloc(), b"write 1 0aFf");
    let want = "Ok(Write { c: ConnId { number: 1 }, bytes: Bytes { items: [10, 255] } })";
    shows(&rt, rt.alloc(), &event, want);
    for line in ["", "lard 1", "go", "shut 1 ", "write 1 0aF"] {
        let answer = read_event(rt.alloc(), line.as_bytes());
        assert!(rt; matches!(&answer, Err(LineFault::Syntax)), "{line}");
    }
}

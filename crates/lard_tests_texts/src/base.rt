//! Each call once, with ample memory, beside what the rules give.

use crate::compare::{same, same_bytes, shows};
use lard_base::{
    Bytes, Calls, Config, ConfigFault, ConnId, EndpointParts, Failed, InputFault, Key, MemSink,
    MemSource, Members, NoMemory, NodeId, Nodes, Path, Sink, Source, StdSink, StdSource, SureSink,
    SureSource, read_up_to, write_all,
};
use std::alloc::Global;
use std::io;
use std::io::{Error, ErrorKind, Read, Write};
use std::process::Abort;
use std::test::Fail;

/// A reader whose second call fails.
#[derive(Drop)]
struct SecondFails {
    calls: u8,
}

impl Read for SecondFails {
    fn read(&mut self, buf: &mut [u8]) -> io::Result<usize> {
        self.calls = self.calls.saturating_add(1);
        if self.calls == 2 {
            return Err(Error::from(ErrorKind::Other));
        }
        buf.fill(b'r');
        Ok(buf.len())
    }
}

/// A writer that takes so many bytes, and then none.
#[derive(Drop)]
struct Takes {
    room: usize,
}

impl Write for Takes {
    fn write(&mut self, buf: &[u8]) -> io::Result<usize> {
        let n = self.room.min(buf.len());
        self.room -= n;
        Ok(n)
    }

    fn flush(&mut self) -> io::Result<()> {
        Ok(())
    }
}

fn calls(alloc: Global, numbers: &[u64]) -> Result<Calls, NoMemory> {
    let mut list = Calls::new(alloc);
    for n in numbers {
        list.push(*n)?;
    }
    Ok(list)
}

#[test]
fn numbers_have_ranges(rt: HostRuntime) {
    for (n, conn, node) in [
        (0, false, false),
        (1, true, true),
        (64, true, true),
        (65, true, false),
        (16_384, true, false),
        (16_385, false, false),
    ] {
        is_in_range(&rt, n, conn, node);
    }
}

/// Whether this is the number of a connection, and of a node.
fn is_in_range(rt: &impl Abort, n: u32, conn: bool, node: bool) {
    let numbers = (
        ConnId::new(n).map(|c| c.number()),
        NodeId::new(n).map(|n| n.number()),
    );
    same(rt, &numbers, &(conn.then_some(n), node.then_some(n)));
}

#[test]
fn lists_are_joined(rt: HostRuntime) {
    shows(
        &rt,
        rt.alloc(),
        &joined(rt.alloc()),
        "Ok((Items { items: [1, 2, 3, 4] }, Items { items: [] }))",
    );
    shows(
        &rt,
        rt.alloc(),
        &taken_over(rt.alloc()),
        "Ok(Path { items: [47, 98] })",
    );
}

/// Two lists, and what the second leaves of itself in the first.
fn joined(alloc: Global) -> Result<(Calls, Calls), NoMemory> {
    let mut list = Calls::from_vec(Vec::from_slice(alloc, &[1, 2])?);
    let mut more = calls(alloc, &[3, 4])?;
    list.append(&mut more)?;
    Ok((list, more))
}

fn taken_over(alloc: Global) -> Result<Path, NoMemory> {
    Ok(Path::from_vec(Vec::from_slice(alloc, b"/b")?))
}

#[test]
fn lists_keep_their_order(rt: HostRuntime) -> Result<(), Fail> {
    bytes_keep_their_order(&rt, rt.alloc())?;
    calls_keep_their_order(&rt, rt.alloc())?;
    shows(
        &rt,
        rt.alloc(),
        &copied_path(rt.alloc()),
        "Ok((Path { items: [47, 97] }, 2))",
    );
    Ok(())
}

fn bytes_keep_their_order(rt: &impl Abort, alloc: Global) -> Result<(), Fail> {
    let bytes = Bytes::from_slice(alloc, b"abc")?.copy(alloc)?;
    same_bytes(rt, bytes.as_slice(), b"abc");
    same(rt, &bytes.len(), &3);
    Ok(())
}

/// A copy of a path, and how many bytes it has.
fn copied_path(alloc: Global) -> Result<(Path, usize), NoMemory> {
    let path = Path::from_slice(alloc, b"/a")?.copy(alloc)?;
    let bytes = Bytes::from_vec(path.as_slice().to_vec(alloc)?);
    Ok((path, bytes.len()))
}

fn calls_keep_their_order(rt: &impl Abort, alloc: Global) -> Result<(), Fail> {
    let list = calls(alloc, &[7, 9])?;
    shows(rt, alloc, &(list.len(), list.as_slice()), "(2, [7, 9])");
    shows(rt, alloc, &list.into_vec(), "[7, 9]");
    Ok(())
}

#[test]
fn configurations_are_checked_in_order(rt: HostRuntime) {
    let standard = Config::standard();
    same(&rt, &(standard.check(), standard.room()), &(Ok(()), 89));
    for (key, value, usable) in [
        (Key::Nodes, 1, Ok(())),
        (Key::Nodes, 64, Ok(())),
        (
            Key::Low,
            66,
            Err(ConfigFault::LowHigh { low: 66, high: 65 }),
        ),
        (
            Key::High,
            24,
            Err(ConfigFault::LowHigh { low: 25, high: 24 }),
        ),
        (Key::Age, 0xffff_ffff, Ok(())),
        (Key::Idle, 0, Ok(())),
        (Key::Over, 1_000_000, Ok(())),
        (Key::Miss, 1_000_000, Ok(())),
        (Key::Cache, 1, Ok(())),
        (Key::Stream, 1 << 30, Ok(())),
    ] {
        is_set(&rt, key, value, usable);
    }
    for (key, value) in [
        (Key::Nodes, 0),
        (Key::Nodes, 65),
        (Key::Low, 0),
        (Key::High, 1001),
        (Key::Age, 1 << 32),
        (Key::Idle, 1_000_001),
        (Key::Over, u64::MAX),
        (Key::Miss, 1_000_001),
        (Key::Cache, 0),
        (Key::Stream, (1 << 30) + 1),
    ] {
        is_out_of_range(&rt, key, value);
    }
}

/// A value that is set, and whether the configuration can be used with it.
fn is_set(rt: &impl Abort, key: Key, value: u64, usable: Result<(), ConfigFault>) {
    let mut config = Config::standard();
    let was_set = config.set(key, value);
    let told = (was_set, config.get(key), config.check());
    same(rt, &told, &(Ok(()), value, usable));
}

/// A value that is not set, so that all is as before.
fn is_out_of_range(rt: &impl Abort, key: Key, value: u64) {
    let mut config = Config::standard();
    let was_set = config.set(key, value);
    let fault = Err(ConfigFault::Range { key, value });
    same(rt, &(was_set, config), &(fault, Config::standard()));
}

#[test]
fn the_first_fault_is_answered(rt: HostRuntime) {
    let mut config = Config::standard();
    config.nodes = 1;
    config.low = 1;
    same(&rt, &config.check(), &Err(ConfigFault::NoRoom));
    config.high = 0;
    config.stream = 0;
    let range = ConfigFault::Range {
        key: Key::High,
        value: 0,
    };
    same(&rt, &config.check(), &Err(range));
}

#[test]
fn parts_are_tested(rt: HostRuntime) -> Result<(), Fail> {
    for (got, una, mss, served, valid) in [
        (3, 1, 1, 0, true),
        (4, (1 << 30) + 1, 1460, 1, true),
        (1 << 30, 1, 536, 0, true),
        (2, 1, 536, 0, false),
        ((1 << 30) + 1, 1, 536, 0, false),
        (3, 0, 536, 0, false),
        (3, (1 << 30) + 2, 536, 0, false),
        (3, 1, 0, 0, false),
        (3, 1, 1461, 0, false),
        (3, 1, 536, 1, false),
    ] {
        let unread = Bytes::from_slice(rt.alloc(), b"GET")?;
        are_valid(&rt, unread, got, una, mss, served, valid);
    }
    Ok(())
}

/// Whether an endpoint can have these parts.
fn are_valid(
    rt: &impl Abort,
    unread: Bytes,
    got: u32,
    una: u32,
    mss: u16,
    served: u32,
    valid: bool,
) {
    let parts = EndpointParts {
        irs: 5,
        iss: 6,
        got,
        fin: false,
        una,
        wnd: 7,
        wl1: 8,
        wl2: 9,
        mss,
        served,
        unread,
    };
    let told = (got, una, mss, served, parts.is_valid());
    same(rt, &told, &(got, una, mss, served, valid));
}

#[test]
fn members_come_and_go(rt: HostRuntime) -> Result<(), Fail> {
    let first = NodeId::new(1).ok_or("1 is a node")?;
    let last = NodeId::new(64).ok_or("64 is a node")?;
    let both = Members::none().with(last).with(first).with(last);
    has_members(&rt, both, (first, true), (last, true));
    let one = both.without(last).without(last);
    has_members(&rt, one, (first, true), (last, false));
    same(&rt, &one, &Members::none().with(first));
    Ok(())
}

/// Which of two nodes are members, and that no others are.
fn has_members(rt: &impl Abort, all: Members, first: (NodeId, bool), last: (NodeId, bool)) {
    let told = (all.count(), all.has(first.0), all.has(last.0));
    let count = u32::from(first.1) + u32::from(last.1);
    same(rt, &told, &(count, first.1, last.1));
}

#[test]
fn a_source_over_memory_gives_its_bytes(rt: HostRuntime) -> Result<(), Fail> {
    let mut source = failing_at_the_second(rt.alloc())?;
    let mut buf = [b'-'; 3];
    for (answer, after) in [
        (Ok(3), b"abc"),
        (Err(Failed), b"abc"),
        (Ok(2), b"dec"),
        (Ok(0), b"dec"),
    ] {
        gives(&rt, &mut source, &mut buf, answer, after);
    }
    sure_source_gives(&rt, rt.alloc())
}

/// A source of five bytes, whose second call fails.
fn failing_at_the_second(alloc: Global) -> Result<MemSource, NoMemory> {
    let bytes = Bytes::from_slice(alloc, b"abcde")?;
    Ok(MemSource::new(bytes, calls(alloc, &[2])?))
}

/// A source that never fails gives its byte, and then none.
fn sure_source_gives(rt: &impl Abort, alloc: Global) -> Result<(), Fail> {
    let mut buf = [b'-'; 3];
    let mut sure = SureSource::new(Bytes::from_slice(alloc, b"x")?);
    same(rt, &sure.read(&mut buf), &Ok(1));
    same(rt, &sure.read(&mut buf), &Ok(0));
    Ok(())
}

/// A read, its answer, and what the buffer holds after it.
fn gives(
    rt: &impl Abort,
    source: &mut MemSource,
    buf: &mut [u8; 3],
    answer: Result<usize, Failed>,
    after: &[u8; 3],
) {
    same(rt, &source.read(buf), &answer);
    same_bytes(rt, buf, after);
}

#[test]
fn a_sink_over_memory_fills_up(rt: HostRuntime) -> Result<(), Fail> {
    let mut sink = MemSink::new(rt.alloc(), 5, calls(rt.alloc(), &[3])?)?;
    for (piece, answer, written) in [
        (b"abc".as_slice(), Ok(3), b"abc".as_slice()),
        (b"", Ok(0), b"abc"),
        (b"d", Err(Failed), b"abc"),
        (b"def", Ok(2), b"abcde"),
        (b"f", Err(Failed), b"abcde"),
        (b"", Ok(0), b"abcde"),
    ] {
        fills(&rt, &mut sink, piece, answer, written);
    }
    same(&rt, &SureSink::new().write(b"abc"), &Ok(3));
    Ok(())
}

/// A write, its answer, and all that the sink has after it.
fn fills(
    rt: &impl Abort,
    sink: &mut MemSink,
    piece: &[u8],
    answer: Result<usize, Failed>,
    written: &[u8],
) {
    same(rt, &sink.write(piece), &answer);
    same_bytes(rt, sink.bytes(), written);
}

#[test]
fn whole_texts_are_written_and_read(rt: HostRuntime) -> Result<(), Fail> {
    are_written(&rt, MemSink::new(rt.alloc(), 4, calls(rt.alloc(), &[])?)?);
    for (limit, failing, answer, want) in [
        (5, 0, Ok(()), b">abc".as_slice()),
        (2, 0, Ok(()), b">ab"),
        (9, 1, Err(InputFault::Failed), b">"),
        (9, 2, Err(InputFault::Failed), b">abc"),
    ] {
        are_read(&rt, rt.alloc(), limit, failing, answer, want)?;
    }
    Ok(())
}

/// Two texts for a sink with room for four bytes.
fn are_written(rt: &impl Abort, mut sink: MemSink) {
    same(rt, &write_all(&mut sink, b"abc"), &Ok(()));
    same(rt, &write_all(&mut sink, b"def"), &Err(Failed));
    same_bytes(rt, sink.bytes(), b"abcd");
}

/// What is read of three bytes up to a limit, where one call fails.
fn are_read(
    rt: &impl Abort,
    alloc: Global,
    limit: u32,
    failing: u64,
    answer: Result<(), InputFault>,
    want: &[u8],
) -> Result<(), Fail> {
    let mut source = three_bytes(alloc, failing)?;
    let mut text = [b'>'].to_vec(alloc)?;
    let given = read_up_to(&mut source, &mut text, limit as usize);
    same(rt, &(limit, given), &(limit, answer));
    same_bytes(rt, text.as_slice(), want);
    Ok(())
}

/// A source of three bytes, of which one call fails.
fn three_bytes(alloc: Global, failing: u64) -> Result<MemSource, NoMemory> {
    let bytes = Bytes::from_slice(alloc, b"abc")?;
    Ok(MemSource::new(bytes, calls(alloc, &[failing])?))
}

#[test]
fn readers_and_writers_fail_as_they_do(rt: HostRuntime) -> Result<(), Fail> {
    reader_fails(&rt);
    writer_fails(&rt, StdSink::new(rt.alloc(), Takes { room: 3 })?);
    let mut full = StdSink::new(rt.alloc(), Takes { room: 0 })?;
    same(&rt, &full.write(&[b'e'; 65_536]), &Err(Failed));
    Ok(())
}

/// A reader whose second call fails.
fn reader_fails(rt: &impl Abort) {
    let mut source = StdSource::new(SecondFails { calls: 0 });
    let mut buf = [b'-'; 2];
    for answer in [Ok(2), Err(Failed), Ok(2)] {
        same(rt, &source.read(&mut buf), &answer);
    }
    same_bytes(rt, &buf, b"rr");
}

/// A writer that takes three bytes.
fn writer_fails(rt: &impl Abort, mut sink: StdSink<Takes>) {
    for (piece, flushed) in [(b"ab", Ok(())), (b"cd", Err(Failed))] {
        let written = sink.write(piece);
        same(rt, &(written, sink.flush()), &(Ok(2), flushed));
    }
}

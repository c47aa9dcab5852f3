//! Rows over a source and a sink that fail, each of their calls in turn: how the run ends, and exactly what was written.

use crate::later::{CONTENT_IS_LOST, EIGHT_REQUESTS};
use crate::moves::ONE_CONNECTION_MOVES;
use crate::rows::Row;
use crate::tests::{broken, replayed, words_of};
use lard_app::{Status, run};
use lard_base::{Bytes, Calls, MemSink, MemSource, NoMemory};
use std::alloc::Global;
use std::process::Abort;
use std::test::Fail;

/// Rows that end well. Their reports are what a run writes in which nothing fails.
const WELL: [Row; 3] = [ONE_CONNECTION_MOVES, EIGHT_REQUESTS, CONTENT_IS_LOST];

/// How many lines end in these bytes.
fn lines_in(bytes: &[u8]) -> usize {
    bytes.iter().filter(|byte| **byte == b'\n').count()
}

/// How many lines an input has up to `go`. Each line behind it is an event.
fn opening_of(input: &[u8]) -> usize {
    let mut lines = input.split(|byte| *byte == b'\n');
    match lines.position(|line| line == b"go".as_slice()) {
        Some(at) => at.saturating_add(1),
        None => 0,
    }
}

/// How long the front of a report is that tells so many events.
fn front_len(report: &[u8], events: usize) -> usize {
    let mut told = 0_usize;
    let mut len = 0_usize;
    for line in report.split(|byte| *byte == b'\n') {
        if line.starts_with(b"event ") {
            told = told.saturating_add(1);
        }
        if told > events {
            break;
        }
        len = len.saturating_add(line.len()).saturating_add(1);
    }
    len
}

/// What is written where so many events were told, or, where there is no number, before the heading was.
fn front_of(report: &[u8], events: Option<usize>) -> &[u8] {
    let len = match events {
        Some(events) => front_len(report, events),
        None => 0,
    };
    &report[..len.min(report.len())]
}

/// Runs `replay` over an input, with a sink that is full behind so many bytes.
fn cramped(alloc: Global, input: &[u8], room: usize) -> Result<(Status, Bytes), NoMemory> {
    let words = words_of(alloc, "replay")?;
    let mut source = MemSource::new(Bytes::from_slice(alloc, input)?, Calls::new(alloc));
    let mut sink = MemSink::new(alloc, room, Calls::new(alloc))?;
    let status = run(alloc, words.as_slice(), &mut source, &mut sink);
    Ok((status, Bytes::from_slice(alloc, sink.bytes())?))
}

/// The sink gets the heading in one call, and the records of each event in one. Each of them fails in turn: what came
/// before it was written.
fn check_calls(rt: &(impl Abort + AllocGlobal), row: &Row) -> Result<(), NoMemory> {
    let alloc = rt.alloc();
    let (input, report) = (row.input.as_bytes(), row.report.as_bytes());
    let events = lines_in(input).saturating_sub(opening_of(input));
    for event in 0..=events {
        let mut failing = Calls::new(alloc);
        failing.push((event as u64).saturating_add(1))?;
        let (status, written) = replayed(alloc, input, failing)?;
        let front = front_of(report, event.checked_sub(1));
        assert_eq!(rt; status, Status::WriteFault, "at {event} of {input:?}");
        assert_eq!(rt; written.as_slice(), front, "at {event} of {input:?}");
    }
    let mut behind = Calls::new(alloc);
    behind.push((events as u64).saturating_add(2))?;
    let (status, written) = replayed(alloc, input, behind)?;
    assert_eq!(rt; status, Status::Done);
    assert_eq!(rt; written.as_slice(), report);
    Ok(())
}

/// The sink is full behind each byte in turn: those before it were written.
fn check_rooms(rt: &(impl Abort + AllocGlobal), row: &Row) -> Result<(), NoMemory> {
    let (input, report) = (row.input.as_bytes(), row.report.as_bytes());
    for room in 0..report.len() {
        let (status, written) = cramped(rt.alloc(), input, room)?;
        assert_eq!(rt; status, Status::WriteFault, "at {room} of {input:?}");
        assert_eq!(rt;
            written.as_slice(),
            &report[..room],
            "at {room} of {input:?}"
        );
    }
    Ok(())
}

/// The source gives a byte in each read, and each read fails in turn, the one that would tell its end too: what the lines
/// before it lead to was written.
fn check_reads(rt: &(impl Abort + AllocGlobal), row: &Row) -> Result<(), NoMemory> {
    let (input, report) = (row.input.as_bytes(), row.report.as_bytes());
    let opening = opening_of(input);
    for at in 0..=input.len() {
        let (status, written) = broken(rt.alloc(), input, at)?;
        let events = lines_in(&input[..at]).checked_sub(opening);
        let front = front_of(report, events);
        assert_eq!(rt; status, Status::ReadFault, "at {at} of {input:?}");
        assert_eq!(rt; written.as_slice(), front, "at {at} of {input:?}");
    }
    Ok(())
}

#[test]
fn a_sink_that_fails_in_each_of_its_calls(rt: HostRuntime) -> Result<(), Fail> {
    for row in &WELL {
        check_calls(&rt, row)?;
    }
    Ok(())
}

#[test]
fn a_sink_that_is_full_behind_each_byte(rt: HostRuntime) -> Result<(), Fail> {
    check_rooms(&rt, &ONE_CONNECTION_MOVES)?;
    Ok(())
}

#[test]
fn a_source_that_fails_in_each_of_its_reads(rt: HostRuntime) -> Result<(), Fail> {
    for row in &WELL {
        check_reads(&rt, row)?;
    }
    Ok(())
}

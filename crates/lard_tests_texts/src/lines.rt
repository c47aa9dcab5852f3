//! Lines of an input in memory, with the end and the fault of a source.

use lard_base::{Bytes, Calls, InputFault, MemSource};
use lard_lines::Lines;
use std::process::Abort;
use std::test::Fail;

#[test]
fn a_line_and_what_follows_it(rt: HostRuntime) -> Result<(), Fail> {
    let alloc = rt.alloc();
    let text = Bytes::from_slice(alloc, b"go\nlast")?;
    let mut failing = Calls::new(alloc);
    failing.push(3)?;
    let lines = Lines::new(alloc, 1 << 26)?;
    are_found(&rt, MemSource::new(text, failing), lines);
    Ok(())
}

/// A line, and then an end without one.
fn are_found(rt: &impl Abort, mut source: MemSource, mut lines: Lines) {
    assert_eq!(rt; lines.find_line(&mut source), Ok(Some(2)));
    assert_eq!(rt; &lines.rest()[..2], b"go".as_slice());
    lines.pass(2);
    assert_eq!(rt; lines.find_line(&mut source), Ok(None));
    assert_eq!(rt; lines.find_line(&mut source), Err(InputFault::Failed));
    assert_eq!(rt; lines.rest(), b"last".as_slice());
}

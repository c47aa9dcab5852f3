//! Each public call once, with ample memory.

use crate::compare::same_bytes;
use bytes::Bytes;
use lard_shared::{Pages, Shared};
use std::alloc::{AllocError, Global};
use std::process::Abort;
use std::test::Fail;

#[test]
fn parts_and_shares_have_the_bytes(rt: HostRuntime) -> Result<(), Fail> {
    let hello = Shared::from_slice(rt.alloc(), b"hello")?;
    for (at, len, want) in [(0, 5, "hello"), (1, 3, "ell"), (4, 1, "o"), (5, 0, "")] {
        has_part(&rt, &hello, at, len, want);
    }
    is_shared(&rt, &hello);
    is_kept(&rt, &Shared::from_bytes(Bytes::from_static(b"kept")));
    Ok(())
}

/// A part, and its bytes.
fn has_part(rt: &impl Abort, whole: &Shared, at: usize, len: usize, want: &str) {
    assert!(rt; at <= whole.len() && len <= whole.len() - at, "is within");
    let part = whole.part(at, len).ok().expect(rt, "memory");
    same_bytes(rt, part.as_slice(), want.as_bytes());
}

fn is_shared(rt: &impl Abort, hello: &Shared) {
    let share = hello.share().ok().expect(rt, "memory");
    same_bytes(rt, share.as_slice(), b"hello");
    assert!(rt; hello.len() == 5);
}

fn is_kept(rt: &impl Abort, kept: &Shared) {
    same_bytes(rt, kept.as_slice(), b"kept");
}

/// What is kept first fills its page but for two bytes, and what comes last is longer than a page.
#[test]
fn pages_keep_each_run_of_bytes_whole(rt: HostRuntime) -> Result<(), Fail> {
    let long = filled(rt.alloc(), b'x', (1 << 20) - 2)?;
    let longer = filled(rt.alloc(), b'y', (1 << 20) + 1)?;
    let runs = [long.as_slice(), b"three", longer.as_slice(), b""];
    are_kept(&rt, &all_kept(rt.alloc(), &runs)?, &runs);
    Ok(())
}

/// Looks at each run of bytes behind the last.
fn are_kept(rt: &impl Abort, all: &Vec<Shared>, runs: &[&[u8]]) {
    assert!(rt; all.len() == runs.len());
    for (kept, run) in all.iter().zip(runs) {
        assert!(rt; kept.as_slice() == *run);
    }
}

/// Keeps runs of bytes, one after another.
fn all_kept(alloc: Global, runs: &[&[u8]]) -> Result<Vec<Shared>, Fail> {
    let mut pages = Pages::new(alloc);
    let mut all = Vec::new(alloc);
    for run in runs {
        all.push(pages.keep(run)?)?;
    }
    Ok(all)
}

fn filled(alloc: Global, byte: u8, len: usize) -> Result<Vec<u8>, AllocError> {
    vec![in alloc; byte; len]
}

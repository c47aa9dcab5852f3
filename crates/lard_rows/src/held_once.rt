//! One file that many sending halves send over and over is held once.

use lard_base::limits::MAX_STREAM_BYTES;
use lard_files::Files;
use lard_send::SendHalf;
use lard_seq::Seq;
use std::alloc::Global;
use std::test::Fail;

const FILE_BYTES: usize = 1 << 20;

/// How often each half is given the file.
const PARTS: usize = 1_000;

const HALVES: usize = 64;

/// Files of which there is one, with so many bytes, of which these are the first.
fn one_file(alloc: Global, len: usize, begin: &[u8]) -> Result<Files, Fail> {
    let mut bytes = Vec::from_slice(alloc, begin)?;
    bytes.resize(len, b'x')?;
    let mut files = Files::new(alloc);
    match files.add(b"/a", &bytes) {
        Ok(()) => Ok(files),
        Err(_) => Err(Fail::new("the file is not added")),
    }
}

/// Gives a half all of the file once more, where it has room: as a part of a share of its own.
fn give(half: &mut SendHalf, files: &Files) -> Result<(), Fail> {
    let Some(share) = files.share(b"/a")? else {
        return Err(Fail::new("there is no file"));
    };
    let len = share.len();
    let room = (MAX_STREAM_BYTES - half.total()) as usize;
    if half.finished() || room < len {
        return Err(Fail::new("there is no room"));
    }
    half.queue_shared(share.part(0, len)?)?;
    Ok(())
}

/// A half that was given the whole file so often.
fn loaded(alloc: Global, files: &Files, times: usize) -> Result<SendHalf, Fail> {
    let mut half = SendHalf::make(alloc, Seq(1), Seq(7), 9, 3);
    for _ in 0..times {
        give(&mut half, files)?;
    }
    Ok(half)
}

/// The four bytes that a half has at a place, where it has them.
fn bytes_at(half: &SendHalf, at: u32) -> Result<[u8; 4], Fail> {
    let mut buf = [b'-'; 4];
    let total = half.total();
    if at < half.una().saturating_sub(1) || total < 4 || total - 4 < at {
        return Err(Fail::new("they are not there"));
    }
    half.fill(at, 4, &mut buf);
    Ok(buf)
}

/// All halves together were given 67,108,864,000 bytes, which are one file's.
#[test]
fn a_file_is_held_once(rt: HostRuntime) -> Result<(), Fail> {
    let alloc = rt.alloc();
    let files = one_file(alloc, FILE_BYTES, b"file")?;
    let mut halves = Vec::new(alloc);
    for _ in 0..HALVES {
        halves.push(loaded(alloc, &files, PARTS)?)?;
    }
    for half in &halves {
        assert_eq!(rt; half.total() as usize, PARTS * FILE_BYTES);
        assert_eq!(rt; &bytes_at(half, half.total() - FILE_BYTES as u32)?, b"file");
    }
    Ok(())
}

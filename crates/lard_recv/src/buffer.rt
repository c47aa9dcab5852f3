//! The room for the bytes that came and are not read yet, taken once.

ghost use Rattle.std.specs.Prelude.{◌≡◌, ◌+◌, ◌≤◌, [], ◌++◌, length, drop, IfOk, vec_capacity};

use lard_base::NoMemory;
use lard_base::limits::RECEIVE_WINDOW;
use std::alloc::Global;
use std::marker::Model;

/// The bytes that a buffer has room for.
const ROOM: usize = RECEIVE_WINDOW as usize;

/// Up to 16,384 bytes, seen as the list of them. What was never written of its memory costs none.
#[derive(Drop)]
pub struct Buffer {
    /// Bytes that were read, and behind them those of the list. The memory, for 16,384 bytes, is taken once.
    bytes: Vec<u8>,
    /// How many were read.
    start: usize,
}

impl Model for Buffer {
    ghost use Rattle.std.specs.Prelude.{ℕ, ◌≤◌, List, length, drop, vec_capacity};
    ghost use Rattle.lard_base.specs.declared.limits.TheConstants.{RECEIVE_WINDOW};

    ghost Value = { List ℕ };

    ghost view = { λ b. drop b.start b.bytes.items };

    ghost invariant = { λ b. (b.start ≤ length b.bytes.items) × (length b.bytes.items ≤ RECEIVE_WINDOW) × (RECEIVE_WINDOW ≤ vec_capacity b.bytes) };
}

impl Buffer {
    /// An empty buffer. It takes its memory at once. `NoMemory` where memory runs out.
    pub fn new(alloc: Global) -> Result<Buffer, NoMemory>
        ensures { IfOk result (λ buffer. buffer ≡ []) }
    {
        let bytes = Vec::with_capacity(alloc, ROOM)?;
        Ok(Buffer { bytes, start: 0 })
    }

    /// The bytes, lent.
    pub fn as_slice(&self) -> &[u8]
        ensures value { result.now ≡ self.now }
        ensures bound { length self.now ≤ RECEIVE_WINDOW }
    {
        &self.bytes.as_slice()[self.start..]
    }

    /// Adds bytes at the end, for which there is room: 16,384 in all.
    pub fn push(&mut self, more: &[u8])
        requires { length self.old + length more.now ≤ RECEIVE_WINDOW }
        ensures { self.new ≡ self.old ++ more.now }
    {
        if more.len() > ROOM - self.bytes.len() {
            cut_front(&mut self.bytes, self.start);
            self.start = 0;
        }
        self.bytes.extend_from_slice(more).unwrap();
    }

    /// Drops the first `n` bytes, which are there, without moving the others. Where none are left, the next ones stand
    /// at the front again.
    pub fn consume(&mut self, n: usize)
        requires { n ≤ length self.old }
        ensures { self.new ≡ drop n self.old }
    {
        self.start += n;
        if self.start == self.bytes.len() {
            self.clear();
        }
    }

    /// Drops all bytes.
    pub fn clear(&mut self)
        ensures { self.new ≡ [] }
    {
        self.bytes.clear();
        self.start = 0;
    }
}

/// Takes out the first `n` bytes. The others move to the front, in the memory that is there.
fn cut_front(bytes: &mut Vec<u8>, n: usize)
    requires { n ≤ length bytes.old.items }
    ensures rest { bytes.new.items ≡ drop n bytes.old.items }
    ensures room { vec_capacity bytes.new ≡ vec_capacity bytes.old }
{
    let len = bytes.len() - n;
    bytes.copy_within(n.., 0);
    bytes.truncate(len);
}

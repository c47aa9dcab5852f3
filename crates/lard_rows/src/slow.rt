//! A source and a sink that move one byte at a time, a source that fails on its way, and one that gives a line at a time and
//! looks, before the last, at how much a sink has taken.

ghost use Rattle.std.specs.Prelude.{None};

use lard_base::{Failed, Sink, Source};
use std::cell::Cell;

/// Gives its bytes one by one, and fails once where it has given as many as it is to give.
#[derive(Debug, Drop)]
pub struct Trickle<'a> {
    pub rest: &'a [u8],
    /// How many bytes it gives before it fails.
    pub before_fault: usize,
    pub faults: u64,
}

impl Source for Trickle<'_> {
    ghost left = { λ _. None };

    ghost faults = { λ s. s.faults };

    fn read(&mut self, buf: &mut [u8]) -> Result<usize, Failed> {
        if self.before_fault == 0 {
            self.faults = self.faults.saturating_add(1);
            return Err(Failed);
        }
        let Some((first, rest)) = self.rest.split_first() else {
            return Ok(0);
        };
        let Some(place) = buf.first_mut() else {
            return Ok(0);
        };
        *place = *first;
        self.rest = rest;
        self.before_fault -= 1;
        Ok(1)
    }
}

/// Takes one byte of each piece.
#[derive(Debug, Drop)]
pub struct Drip {
    pub bytes: Vec<u8>,
    pub faults: u64,
}

impl Sink for Drip {
    ghost written = { λ _. None };

    ghost faults = { λ s. s.faults };

    fn write(&mut self, bytes: &[u8]) -> Result<usize, Failed> {
        let Some(first) = bytes.first() else {
            return Ok(0);
        };
        if self.bytes.push(*first).is_err() {
            self.faults = self.faults.saturating_add(1);
            return Err(Failed);
        }
        Ok(1)
    }
}

/// Gives at most one line in each read: those of its opening, and then the same line so many times.
#[derive(Debug, Drop)]
pub struct Waiting<'a> {
    pub rest: &'a [u8],
    pub line: &'a [u8],
    pub times: u32,
    /// What a sink has taken so far, and what it had taken before the last line was given.
    pub taken: &'a Cell<usize>,
    pub before_last: usize,
}

impl Source for Waiting<'_> {
    ghost left = { λ _. None };

    ghost faults = { λ _. 0 };

    fn read(&mut self, buf: &mut [u8]) -> Result<usize, Failed> {
        if self.rest.is_empty() {
            let Some(times) = self.times.checked_sub(1) else {
                return Ok(0);
            };
            self.times = times;
            self.rest = self.line;
            self.before_last = self.taken.get();
        }
        let line = match self.rest.iter().position(|byte| *byte == b'\n') {
            Some(at) => at + 1,
            None => self.rest.len(),
        };
        let n = line.min(buf.len());
        buf[..n].copy_from_slice(&self.rest[..n]);
        self.rest = &self.rest[n..];
        Ok(n)
    }
}

/// Takes all bytes, and counts them where others see it.
#[derive(Debug, Drop)]
pub struct Counting<'a> {
    pub taken: &'a Cell<usize>,
}

impl Sink for Counting<'_> {
    ghost written = { λ _. None };

    ghost faults = { λ _. 0 };

    fn write(&mut self, bytes: &[u8]) -> Result<usize, Failed> {
        self.taken.set(self.taken.get().saturating_add(bytes.len()));
        Ok(bytes.len())
    }
}

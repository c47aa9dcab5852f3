//! A source and a sink over memory, whose calls fail where they are told to.

ghost use Rattle.std.specs.Prelude.{◌≡◌, ℕ, ◌≤◌, ◌<◌, length, Option, Some, nat_eq, IfOk};
ghost use Rattle.std.specs.Io.{ReadsAtMost, WritesAtMost};
ghost use Rattle.std.specs.Io.KnownBytes.{ReadConsumes, WriteAppends};
ghost use Rattle.std.specs.List.{list_any};
ghost use Rattle.std.specs.Result.{result_ok};
ghost use Rattle.lard_base.specs.Causes.{HasCause};
ghost use Rattle.lard_base.specs.Memory.{fresh_source, fresh_sink, read_count, read_into, after_read, write_count, after_write};

use crate::bytes::Bytes;
use crate::errors::{Failed, NoMemory};
use crate::items::Calls;
use crate::outside::{Sink, Source};
use crate::sure::SureSource;
use std::alloc::Global;
use std::marker::Model;

/// A source that gives bytes from memory, and fails in the calls that are named.
#[derive(Debug, Drop)]
pub struct MemSource {
    source: SureSource,
    failing: Calls,
    calls: u64,
    faults: u64,
}

impl Model for MemSource {
    ghost use Rattle.lard_base.specs.Memory.{SourceState};

    ghost Value = { SourceState };

    ghost view = { λ s. record { left = s.source; failing = s.failing; calls = s.calls; faults = s.faults } };
}

impl MemSource {
    /// A source of these bytes. The calls with the numbers in `failing`, counted from 1, fail.
    pub fn new(bytes: Bytes, failing: Calls) -> MemSource
        ensures { result ≡ fresh_source bytes failing }
    {
        MemSource {
            source: SureSource::new(bytes),
            failing,
            calls: 0,
            faults: 0,
        }
    }
}

impl Source for MemSource {
    ghost left = { λ s. Some s.left };

    ghost faults = { λ s. s.faults };

    fn read(&mut self, buf: &mut [u8]) -> Result<usize, Failed>
        ensures bound { ReadsAtMost result buf.new }
        ensures bytes { ReadConsumes (Some self.old.left) (Some self.new.left) result buf.new }
        ensures cause { HasCause self.old.faults self.new.faults result }
        ensures answer { result_ok result ≡ read_count self.old (length buf.old) }
        ensures buffer { buf.new ≡ read_into self.old buf.old (result_ok result) }
        ensures after { self.new ≡ after_read self.old (result_ok result) }
    {
        self.calls = self.calls.saturating_add(1);
        if is_among(self.failing.as_slice(), self.calls) {
            self.faults = self.faults.saturating_add(1);
            return Err(Failed);
        }
        self.source.read(buf)
    }
}

/// A sink that keeps what it takes in memory, and fails in the calls that are named and where it is full.
#[derive(Debug, Drop)]
pub struct MemSink {
    bytes: Vec<u8>,
    len: usize,
    failing: Calls,
    calls: u64,
    faults: u64,
}

impl Model for MemSink {
    ghost use Rattle.std.specs.Prelude.{take, length, ◌≤◌};
    ghost use Rattle.lard_base.specs.Memory.{SinkState};

    ghost Value = { SinkState };

    ghost view = { λ s. record {
      written = take s.len s.bytes.items;
      room = length s.bytes.items;
      failing = s.failing;
      calls = s.calls;
      faults = s.faults;
    } };

    ghost invariant = { λ s. s.len ≤ length s.bytes.items };
}

impl MemSink {
    /// An empty sink with room for so many bytes, which it takes at once. The calls with the numbers in `failing`,
    /// counted from 1, fail. `NoMemory` where memory runs out.
    pub fn new(alloc: Global, room: usize, failing: Calls) -> Result<MemSink, NoMemory>
        ensures { IfOk result (λ sink. sink ≡ fresh_sink room failing) }
    {
        let bytes = vec![in alloc; 0; room]?;
        Ok(MemSink {
            bytes,
            len: 0,
            failing,
            calls: 0,
            faults: 0,
        })
    }

    /// What was written.
    pub fn bytes(&self) -> &[u8]
        ensures { result.now ≡ self.now.written }
    {
        &self.bytes.as_slice()[..self.len]
    }
}

impl Sink for MemSink {
    ghost written = { λ s. Some s.written };

    ghost faults = { λ s. s.faults };

    fn write(&mut self, bytes: &[u8]) -> Result<usize, Failed>
        ensures bound { WritesAtMost result bytes.now }
        ensures some { IfOk result (λ n. 0 < length bytes.now → 0 < n) }
        ensures bytes { WriteAppends (Some self.old.written) (Some self.new.written) result bytes.now }
        ensures cause { HasCause self.old.faults self.new.faults result }
        ensures answer { result_ok result ≡ write_count self.old (length bytes.now) }
        ensures after { self.new ≡ after_write self.old bytes.now (result_ok result) }
    {
        self.calls = self.calls.saturating_add(1);
        let room = self.bytes.len() - self.len;
        if is_among(self.failing.as_slice(), self.calls) || (room == 0 && !bytes.is_empty()) {
            self.faults = self.faults.saturating_add(1);
            return Err(Failed);
        }
        let n = bytes.len().min(room);
        self.bytes[self.len..self.len + n].copy_from_slice(&bytes[..n]);
        self.len += n;
        Ok(n)
    }
}

/// Whether a call is one of those that are to fail.
fn is_among(failing: &[u64], call: u64) -> bool
    ensures { result ≡ list_any (λ k. nat_eq k call) failing.now }
{
    failing.iter().any(|k| *k == call)
}

//! The trusted edge: a source over any reader and a sink over any writer, as standard input and output are.

ghost use Rattle.std.specs.Prelude.{◌≡◌, ℕ, ◌≤◌, ◌<◌, List, [], length, Option, IfOk, OnOk};
ghost use Rattle.std.specs.Io.{ReadsAtMost, WritesAtMost};
ghost use Rattle.std.specs.Io.KnownBytes.{ReadConsumes, WriteAppends, Keeps};
ghost use Rattle.lard_base.specs.Outside.{contents_of};
ghost use Rattle.lard_base.specs.Causes.{HasCause, faults_counted};

use crate::errors::{Failed, NoMemory};
use crate::outside::{Sink, Source};
use std::alloc::Global;
use std::io::{BufWriter, Read, Write};
use std::marker::Model;

/// How many bytes a sink gathers before it passes them on.
const GATHERED: usize = 65_536;

/// A source over a reader. It tells of its bytes what the reader tells, which is nothing for standard input.
#[derive(Drop)]
pub struct StdSource<R> {
    reader: R,
    faults: u64,
}

impl<R> Model for StdSource<R> {
    ghost use Rattle.lard_base.specs.Outside.{ReaderState};

    ghost Value = { ReaderState R };

    ghost view = { λ s. record { reader = s.reader; faults = s.faults } };
}

impl<R: Read> StdSource<R> {
    /// A source that has not failed yet.
    pub fn new(reader: R) -> StdSource<R>
        ensures { result ≡ record { reader = reader; faults = 0 } }
    {
        StdSource { reader, faults: 0 }
    }
}

impl<R: Read> Source for StdSource<R> {
    ghost left = { λ s. R.remaining s.reader };

    ghost faults = { λ s. s.faults };

    fn read(&mut self, buf: &mut [u8]) -> Result<usize, Failed>
        ensures bound { ReadsAtMost result buf.new }
        ensures bytes { ReadConsumes (R.remaining self.old.reader) (R.remaining self.new.reader) result buf.new }
        ensures cause { HasCause self.old.faults self.new.faults result }
        ensures count { self.new.faults ≡ faults_counted self.old.faults result }
    {
        match self.reader.read(buf) {
            Ok(n) => return Ok(n),
            Err(_) => {
                self.faults = self.faults.saturating_add(1);
                return Err(Failed);
            }
        }
    }
}

/// A sink over a writer, which gathers small pieces. It tells of its bytes, also those that it holds back, what the
/// writer tells, which is nothing for standard output.
#[derive(Drop)]
pub struct StdSink<W: Write + Drop> {
    writer: BufWriter<W>,
    faults: u64,
}

impl<W: Write + Drop> Model for StdSink<W> {
    ghost use Rattle.std.specs.Io.Buffered.{writer_inner, writer_buffer};
    ghost use Rattle.lard_base.specs.Outside.{WriterState};

    ghost Value = { WriterState W };

    ghost view = { λ s. record { writer = writer_inner s.writer; held = writer_buffer s.writer; faults = s.faults } };
}

impl<W: Write + Drop> StdSink<W> {
    /// A sink that holds nothing and has not failed yet. It takes its memory at once. `NoMemory` where memory runs out.
    pub fn new(alloc: Global, writer: W) -> Result<StdSink<W>, NoMemory>
        ensures { IfOk result (λ sink. sink ≡ record { writer = writer; held = []; faults = 0 }) }
    {
        match BufWriter::with_capacity(alloc, GATHERED, writer) {
            Ok(writer) => return Ok(StdSink { writer, faults: 0 }),
            Err(_) => return Err(NoMemory),
        }
    }

    /// Passes on the bytes that are held back. It answers `Failed` exactly where the count of faults rose in this call,
    /// and loses none of them then.
    pub fn flush(&mut self) -> Result<(), Failed>
        ensures bytes { Keeps (contents_of W.contents self.old) (contents_of W.contents self.new) }
        ensures all { OnOk result (self.new.held ≡ []) }
        ensures cause { HasCause self.old.faults self.new.faults result }
        ensures count { self.new.faults ≡ faults_counted self.old.faults result }
    {
        match self.writer.flush() {
            Ok(()) => return Ok(()),
            Err(_) => {
                self.faults = self.faults.saturating_add(1);
                return Err(Failed);
            }
        }
    }
}

impl<W: Write + Drop> Sink for StdSink<W> {
    ghost written = { contents_of W.contents };

    ghost faults = { λ s. s.faults };

    fn write(&mut self, bytes: &[u8]) -> Result<usize, Failed>
        ensures bound { WritesAtMost result bytes.now }
        ensures some { IfOk result (λ n. 0 < length bytes.now → 0 < n) }
        ensures bytes { WriteAppends (contents_of W.contents self.old) (contents_of W.contents self.new) result bytes.now }
        ensures cause { HasCause self.old.faults self.new.faults result }
        ensures count { self.new.faults ≡ faults_counted self.old.faults result }
    {
        match self.writer.write(bytes) {
            Ok(n) if n > 0 || bytes.is_empty() => return Ok(n),
            _ => {
                self.faults = self.faults.saturating_add(1);
                return Err(Failed);
            }
        }
    }
}

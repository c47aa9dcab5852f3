//! Standard input and output, tied together: what is held back of a report is passed on before more of the schedule is
//! read. So a program that waits for the records of a step before it gives the next line has them.

ghost use Rattle.std.specs.Prelude.{None};

use lard_base::{Failed, Sink, Source, StdSink, StdSource};
use std::cell::RefCell;
use std::io::{Read, Write};

/// Where the report goes to, with both edges.
#[derive(Drop)]
pub struct Outlet<W: Write + Drop> {
    pub sink: StdSink<W>,
    /// What was held back could not be passed on.
    pub is_broken: bool,
}

/// The schedule's edge: it passes on what is held back of the report, and then reads.
#[derive(Drop)]
pub struct Inlet<'a, R, W: Write + Drop> {
    pub source: StdSource<R>,
    pub outlet: &'a RefCell<Outlet<W>>,
}

impl<R: Read, W: Write + Drop> Source for Inlet<'_, R, W> {
    ghost left = { λ _. None };

    ghost faults = { λ s. s.source.faults };

    fn read(&mut self, buf: &mut [u8]) -> Result<usize, Failed> {
        if let Ok(mut outlet) = self.outlet.try_borrow_mut() {
            outlet.is_broken = outlet.sink.flush().is_err();
        }
        self.source.read(buf)
    }
}

/// The report's edge: it gathers what is written, and fails where the outlet is broken.
#[derive(Drop)]
pub struct Report<'a, W: Write + Drop> {
    pub outlet: &'a RefCell<Outlet<W>>,
    pub faults: u64,
}

impl<W: Write + Drop> Sink for Report<'_, W> {
    ghost written = { λ _. None };

    ghost faults = { λ s. s.faults };

    fn write(&mut self, bytes: &[u8]) -> Result<usize, Failed> {
        let taken = match self.outlet.try_borrow_mut() {
            Ok(mut outlet) if !outlet.is_broken => outlet.sink.write(bytes),
            _ => Err(Failed),
        };
        if taken.is_err() {
            self.faults = self.faults.saturating_add(1);
        }
        taken
    }
}

//! A source and a sink that never fail.

ghost use Rattle.std.specs.Prelude.{◌≡◌, ℕ, ◌≤◌, ◌<◌, List, ◌++◌, length, take, drop, min, Option, Some, None, Ok, IfOk};
ghost use Rattle.std.specs.Io.{ReadsAtMost, WritesAtMost};
ghost use Rattle.std.specs.Io.KnownBytes.{ReadConsumes, WriteAppends};
ghost use Rattle.lard_base.specs.Causes.{HasCause};

use crate::bytes::Bytes;
use crate::errors::Failed;
use crate::outside::{Sink, Source};
use std::marker::Model;

/// A source that gives bytes from memory, and never fails. It is seen as the bytes that are left.
#[derive(Debug, Drop)]
pub struct SureSource {
    bytes: Bytes,
    at: usize,
}

impl Model for SureSource {
    ghost use Rattle.std.specs.Prelude.{ℕ, List, drop, length, ◌≤◌};

    ghost Value = { List ℕ };

    ghost view = { λ s. drop s.at s.bytes };

    ghost invariant = { λ s. s.at ≤ length s.bytes };
}

impl SureSource {
    /// A source of these bytes.
    pub fn new(bytes: Bytes) -> SureSource
        ensures { result ≡ bytes }
    {
        SureSource { bytes, at: 0 }
    }
}

impl Source for SureSource {
    ghost left = { λ s. Some s };

    ghost faults = { λ _. 0 };

    /// Answers as many of the bytes left as the buffer holds.
    fn read(&mut self, buf: &mut [u8]) -> Result<usize, Failed>
        ensures bound { ReadsAtMost result buf.new }
        ensures bytes { ReadConsumes (Some self.old) (Some self.new) result buf.new }
        ensures cause { HasCause 0 0 result }
        ensures answer { result ≡ Ok (min (length buf.old) (length self.old)) }
        ensures buffer { IfOk result (λ n. buf.new ≡ take n self.old ++ drop n buf.old) }
        ensures after { IfOk result (λ n. self.new ≡ drop n self.old) }
    {
        let rest = &self.bytes.as_slice()[self.at..];
        let n = buf.len().min(rest.len());
        buf[..n].copy_from_slice(&rest[..n]);
        self.at += n;
        Ok(n)
    }
}

/// A sink that takes each piece whole, keeps none of it, and never fails.
#[derive(Clone, Copy, Debug, PartialEq, Eq)]
pub struct SureSink;

impl SureSink {
    ghost use Rattle.lard_base.specs.declared.sure.SureSink.{SureSink};

    /// The sink. It tells nothing of what was written.
    pub fn new() -> SureSink
        ensures { (sink : SureSink) → sink ≡ result }
    {
        SureSink
    }
}

impl Sink for SureSink {
    ghost written = { λ _. None };

    ghost faults = { λ _. 0 };

    /// Takes the whole piece.
    fn write(&mut self, bytes: &[u8]) -> Result<usize, Failed>
        ensures bound { WritesAtMost result bytes.now }
        ensures some { IfOk result (λ n. 0 < length bytes.now → 0 < n) }
        ensures bytes { WriteAppends None None result bytes.now }
        ensures cause { HasCause 0 0 result }
        ensures answer { result ≡ Ok (length bytes.now) }
    {
        Ok(bytes.len())
    }
}

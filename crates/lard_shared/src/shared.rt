//! Bytes with several owners, and parts of them.

ghost use Rattle.std.specs.Prelude.{◌≡◌, ◌+◌, ◌≤◌, length, take, drop, IfOk};

use bytes::Bytes;
use lard_base::NoMemory;
use std::alloc::Global;
use std::marker::Model;

/// A list of bytes that does not change and may have several owners, or a part of one.
#[derive(Debug, Drop)]
pub struct Shared {
    bytes: Bytes,
}

impl Model for Shared {
    ghost use Rattle.std.specs.Prelude.{ℕ, List};

    ghost Value = { List ℕ };

    ghost view = { λ s. s.bytes };
}

impl Shared {
    /// A copy of the slice. `NoMemory` where memory runs out.
    pub fn from_slice(alloc: Global, bytes: &[u8]) -> Result<Shared, NoMemory>
        ensures { IfOk result (λ copy. copy ≡ bytes.now) }
    {
        let bytes = Bytes::copy_from_slice(alloc, bytes)?;
        Ok(Shared { bytes })
    }

    /// These bytes, without a copy.
    pub fn from_bytes(bytes: Bytes) -> Shared
        ensures { result ≡ bytes }
    {
        Shared { bytes }
    }

    /// The `len` bytes from `at` on, counted from 0, without a copy of them. They are there. `NoMemory` where memory
    /// runs out.
    pub fn part(&self, at: usize, len: usize) -> Result<Shared, NoMemory>
        requires { at + len ≤ length self.now }
        ensures { IfOk result (λ part. part ≡ take len (drop at self.now)) }
    {
        let behind = self.len() - at;
        let bytes = self.bytes.slice(at..at + len.min(behind))?;
        Ok(Shared { bytes })
    }

    /// The same bytes for one owner more, without a copy of them. `NoMemory` where memory runs out.
    pub fn share(&self) -> Result<Shared, NoMemory>
        ensures { IfOk result (λ share. share ≡ self.now) }
    {
        let bytes = self.bytes.clone()?;
        Ok(Shared { bytes })
    }

    /// The bytes, lent.
    pub fn as_slice(&self) -> &[u8]
        ensures { result.now ≡ self.now }
    {
        self.bytes.as_slice()
    }

    /// How many bytes there are, below 2^63.
    pub fn len(&self) -> usize
        ensures { result ≡ length self.now }
    {
        self.bytes.len()
    }
}

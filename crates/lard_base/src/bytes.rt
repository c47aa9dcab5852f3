//! Bytes that are owned, and paths of requests.

ghost use Rattle.std.specs.Prelude.{◌≡◌, length, IfOk};

use crate::errors::NoMemory;
use std::alloc::Global;
use std::marker::Model;

/// A list of bytes.
#[derive(Debug, Drop)]
pub struct Bytes {
    items: Vec<u8>,
}

impl Model for Bytes {
    ghost use Rattle.std.specs.Prelude.{ℕ, List};

    ghost Value = { List ℕ };

    ghost view = { λ b. b.items.items };
}

impl Bytes {
    /// These bytes, without a copy.
    pub fn from_vec(items: Vec<u8>) -> Bytes
        ensures { result ≡ items.items }
    {
        Bytes { items }
    }

    /// A copy of the slice. `NoMemory` where memory runs out.
    pub fn from_slice(alloc: Global, bytes: &[u8]) -> Result<Bytes, NoMemory>
        ensures { IfOk result (λ copy. copy ≡ bytes.now) }
    {
        let items = Vec::from_slice(alloc, bytes)?;
        Ok(Bytes { items })
    }

    /// The bytes, lent.
    pub fn as_slice(&self) -> &[u8]
        ensures { result.now ≡ self.now }
    {
        self.items.as_slice()
    }

    /// How many bytes there are.
    pub fn len(&self) -> usize
        ensures { result ≡ length self.now }
    {
        self.items.len()
    }

    /// The same bytes once more. `NoMemory` where memory runs out.
    pub fn copy(&self, alloc: Global) -> Result<Bytes, NoMemory>
        ensures { IfOk result (λ copy. copy ≡ self.now) }
    {
        Bytes::from_slice(alloc, self.as_slice())
    }
}

/// The path of a file or a request, as the bytes that a request names. It is compared byte for byte.
#[derive(Debug, Drop)]
pub struct Path {
    items: Vec<u8>,
}

impl Model for Path {
    ghost use Rattle.std.specs.Prelude.{ℕ, List};

    ghost Value = { List ℕ };

    ghost view = { λ p. p.items.items };
}

impl Path {
    /// The path with these bytes, without a copy.
    pub fn from_vec(items: Vec<u8>) -> Path
        ensures { result ≡ items.items }
    {
        Path { items }
    }

    /// A copy of the slice. `NoMemory` where memory runs out.
    pub fn from_slice(alloc: Global, bytes: &[u8]) -> Result<Path, NoMemory>
        ensures { IfOk result (λ copy. copy ≡ bytes.now) }
    {
        let items = Vec::from_slice(alloc, bytes)?;
        Ok(Path { items })
    }

    /// The path's bytes, lent.
    pub fn as_slice(&self) -> &[u8]
        ensures { result.now ≡ self.now }
    {
        self.items.as_slice()
    }

    /// The same path once more. `NoMemory` where memory runs out.
    pub fn copy(&self, alloc: Global) -> Result<Path, NoMemory>
        ensures { IfOk result (λ copy. copy ≡ self.now) }
    {
        Path::from_slice(alloc, self.as_slice())
    }
}

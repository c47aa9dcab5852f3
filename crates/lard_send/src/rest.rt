//! The queued bytes that are not acknowledged.

ghost use Rattle.std.specs.Prelude.{◌≡◌, ◌+◌, ◌≤◌, ◌^◌, ◌<◌, [], ◌++◌, length, take, drop, min, OnOk, OnErr};
ghost use Rattle.std.specs.List.{concat};
ghost use Rattle.lard_send.specs.Rest.{AreWanted, bytes_left};

use lard_base::NoMemory;
use lard_shared::Shared;
use std::alloc::Global;
use std::collections::VecDeque;
use std::marker::Model;

/// A list of bytes that grows at its end and is dropped from its front. They lie in parts, which other owners may have too.
/// A part goes as soon as its last byte is dropped.
#[derive(Drop)]
pub struct Rest {
    parts: VecDeque<Shared>,
    /// How many bytes of the first part are dropped.
    dropped: usize,
}

impl Model for Rest {
    ghost use Rattle.std.specs.Prelude.{ℕ, ◌<◌, ◌^◌, List};
    ghost use Rattle.lard_send.specs.Rest.{AreWanted, bytes_left};

    ghost Value = { List ℕ };

    ghost view = { λ r. bytes_left r.dropped r.parts.items };

    ghost invariant = { λ r. AreWanted r.dropped r.parts.items × (r.dropped < 2 ^ 63) };
}

impl Rest {
    /// No bytes. It takes no memory yet.
    pub fn new(alloc: Global) -> Rest
        ensures { result ≡ [] }
    {
        Rest {
            parts: VecDeque::new(alloc),
            dropped: 0,
        }
    }

    /// Adds a copy of these bytes at the end. Without memory the list is as it was.
    pub fn push(&mut self, more: &[u8]) -> Result<(), NoMemory>
        ensures ok { OnOk result (self.new ≡ self.old ++ more.now) }
        ensures err { OnErr result (self.new ≡ self.old) }
    {
        let part = Shared::from_slice(*self.parts.allocator(), more)?;
        self.push_shared(part)
    }

    /// Adds these bytes at the end, without a copy of them. Without memory the list is as it was.
    pub fn push_shared(&mut self, more: Shared) -> Result<(), NoMemory>
        ensures ok { OnOk result (self.new ≡ self.old ++ more) }
        ensures err { OnErr result (self.new ≡ self.old) }
    {
        if 0 < more.len() {
            self.parts.push_back(more)?;
        }
        Ok(())
    }

    /// Drops the first `n` bytes, or all where there are fewer, and the parts that have none left.
    pub fn consume(&mut self, n: usize)
        ensures { self.new ≡ drop n self.old }
    {
        self.dropped = drop_front(&mut self.parts, self.dropped, n);
    }

    /// Writes bytes over all of `buf`: those before which `at` stand. The list has as many bytes.
    pub fn gather(&self, at: u32, buf: &mut [u8])
        requires { at + length buf.old ≤ length self.now }
        ensures { buf.new ≡ take (length buf.old) (drop at self.now) }
    {
        gather(&self.parts, self.dropped + at as usize, buf);
    }
}

/// Drops `n` bytes more where `dropped` of the first part are, or all that there are, and each part that has none left.
/// It gives how many of the first part are dropped then.
fn drop_front(parts: &mut VecDeque<Shared>, mut dropped: usize, mut n: usize) -> usize
    requires wanted { AreWanted dropped parts.old.items }
    requires small { dropped < 2 ^ 63 }
    ensures wanted { AreWanted result parts.new.items }
    ensures small { result < 2 ^ 63 }
    ensures rest { bytes_left result parts.new.items ≡ drop n (bytes_left dropped parts.old.items) }
{
    while let Some(first) = parts.front() {
        let left = first.as_slice().len() - dropped;
        if n < left {
            return dropped + n;
        }
        n -= left;
        dropped = 0;
        drop_first(parts);
    }
    0
}

/// Drops the first part.
fn drop_first(parts: &mut VecDeque<Shared>)
    ensures { parts.new.items ≡ drop 1 parts.old.items }
{
    parts.pop_front();
}

/// Writes bytes over all of `buf`: those of the parts, taken together, before which `skip` stand.
fn gather(parts: &VecDeque<Shared>, mut skip: usize, buf: &mut [u8])
    requires { skip + length buf.old ≤ length (concat parts.now.items) }
    ensures { buf.new ≡ take (length buf.old) (drop skip (concat parts.now.items)) }
{
    let mut filled = 0;
    for part in parts {
        if filled == buf.len() {
            return;
        }
        let bytes = part.as_slice();
        let from = skip.min(bytes.len());
        filled += copy(&bytes[from..], &mut buf[filled..]);
        skip -= from;
    }
}

/// Copies as many of the first bytes as `buf` has room for to its front, and says how many.
fn copy(bytes: &[u8], buf: &mut [u8]) -> usize
    ensures count { result ≡ min (length bytes.now) (length buf.old) }
    ensures copied { buf.new ≡ take result bytes.now ++ drop result buf.old }
{
    let n = bytes.len().min(buf.len());
    buf[..n].copy_from_slice(&bytes[..n]);
    n
}

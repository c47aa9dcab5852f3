//! The line of waiting connections.

ghost use Rattle.std.specs.Prelude.{◌≡◌, ◌+◌, ◌<◌, ◌≤◌, false, [], length, replicate, ◌∷◌, ◌++◌, IfOk, OnOk, OnErr, IfNone, IfSome, slice_get, option_copied};
ghost use Rattle.lard_dispatch.specs.Line.{arrival_of, line_waits, line_without};

use lard_base::{ConnId, NoMemory, Path};
use std::alloc::{AllocError, Global};
use std::collections::BTreeMap;
use std::marker::Model;

/// A connection that waits to be admitted.
#[derive(Debug, Drop)]
pub struct Waiting {
    pub c: ConnId,
    /// The path of the request that it waits with.
    pub target: Path,
}

/// The waiting connections, first come first. None of its calls goes through them all.
#[derive(Drop)]
pub struct Line {
    /// By their arrivals, which are counted from 1.
    waiting: BTreeMap<u64, Waiting>,
    /// The last arrival of each connection by its number, or 0 where it does not wait.
    arrivals: Vec<u64>,
    /// The next arrival.
    next: u64,
}

impl Model for Line {
    ghost use Rattle.std.specs.Prelude.{List};
    ghost use Rattle.lard_dispatch.specs.declared.line.Waiting.{Waiting};
    ghost use Rattle.lard_dispatch.specs.Line.{IsLineKept, who};

    ghost Value = { List Waiting };

    ghost view = { λ l. who l.waiting.entries };

    ghost invariant = { λ l. IsLineKept l.waiting.entries l.arrivals.items l.next };
}

impl Line {
    /// Nobody waits. `NoMemory` where memory runs out.
    pub fn new(alloc: Global) -> Result<Line, NoMemory>
        ensures { IfOk result (λ line. line ≡ []) }
    {
        let arrivals = none_of(alloc, ConnId::MAX as usize)?;
        let waiting = BTreeMap::new(alloc);
        Ok(Line {
            waiting,
            arrivals,
            next: 1,
        })
    }

    /// Whether the connection waits.
    pub fn waits(&self, c: ConnId) -> bool
        ensures { result ≡ line_waits self.now c }
    {
        let arrival = arrival_of(self.arrivals.as_slice(), c);
        self.waiting.contains_key(&arrival)
    }

    /// Puts a connection that does not wait behind all others. Without memory nothing changes.
    pub fn push(&mut self, c: ConnId, target: Path) -> Result<(), NoMemory>
        requires { line_waits self.old c ≡ false }
        ensures ok { OnOk result (self.new ≡ self.old ++ record { c = c; target = target } ∷ []) }
        ensures err { OnErr result (self.new ≡ self.old) }
    {
        // No memory holds so many arrivals.
        if self.next == u64::MAX {
            return Err(NoMemory);
        }
        let arrival = self.next;
        self.waiting.insert(arrival, Waiting { c, target })?;
        self.arrivals[at(c)] = arrival;
        self.next += 1;
        Ok(())
    }

    /// The first of the line, lent; `None` where nobody waits.
    pub fn first(&self) -> Option<&Waiting>
        ensures { option_copied result ≡ slice_get self.now 0 }
    {
        match self.waiting.first_key_value() {
            Some((_, waiting)) => Some(waiting),
            None => None,
        }
    }

    /// Takes the first out of the line; `None` where nobody waits.
    pub fn pop(&mut self) -> Option<Waiting>
        ensures some { IfSome result (λ first. self.old ≡ first ∷ self.new) }
        ensures none { IfNone result ((self.old ≡ []) × (self.new ≡ [])) }
    {
        let (_, first) = self.waiting.pop_first()?;
        self.arrivals[at(first.c)] = 0;
        Some(first)
    }

    /// Takes a connection out of the line, wherever it stands. One that does not wait changes nothing.
    pub fn leave(&mut self, c: ConnId)
        ensures { self.new ≡ line_without self.old c }
    {
        let arrival = arrival_of(self.arrivals.as_slice(), c);
        let _ = self.waiting.remove(&arrival);
        self.arrivals[at(c)] = 0;
    }
}

/// So many arrivals of connections that do not wait.
fn none_of(alloc: Global, count: usize) -> Result<Vec<u64>, AllocError>
    ensures { IfOk result (λ arrivals. arrivals.items ≡ replicate count 0) }
{
    vec![in alloc; 0; count]
}

/// Where the arrival of a connection stands.
fn at(c: ConnId) -> usize
    ensures place { result + 1 ≡ c }
    ensures within { result < ConnId.MAX }
{
    c.number() as usize - 1
}

/// The arrival of a connection, or 0 where it does not wait.
fn arrival_of(arrivals: &[u64], c: ConnId) -> u64
    requires { length arrivals.now ≡ ConnId.MAX }
    ensures value { result ≡ arrival_of arrivals.now c }
    ensures some { 1 ≤ c }
{
    arrivals[at(c)]
}

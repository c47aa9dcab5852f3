//! The list of all records of a run.

ghost use Rattle.std.specs.Prelude.{◌≡◌, ◌<◌, [], ◌++◌, length, OnOk, OnErr, slice_get};
ghost use Rattle.std.specs.Option.{option_copied};
ghost use Rattle.lard_journal.specs.Inner.{inner_of, turned_at};

use crate::rec::{Rec, Recs};
use lard_base::NoMemory;
use std::alloc::Global;
use std::marker::Model;
use std::mem;

/// Every record of a run, the oldest first.
#[derive(Debug, Drop)]
pub struct Journal {
    records: Vec<Rec>,
}

impl Model for Journal {
    ghost use Rattle.std.specs.Prelude.{List};
    ghost use Rattle.lard_journal.specs.declared.rec.Rec.{Rec};

    ghost Value = { List Rec };

    ghost view = { λ j. j.records.items };
}

impl Journal {
    /// The journal without records. It takes no memory yet.
    pub fn new(alloc: Global) -> Journal
        ensures { result ≡ [] }
    {
        Journal {
            records: Vec::new(alloc),
        }
    }

    /// Appends all of these records. Without memory it appends none.
    pub fn append(&mut self, recs: Recs) -> Result<(), NoMemory>
        ensures ok { OnOk result (self.new ≡ self.old ++ recs) }
        ensures err { OnErr result (self.new ≡ self.old) }
    {
        let mut more = recs.into_vec();
        self.records.append(&mut more)?;
        Ok(())
    }

    /// The record of an event, at this place, counted from 0 and below `len`, becomes that of an inner step of the same
    /// event; any other record stays as it is. It takes no memory.
    pub fn turn_inner(&mut self, i: u64)
        requires there { i < length self.old }
        ensures { self.new ≡ turned_at i self.old }
    {
        turn_inner(&mut self.records[i as usize]);
    }

    /// How many records there are.
    pub fn len(&self) -> u64
        ensures { result ≡ length self.now }
    {
        self.records.len() as u64
    }

    /// The record with this number, counted from 0; `None` at `len` and above.
    pub fn get(&self, i: u64) -> Option<&Rec>
        ensures { option_copied result ≡ slice_get self.now i }
    {
        self.records.as_slice().get(i as usize)
    }

    /// All records, lent.
    pub fn as_slice(&self) -> &[Rec]
        ensures { result.now ≡ self.now }
    {
        self.records.as_slice()
    }
}

/// The record of an event becomes that of an inner step of it.
fn turn_inner(rec: &mut Rec)
    ensures { rec.new ≡ inner_of rec.old }
{
    // any record without memory may stand in for it
    let turned = match mem::replace(rec, Rec::Settled(0)) {
        Rec::Event { i: _, event } => Rec::Inner(event),
        other => other,
    };
    *rec = turned;
}

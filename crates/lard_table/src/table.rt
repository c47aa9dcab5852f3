//! Values by their numbers.

ghost use Rattle.std.specs.Prelude.{◌≡◌, ◌<◌, Some, IsSome, IfSome, IfNone, IfOk, IfErr, OnOk, OnErr, option_copied};
ghost use Rattle.std.specs.FinMap as map;
ghost use Rattle.lard_table.specs.Table.{IsLast, IsNextAbove, TakesOut};

use std::alloc::{AllocFailed, Global};
use std::collections::BTreeMap;
use std::marker::Model;
use std::mem;
use std::ops::Bound;

/// Values by their numbers, seen as a finite map. A value is handed out again in each case, so it may be of a type that
/// has to be spent; so has the table itself, by `pop` until nothing is left and then `destroy_empty`.
pub struct Table<V> {
    all: BTreeMap<u32, V>,
}

impl<V> Model for Table<V> {
    ghost use Rattle.std.specs.Coded.{coded_ℕ};
    ghost use Rattle.std.specs.FinMap as map;
    ghost use Rattle.std.specs.Ordering.{nat_cmp};

    ghost Value = { map.FinMap nat_cmp V };

    ghost coded = { map.code coded_ℕ V.code };

    ghost view = { λ t. map.from_entries t.all.entries };
}

impl<V> Table<V> {
    /// No values. It takes no memory yet.
    pub fn new(alloc: Global) -> Table<V>
        ensures { result ≡ map.empty }
    {
        Table {
            all: BTreeMap::new(alloc),
        }
    }

    /// The value of a number, lent; `None` where it has none.
    pub fn get(&self, number: u32) -> Option<&V>
        ensures { option_copied result ≡ map.get self.now number }
    {
        self.all.get(&number)
    }

    /// Sets the value of a number, and hands out the one before, or `None` where it had none. Without memory the table
    /// is as it was, and the value comes back.
    pub fn insert(&mut self, number: u32, value: V) -> Result<Option<V>, AllocFailed<(u32, V)>>
        ensures before { IfOk result (λ before. before ≡ map.get self.old number) }
        ensures ok { OnOk result (self.new ≡ map.insert self.old number value) }
        ensures err { OnErr result (self.new ≡ self.old) }
        ensures value { IfErr result (λ failed. failed.value ≡ (number, value)) }
    {
        self.all.insert(number, value)
    }

    /// Sets the value of a number that has one, and hands out the one before. It takes no memory.
    pub fn replace(&mut self, number: u32, value: V) -> V
        requires { IsSome (map.get self.old number) }
        ensures before { map.get self.old number ≡ Some result }
        ensures after { self.new ≡ map.insert self.old number value }
    {
        match self.all.get_mut(&number) {
            Some(slot) => mem::replace(slot, value),
            None => unreachable!(),
        }
    }

    /// Takes out the value of a number; `None` where it has none.
    pub fn remove(&mut self, number: u32) -> Option<V>
        ensures before { result ≡ map.get self.old number }
        ensures after { self.new ≡ map.remove self.old number }
    {
        self.all.remove(&number)
    }

    /// The least number above this one that has a value, and its value, lent; `None` where no number above has one.
    pub fn next_above(&self, number: u32) -> Option<(u32, &V)>
        ensures some { IfSome result (λ next. IsNextAbove self.now number next.0 next.1.now) }
        ensures none { IfNone result (IsLast self.now number) }
    {
        match self
            .all
            .range((Bound::Excluded(number), Bound::Unbounded))
            .next()
        {
            Some((next, value)) => Some((*next, value)),
            None => None,
        }
    }

    /// How many numbers have a value.
    pub fn len(&self) -> usize
        ensures { result ≡ map.len self.now }
    {
        self.all.len()
    }

    /// Takes out the value of some number, or answers `None` where nothing is left.
    pub fn pop(&mut self) -> Option<V>
        ensures some { IfSome result (λ value. TakesOut self.old self.new value) }
        ensures len { IfSome result (λ _. map.len self.new < map.len self.old) }
        ensures none { IfNone result ((self.old ≡ map.empty) × (self.new ≡ map.empty)) }
    {
        match self.all.pop_first() {
            Some((_, value)) => return Some(value),
            None => return None,
        }
    }

    /// Spends a table of which nothing is left, as `pop` leaves it where it answers `None`.
    pub fn destroy_empty(self)
        requires { self ≡ map.empty }
    {
        let Table { all } = self;
        all.destroy_empty();
    }
}

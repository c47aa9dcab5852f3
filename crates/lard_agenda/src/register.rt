//! Values by their numbers, which are gone through in the numbers' order.

ghost use Rattle.std.specs.Prelude.{◌≡◌, ◌≤◌, ◌^◌, length, OnOk, OnErr};
ghost use Rattle.std.specs.FinMap as map;
ghost use Rattle.lard_table.specs.Table.{put_or};

use lard_base::NoMemory;
use std::alloc::Global;
use std::collections::BTreeMap;
use std::collections::btree_map::{Keys, Values};
use std::marker::Model;

/// Values by their numbers, seen as a finite map.
#[derive(Drop)]
pub struct Register<V> {
    all: BTreeMap<u32, V>,
}

impl<V> Model for Register<V> {
    ghost use Rattle.std.specs.Prelude.{All, ◌<◌, ◌^◌};
    ghost use Rattle.std.specs.Coded.{coded_ℕ};
    ghost use Rattle.std.specs.FinMap as map;
    ghost use Rattle.std.specs.Map.{keys_of};
    ghost use Rattle.std.specs.Ordering.{nat_cmp};

    ghost Value = { map.FinMap nat_cmp V };

    ghost coded = { map.code coded_ℕ V.code };

    ghost view = { λ r. map.from_entries r.all.entries };

    ghost invariant = { λ r. All (λ k. k < 2 ^ 32) (keys_of r.all.entries) };
}

impl<V: Copy> Register<V> {
    /// No values. It takes no memory yet.
    pub fn new(alloc: Global) -> Register<V>
        ensures { result ≡ map.empty }
    {
        Register {
            all: BTreeMap::new(alloc),
        }
    }

    /// The value of a number; `None` where it has none.
    pub fn get(&self, number: u32) -> Option<V>
        ensures { result ≡ map.get self.now number }
    {
        self.all.get(&number).copied()
    }

    /// From now on a number has this value, or none. Without memory the register is as it was.
    pub fn put(&mut self, number: u32, value: Option<V>) -> Result<(), NoMemory>
        ensures ok { OnOk result (self.new ≡ put_or self.old number value) }
        ensures err { OnErr result (self.new ≡ self.old) }
    {
        match value {
            Some(value) => {
                self.all.insert(number, value)?;
            }
            None => {
                self.all.remove(&number);
            }
        }
        Ok(())
    }

    /// The numbers that have a value, from the least to the greatest.
    pub fn numbers(&self) -> Keys<'_, u32, V>
        ensures { result ≡ map.keys self.now }
    {
        self.all.keys()
    }

    /// The values, in the order of their numbers.
    pub fn values(&self) -> Values<'_, u32, V>
        ensures values { result ≡ map.values self.now }
        ensures few { length result ≤ 2 ^ 32 }
    {
        self.all.values()
    }
}

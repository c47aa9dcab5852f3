//! Values by their numbers.

ghost use Rattle.std.specs.Prelude.{◌≡◌, [], nat_eq, OnOk, OnErr};
ghost use Rattle.indexmap.specs.IndexMap.{insert_entry};
ghost use Rattle.lard_audit.specs.Register.{kept};

use indexmap::IndexMap;
use lard_base::NoMemory;
use std::alloc::Global;
use std::marker::Model;

/// Values by their numbers, seen as pairs of both, in the order in which the numbers came.
#[derive(Drop)]
pub struct Register<V> {
    all: IndexMap<u32, V>,
}

impl<V> Model for Register<V> {
    ghost use Rattle.std.specs.Prelude.{ℕ, List};

    ghost Value = { List (ℕ × V) };

    ghost view = { λ r. r.all.entries };
}

impl<V: Copy> Register<V> {
    /// No values. It takes no memory yet.
    pub fn new(alloc: Global) -> Register<V>
        ensures { result ≡ [] }
    {
        Register {
            all: IndexMap::new(alloc),
        }
    }

    /// The value of a number; `None` where it has none.
    pub fn get(&self, number: u32) -> Option<V>
        ensures { result ≡ kept self.now number }
    {
        self.all.get(&number).copied()
    }

    /// From now on a number has this value. Without memory the register is as it was.
    pub fn put(&mut self, number: u32, value: V) -> Result<(), NoMemory>
        ensures ok { OnOk result (self.new ≡ insert_entry nat_eq self.old number value) }
        ensures err { OnErr result (self.new ≡ self.old) }
    {
        self.all.insert(number, value)?;
        Ok(())
    }
}

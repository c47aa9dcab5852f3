//! The map from targets to their server sets.

ghost use Rattle.std.specs.Prelude.{◌≡◌, true, [], IsOk, OnOk, OnErr, length, take};
ghost use Rattle.lard_sets.specs.Sets.{with_member, without_member, set_of, has_place, put, touched, added, removed, sets_closed};

use indexmap::IndexMap;
use lard_base::{Members, Millis, NoMemory, NodeId};
use std::alloc::Global;
use std::marker::Model;

/// The nodes that serve a target (ASPLOS 1998, `serverSet`).
#[derive(Clone, Copy, Debug, PartialEq, Eq)]
pub struct ServerSet {
    pub members: Members,
    /// When a node was last added or removed (`lastMod`); 0 before that.
    pub modified: Millis,
}

/// Server sets by their targets, in the order of the first assignments.
#[derive(Drop)]
pub struct Sets {
    sets: IndexMap<Vec<u8>, ServerSet>,
}

impl Model for Sets {
    ghost use Rattle.std.specs.Prelude.{ℕ, List};
    ghost use Rattle.lard_sets.specs.Sets.{sets_shown};
    ghost use Rattle.lard_sets.specs.declared.sets.ServerSet.{ServerSet};

    ghost Value = { List (List ℕ × ServerSet) };

    ghost view = { λ s. sets_shown s.sets.entries };
}

impl Sets {
    /// No target has a set yet. It takes no memory yet.
    pub fn new(alloc: Global) -> Sets
        ensures { result ≡ [] }
    {
        Sets {
            sets: IndexMap::new(alloc),
        }
    }

    /// The nodes that serve a target.
    pub fn members(&self, target: &[u8]) -> Members
        ensures { result ≡ (set_of self.now target.now).members }
    {
        match self.sets.get(target) {
            Some(set) => set.members,
            None => Members::none(),
        }
    }

    /// When a node was last added to a target's set or removed from it, in milliseconds; 0 before that.
    pub fn last_mod(&self, target: &[u8]) -> Millis
        ensures { result ≡ (set_of self.now target.now).modified }
    {
        match self.sets.get(target) {
            Some(set) => set.modified,
            None => Millis(0),
        }
    }

    /// Keeps a place for a target, behind all others where it has none yet, and changes no set and no time. Where it
    /// has one, no memory is taken. Without memory nothing changes.
    pub fn touch(&mut self, target: &[u8]) -> Result<(), NoMemory>
        ensures ok { OnOk result (self.new ≡ touched self.old target.now) }
        ensures err { OnErr result (self.new ≡ self.old) }
        ensures succeeds { has_place self.old target.now ≡ true → IsOk result }
    {
        if self.sets.contains_key(target) {
            return Ok(());
        }
        let set = ServerSet {
            members: Members::none(),
            modified: Millis(0),
        };
        self.insert(target, set)
    }

    /// How many targets have a place.
    pub fn places(&self) -> usize
        ensures { result ≡ length self.now }
    {
        self.sets.len()
    }

    /// Gives up the places that were kept last, down to so many.
    pub fn truncate(&mut self, places: usize)
        ensures { self.new ≡ take places self.old }
    {
        self.sets.truncate(places);
    }

    /// Makes the node one of those that serve a target, which changes its set at this time. Where a place is kept for
    /// the target, no memory is taken. Without memory nothing changes.
    pub fn add(&mut self, target: &[u8], n: NodeId, now: Millis) -> Result<(), NoMemory>
        ensures ok { OnOk result (self.new ≡ added self.old target.now n now) }
        ensures err { OnErr result (self.new ≡ self.old) }
        ensures succeeds { has_place self.old target.now ≡ true → IsOk result }
    {
        if let Some(set) = self.sets.get_mut(target) {
            set.members = with_member(set.members, n);
            set.modified = now;
            return Ok(());
        }
        let set = ServerSet {
            members: with_member(Members::none(), n),
            modified: now,
        };
        self.insert(target, set)
    }

    /// Takes the node out of those that serve a target, which changes its set at this time. Where no place is kept for the
    /// target, nothing changes.
    pub fn remove(&mut self, target: &[u8], n: NodeId, now: Millis)
        ensures { self.new ≡ removed self.old target.now n now }
    {
        if let Some(set) = self.sets.get_mut(target) {
            set.members = without_member(set.members, n);
            set.modified = now;
        }
    }

    /// Takes the node out of every set, as it gets no more assignments. The times of the last changes stay.
    pub fn close(&mut self, n: NodeId)
        ensures { self.new ≡ sets_closed self.old n }
    {
        self.sets.retain(|_, set| {
            set.members = without_member(set.members, n);
            true
        });
    }

    /// Keeps the set of a target that has no place yet.
    fn insert(&mut self, target: &[u8], set: ServerSet) -> Result<(), NoMemory>
        ensures ok { OnOk result (self.new ≡ put self.old target.now set) }
        ensures err { OnErr result (self.new ≡ self.old) }
    {
        let alloc = *self.sets.allocator();
        let key = Vec::from_slice(alloc, target)?;
        self.sets.insert(key, set)?;
        Ok(())
    }
}

/// The members with the node among them.
pub fn with_member(members: Members, n: NodeId) -> Members
    ensures { result ≡ with_member members n }
{
    let _number = n.number();
    members.with(n)
}

/// The members without the node.
pub fn without_member(members: Members, n: NodeId) -> Members
    ensures { result ≡ without_member members n }
{
    let _number = n.number();
    members.without(n)
}

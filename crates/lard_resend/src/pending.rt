//! What awaits an answer, by connection.

ghost use Rattle.std.specs.Prelude.{◌≡◌, Some, None, false, is_some, IsSome, [], ◌∷◌, ◌≤◌, length, OnOk, OnErr, option_copied, option_map};
ghost use Rattle.std.specs.FinMap as map;
ghost use Rattle.std.specs.List.{find};
ghost use Rattle.lard_base.specs.declared.limits.TheConstants.{MAX_MESSAGE_BYTES};
ghost use Rattle.lard_resend.specs.Kept.{is_under, put_in, without, AreInOrder};
ghost use Rattle.lard_resend.specs.Pending.{AreFit, held, holding, put_list, renewed, sent_of, pending_settled, under};

use crate::kept::{Kept, PendingKey, found, is_under, place_of};
use lard_base::{Bytes, ConnId, Items, NoMemory, Place, TimerKind};
use lard_table::Table;
use std::alloc::Global;
use std::marker::Model;

/// The messages that await an answer, of each connection in the order of their kinds and of the numbers of their requests.
/// It is seen as a finite map from connections to what is held of them; a connection of which nothing is held is not in it.
pub struct Pending {
    alloc: Global,
    all: Table<Items<Kept>>,
}

impl Model for Pending {
    ghost use Rattle.std.specs.Prelude.{List};
    ghost use Rattle.std.specs.Coded.{coded_ℕ, coded_list};
    ghost use Rattle.std.specs.FinMap as map;
    ghost use Rattle.std.specs.Ordering.{nat_cmp};
    ghost use Rattle.lard_resend.specs.contracts.kept.Kept as kept;
    ghost use Rattle.lard_resend.specs.declared.kept.Kept.{Kept};

    ghost Value = { map.FinMap nat_cmp (List Kept) };

    ghost coded = { map.code coded_ℕ (coded_list kept.the_row.coded) };

    ghost view = { λ p. p.all };

    ghost use Rattle.lard_resend.specs.Pending.{AreHeld};

    ghost invariant = { λ p. AreHeld p.all };
}

impl Pending {
    /// Nothing awaits an answer. It takes no memory yet.
    #[tactic(auto, using(crate::proofs::Held::none_held))]
    pub fn new(alloc: Global) -> Pending
        ensures { result ≡ map.empty }
    {
        Pending {
            alloc,
            all: Table::new(alloc),
        }
    }

    /// Holds a message that was sent to this place. Without memory nothing changes. Nothing is held under the key, and
    /// the message fits a packet: at most 2^21 bytes.
    pub fn hold(&mut self, key: PendingKey, to: Place, bytes: Bytes) -> Result<(), NoMemory>
        requires fresh { is_some (under self.old key.c key.kind key.r) ≡ false }
        requires fits { length bytes ≤ MAX_MESSAGE_BYTES }
        ensures ok { OnOk result (self.new ≡ holding self.old key.c (record { kind = key.kind; r = key.r; to = to; bytes = bytes })) }
        ensures err { OnErr result (self.new ≡ self.old) }
    {
        let kept = Kept {
            kind: key.kind,
            r: key.r,
            to,
            bytes,
        };
        add(&mut self.all, self.alloc, key.c.number(), kept)
    }

    /// Holds a message that was sent to this place, in place of what is held under the key. It fits a packet: at most
    /// 2^21 bytes. Without memory nothing is held under the key any longer.
    #[tactic(auto, using(crate::proofs::Renewed::none_left))]
    pub fn renew(&mut self, key: PendingKey, to: Place, bytes: Bytes) -> Result<(), NoMemory>
        requires { length bytes ≤ MAX_MESSAGE_BYTES }
        ensures ok { OnOk result (self.new ≡ renewed self.old key.c (record { kind = key.kind; r = key.r; to = to; bytes = bytes })) }
        ensures err { OnErr result (self.new ≡ pending_settled self.old key.c key.kind key.r) }
    {
        let PendingKey { c, kind, r } = key;
        let _ = self.settle(PendingKey { c, kind, r });
        self.hold(PendingKey { c, kind, r }, to, bytes)
    }

    /// Drops what is held under the key, and answers whether something was.
    pub fn settle(&mut self, key: PendingKey) -> bool
        ensures value { result ≡ is_some (under self.old key.c key.kind key.r) }
        ensures after { self.new ≡ pending_settled self.old key.c key.kind key.r }
    {
        if !self.holds(&key) {
            return false;
        }
        drop_one(&mut self.all, self.alloc, &key);
        true
    }

    /// Whether something is held under the key.
    pub fn holds(&self, key: &PendingKey) -> bool
        ensures { result ≡ is_some (under self.now key.now.c key.now.kind key.now.r) }
    {
        self.get(key).is_some()
    }

    /// What is held under the key, with the place that it goes to; `None` where nothing is.
    pub fn again(&self, key: PendingKey) -> Option<(Place, &[u8])>
        ensures { option_map (λ x. (x.0, x.1.now)) result ≡ option_map sent_of (under self.now key.c key.kind key.r) }
    {
        match self.get(&key) {
            Some(kept) => Some((kept.to, kept.bytes.as_slice())),
            None => None,
        }
    }

    /// What is held under the key, lent; `None` where nothing is.
    pub fn get(&self, key: &PendingKey) -> Option<&Kept>
        ensures { option_copied result ≡ under self.now key.now.c key.now.kind key.now.r }
    {
        found(self.of(key.c), key.kind, key.r)
    }

    /// All that is held of a connection, in order, lent.
    pub fn of(&self, c: ConnId) -> &[Kept]
        ensures value { result.now ≡ held self.now c }
        ensures order { AreInOrder result.now }
        ensures fit { AreFit result.now }
    {
        match self.all.get(c.number()) {
            Some(list) => list.as_slice(),
            None => &[],
        }
    }

    /// Drops all that is held of a connection.
    #[tactic(auto, using(crate::proofs::Held::forgotten))]
    pub fn forget(&mut self, c: ConnId)
        ensures { self.new ≡ map.remove self.old c }
    {
        let _ = self.all.remove(c.number());
    }

    /// Drops all that is held.
    pub fn finish(self) {
        let Pending { alloc: _, mut all } = self;
        while let Some(_list) = all.pop() {}
        all.destroy_empty();
    }
}

/// Holds one message more. Without memory nothing changes.
#[tactic(auto, using(crate::proofs::Maps::back_again, lard_table::proofs::Map::insert_twice))]
fn add(all: &mut Table<Items<Kept>>, alloc: Global, c: u32, kept: Kept) -> Result<(), NoMemory>
    ensures ok { OnOk result (all.new ≡ holding all.old c kept) }
    ensures err { OnErr result (all.new ≡ all.old) }
{
    if all.get(c).is_none() {
        return begin(all, alloc, c, kept);
    }
    let mut list = take_list(all, alloc, c);
    let done = insert_in(&mut list, kept);
    let _ = all.replace(c, Items::from_vec(list));
    done
}

/// Drops what is held under the key, of a connection of which something is held.
#[tactic(auto, using(crate::proofs::Maps::put_list_again))]
fn drop_one(all: &mut Table<Items<Kept>>, alloc: Global, key: &PendingKey)
    requires { IsSome (map.get all.old key.now.c) }
    ensures { all.new ≡ put_list all.old key.now.c (without key.now.kind key.now.r (held all.old key.now.c)) }
{
    let c = key.c.number();
    let mut list = take_list(all, alloc, c);
    leave_out(&mut list, key.kind, key.r);
    put_back(all, c, list);
}

/// Holds the first message of a connection.
fn begin(all: &mut Table<Items<Kept>>, alloc: Global, c: u32, kept: Kept) -> Result<(), NoMemory>
    requires { map.get all.old c ≡ None }
    ensures ok { OnOk result (all.new ≡ map.insert all.old c (kept ∷ [])) }
    ensures err { OnErr result (all.new ≡ all.old) }
{
    let mut list = Items::new(alloc);
    list.push(kept)?;
    let _ = all.insert(c, list)?;
    Ok(())
}

/// Puts the list of a connection back to its place, or takes the connection out where nothing is left.
fn put_back(all: &mut Table<Items<Kept>>, c: u32, list: Vec<Kept>)
    requires { IsSome (map.get all.old c) }
    ensures { all.new ≡ put_list all.old c list.items }
{
    if list.is_empty() {
        let _ = all.remove(c);
        return;
    }
    let _ = all.replace(c, Items::from_vec(list));
}

/// Takes out the list of a connection, in whose place an empty one stands for so long. It takes no memory.
#[tactic(auto, using(lard_table::proofs::Map::get_inserted))]
fn take_list(all: &mut Table<Items<Kept>>, alloc: Global, c: u32) -> Vec<Kept>
    requires { IsSome (map.get all.old c) }
    ensures list { map.get all.old c ≡ Some result.items }
    ensures after { all.new ≡ map.insert all.old c [] }
    ensures there { IsSome (map.get all.new c) }
{
    all.replace(c, Items::new(alloc)).into_vec()
}

/// Puts the message to its place in the order. Without memory the list is as it was.
fn insert_in(list: &mut Vec<Kept>, kept: Kept) -> Result<(), NoMemory>
    ensures ok { OnOk result (list.new.items ≡ put_in kept list.old.items) }
    ensures err { OnErr result (list.new.items ≡ list.old.items) }
{
    let at = place_of(list, kept.kind, kept.r);
    list.insert(at, kept)?;
    Ok(())
}

/// Leaves out what has this kind and number.
fn leave_out(list: &mut Vec<Kept>, kind: TimerKind, r: u32)
    ensures { list.new.items ≡ without kind r list.old.items }
{
    list.retain(|kept| !is_under(kept, kind, r));
}

//! The loads of all nodes, as connections and their shares come and go.

ghost use Rattle.std.specs.Prelude.{◌≡◌, ℕ, ◌+◌, ◌-◌, ◌<◌, ◌≤◌, Some, None, nat_lt, true, is_some, IfOk, IfSome};
ghost use Rattle.std.specs.FinMap as map;
ghost use Rattle.lard_base.specs.Members.{has};
ghost use Rattle.lard_loads.specs.Tally.{admitted as admitted_of, any_below as any_below_of, batch_ended, tally_closed, connected, has_other_open as has_other_open_of, home as home_of, is_open as is_open_of, least as least_node, least_of as least_member, load, most_of as most_member, open_shares as open_shares_of, released, shared, tally_start};

use crate::running::{Running, node};
use crate::slot::{MAX_SHARES, Share, Slot};
use lard_base::{ConnId, Members, NoMemory, NodeId};
use std::alloc::Global;
use std::marker::Model;

/// The load of one connection at its home.
pub const WHOLE: u32 = 840;

/// The loads of 1 to 64 nodes, with room for all connections and eight shares of each, so that no call but `new` takes
/// memory. It is seen as a tally: the open nodes, and the home and the open shares of each admitted connection.
#[derive(Drop)]
pub struct Loads {
    /// The running loads.
    running: Running,
    open_nodes: Members,
    /// One for each connection, by its number.
    slots: Vec<Slot>,
    admitted: u32,
}

impl Model for Loads {
    ghost use Rattle.std.specs.Prelude.{length};
    ghost use Rattle.lard_loads.specs.Loads.{IsTallied, tally_of};
    ghost use Rattle.lard_loads.specs.Tally.{Tally, coded_tally};

    ghost Value = { Tally };

    ghost coded = { coded_tally };

    ghost view = { λ l. tally_of (length l.running) l.open_nodes l.slots.items };

    ghost invariant = { λ l. IsTallied l.running l.open_nodes l.slots.items l.admitted };
}

impl Loads {
    /// So many nodes, 1 to 64, all open, and no connection. It takes all its memory at once. `NoMemory` where memory
    /// runs out.
    pub fn new(alloc: Global, nodes: u8) -> Result<Loads, NoMemory>
        requires some { 1 ≤ nodes }
        requires few { nodes ≤ 64 }
        ensures { IfOk result (λ loads. loads ≡ tally_start nodes) }
    {
        let running = Running::new(alloc, nodes)?;
        let slots = vec![in alloc; Slot::FREE; ConnId::MAX as usize]?;
        Ok(Loads {
            running,
            open_nodes: first_nodes(nodes),
            slots,
            admitted: 0,
        })
    }

    /// Admits a connection, which is not, and assigns it to a node, which is one of these.
    pub fn connect(&mut self, c: ConnId, n: NodeId)
        requires free { map.get self.old.standings c ≡ None }
        requires node { n ≤ self.old.nodes }
        ensures { self.new ≡ connected self.old c n }
    {
        self.slots[at(c)].occupy(n);
        self.running.raise(n.number() as usize, WHOLE);
        self.admitted += 1;
    }

    /// Releases a connection, which is admitted, and its shares with it.
    pub fn release(&mut self, c: ConnId)
        requires admitted { is_some (map.get self.old.standings c) ≡ true }
        ensures { self.new ≡ released self.old c }
    {
        self.batch_over(c);
        self.free(c);
    }

    /// Assigns a later request of a batch of so many, 1 to 8, of an admitted connection to a node, which is one of
    /// these. At its home it counts nothing; elsewhere it opens a share, of which there are fewer than eight.
    pub fn share(&mut self, c: ConnId, n: NodeId, size: u8)
        requires admitted { is_some (map.get self.old.standings c) ≡ true }
        requires node { n ≤ self.old.nodes }
        requires some { 1 ≤ size }
        requires few { size ≤ 8 }
        requires room { open_shares_of self.old c < 8 }
        ensures { self.new ≡ shared self.old c n size }
    {
        if self.slots[at(c)].is_home(n) {
            return;
        }
        let number = n.number();
        let units = WHOLE / size as u32;
        self.slots[at(c)].push(Share {
            node: number as u8,
            units: units as u16,
        });
        self.running.raise(number as usize, units);
    }

    /// Ends the batch of an admitted connection, and answers whether shares of it were open.
    pub fn batch_over(&mut self, c: ConnId) -> bool
        requires admitted { is_some (map.get self.old.standings c) ≡ true }
        ensures open { result ≡ nat_lt 0 (open_shares_of self.old c) }
        ensures after { self.new ≡ batch_ended self.old c }
    {
        let mut any = false;
        while self.end_share(c) {
            any = true;
        }
        any
    }

    /// The load of a node, which is one of these, in 840ths of a connection, to 123,863,040.
    pub fn of(&self, n: NodeId) -> u32
        requires node { n ≤ self.now.nodes }
        ensures load { result ≡ load self.now n }
        ensures most { result ≤ 123863040 }
    {
        self.running.load(n.number() as usize)
    }

    /// How many connections are admitted, to 16,384.
    pub fn admitted(&self) -> u32
        ensures value { result ≡ admitted_of self.now }
        ensures most { result ≤ 16384 }
    {
        self.admitted
    }

    /// The node that a connection was assigned to first; `None` where it is not admitted.
    pub fn home(&self, c: ConnId) -> Option<NodeId>
        ensures { result ≡ home_of self.now c }
    {
        self.slots[at(c)].home()
    }

    /// How many shares of a connection are open, to eight. None is where it is not admitted.
    pub fn open_shares(&self, c: ConnId) -> usize
        ensures { result ≡ open_shares_of self.now c }
    {
        let slot = &self.slots[at(c)];
        match slot.home() {
            Some(_) => slot.open_shares(),
            None => 0,
        }
    }

    /// The least loaded open node, the lowest number at a tie.
    pub fn least(&self) -> NodeId
        ensures node { least_node self.now ≡ Some result }
        ensures within { result ≤ self.now.nodes }
    {
        self.running.least_of(self.open_nodes).unwrap()
    }

    /// The least loaded member, the lowest number at a tie. `None` exactly for an empty set.
    pub fn least_of(&self, members: Members) -> Option<NodeId>
        ensures node { result ≡ least_member self.now members }
        ensures within { IfSome result (λ n. n ≤ self.now.nodes) }
        ensures member { IfSome result (λ n. has members n ≡ true) }
    {
        self.running.least_of(members)
    }

    /// The most loaded member, the highest number at a tie. `None` exactly for an empty set.
    pub fn most_of(&self, members: Members) -> Option<NodeId>
        ensures node { result ≡ most_member self.now members }
        ensures within { IfSome result (λ n. n ≤ self.now.nodes) }
        ensures member { IfSome result (λ n. has members n ≡ true) }
    {
        self.running.most_of(members)
    }

    /// Whether an open node's load is below so many 840ths.
    pub fn any_below(&self, units: u32) -> bool
        ensures { result ≡ any_below_of self.now units }
    {
        self.of(self.least()) < units
    }

    /// Whether a node other than this one is open.
    pub fn has_other_open(&self, n: NodeId) -> bool
        ensures { result ≡ has_other_open_of self.now n }
    {
        self.running.least_of(self.open_nodes.without(n)).is_some()
    }

    /// Closes a node to new assignments; connections stay there. Another node is open.
    pub fn close(&mut self, n: NodeId)
        requires other { has_other_open_of self.old n ≡ true }
        ensures { self.new ≡ tally_closed self.old n }
    {
        self.open_nodes = self.open_nodes.without(n);
    }

    /// Whether the node is one of these, and open to new assignments.
    pub fn is_open(&self, n: NodeId) -> bool
        ensures { result ≡ is_open_of self.now n }
    {
        n.number() as usize <= self.running.nodes() && self.open_nodes.has(n)
    }

    /// Ends the share of an admitted connection that was opened last, and answers whether there was one.
    fn end_share(&mut self, c: ConnId) -> bool
        requires admitted { is_some (map.get self.old.standings c) ≡ true }
        ensures open { result ≡ nat_lt 0 (open_shares_of self.old c) }
        ensures fewer { open_shares_of self.new c ≡ open_shares_of self.old c - 1 }
        ensures others { batch_ended self.new c ≡ batch_ended self.old c }
        ensures admitted { is_some (map.get self.new.standings c) ≡ true }
    {
        let Some(share) = self.slots[at(c)].pop() else {
            return false;
        };
        self.running.lower(share.node as usize, share.units as u32);
        true
    }

    /// Frees the slot of an admitted connection without shares.
    fn free(&mut self, c: ConnId)
        requires admitted { is_some (map.get self.old.standings c) ≡ true }
        requires no_shares { open_shares_of self.old c ≡ 0 }
        ensures { self.new ≡ released self.old c }
    {
        let slot = &mut self.slots[at(c)];
        let home = slot.home().unwrap();
        slot.vacate();
        self.running.lower(home.number() as usize, WHOLE);
        self.admitted -= 1;
    }
}

/// Where the slot of a connection is.
fn at(c: ConnId) -> usize
    ensures value { result + 1 ≡ c }
    ensures within { result < 16384 }
{
    c.number() as usize - 1
}

/// The nodes up to this number.
fn first_nodes(nodes: u8) -> Members
    requires few { nodes ≤ 64 }
    ensures { (k : ℕ) → 1 ≤ k → k ≤ nodes → has result k ≡ true }
{
    let mut members = Members::none();
    for below in 0..nodes as u32 {
        members = members.with(node(below + 1));
    }
    members
}

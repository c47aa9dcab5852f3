//! The running loads of the nodes, and the least and the most loaded of a set.

ghost use Rattle.std.specs.Prelude.{◌≡◌, ◌<◌, ◌≤◌, ◌+◌, ◌-◌, ◌^◌, Some, length, replicate, slice_set, IfOk, IfSome, if◌then◌else◌};
ghost use Rattle.std.specs.List.{filter};
ghost use Rattle.lard_base.specs.Members.{has};
ghost use Rattle.lard_loads.specs.Order.{earlier, is_before, least_in, most_in};
ghost use Rattle.lard_loads.specs.Running.{at_node};
ghost use Rattle.lard_loads.specs.Tally.{numbers};

use lard_base::{Members, NoMemory, NodeId};
use std::alloc::Global;
use std::marker::Model;

/// The loads of nodes 1 to at most 64. The least and the most loaded are looked up by one walk over the nodes.
#[derive(Drop)]
pub struct Running {
    loads: Vec<u32>,
}

impl Model for Running {
    ghost use Rattle.std.specs.Prelude.{ℕ, ◌≤◌, List, length};

    ghost Value = { List ℕ };

    ghost view = { λ r. r.loads.items };

    ghost invariant = { λ r. length r.loads.items ≤ 64 };
}

impl Running {
    /// So many nodes, at most 64, without load. `NoMemory` where memory runs out.
    pub fn new(alloc: Global, nodes: u8) -> Result<Running, NoMemory>
        requires few { nodes ≤ 64 }
        ensures { IfOk result (λ running. running ≡ replicate nodes 0) }
    {
        let loads = vec![in alloc; 0; nodes as usize]?;
        Ok(Running { loads })
    }

    /// How many nodes there are, to 64.
    pub fn nodes(&self) -> usize
        ensures value { result ≡ length self.now }
        ensures most { result ≤ 64 }
    {
        self.loads.len()
    }

    /// The load of the node with this number, from 1, in 840ths of a connection.
    pub fn load(&self, number: usize) -> u32
        requires some { 1 ≤ number }
        requires most { number ≤ length self.now }
        ensures { result ≡ at_node self.now number }
    {
        self.loads[number - 1]
    }

    /// Adds so many 840ths of a connection to a node's load, which stays below 2^32.
    pub fn raise(&mut self, number: usize, units: u32)
        requires some { 1 ≤ number }
        requires most { number ≤ length self.old }
        requires fits { at_node self.old number + units < 2 ^ 32 }
        ensures { self.new ≡ slice_set self.old (number - 1) (at_node self.old number + units) }
    {
        self.loads[number - 1] += units;
    }

    /// Takes so many 840ths of a connection from a node's load, which has as many.
    pub fn lower(&mut self, number: usize, units: u32)
        requires some { 1 ≤ number }
        requires most { number ≤ length self.old }
        requires there { units ≤ at_node self.old number }
        ensures { self.new ≡ slice_set self.old (number - 1) (at_node self.old number - units) }
    {
        self.loads[number - 1] -= units;
    }

    /// The least loaded of these nodes, the lowest number at a tie. Those that there are not do not count; `None` where
    /// none of them is there.
    pub fn least_of(&self, members: Members) -> Option<NodeId>
        ensures { result ≡ least_in (at_node self.now) (filter (has members) (numbers (length self.now))) }
    {
        least(self.loads.as_slice(), members)
    }

    /// The most loaded of these nodes, the highest number at a tie. Those that there are not do not count; `None` where
    /// none of them is there.
    pub fn most_of(&self, members: Members) -> Option<NodeId>
        ensures { result ≡ most_in (at_node self.now) (filter (has members) (numbers (length self.now))) }
    {
        most(self.loads.as_slice(), members)
    }
}

/// The node with this number, 1 to 64.
pub fn node(number: u32) -> NodeId
    requires some { 1 ≤ number }
    requires most { number ≤ 64 }
    ensures { result ≡ number }
{
    NodeId::new(number).unwrap()
}

/// The least loaded of these nodes, from the last one on.
fn least(loads: &[u32], members: Members) -> Option<NodeId>
    requires few { length loads.now ≤ 64 }
    ensures { result ≡ least_in (at_node loads.now) (filter (has members) (numbers (length loads.now))) }
{
    let mut best = None;
    let mut left = loads.len();
    while left > 0 {
        let n = node(left as u32);
        if members.has(n) {
            best = Some(lesser(loads, n, best));
        }
        left -= 1;
    }
    best
}

/// The most loaded of these nodes, from the last one on.
fn most(loads: &[u32], members: Members) -> Option<NodeId>
    requires few { length loads.now ≤ 64 }
    ensures { result ≡ most_in (at_node loads.now) (filter (has members) (numbers (length loads.now))) }
{
    let mut best = None;
    let mut left = loads.len();
    while left > 0 {
        let n = node(left as u32);
        if members.has(n) {
            best = Some(greater(loads, n, best));
        }
        left -= 1;
    }
    best
}

/// The less loaded of a node and the least loaded of others, where there are some.
fn lesser(loads: &[u32], n: NodeId, best: Option<NodeId>) -> NodeId
    requires node { n ≤ length loads.now }
    requires others { IfSome best (λ m. m ≤ length loads.now) }
    ensures which { result ≡ earlier (is_before (at_node loads.now)) n best }
    ensures within { result ≤ length loads.now }
{
    match best {
        Some(m) => { if comes_before(loads, m, n) { m } else { n } }
        None => n,
    }
}

/// The more loaded of a node and the most loaded of others, where there are some.
fn greater(loads: &[u32], n: NodeId, best: Option<NodeId>) -> NodeId
    requires node { n ≤ length loads.now }
    requires others { IfSome best (λ m. m ≤ length loads.now) }
    ensures which { result ≡ earlier (λ a b. is_before (at_node loads.now) b a) n best }
    ensures within { result ≤ length loads.now }
{
    match best {
        Some(m) => { if comes_before(loads, n, m) { m } else { n } }
        None => n,
    }
}

/// Whether the node comes before the other one.
fn comes_before(loads: &[u32], node: NodeId, other: NodeId) -> bool
    requires node { node ≤ length loads.now }
    requires other { other ≤ length loads.now }
    ensures { result ≡ is_before (at_node loads.now) node other }
{
    let load = loads[node.number() as usize - 1];
    let other_load = loads[other.number() as usize - 1];
    load < other_load || load == other_load && node.number() < other.number()
}

//! Loads to begin with: so many connections at each node.

ghost use Rattle.std.specs.Prelude.{◌≤◌, IfSome};

use lard_base::{ConnId, Members, NoMemory, NodeId};
use lard_loads::Loads;
use std::alloc::Global;

/// The node of this number, where the loads have it.
pub fn node_of(loads: &Loads, number: u32) -> Option<NodeId>
    ensures { IfSome result (λ n. n ≤ loads.now.nodes) }
{
    loads.least_of(Members::none().with(NodeId::new(number)?))
}

/// Admits a connection and assigns it to a node, where it is not admitted yet and there is such a node.
fn connect(loads: &mut Loads, number: u32, home: u32) -> Option<()> {
    let c = ConnId::new(number)?;
    let n = node_of(loads, home)?;
    if loads.home(c).is_none() {
        loads.connect(c, n);
    }
    Some(())
}

/// Assigns so many connections to a node.
fn connect_all(loads: &mut Loads, home: u8, count: u8) {
    for k in 0..count {
        connect(loads, 256 * home as u32 + k as u32, home as u32);
    }
}

/// The loads of so many nodes, with so many connections at the first of them, the second, and so on.
pub fn loads_of(alloc: Global, nodes: u8, counts: &[u8]) -> Result<Loads, NoMemory>
    requires some { 1 ≤ nodes }
    requires few { nodes ≤ 64 }
{
    let mut loads = Loads::new(alloc, nodes)?;
    for (home, count) in (1..=nodes).zip(counts) {
        connect_all(&mut loads, home, *count);
    }
    Ok(loads)
}

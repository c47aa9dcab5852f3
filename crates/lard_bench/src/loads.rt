//! Connections with shares at 64 nodes, of which one is released and connected again over and over.

ghost use Rattle.std.specs.Prelude.{◌≡◌, ◌≤◌, IfSome};

use lard_base::{ConnId, NodeId};
use lard_loads::Loads;
use std::alloc::Global;

/// How many nodes there are.
const NODES: u8 = 64;

/// How often node 2 was the least loaded, where connection 1 is released and connected again so many times, beside 16,384
/// connections with eight shares each. `None` where memory runs out.
pub fn churn(alloc: Global, times: u32) -> Option<u32> {
    let mut loads = Loads::new(alloc, NODES).ok()?;
    fill(&mut loads)?;
    come_and_go(&mut loads, times)
}

/// Connects each connection at the nodes in turn, and opens eight shares of it at the next node.
fn fill(loads: &mut Loads) -> Option<()>
    requires { loads.old.nodes ≡ 64 }
    ensures { loads.new.nodes ≡ 64 }
{
    for below in 0..ConnId::MAX {
        let c = ConnId::new(below + 1)?;
        connect(loads, c, below % 64 + 1)?;
        open_eight(loads, c, (below + 1) % 64 + 1)?;
    }
    Some(())
}

fn open_eight(loads: &mut Loads, c: ConnId, n: u32) -> Option<()>
    requires { n ≤ loads.old.nodes }
    ensures { loads.new.nodes ≡ loads.old.nodes }
{
    for _ in 0..8 {
        share(loads, c, n)?;
    }
    Some(())
}

fn come_and_go(loads: &mut Loads, times: u32) -> Option<u32>
    requires { loads.old.nodes ≡ 64 }
{
    let c = ConnId::new(1)?;
    let mut second = 0u32;
    for _ in 0..times {
        release(loads, c);
        connect(loads, c, 1)?;
        if loads.least().number() == 2 {
            second = second.wrapping_add(1);
        }
    }
    Some(second)
}

fn connect(loads: &mut Loads, c: ConnId, n: u32) -> Option<()>
    requires { n ≤ loads.old.nodes }
    ensures { loads.new.nodes ≡ loads.old.nodes }
{
    let n = node(n)?;
    if loads.home(c).is_none() {
        loads.connect(c, n);
    }
    Some(())
}

#[tactic(auto, using(lard_loads::proofs::Nodes::nodes_shared))]
fn share(loads: &mut Loads, c: ConnId, n: u32) -> Option<()>
    requires { n ≤ loads.old.nodes }
    ensures { loads.new.nodes ≡ loads.old.nodes }
{
    let n = node(n)?;
    if loads.home(c).is_some() && loads.open_shares(c) < 8 {
        loads.share(c, n, 8);
    }
    Some(())
}

fn release(loads: &mut Loads, c: ConnId)
    ensures { loads.new.nodes ≡ loads.old.nodes }
{
    if loads.home(c).is_some() {
        loads.release(c);
    }
}

fn node(number: u32) -> Option<NodeId>
    ensures { IfSome result (λ n. n ≡ number) }
{
    NodeId::new(number)
}

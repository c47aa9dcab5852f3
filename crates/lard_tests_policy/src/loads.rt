//! Each public call once, and rows that were worked out by hand.

ghost use Rattle.std.specs.Prelude.{◌≡◌, ◌≤◌};

use lard_base::{ConnId, Members, NoMemory, NodeId};
use lard_loads::Loads;
use std::alloc::Global;

/// What is called for a connection, with the number of a node, and the size of the batch.
#[derive(Clone, Copy)]
enum Call {
    Connect(u32),
    Share(u32, u8),
    BatchOver,
    Release,
}

/// Calls for connections with two nodes, and the loads of both after each.
const BATCHES: &[(u32, Call, (u32, u32))] = &[
    (1, Call::Connect(1), (840, 0)),
    (2, Call::Connect(2), (840, 840)),
    (3, Call::Connect(1), (1_680, 840)),
    (3, Call::Share(2, 8), (1_680, 945)),
    (3, Call::Share(2, 8), (1_680, 1_050)),
    (3, Call::Share(2, 8), (1_680, 1_155)),
    (3, Call::Share(2, 8), (1_680, 1_260)),
    (3, Call::Share(2, 8), (1_680, 1_365)),
    (3, Call::Share(2, 8), (1_680, 1_470)),
    (3, Call::Share(2, 8), (1_680, 1_575)),
    (3, Call::Share(1, 8), (1_680, 1_575)),
    (3, Call::BatchOver, (1_680, 840)),
    (3, Call::Share(2, 1), (1_680, 1_680)),
    (3, Call::Release, (840, 840)),
];

/// The load of a node, where there is such a node.
fn load(loads: &Loads, number: u32) -> Option<u32> {
    let n = loads.least_of(Members::none().with(NodeId::new(number)?))?;
    Some(loads.of(n))
}

/// The place of the first of the calls after which the loads are not those that stand beside it.
fn first_wrong(loads: &mut Loads) -> Option<usize>
    requires { loads.old.nodes ≡ 2 }
{
    for (at, (c, call, want)) in BATCHES.iter().enumerate() {
        apply(loads, 2, *c, *call);
        if (load(loads, 1), load(loads, 2)) != (Some(want.0), Some(want.1)) {
            return Some(at);
        }
    }
    None
}

/// The place of the first wrong call, and how many are admitted behind the last.
fn counted(alloc: Global) -> Result<(Option<usize>, u32), NoMemory> {
    let mut loads = Loads::new(alloc, 2)?;
    let wrong = first_wrong(&mut loads);
    Ok((wrong, loads.admitted()))
}

#[test]
fn loads_are_counted(rt: HostRuntime) {
    assert_eq!(rt; counted(rt.alloc()), Ok((None, 2)));
}

/// The loads of three nodes with 3, 1 and 1 connections.
fn with_five(alloc: Global) -> Result<Loads, NoMemory> {
    let mut loads = Loads::new(alloc, 3)?;
    for (c, n) in &[(1, 1), (2, 1), (3, 1), (4, 2), (5, 3)] {
        apply(&mut loads, 3, *c, Call::Connect(*n));
    }
    Ok(loads)
}

/// The least and the most loaded of two nodes.
fn ends(loads: &Loads, first: u32, second: u32) -> Option<(u32, u32)> {
    let members = Members::none()
        .with(NodeId::new(first)?)
        .with(NodeId::new(second)?);
    let least = loads.least_of(members)?;
    let most = loads.most_of(members)?;
    Some((least.number(), most.number()))
}

/// The least and the most loaded of four pairs of nodes.
fn ends_of_pairs(loads: &Loads) -> [Option<(u32, u32)>; 4] {
    [
        ends(loads, 1, 3),
        ends(loads, 2, 3),
        ends(loads, 1, 2),
        ends(loads, 3, 3),
    ]
}

/// The least loaded of all nodes; whether there is one below 840, and below 841; and whether there is a least one of no nodes.
fn least(loads: &Loads) -> (u32, bool, bool, bool) {
    let one = loads.least_of(Members::none());
    (
        loads.least().number(),
        loads.any_below(840),
        loads.any_below(841),
        one.is_some(),
    )
}

#[test]
fn nodes_are_chosen(rt: HostRuntime) {
    let found = match with_five(rt.alloc()) {
        Ok(loads) => Some((least(&loads), ends_of_pairs(&loads))),
        Err(NoMemory) => None,
    };
    let pairs = [Some((3, 1)), Some((2, 3)), Some((2, 1)), Some((3, 3))];
    assert_eq!(rt; found, Some(((2, false, true, false), pairs)));
}

/// The least loaded of two nodes, whether each is open, and whether each has another one that is open.
fn open(loads: &Loads, one: NodeId, two: NodeId) -> (u32, [bool; 2], [bool; 2]) {
    (
        loads.least().number(),
        [loads.is_open(one), loads.is_open(two)],
        [loads.has_other_open(one), loads.has_other_open(two)],
    )
}

/// What is open of two nodes, before and after the first is closed.
fn closed(loads: &mut Loads) -> Option<[(u32, [bool; 2], [bool; 2]); 2]> {
    let one = NodeId::new(1)?;
    let two = NodeId::new(2)?;
    let before = open(loads, one, two);
    if loads.has_other_open(one) {
        loads.close(one);
    }
    Some([before, open(loads, one, two)])
}

#[test]
fn nodes_are_closed(rt: HostRuntime) {
    let found = match Loads::new(rt.alloc(), 2) {
        Ok(mut loads) => closed(&mut loads),
        Err(NoMemory) => None,
    };
    assert_eq!(rt;
        found,
        Some([
            (1, [true, true], [true, true]),
            (2, [false, true], [true, false])
        ])
    );
}

/// The load of 512 connections, in 840ths: half of it is that of shares.
const FULL: u32 = 430_080;

/// As many connections as there may be, at 64 nodes in turn, each with eight shares at the next node.
fn fill(loads: &mut Loads)
    requires { loads.old.nodes ≡ 64 }
    ensures { loads.new.nodes ≡ 64 }
{
    for below in 0..ConnId::MAX {
        let c = below + 1;
        apply(loads, 64, c, Call::Connect(below % 64 + 1));
        share_eight(loads, c);
    }
}

fn share_eight(loads: &mut Loads, c: u32)
    requires { loads.old.nodes ≡ 64 }
    ensures { loads.new.nodes ≡ 64 }
{
    for _ in 0..8 {
        apply(loads, 64, c, Call::Share(c % 64 + 1, 8));
    }
}

/// The first of 64 nodes that is not full.
fn first_unfilled(loads: &Loads) -> Option<u32> {
    for number in 1..65 {
        if load(loads, number) != Some(FULL) {
            return Some(number);
        }
    }
    None
}

/// Releases one connection and admits it again, a million times: the first turn behind which the second node is not the least
/// loaded.
fn first_that_differs(loads: &mut Loads) -> Option<u32>
    requires { loads.old.nodes ≡ 64 }
{
    for turn in 0..1_000_000 {
        apply(loads, 64, 1, Call::Release);
        apply(loads, 64, 1, Call::Connect(1));
        if loads.least().number() != 2 {
            return Some(turn);
        }
    }
    None
}

/// How many connections are admitted, which node is not full, and which turn differs.
fn run_on(alloc: Global) -> Result<(u32, Option<u32>, Option<u32>), NoMemory> {
    let mut loads = Loads::new(alloc, 64)?;
    fill(&mut loads);
    let admitted = loads.admitted();
    let unfilled = first_unfilled(&loads);
    Ok((admitted, unfilled, first_that_differs(&mut loads)))
}

/// A million releases, each followed by a choice: the loads are kept as they run. A body that adds up all slots for a
/// choice would go through a hundred thousand million of them, which no test has the time for.
#[test]
fn loads_run_on(rt: HostRuntime) {
    assert_eq!(rt; run_on(rt.alloc()), Ok((ConnId::MAX, None, None)));
}

/// Makes a call for a connection, where its conditions hold, on loads of so many nodes or more.
#[tactic(auto, using(lard_loads::proofs::Nodes::nodes_shared, lard_loads::proofs::Nodes::nodes_ended))]
fn apply(loads: &mut Loads, nodes: u32, c: u32, call: Call) -> Option<()>
    requires { nodes ≤ loads.old.nodes }
    ensures { loads.new.nodes ≡ loads.old.nodes }
{
    let c = ConnId::new(c)?;
    match call {
        Call::Connect(n) => {
            if loads.home(c).is_none() && n <= nodes {
                loads.connect(c, NodeId::new(n)?);
            }
        }
        Call::Share(n, size) => {
            if loads.home(c).is_some()
                && n <= nodes
                && loads.open_shares(c) < 8
                && size >= 1
                && size <= 8
            {
                loads.share(c, NodeId::new(n)?, size);
            }
        }
        Call::BatchOver => {
            if loads.home(c).is_some() {
                loads.batch_over(c);
            }
        }
        Call::Release => {
            if loads.home(c).is_some() {
                loads.release(c);
            }
        }
    }
    Some(())
}

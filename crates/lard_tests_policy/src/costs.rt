//! The worked choices with their costs, and ample memory.

ghost use Rattle.std.specs.Prelude.{◌≡◌, ◌≤◌, ℕ, true};
ghost use Rattle.lard_base.specs.Members.{has};

use crate::given::{loads_of, node_of};
use lard_base::{Config, Members, NoMemory, NodeId};
use lard_costs::{Cost, choose_later, cost_at};
use lard_loads::Loads;
use lard_sets::with_member;
use std::alloc::Global;

/// The loads of two nodes in connections; whether node 1 is closed, and which nodes are members; the jobs in the queue of
/// node 1, the connection's own; what both cost; and the choice: the node, and the one that joins, or 0.
type Row = ([u8; 2], bool, [bool; 2], u32, [Cost; 2], (u32, u32));

/// So many connections.
const ONE: u64 = 840;

const ROWS: [Row; 9] = [
    (
        [10, 10],
        false,
        [false, true],
        4,
        [Cost::Units(50 * ONE), Cost::Units(ONE)],
        (1, 1),
    ),
    (
        [10, 10],
        false,
        [false, true],
        5,
        [Cost::Units(50 * ONE), Cost::Units(ONE)],
        (2, 0),
    ),
    (
        [10, 74],
        false,
        [false, true],
        5,
        [Cost::Units(50 * ONE), Cost::Units(50 * ONE)],
        (1, 1),
    ),
    (
        [131, 131],
        false,
        [false, true],
        5,
        [Cost::Over, Cost::Over],
        (1, 1),
    ),
    (
        [130, 25],
        false,
        [false, true],
        5,
        [Cost::Units(205 * ONE), Cost::Units(ONE)],
        (2, 0),
    ),
    (
        [130, 131],
        false,
        [false, true],
        5,
        [Cost::Units(205 * ONE), Cost::Over],
        (1, 1),
    ),
    (
        [90, 10],
        false,
        [true, true],
        5,
        [Cost::Units(66 * ONE), Cost::Units(ONE)],
        (1, 0),
    ),
    (
        [10, 10],
        true,
        [false, true],
        4,
        [Cost::Units(50 * ONE), Cost::Units(ONE)],
        (1, 0),
    ),
    (
        [25, 10],
        false,
        [false, false],
        5,
        [Cost::Units(100 * ONE), Cost::Units(50 * ONE)],
        (1, 1),
    ),
];

/// Closes the first node, where the second is open.
fn close_first(loads: &mut Loads) {
    if let Some(one) = node_of(loads, 1) {
        if loads.has_other_open(one) {
            loads.close(one);
        }
    }
}

/// The members, with one more where it is to be one.
fn with(loads: &Loads, set: Members, n: NodeId, is_member: bool) -> Members
    requires node { n ≤ loads.now.nodes }
    requires within { (k : ℕ) → has set k ≡ true → k ≤ loads.now.nodes }
    ensures { (k : ℕ) → has result k ≡ true → k ≤ loads.now.nodes }
{
    if !is_member {
        return set;
    }
    let _number = n.number();
    with_member(set, n)
}

/// Those of two nodes that are to be members.
fn members_of(loads: &Loads, one: NodeId, two: NodeId, flags: [bool; 2]) -> Members
    requires one { one ≤ loads.now.nodes }
    requires two { two ≤ loads.now.nodes }
    ensures { (k : ℕ) → has result k ≡ true → k ≤ loads.now.nodes }
{
    let first = with(loads, Members::none(), one, flags[0]);
    with(loads, first, two, flags[1])
}

/// What both nodes cost, and the choice.
fn choice(loads: &Loads, flags: [bool; 2], queue: u32) -> Option<([Cost; 2], (u32, u32))> {
    let cfg = Config::standard();
    let one = node_of(loads, 1)?;
    let two = node_of(loads, 2)?;
    let set = members_of(loads, one, two, flags);
    let costs = [
        cost_at(loads, &cfg, set, one),
        cost_at(loads, &cfg, set, two),
    ];
    let choice = choose_later(one, set, loads, queue, &cfg);
    let joins = match choice.add {
        Some(n) => n.number(),
        None => 0,
    };
    Some((costs, (choice.node.number(), joins)))
}

/// The same with the loads of a row.
fn chosen(alloc: Global, row: &Row) -> Result<Option<([Cost; 2], (u32, u32))>, NoMemory> {
    let (counts, closed, flags, queue, _, _) = row;
    let mut loads = loads_of(alloc, 2, counts)?;
    if *closed {
        close_first(&mut loads);
    }
    Ok(choice(&loads, *flags, *queue))
}

/// The place of the first row with another choice.
fn first_wrong(alloc: Global) -> Result<Option<usize>, NoMemory> {
    for (at, row) in ROWS.iter().enumerate() {
        if chosen(alloc, row)? != Some((row.4, row.5)) {
            return Ok(Some(at));
        }
    }
    Ok(None)
}

#[test]
fn the_cheapest_is_chosen(rt: HostRuntime) {
    assert_eq!(rt; first_wrong(rt.alloc()), Ok(None));
}

//! The worked choices, with ample memory.

use crate::given::loads_of;
use lard_base::{Config, Members, Millis, NoMemory, NodeId};
use lard_policy::choose_first;
use std::alloc::Global;

/// The loads of three nodes in connections, whether each is a member, the time, and the choice: the node, and those that
/// join and leave, or 0.
type Row = ([u8; 3], [bool; 3], u64, (u32, u32, u32));

/// With `low` 2, `high` 3 and `age` 20,000. No set was changed since 0.
const ROWS: &[Row] = &[
    ([3, 0, 0], [true, false, false], 0, (1, 0, 0)),
    ([4, 2, 2], [true, false, false], 0, (1, 0, 0)),
    ([4, 1, 2], [true, false, false], 0, (2, 2, 0)),
    ([6, 2, 2], [true, false, false], 0, (2, 2, 0)),
    ([6, 6, 6], [true, false, false], 0, (1, 0, 0)),
    ([1, 0, 0], [false, false, false], 0, (2, 2, 0)),
    ([1, 1, 0], [true, true, false], 20_000, (1, 0, 0)),
    ([1, 1, 0], [true, true, false], 20_001, (1, 0, 2)),
    ([2, 1, 0], [true, true, false], 20_001, (2, 0, 1)),
    ([1, 0, 0], [true, false, false], 20_001, (1, 0, 0)),
    ([4, 1, 2], [true, false, false], 20_001, (2, 2, 1)),
    ([4, 5, 0], [true, true, false], 20_001, (3, 3, 2)),
    ([7, 6, 6], [true, false, true], 20_001, (2, 2, 1)),
];

/// Those of three nodes that are to be members.
fn members_of(flags: [bool; 3]) -> Members {
    let mut members = Members::none();
    for (number, flag) in (1..4).zip(flags) {
        if let (Some(n), true) = (NodeId::new(number), flag) {
            members = members.with(n);
        }
    }
    members
}

/// The number of a node, or 0.
fn number(n: Option<NodeId>) -> u32 {
    match n {
        Some(n) => n.number(),
        None => 0,
    }
}

/// The choice of a row.
fn chosen(alloc: Global, row: &Row) -> Result<(u32, u32, u32), NoMemory> {
    let cfg = Config {
        nodes: 3,
        low: 2,
        high: 3,
        ..Config::standard()
    };
    let (counts, flags, now, _) = row;
    let loads = loads_of(alloc, 3, counts)?;
    let set = members_of(*flags);
    let choice = choose_first(set, &loads, Millis(*now), Millis(0), &cfg);
    Ok((
        choice.node.number(),
        number(choice.add),
        number(choice.remove),
    ))
}

/// The place of the first row with another choice.
fn first_wrong(alloc: Global) -> Result<Option<usize>, NoMemory> {
    for (at, row) in ROWS.iter().enumerate() {
        if chosen(alloc, row)? != row.3 {
            return Ok(Some(at));
        }
    }
    Ok(None)
}

#[test]
fn choices_follow_the_thresholds(rt: HostRuntime) {
    assert_eq!(rt; first_wrong(rt.alloc()), Ok(None));
}

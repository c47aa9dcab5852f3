//! Each call once, with ample memory.

use lard_base::{Millis, NoMemory, NodeId};
use lard_sets::Sets;
use std::alloc::Global;

/// Which of the nodes 1, 2 and 64 are members of a target's set, and when it was last changed.
type Seen = ([bool; 3], u64);

/// How many targets have a place, and what is seen of `/a`, `/b` and `/c`.
type State = (usize, [Seen; 3]);

/// A set without members that was never changed.
const EMPTY: Seen = ([false, false, false], 0);

/// What is seen of a target.
fn seen(sets: &Sets, nodes: [NodeId; 3], target: &[u8]) -> Seen {
    let members = sets.members(target);
    let [one, two, last] = nodes;
    (
        [members.has(one), members.has(two), members.has(last)],
        sets.last_mod(target).0,
    )
}

fn state(sets: &Sets, nodes: [NodeId; 3]) -> State {
    (
        sets.places(),
        [
            seen(sets, nodes, b"/a"),
            seen(sets, nodes, b"/b"),
            seen(sets, nodes, b"/c"),
        ],
    )
}

/// A target gets a place, and two of them get members: the state then, each time.
fn grow(sets: &mut Sets, nodes: [NodeId; 3]) -> Result<[State; 2], NoMemory> {
    let [one, two, last] = nodes;
    sets.touch(b"/a")?;
    let touched = state(sets, nodes);
    sets.add(b"/a", last, Millis(5))?;
    sets.add(b"/a", one, Millis(7))?;
    sets.add(b"/b", two, Millis(8))?;
    sets.add(b"/b", one, Millis(8))?;
    sets.touch(b"/a")?;
    Ok([touched, state(sets, nodes)])
}

/// A member is removed, a node is closed, and a place is given up: the state then, each time.
fn shrink(sets: &mut Sets, nodes: [NodeId; 3]) -> [State; 3] {
    let [one, _, last] = nodes;
    sets.remove(b"/a", last, Millis(9));
    sets.remove(b"/c", last, Millis(9));
    let removed = state(sets, nodes);
    sets.close(one);
    let closed = state(sets, nodes);
    sets.truncate(1);
    [removed, closed, state(sets, nodes)]
}

fn changed(alloc: Global, nodes: [NodeId; 3]) -> Result<([State; 2], [State; 3]), NoMemory> {
    let mut sets = Sets::new(alloc);
    let grown = grow(&mut sets, nodes)?;
    Ok((grown, shrink(&mut sets, nodes)))
}

fn three_nodes() -> Option<[NodeId; 3]> {
    Some([NodeId::new(1)?, NodeId::new(2)?, NodeId::new(64)?])
}

#[test]
fn sets_follow_their_changes(rt: HostRuntime) {
    let nodes = three_nodes().expect(&rt, "the numbers of nodes");
    let grown = [
        (1, [EMPTY; 3]),
        (
            2,
            [([true, false, true], 7), ([true, true, false], 8), EMPTY],
        ),
    ];
    let shrunk = [
        (
            2,
            [([true, false, false], 9), ([true, true, false], 8), EMPTY],
        ),
        (
            2,
            [([false, false, false], 9), ([false, true, false], 8), EMPTY],
        ),
        (1, [([false, false, false], 9), EMPTY, EMPTY]),
    ];
    assert_eq!(rt; changed(rt.alloc(), nodes), Ok((grown, shrunk)));
}

//! Each call with ample memory, as in the worked examples, all at time 0.

ghost use Rattle.std.specs.Prelude.{◌≡◌, OnOk};
ghost use Rattle.lard_dispatch.specs.Sound.{AreBefore};

use lard_base::{Config, ConnId, Items, Members, Millis, NoMemory, NodeId, Path};
use lard_dispatch::{Ask, Dispatch, First, Later};
use std::alloc::Global;

/// A connection comes with its first request, where it is neither admitted nor waits: the node that it goes to, or 0 where
/// it waits.
fn first(dispatch: &mut Dispatch, alloc: Global, c: ConnId, target: &[u8]) -> Result<u32, NoMemory>
    requires { AreBefore 0 dispatch.old.books.sets }
    ensures { OnOk result (AreBefore 0 dispatch.new.books.sets) }
{
    if dispatch.waits(c) {
        return Err(NoMemory);
    }
    match dispatch.loads().home(c) {
        Some(_) => return Err(NoMemory),
        None => {}
    }
    let target = Path::from_slice(alloc, target)?;
    match dispatch.first(c, &target, Millis(0))? {
        First::Go(choice) => Ok(choice.node.number()),
        First::Waits => Ok(0),
    }
}

/// So many paths, all the same.
fn paths(alloc: Global, count: usize) -> Result<Items<Path>, NoMemory> {
    let mut paths = Items::new(alloc);
    for _turn in 0..count {
        paths.push(Path::from_slice(alloc, b"/b")?)?;
    }
    Ok(paths)
}

/// What a batch gets: whether the one before it was over, how many choices come, and how many of them are node 2.
type Batch = (bool, usize, usize);

/// Asks for so many further requests, all for one path, of an admitted connection.
fn later(
    dispatch: &mut Dispatch,
    alloc: Global,
    c: ConnId,
    size: u8,
    count: usize,
) -> Result<Batch, NoMemory>
    requires { AreBefore 0 dispatch.old.books.sets }
    ensures { OnOk result (AreBefore 0 dispatch.new.books.sets) }
{
    let Some(home) = dispatch.loads().home(c) else {
        return Err(NoMemory);
    };
    let paths = paths(alloc, count)?;
    let len = paths.len();
    if len < 1 || len > size as usize || size > 8 {
        return Err(NoMemory);
    }
    let ask = Ask {
        c,
        home,
        number: 1,
        queue: 5,
        size,
        paths,
    };
    let later = dispatch.later(&ask, Millis(0))?;
    Ok((later.over, later.choices.len(), count_of(&later, 2)))
}

/// How many of the choices are this node.
fn count_of(later: &Later, number: u32) -> usize {
    later
        .choices
        .as_slice()
        .iter()
        .filter(|choice| choice.node.number() == number)
        .count()
}

/// An admitted connection ends: who is admitted in its place, and where.
fn ended(dispatch: &mut Dispatch, c: ConnId) -> Result<Option<(u32, u32)>, NoMemory>
    requires { AreBefore 0 dispatch.old.books.sets }
    ensures { OnOk result (AreBefore 0 dispatch.new.books.sets) }
{
    match dispatch.loads().home(c) {
        Some(_) => {}
        None => return Err(NoMemory),
    }
    match dispatch.ended(c, Millis(0))? {
        Some((next, choice)) => Ok(Some((next.number(), choice.node.number()))),
        None => Ok(None),
    }
}

/// With the standard numbers and two nodes: connections by their numbers, the targets of their first requests, and the nodes
/// that they go to, or 0.
const PLACED: &[(u32, &[u8], u32)] = &[(1, b"/a", 1), (2, b"/b", 2), (3, b"/a", 1)];

/// Where four are admitted at a time.
const CROWDED: &[(u32, &[u8], u32)] = &[
    (1, b"/a", 1),
    (2, b"/b", 2),
    (3, b"/c", 1),
    (4, b"/d", 2),
    (5, b"/a", 0),
    (6, b"/b", 0),
];

/// The number of the first connection that does not go where its row says.
fn first_wrong(
    dispatch: &mut Dispatch,
    alloc: Global,
    rows: &[(u32, &[u8], u32)],
) -> Result<Option<u32>, NoMemory>
    requires { AreBefore 0 dispatch.old.books.sets }
    ensures { OnOk result (AreBefore 0 dispatch.new.books.sets) }
{
    let mut wrong = None;
    'rows: for (number, target, node) in rows {
        let Some(c) = ConnId::new(*number) else {
            return Err(NoMemory);
        };
        let placed = first(dispatch, alloc, c, target)?;
        if wrong.is_none() && placed != *node {
            wrong = Some(*number);
        }
    }
    Ok(wrong)
}

/// The load of a node, where there is such a node.
fn load(dispatch: &Dispatch, number: u32) -> Option<u32> {
    let loads = dispatch.loads();
    let n = loads.least_of(Members::none().with(NodeId::new(number)?))?;
    Some(loads.of(n))
}

/// Which connection is wrongly placed; and what each of two batches of one connection gets, with the load of node 2 then.
type Assigned = (Option<u32>, [(Batch, Option<u32>); 2]);

fn assign(dispatch: &mut Dispatch, alloc: Global, c: ConnId) -> Result<Assigned, NoMemory>
    requires { AreBefore 0 dispatch.old.books.sets }
{
    let wrong = first_wrong(dispatch, alloc, PLACED)?;
    let seven = later(dispatch, alloc, c, 8, 7)?;
    let first = load(dispatch, 2);
    let one = later(dispatch, alloc, c, 1, 1)?;
    Ok((wrong, [(seven, first), (one, load(dispatch, 2))]))
}

fn assigned(alloc: Global, c: ConnId) -> Result<Assigned, NoMemory> {
    let mut dispatch = Dispatch::new(alloc, Config::standard())?;
    assign(&mut dispatch, alloc, c)
}

#[test]
fn requests_are_assigned(rt: HostRuntime) {
    let c = ConnId::new(3).expect(&rt, "the number of a connection");
    let batches = [((false, 7, 7), Some(1_575)), ((true, 1, 1), Some(1_680))];
    assert_eq!(rt; assigned(rt.alloc(), c), Ok((None, batches)));
}

/// Which connection is wrongly placed, who is admitted once the first ends, and whether the fifth and the sixth wait then, and
/// the sixth once it has left.
type Admitted = (Option<u32>, Option<(u32, u32)>, [bool; 3]);

fn admit(dispatch: &mut Dispatch, alloc: Global, c: [ConnId; 3]) -> Result<Admitted, NoMemory>
    requires { AreBefore 0 dispatch.old.books.sets }
{
    let [one, five, six] = c;
    let wrong = first_wrong(dispatch, alloc, CROWDED)?;
    let next = ended(dispatch, one)?;
    let waiting = [dispatch.waits(five), dispatch.waits(six)];
    dispatch.leave(six);
    Ok((wrong, next, [waiting[0], waiting[1], dispatch.waits(six)]))
}

fn admitted(alloc: Global, config: Config, c: [ConnId; 3]) -> Result<Admitted, NoMemory> {
    if config.check().is_err() {
        return Err(NoMemory);
    }
    let mut dispatch = Dispatch::new(alloc, config)?;
    admit(&mut dispatch, alloc, c)
}

fn three_connections() -> Option<[ConnId; 3]> {
    Some([ConnId::new(1)?, ConnId::new(5)?, ConnId::new(6)?])
}

#[test]
fn the_first_of_the_line_is_admitted(rt: HostRuntime) {
    let config = Config {
        low: 2,
        high: 3,
        ..Config::standard()
    };
    let c = three_connections().expect(&rt, "the numbers of connections");
    let wanted = (None, Some((5, 1)), [false, true, false]);
    assert_eq!(rt; admitted(rt.alloc(), config, c), Ok(wanted));
}

/// Closes a node of two: whether it was open, and whether it is still.
fn close(dispatch: &mut Dispatch, n: NodeId) -> Option<(bool, bool)>
    requires { dispatch.old.config.nodes ≡ 2 }
{
    if n.number() > 2 || !dispatch.loads().has_other_open(n) {
        return None;
    }
    let before = dispatch.close(n);
    Some((before, dispatch.loads().is_open(n)))
}

fn closed(alloc: Global, n: NodeId) -> Result<Option<(bool, bool)>, NoMemory> {
    let mut dispatch = Dispatch::new(alloc, Config::standard())?;
    Ok(close(&mut dispatch, n))
}

#[test]
fn a_node_is_closed(rt: HostRuntime) {
    let node = NodeId::new(1).expect(&rt, "the number of a node");
    assert_eq!(rt; closed(rt.alloc(), node), Ok(Some((true, false))));
}

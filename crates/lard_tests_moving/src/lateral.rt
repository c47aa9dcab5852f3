//! Each call once, with ample memory.

use crate::compare::{same, same_bytes};
use lard_base::{Bytes, ConnId, Epoch, NoMemory, NodeId, Path};
use lard_lateral::Lateral;
use std::alloc::Global;
use std::process::Abort;
use std::test::Fail;

fn node(rt: &impl Abort, number: u32) -> NodeId {
    NodeId::new(number).expect(rt, "the number of a node")
}

/// Wants the content of request `r` of a connection from this node, in epoch 2.
fn want(
    lateral: &mut Lateral,
    alloc: Global,
    c: &ConnId,
    r: u32,
    node: &NodeId,
    path: &Path,
) -> Result<Bytes, NoMemory> {
    let len = path.as_slice().len();
    if len == 0 || len > 1024 {
        return Err(NoMemory);
    }
    lateral.want(alloc, *c, Epoch(2), r, *node, path)
}

/// The Fetch of request 2 from node 2.
const FETCH: &[u8] = b"\x01\x07\x00\x03\x00\x02\x00\x00\x00\x08\x00\x00\x00\x02\x00\x02/b";

/// Wants three contents, two of them from the same node.
fn wants_three(rt: &impl Abort, lateral: &mut Lateral, alloc: Global, c: &ConnId, path: &Path) {
    let (two, three) = (node(rt, 2), node(rt, 3));
    let elsewhere = want(lateral, alloc, c, 2, &three, path);
    assert!(rt; elsewhere.is_ok());
    let first = want(lateral, alloc, c, 2, &two, path)
        .ok()
        .expect(rt, "memory");
    same_bytes(rt, first.as_slice(), FETCH);
    let second = want(lateral, alloc, c, 7, &two, path);
    assert!(rt; second.is_ok());
}

/// What is kept first, to be sent again.
fn keeps_first(rt: &impl Abort, lateral: &Lateral, c: &ConnId) {
    let kept = lateral.of(*c).first().expect(rt, "what is kept");
    same_bytes(rt, kept.bytes.as_slice(), FETCH);
}

/// A content settles once, and only what was wanted of that node.
fn settles_once(rt: &impl Abort, lateral: &mut Lateral, c: ConnId) {
    let (two, three) = (node(rt, 2), node(rt, 3));
    let came = (
        lateral.on_content(three, c, Epoch(2), 2),
        lateral.on_content(two, c, Epoch(3), 2),
        lateral.on_content(two, c, Epoch(2), 3),
        lateral.on_content(two, c, Epoch(2), 2),
        lateral.on_content(two, c, Epoch(2), 2),
    );
    same(rt, &came, &(false, false, false, true, false));
    let left = lateral.wants(c, 7);
    lateral.forget(c);
    let forgotten = lateral.on_content(two, c, Epoch(2), 7);
    same(rt, &(left, forgotten), &(true, false));
}

#[test]
fn awaited_contents_alone_settle(rt: HostRuntime) -> Result<(), Fail> {
    let c = ConnId::new(3).ok_or("a connection")?;
    let path = Path::from_slice(rt.alloc(), b"/b").ok().ok_or("memory")?;
    let mut lateral = Lateral::new(rt.alloc());
    wants_three(&rt, &mut lateral, rt.alloc(), &c, &path);
    keeps_first(&rt, &lateral, &c);
    settles_once(&rt, &mut lateral, c);
    lateral.finish();
    Ok(())
}

//! Each call once, with ample memory.

use lard_base::{ConnId, Epoch, NoMemory, NodeId, Path};
use lard_disk::{Disk, Job};
use std::alloc::Global;

/// Jobs by their places, the path of the one that is completed, and how many are left.
const COMPLETED: &[(u32, Option<&[u8]>, u32)] = &[
    (0, None, 3),
    (4, None, 3),
    (2, Some(b"/b"), 2),
    (2, Some(b"/c"), 1),
    (2, None, 1),
    (1, Some(b"/a"), 0),
    (1, None, 0),
];

/// A job of a node for request `r` of the connection, in epoch 2.
fn job(alloc: Global, origin: NodeId, c: ConnId, r: u32, path: &[u8]) -> Result<Job, NoMemory> {
    Ok(Job {
        origin,
        c,
        epoch: Epoch(2),
        r,
        path: Path::from_slice(alloc, path)?,
    })
}

/// Queues three jobs: of one connection, of another one, and of the first again.
fn three(alloc: Global, node: NodeId, one: ConnId, two: ConnId) -> Result<Disk, NoMemory> {
    let mut disk = Disk::new(alloc);
    for (c, r, path) in &[
        (one, 1, b"/a".as_slice()),
        (two, 2, b"/b".as_slice()),
        (one, 3, b"/c".as_slice()),
    ] {
        let job = job(alloc, node, *c, *r, path)?;
        if disk.len() < 3 {
            disk.queue(job)?;
        }
    }
    Ok(disk)
}

/// Whether there is a job for a request of a connection in an epoch.
fn held(disk: &Disk, one: ConnId, two: ConnId) -> [bool; 5] {
    [
        disk.holds(one, Epoch(2), 1),
        disk.holds(one, Epoch(2), 2),
        disk.holds(two, Epoch(2), 2),
        disk.holds(two, Epoch(3), 2),
        disk.holds(one, Epoch(2), 3),
    ]
}

/// The place of the first row that comes otherwise.
fn first_wrong(disk: &mut Disk) -> Option<usize> {
    for (at, (j, want, left)) in COMPLETED.iter().enumerate() {
        let job = disk.complete(*j);
        let path = job.as_ref().map(|job| job.path.as_slice());
        if path != *want || disk.len() != *left {
            return Some(at);
        }
    }
    None
}

/// What is held at first, which row comes otherwise, and whether the first job is held then.
type Done = ([bool; 5], Option<usize>, bool);

fn done(alloc: Global, node: NodeId, one: ConnId, two: ConnId) -> Result<Done, NoMemory> {
    let mut disk = three(alloc, node, one, two)?;
    let before = held(&disk, one, two);
    let wrong = first_wrong(&mut disk);
    Ok((before, wrong, disk.holds(one, Epoch(2), 1)))
}

#[test]
fn jobs_are_completed_by_their_place(rt: HostRuntime) {
    let node = NodeId::new(2).expect(&rt, "the number of a node");
    let one = ConnId::new(1).expect(&rt, "the number of a connection");
    let two = ConnId::new(3).expect(&rt, "the number of a connection");
    let held = [true, false, true, false, true];
    assert_eq!(rt; done(rt.alloc(), node, one, two), Ok((held, None, false)));
}

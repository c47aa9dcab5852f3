//! What comes for requests of the batch: the nodes of an Ask, a job of the disk, a content.

ghost use Rattle.std.specs.Prelude.{◌≡◌, ◌+◌, ◌≤◌, ◌<◌, ◌^◌, length, OnOk, List};
ghost use Rattle.std.specs.List.{slice_get};
ghost use Rattle.lard_endpoint.specs.Control.{ControlBlock};
ghost use Rattle.lard_rules.specs.Stay.{came_for, come_on, come_progress, read_progress, tagged};
ghost use Rattle.lard_stay.specs.Work.{IsInHandSound, stay_env_seen, progress_by, work_seen};

use crate::starting::start_named;
use crate::work::{Env, Work};
use lard_base::{Items, NoMemory, NodeId, Via};
use lard_endpoint::Endpoint;
use lard_rules::{Entry, Progress};
use std::alloc::Global;
use std::mem::replace;

/// What came for a request.
#[derive(Clone, Copy)]
pub enum Coming {
    /// A job of this node's disk was completed.
    Job,
    /// A content came from this node.
    Content(NodeId),
}

/// A Tag came, with a node for each path of the Ask: each request that the Ask names starts at its node, in order.
/// Nothing is served yet. It adds at most eight jobs and eight contents to fetch. `NoMemory` where memory runs out;
/// nothing is said of the work then.
#[tactic(auto, unfolding(lard_rules::specs::Stay::starts_at))]
pub fn tag(
    alloc: Global,
    env: &Env<'_>,
    endpoint: &Endpoint,
    work: &mut Work,
    nodes: &[NodeId],
) -> Result<(), NoMemory>
    requires { IsInHandSound endpoint.now work.old }
    ensures tagged { OnOk result (work_seen endpoint.now work.new ≡ tagged (stay_env_seen env.now) nodes.now (work_seen endpoint.now work.old)) }
    ensures sound { OnOk result (IsInHandSound endpoint.now work.new) }
    ensures jobs { OnOk result (length work.new.jobs ≤ length work.old.jobs + 8) }
    ensures wants { OnOk result (length work.new.wants ≤ length work.old.wants + 8) }
{
    endpoint.law();
    let entries = replace(&mut work.batch, Items::new(alloc));
    let mut r = work.service.count + 1;
    let mut at = 0;
    for entry in entries.into_vec() {
        let node = node_at(nodes, at);
        if start_named(alloc, env, node, r, entry, work)? {
            at += 1;
        }
        r += 1;
    }
    Ok(())
}

/// The node at this place of a list, from 0, if there is one.
fn node_at(nodes: &[NodeId], at: usize) -> Option<NodeId>
    ensures { result ≡ slice_get nodes.now at }
{
    nodes.get(at).copied()
}

/// A content came from a node for request `r`: where the batch has that request and it awaits this, it can be served.
pub fn come(alloc: Global, work: &mut Work, from: NodeId, r: u32)
    ensures came { (b : ControlBlock) → work_seen b work.new ≡ came_for (come_progress from) r (work_seen b work.old) }
    ensures sound { (b : ControlBlock) → IsInHandSound b work.old → IsInHandSound b work.new }
    ensures jobs { work.new.jobs ≡ work.old.jobs }
    ensures wants { work.new.wants ≡ work.old.wants }
{
    come_on(alloc, work, Coming::Content(from), r);
}

/// A job of this node's disk was completed for request `r`: where the batch has that request and it awaits this, it can be
/// served.
pub fn complete(alloc: Global, work: &mut Work, r: u32)
    ensures came { (b : ControlBlock) → work_seen b work.new ≡ came_for read_progress r (work_seen b work.old) }
    ensures sound { (b : ControlBlock) → IsInHandSound b work.old → IsInHandSound b work.new }
    ensures jobs { work.new.jobs ≡ work.old.jobs }
    ensures wants { work.new.wants ≡ work.old.wants }
{
    come_on(alloc, work, Coming::Job, r);
}

/// How far a request comes by what came for it.
fn progress_by(coming: Coming, progress: Progress) -> Progress
    ensures { result ≡ progress_by coming progress }
{
    match coming {
        Coming::Job => read_progress(progress),
        Coming::Content(from) => come_progress(from, progress),
    }
}

/// A request that awaits a job of this node's disk can be served.
fn read_progress(progress: Progress) -> Progress
    ensures { result ≡ read_progress progress }
{
    match progress {
        Progress::Reading => Progress::Ready(Via::Disk),
        Progress::Named => progress,
        Progress::Awaited(_) => progress,
        Progress::Ready(_) => progress,
    }
}

/// A request that awaits a content from this node can be served.
fn come_progress(from: NodeId, progress: Progress) -> Progress
    ensures { result ≡ come_progress from progress }
{
    match progress {
        Progress::Awaited(node) => {
            if node.number() == from.number() {
                Progress::Ready(Via::Node(from))
            } else {
                progress
            }
        }
        Progress::Named => progress,
        Progress::Reading => progress,
        Progress::Ready(_) => progress,
    }
}

/// The request of this number comes on, if it is in the batch.
fn come_on(alloc: Global, work: &mut Work, coming: Coming, r: u32)
    ensures came { (b : ControlBlock) → work_seen b work.new ≡ came_for (progress_by coming) r (work_seen b work.old) }
    ensures sound { (b : ControlBlock) → IsInHandSound b work.old → IsInHandSound b work.new }
    ensures jobs { work.new.jobs ≡ work.old.jobs }
    ensures wants { work.new.wants ≡ work.old.wants }
{
    if r <= work.service.count {
        return;
    }
    let at = (r - work.service.count - 1) as usize;
    let entries = replace(&mut work.batch, Items::new(alloc)).into_vec();
    work.batch = Items::from_vec(brought_on(entries, coming, at));
}

/// The entries, of which this one comes on.
fn brought_on(mut entries: Vec<Entry>, coming: Coming, at: usize) -> Vec<Entry>
    ensures { result.items ≡ come_on (progress_by coming) at entries.items }
{
    if at < entries.len() {
        let entry = &mut entries[at];
        entry.progress = progress_by(coming, entry.progress);
    }
    entries
}

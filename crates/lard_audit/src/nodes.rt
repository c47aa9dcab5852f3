//! The caches and the disks of all nodes that there can be.

ghost use Rattle.std.specs.Prelude.{◌≡◌, ◌-◌, ◌<◌, length, replicate, slice_get, IfOk, OnOk, OnErr};
ghost use Rattle.lard_cache.specs.Recency.{has_path};
ghost use Rattle.lard_counts.specs.Stores.{waiting_at};
ghost use Rattle.lard_audit.specs.Sound.{is_audit_job};
ghost use Rattle.lard_audit.specs.Nodes.{audit_changed, entries_at, hit_by, idle, audit_jobs_at, queued_by, read_by, set_node};

use crate::queue::{Job, Queue};
use lard_base::{ConnId, NoMemory, NodeId, Path};
use lard_cache::Cache;
use std::alloc::Global;
use std::marker::Model;

/// What a node keeps: the paths in its cache, and the jobs that wait at its disk.
#[derive(Drop)]
pub struct Node {
    cache: Cache,
    jobs: Queue,
}

impl Node {
    /// An empty cache for files of so many bytes, and no job.
    fn new(alloc: Global, bytes: u32) -> Result<Node, NoMemory>
        ensures { IfOk result (λ x. x ≡ idle bytes) }
    {
        Ok(Node {
            cache: Cache::new(alloc, bytes)?,
            jobs: Queue::new(alloc),
        })
    }

    /// A path that is in the cache comes to the front.
    fn hit(&mut self, path: &[u8])
        ensures { self.new ≡ hit_by path.now self.old }
    {
        self.cache.hit(path);
    }

    /// A job is queued. Without memory nothing changes.
    fn queue(&mut self, job: Job) -> Result<(), NoMemory>
        ensures ok { OnOk result (self.new ≡ queued_by job self.old) }
        ensures err { OnErr result (self.new ≡ self.old) }
    {
        self.jobs.push(job)
    }

    /// The j-th job is read, which brings its path, whose file has so many bytes, into the cache. Without memory nothing
    /// changes.
    fn read(&mut self, j: u32, path: &Path, size: u32) -> Result<(), NoMemory>
        ensures ok { OnOk result (self.new ≡ read_by j path.now size self.old) }
        ensures err { OnErr result (self.new ≡ self.old) }
    {
        self.cache.put(path, size)?;
        self.jobs.take_out(j);
        Ok(())
    }
}

/// The nodes that a report may name, in the order of their numbers: 64, however many the cluster has.
#[derive(Drop)]
pub struct Nodes {
    all: Vec<Node>,
}

impl Model for Nodes {
    ghost use Rattle.std.specs.Prelude.{◌≡◌, List, length};
    ghost use Rattle.lard_audit.specs.declared.nodes.Node.{Node};

    ghost Value = { List Node };

    ghost view = { λ n. n.all.items };

    ghost invariant = { λ n. length n.all.items ≡ 64 };
}

impl Nodes {
    /// All have empty caches for files of so many bytes, and no jobs.
    pub fn new(alloc: Global, bytes: u32) -> Result<Nodes, NoMemory>
        ensures { IfOk result (λ n. n ≡ replicate 64 (idle bytes)) }
    {
        Ok(Nodes {
            all: idle_nodes(alloc, 64, bytes)?,
        })
    }

    /// Whether a path is in the cache of a node.
    pub fn has(&self, n: NodeId, path: &[u8]) -> bool
        ensures { result ≡ has_path (entries_at self.now n) path.now }
    {
        self.all[n.number() as usize - 1].cache.has(path)
    }

    /// Whether the j-th job of a node is this one.
    pub fn is_job(&self, n: NodeId, j: u32, m: NodeId, c: ConnId, r: u32, path: &[u8]) -> bool
        ensures { result ≡ is_audit_job (waiting_at (audit_jobs_at self.now n) j) m c r path.now }
    {
        self.all[n.number() as usize - 1]
            .jobs
            .is_at(j, m, c, r, path)
    }

    /// A path that is in the cache of a node comes to the front.
    pub fn hit(&mut self, n: NodeId, path: &[u8])
        ensures { self.new ≡ audit_changed self.old n (hit_by path.now) }
    {
        hit_at(&mut self.all, n.number() as usize - 1, path);
    }

    /// A job is queued at a node. Without memory nothing changes.
    pub fn queue(&mut self, n: NodeId, job: Job) -> Result<(), NoMemory>
        ensures ok { OnOk result (self.new ≡ audit_changed self.old n (queued_by job)) }
        ensures err { OnErr result (self.new ≡ self.old) }
    {
        queue_at(&mut self.all, n.number() as usize - 1, job)
    }

    /// The j-th job of a node is read, which brings its path, whose file has so many bytes, into the cache. Without memory
    /// nothing changes.
    pub fn read(&mut self, n: NodeId, j: u32, path: &Path, size: u32) -> Result<(), NoMemory>
        ensures ok { OnOk result (self.new ≡ audit_changed self.old n (read_by j path.now size)) }
        ensures err { OnErr result (self.new ≡ self.old) }
    {
        read_at(&mut self.all, n.number() as usize - 1, j, path, size)
    }
}

/// So many nodes with empty caches for files of so many bytes, and no jobs.
fn idle_nodes(alloc: Global, count: u32, bytes: u32) -> Result<Vec<Node>, NoMemory>
    ensures { IfOk result (λ all. all.items ≡ replicate count (idle bytes)) }
{
    let mut all = Vec::new(alloc);
    for _ in 0..count {
        all.push(Node::new(alloc, bytes)?)?;
    }
    Ok(all)
}

/// A path comes to the front at the node at a place.
fn hit_at(nodes: &mut Vec<Node>, at: usize, path: &[u8])
    requires { at < length nodes.old.items }
    ensures { nodes.new.items ≡ set_node nodes.old.items at (slice_get nodes.old.items at) (hit_by path.now) }
{
    nodes[at].hit(path);
}

/// A job is queued at the node at a place. Without memory nothing changes.
fn queue_at(nodes: &mut Vec<Node>, at: usize, job: Job) -> Result<(), NoMemory>
    requires { at < length nodes.old.items }
    ensures ok { OnOk result (nodes.new.items ≡ set_node nodes.old.items at (slice_get nodes.old.items at) (queued_by job)) }
    ensures err { OnErr result (nodes.new.items ≡ nodes.old.items) }
{
    nodes[at].queue(job)
}

/// A job is read at the node at a place. Without memory nothing changes.
fn read_at(nodes: &mut Vec<Node>, at: usize, j: u32, path: &Path, size: u32) -> Result<(), NoMemory>
    requires { at < length nodes.old.items }
    ensures ok { OnOk result (nodes.new.items ≡ set_node nodes.old.items at (slice_get nodes.old.items at) (read_by j path.now size)) }
    ensures err { OnErr result (nodes.new.items ≡ nodes.old.items) }
{
    nodes[at].read(j, path, size)
}

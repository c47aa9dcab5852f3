//! The queue of a disk.

ghost use Rattle.std.specs.Prelude.{◌≡◌, ◌+◌, ◌-◌, ◌^◌, ◌<◌, ◌≤◌, [], ◌∷◌, ◌++◌, length, OnOk, OnErr};
ghost use Rattle.std.specs.List.{list_any};
ghost use Rattle.lard_disk.specs.Jobs.{is_for, job_at, without_job};

use lard_base::{ConnId, Epoch, NoMemory, NodeId, Path};
use std::alloc::Global;
use std::collections::VecDeque;
use std::marker::Model;

/// A path that is to be read, and the request that it is read for.
#[derive(Debug, Drop)]
pub struct Job {
    /// The node that serves the request.
    pub origin: NodeId,
    pub c: ConnId,
    /// The epoch in which that node has the connection.
    pub epoch: Epoch,
    /// The number of the request.
    pub r: u32,
    pub path: Path,
}

/// The jobs of a node's disk that are not completed, seen as their list, the oldest first. There are fewer than 2^32.
#[derive(Drop)]
pub struct Disk {
    jobs: VecDeque<Job>,
}

impl Model for Disk {
    ghost use Rattle.std.specs.Prelude.{List, ◌^◌, ◌<◌};
    ghost use Rattle.std.specs.VecDeque.{deque_len};
    ghost use Rattle.lard_disk.specs.declared.disk.Job.{Job};

    ghost Value = { List Job };

    ghost view = { λ d. d.jobs.items };

    ghost invariant = { λ d. deque_len d.jobs < 2 ^ 32 };
}

impl Disk {
    /// No jobs. It takes no memory yet.
    pub fn new(alloc: Global) -> Disk
        ensures { result ≡ [] }
    {
        Disk {
            jobs: VecDeque::new(alloc),
        }
    }

    /// Queues a job behind all others. Without memory nothing changes. Fewer than 2^32 - 1 jobs are queued.
    pub fn queue(&mut self, job: Job) -> Result<(), NoMemory>
        requires { length self.old < 2 ^ 32 - 1 }
        ensures ok { OnOk result (self.new ≡ self.old ++ job ∷ []) }
        ensures err { OnErr result (self.new ≡ self.old) }
    {
        self.jobs.push_back(job)?;
        Ok(())
    }

    /// Takes out the j-th job from the oldest, counted from 1. `None` where there is no such job, and nothing changes then.
    pub fn complete(&mut self, j: u32) -> Option<Job>
        ensures job { result ≡ job_at self.old j }
        ensures after { self.new ≡ without_job self.old j }
    {
        if j == 0 {
            return None;
        }
        self.jobs.remove(j as usize - 1)
    }

    /// How many jobs are queued.
    pub fn len(&self) -> u32
        ensures { result ≡ length self.now }
    {
        self.jobs.len() as u32
    }

    /// Whether a job for this request of the connection, in this epoch, is queued.
    pub fn holds(&self, c: ConnId, epoch: Epoch, r: u32) -> bool
        ensures { result ≡ list_any (is_for c epoch.0 r) self.now }
    {
        self.jobs.iter().any(|job| is_for(job, c, epoch, r))
    }
}

/// Whether a job is for this request of the connection, in this epoch.
fn is_for(job: &Job, c: ConnId, epoch: Epoch, r: u32) -> bool
    ensures { result ≡ is_for c epoch.0 r job.now }
{
    job.c.number() == c.number() && job.epoch.0 == epoch.0 && job.r == r
}

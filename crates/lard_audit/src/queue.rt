//! The jobs that wait at a disk.

ghost use Rattle.std.specs.Prelude.{◌≡◌, ◌+◌, ◌-◌, ◌<◌, ◌^◌, [], ◌∷◌, ◌++◌, map, Some, OnOk, OnErr};
ghost use Rattle.lard_counts.specs.Stores.{waiting_at};
ghost use Rattle.lard_audit.specs.Sound.{is_audit_job};
ghost use Rattle.lard_audit.specs.Queue.{audit_told, audit_without_job};

use lard_base::{ConnId, NoMemory, NodeId, Path};
use std::alloc::Global;
use std::collections::VecDeque;
use std::marker::Model;

/// A path that is to be read, and the request that it is read for.
#[derive(Debug, Drop)]
pub struct Job {
    /// The node that serves the request.
    pub m: NodeId,
    pub c: ConnId,
    /// The number of the request.
    pub r: u32,
    pub path: Path,
}

/// The jobs of a disk that were not read, the oldest first. There are fewer than 2^32.
#[derive(Drop)]
pub struct Queue {
    jobs: VecDeque<Job>,
}

impl Model for Queue {
    ghost use Rattle.std.specs.Prelude.{List, ◌^◌, ◌<◌};
    ghost use Rattle.std.specs.VecDeque.{deque_len};
    ghost use Rattle.lard_audit.specs.declared.queue.Job.{Job};

    ghost Value = { List Job };

    ghost view = { λ q. q.jobs.items };

    ghost invariant = { λ q. deque_len q.jobs < 2 ^ 32 };
}

impl Queue {
    /// No jobs. It takes no memory yet.
    pub fn new(alloc: Global) -> Queue
        ensures { result ≡ [] }
    {
        Queue {
            jobs: VecDeque::new(alloc),
        }
    }

    /// Whether the j-th job from the oldest, counted from 1, is this one.
    pub fn is_at(&self, j: u32, m: NodeId, c: ConnId, r: u32, path: &[u8]) -> bool
        ensures { result ≡ is_audit_job (waiting_at (map audit_told self.now) j) m c r path.now }
    {
        if j == 0 {
            return false;
        }
        match self.jobs.get(j as usize - 1) {
            Some(job) => is_job(job, m, c, r, path),
            None => false,
        }
    }

    /// Queues a job behind all others. Without memory, or where 2^32 - 1 jobs are there, nothing changes.
    pub fn push(&mut self, job: Job) -> Result<(), NoMemory>
        ensures ok { OnOk result (self.new ≡ self.old ++ job ∷ []) }
        ensures err { OnErr result (self.new ≡ self.old) }
    {
        if self.jobs.len() >= u32::MAX as usize {
            return Err(NoMemory);
        }
        self.jobs.push_back(job)?;
        Ok(())
    }

    /// Takes out the j-th job from the oldest, counted from 1. Where there is none nothing changes.
    pub fn take_out(&mut self, j: u32)
        ensures { self.new ≡ audit_without_job self.old j }
    {
        if j > 0 {
            self.jobs.remove(j as usize - 1);
        }
    }
}

/// Whether a job is this one.
fn is_job(job: &Job, m: NodeId, c: ConnId, r: u32, path: &[u8]) -> bool
    ensures { result ≡ is_audit_job (Some (audit_told job.now)) m c r path.now }
{
    (job.m.number() == m.number() && job.c.number() == c.number())
        && (job.r == r && job.path.as_slice() == path)
}

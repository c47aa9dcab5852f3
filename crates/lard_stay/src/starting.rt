//! A request is entered into the batch, and started where it is assigned.

ghost use Rattle.std.specs.Prelude.{◌≡◌, IfOk, OnOk};
ghost use Rattle.lard_endpoint.specs.Control.{ControlBlock};
ghost use Rattle.lard_files.specs.Files.{file_at};
ghost use Rattle.lard_rules.specs.Stay.{enters_one, read_entry, started, started_here, started_there, starts_one};
ghost use Rattle.lard_stay.specs.Work.{HasEntered, IsPath, StartsOne, stay_env_seen, work_seen};

use crate::paths::{good_path, named_path};
use crate::work::{Env, Work};
use lard_base::{NoMemory, NodeId, Path, Via};
use lard_disk::Job;
use lard_files::Files;
use lard_journal::Rec;
use lard_request::Verdict;
use lard_rules::{Entry, Progress, Want};
use std::alloc::Global;

/// A request as it is read: one for a file is to be assigned, any other has its answer.
fn read_entry(files: &Files, verdict: Verdict) -> Entry
    ensures { result ≡ read_entry (file_at files.now) verdict }
{
    let progress = match good_path(files, &verdict) {
        None => Progress::Ready(Via::Own),
        Some(_) => Progress::Named,
    };
    Entry { verdict, progress }
}

/// Starts a request at this node: what the cache has can be served at once, else a job of the disk reads it.
fn start_here(
    alloc: Global,
    env: &Env<'_>,
    r: u32,
    path: Path,
    verdict: Verdict,
    work: &mut Work,
) -> Result<(), NoMemory>
    ensures started { OnOk result ((b : ControlBlock) → work_seen b work.new ≡ started_here (stay_env_seen env.now) r path verdict (work_seen b work.old)) }
    ensures entered { OnOk result (HasEntered 1 work.old work.new) }
    ensures wants { OnOk result (work.new.wants ≡ work.old.wants) }
{
    if env.cache.has(path.as_slice()) {
        work.service.notes.push(Rec::Hit { n: env.node, path })?;
        let progress = Progress::Ready(Via::Cache);
        work.batch.push(Entry { verdict, progress })?;
        return Ok(());
    }
    let job = Job {
        origin: env.node,
        c: env.serve.c,
        epoch: env.epoch,
        r,
        path: path.copy(alloc)?,
    };
    work.service.notes.push(Rec::Queued {
        n: env.node,
        m: env.node,
        c: env.serve.c,
        r,
        path,
    })?;
    work.jobs.push(job)?;
    let progress = Progress::Reading;
    work.batch.push(Entry { verdict, progress })?;
    Ok(())
}

/// Starts a request at another node: its content is to be fetched from there.
fn start_there(
    node: NodeId,
    r: u32,
    path: Path,
    verdict: Verdict,
    work: &mut Work,
) -> Result<(), NoMemory>
    requires { IsPath path }
    ensures started { OnOk result ((b : ControlBlock) → work_seen b work.new ≡ started_there node r path verdict (work_seen b work.old)) }
    ensures entered { OnOk result (HasEntered 1 work.old work.new) }
{
    work.wants.push(Want { r, node, path })?;
    let progress = Progress::Awaited(node);
    work.batch.push(Entry { verdict, progress })?;
    Ok(())
}

/// Starts request `r` at the node that it is assigned to.
fn start(
    alloc: Global,
    env: &Env<'_>,
    node: NodeId,
    r: u32,
    path: Path,
    verdict: Verdict,
    work: &mut Work,
) -> Result<(), NoMemory>
    requires { IsPath path }
    ensures started { OnOk result ((b : ControlBlock) → work_seen b work.new ≡ started (stay_env_seen env.now) node r path verdict (work_seen b work.old)) }
    ensures entered { OnOk result (HasEntered 1 work.old work.new) }
{
    if node.number() == env.node.number() {
        return start_here(alloc, env, r, path, verdict, work);
    }
    start_there(node, r, path, verdict, work)
}

/// Enters request `r` as it is read. The first one for a file is started here, where it was assigned to this node with
/// the connection (`here`). The answer is whether that one is still awaited. `NoMemory` where memory runs out; nothing
/// is said of the work then.
pub fn enter(
    alloc: Global,
    env: &Env<'_>,
    here: bool,
    r: u32,
    verdict: Verdict,
    work: &mut Work,
) -> Result<bool, NoMemory>
    ensures entered { IfOk result (λ more. (b : ControlBlock) → (more, work_seen b work.new) ≡ enters_one (stay_env_seen env.now) here r verdict (work_seen b work.old)) }
    ensures one { OnOk result (HasEntered 1 work.old work.new) }
    ensures jobs { IfOk result (λ more. StartsOne here more work.old.jobs work.new.jobs) }
    ensures wants { OnOk result (work.new.wants ≡ work.old.wants) }
{
    if here {
        if let Some(path) = good_path(env.serve.files, &verdict) {
            let path = path.copy(alloc)?;
            start_here(alloc, env, r, path, verdict, work)?;
            return Ok(false);
        }
    }
    work.batch.push(read_entry(env.serve.files, verdict))?;
    Ok(here)
}

/// Starts request `r` at this node, if the Ask names it and there is a node for it, and else enters it as it is. The
/// answer is whether it started. `NoMemory` where memory runs out; nothing is said of the work then.
pub fn start_named(
    alloc: Global,
    env: &Env<'_>,
    node: Option<NodeId>,
    r: u32,
    entry: Entry,
    work: &mut Work,
) -> Result<bool, NoMemory>
    ensures started { IfOk result (λ done. (b : ControlBlock) → (done, work_seen b work.new) ≡ starts_one (stay_env_seen env.now) node r entry (work_seen b work.old)) }
    ensures one { OnOk result (HasEntered 1 work.old work.new) }
{
    if let Some(node) = node {
        if let Some(path) = named_path(env.serve.files, &entry) {
            let path = path.copy(alloc)?;
            start(alloc, env, node, r, path, entry.verdict, work)?;
            return Ok(true);
        }
    }
    work.batch.push(entry)?;
    Ok(false)
}

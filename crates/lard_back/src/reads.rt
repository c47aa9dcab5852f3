//! The node's disk completes a job: its path is cached, and its request is ready, or its content goes to the node that serves it.

ghost use Rattle.std.specs.Prelude.{◌≡◌, ◌^◌, ◌<◌, ◌≤◌, [], ◌∷◌, ◌++◌, length, IfOk, OnOk};
ghost use Rattle.lard_back.specs.Bounds.{IsNodeOut};
ghost use Rattle.lard_back.specs.Place.{node_setting_seen};
ghost use Rattle.lard_back.specs.Sound.{IsNodeSound};
ghost use Rattle.lard_base.specs.declared.limits.TheConstants.{MAX_STREAM_BYTES};
ghost use Rattle.lard_disk.specs.Jobs.{job_at};
ghost use Rattle.lard_files.specs.Files.{file_at};
ghost use Rattle.lard_rules.specs.NodePlace.{node_brought, content_bytes, disk_step};

use crate::acting::Setting;
use crate::hand::At;
use crate::rules::completed;
use crate::sends::say;
use crate::stores::content;
use lard_base::{NoMemory, NodeId, Path, Sends};
use lard_disk::Job;
use lard_journal::{Rec, Recs};
use lard_rules::{NodeState, Out};
use lard_serving::nothing;
use std::alloc::Global;

/// The disk completes its j-th job, counted from 1; nothing is done where there is none. The record of the job stands
/// before all that it leads to. Without memory the state is of no use any more but to be spent.
pub fn complete(
    state: &mut NodeState,
    alloc: Global,
    setting: &Setting<'_>,
    j: u32,
) -> Result<Out, NoMemory>
    requires sound { IsNodeSound state.old }
    requires stream { setting.now.stream ≤ MAX_STREAM_BYTES }
    requires few { length state.old.disk < 2 ^ 31 }
    ensures ok { IfOk result (λ out. (state.new, out) ≡ disk_step (node_setting_seen setting.now) state.old j (job_at state.old.disk j)) }
    ensures sound { OnOk result (IsNodeSound state.new) }
    ensures fits { IfOk result IsNodeOut }
{
    let Some(job) = state.disk.complete(j) else {
        return Ok(nothing(alloc));
    };
    state.cache.put(&job.path, size_of(setting, &job.path))?;
    let out = bring(state, alloc, setting, &job)?;
    with_first(alloc, read(setting.n, job), out)
}

/// How many bytes a file has; none where there is no such file.
fn size_of(setting: &Setting<'_>, path: &Path) -> u32
    ensures { result ≡ length (content_bytes (file_at setting.now.files.now path.now)) }
{
    match setting.files.get(path.as_slice()) {
        Some(bytes) => bytes.len() as u32,
        None => 0,
    }
}

/// A job of this node makes its request ready, one for another node sends the content there.
fn bring(
    state: &mut NodeState,
    alloc: Global,
    setting: &Setting<'_>,
    job: &Job,
) -> Result<Out, NoMemory>
    requires sound { IsNodeSound state.old }
    requires stream { setting.now.stream ≤ MAX_STREAM_BYTES }
    requires few { length state.old.disk < 2 ^ 31 }
    ensures ok { IfOk result (λ out. (state.new, out) ≡ node_brought (node_setting_seen setting.now) state.old job.now) }
    ensures sound { OnOk result (IsNodeSound state.new) }
    ensures fits { IfOk result IsNodeOut }
{
    let at = At {
        n: setting.n,
        c: job.c,
        epoch: job.epoch,
    };
    if job.origin.number() == setting.n.number() {
        return completed(state, alloc, setting, &at, job.r);
    }
    let mut messages = Sends::new(alloc);
    messages.push(content(alloc, setting, job.origin, &at, job.r, &job.path)?)?;
    Ok(say(alloc, messages))
}

/// The record of a job that was completed.
fn read(n: NodeId, job: Job) -> Rec
    ensures { result ≡ Rec.Read n job.origin job.c job.r job.path }
{
    let Job {
        origin,
        c,
        epoch: _,
        r,
        path,
    } = job;
    Rec::Read {
        n,
        m: origin,
        c,
        r,
        path,
    }
}

/// A record stands before all others of a step.
fn with_first(alloc: Global, first: Rec, out: Out) -> Result<Out, NoMemory>
    requires { IsNodeOut out }
    ensures notes { IfOk result (λ led. led ≡ record out { notes = first ∷ [] ++ out.notes }) }
    ensures fits { IfOk result IsNodeOut }
{
    let Out {
        mut notes,
        segments,
        gave,
        messages,
        timers,
        answered,
    } = out;
    let mut all = Recs::new(alloc);
    all.push(first)?;
    all.append(&mut notes)?;
    Ok(Out {
        notes: all,
        segments,
        gave,
        messages,
        timers,
        answered,
    })
}

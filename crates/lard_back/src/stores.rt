//! What a node does with its cache and its disk: they are told of each turn, and serve what other nodes ask for.

ghost use Rattle.std.specs.Prelude.{◌≡◌, ◌+◌, ◌^◌, ◌<◌, ◌≤◌, [], ◌∷◌, ◌++◌, length, true, IfOk, OnOk};
ghost use Rattle.std.specs.List.{list_any};
ghost use Rattle.lard_back.specs.Bounds.{AreMessages, IsNodeOut};
ghost use Rattle.lard_back.specs.Place.{node_setting_seen};
ghost use Rattle.lard_back.specs.Stores.{read_turn, stores_told_of};
ghost use Rattle.lard_base.specs.declared.limits.TheConstants.{MAX_FILE_BYTES, MAX_MESSAGE_BYTES};
ghost use Rattle.lard_cache.specs.Recency.{has_path};
ghost use Rattle.lard_disk.specs.Jobs.{is_for};
ghost use Rattle.lard_files.specs.Files.{IsContent, file_at};
ghost use Rattle.lard_rules.specs.Node.{message, node_saying};
ghost use Rattle.lard_rules.specs.NodePlace.{aside, content_bytes, content_sent, fetched, fetched_file, hits};

use crate::acting::Setting;
use crate::hand::At;
use crate::sends::message;
use lard_base::{Bytes, Epoch, Items, NoMemory, NodeId, Path, Place, Sends};
use lard_cache::Cache;
use lard_disk::{Disk, Job};
use lard_journal::{Rec, Recs};
use lard_message::Body;
use lard_rules::{NodeState, Out};
use std::alloc::Global;

// ---- a turn is told

/// The cache is told the hits of a turn, and the disk is given its jobs. Without memory the state is of no use any more
/// but to be spent.
pub fn tell(state: &mut NodeState, notes: &Recs, jobs: Items<Job>) -> Result<(), NoMemory>
    requires few { length state.old.disk + length jobs < 2 ^ 32 }
    ensures { OnOk result (state.new ≡ stores_told_of state.old notes.now jobs) }
{
    tell_hits(&mut state.cache, notes.as_slice());
    queue(&mut state.disk, jobs)
}

/// Each path that was served from the cache goes to its front.
fn tell_hits(cache: &mut Cache, notes: &[Rec])
    ensures { cache.new ≡ hits notes.now cache.old }
{
    for note in notes {
        tell_hit(cache, note);
    }
}

fn tell_hit(cache: &mut Cache, note: &Rec)
    ensures { cache.new ≡ hits (note.now ∷ []) cache.old }
{
    if let Rec::Hit { path, .. } = note {
        let _ = cache.hit(path.as_slice());
    }
}

/// The disk is given jobs, in their order.
fn queue(disk: &mut Disk, jobs: Items<Job>) -> Result<(), NoMemory>
    requires few { length disk.old + length jobs < 2 ^ 32 }
    ensures { OnOk result (disk.new ≡ disk.old ++ jobs) }
{
    for job in jobs.into_vec() {
        disk.queue(job)?;
    }
    Ok(())
}

// ---- what other nodes ask for

/// A Fetch comes: it is answered at once where the cache has its path; else a job of the disk reads it. One whose job
/// is queued already is dropped, and so is one for no file. Without memory the state is of no use any more but to be
/// spent.
pub fn fetch(
    state: &mut NodeState,
    alloc: Global,
    setting: &Setting<'_>,
    from: NodeId,
    at: &At,
    r: u32,
    path: Path,
) -> Result<Out, NoMemory>
    requires node { at.now.n ≡ setting.now.n }
    requires few { length state.old.disk < 2 ^ 31 }
    ensures ok { IfOk result (λ out. (state.new, out) ≡ fetched (node_setting_seen setting.now) state.old from at.now.c at.now.epoch.0 r path (file_at setting.now.files.now path)) }
    ensures fits { IfOk result IsNodeOut }
{
    if setting.files.get(path.as_slice()).is_none() || state.disk.holds(at.c, at.epoch, r) {
        return Ok(lard_serving::nothing(alloc));
    }
    if state.cache.has(path.as_slice()) {
        return answer(state, alloc, setting, from, at, r, path);
    }
    read(state, alloc, from, at, r, path)
}

/// The content goes out at once, and its path to the front of the cache.
fn answer(
    state: &mut NodeState,
    alloc: Global,
    setting: &Setting<'_>,
    from: NodeId,
    at: &At,
    r: u32,
    path: Path,
) -> Result<Out, NoMemory>
    requires node { at.now.n ≡ setting.now.n }
    requires there { has_path state.old.cache.entries path ≡ true }
    ensures ok { IfOk result (λ out. (state.new, out) ≡ aside state.old (fetched_file (node_setting_seen setting.now) state.old from at.now.c at.now.epoch.0 r path)) }
    ensures fits { IfOk result IsNodeOut }
{
    let mut out = lard_serving::nothing(alloc);
    out.messages
        .push(content(alloc, setting, from, at, r, &path)?)?;
    let _ = state.cache.hit(path.as_slice());
    out.notes.push(Rec::Hit { n: at.n, path })?;
    Ok(out)
}

/// A job of the disk is to read it.
fn read(
    state: &mut NodeState,
    alloc: Global,
    from: NodeId,
    at: &At,
    r: u32,
    path: Path,
) -> Result<Out, NoMemory>
    requires few { length state.old.disk < 2 ^ 31 }
    ensures ok { IfOk result (λ out. (state.new, out) ≡ aside state.old (read_turn at.now from r path)) }
    ensures fits { IfOk result IsNodeOut }
{
    let mut out = lard_serving::nothing(alloc);
    let copy = path.copy(alloc)?;
    let (n, m, c) = (at.n, from, at.c);
    out.notes.push(Rec::Queued {
        n,
        m,
        c,
        r,
        path: copy,
    })?;
    state.disk.queue(Job {
        origin: from,
        c,
        epoch: at.epoch,
        r,
        path,
    })?;
    Ok(out)
}

/// The content of a request of another node, which goes there. `NoMemory` where memory runs out.
pub fn content(
    alloc: Global,
    setting: &Setting<'_>,
    to: NodeId,
    at: &At,
    r: u32,
    path: &Path,
) -> Result<(Place, Bytes), NoMemory>
    ensures sent { IfOk result (λ sent. sent ≡ content_sent (node_setting_seen setting.now) to at.now.c at.now.epoch.0 r path.now) }
    ensures size { IfOk result (λ sent. length sent.1 ≤ MAX_MESSAGE_BYTES) }
{
    let bytes = file_bytes(alloc, setting, path)?;
    let bytes = message(alloc, at, Body::Content { r, bytes })?;
    Ok((Place::Node(to), bytes))
}

/// The bytes of a file; none where there is no such file.
fn file_bytes(alloc: Global, setting: &Setting<'_>, path: &Path) -> Result<Bytes, NoMemory>
    ensures bytes { IfOk result (λ bytes. bytes ≡ content_bytes (file_at setting.now.files.now path.now)) }
    ensures short { IfOk result IsContent }
{
    match setting.files.get(path.as_slice()) {
        Some(bytes) => Bytes::from_slice(alloc, bytes),
        None => Ok(Bytes::from_vec(Vec::new(alloc))),
    }
}

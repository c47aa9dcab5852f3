//! A node: its state as it begins and as it is spent, and its step.

ghost use Rattle.std.specs.Prelude.{◌≡◌, ◌+◌, ◌^◌, ◌<◌, ◌≤◌, length, IfOk, OnOk};
ghost use Rattle.lard_back.specs.Bounds.{IsNodeOut};
ghost use Rattle.lard_back.specs.Place.{node_setting_seen};
ghost use Rattle.lard_back.specs.Sound.{IsNodeSound};
ghost use Rattle.lard_base.specs.declared.limits.TheConstants.{MAX_STREAM_BYTES};
ghost use Rattle.lard_rules.specs.NodePlace.{no_stays, node_step};

use crate::acting::Setting;
use crate::firing::fire;
use crate::hearing::get;
use crate::reads::complete;
use lard_base::NoMemory;
use lard_cache::Cache;
use lard_disk::Disk;
use lard_handoff_back::BackTable;
use lard_lateral::Lateral;
use lard_resend::Pending;
use lard_rules::{BackIn, NodeState, Out};
use lard_table::Table;
use std::alloc::Global;

/// No connection was offered, and no job is queued; the cache is for files of so many bytes. `NoMemory` where memory
/// runs out.
pub fn begin(alloc: Global, cache: u32) -> Result<NodeState, NoMemory>
    ensures state { IfOk result (λ state. state ≡ no_stays cache) }
    ensures sound { IfOk result IsNodeSound }
{
    let cache = Cache::new(alloc, cache)?;
    Ok(NodeState {
        conns: BackTable::new(alloc),
        stays: Table::new(alloc),
        kept: Pending::new(alloc),
        fetches: Lateral::new(alloc),
        cache,
        disk: Disk::new(alloc),
    })
}

/// Spends every endpoint, and the state.
pub fn finish(state: NodeState) {
    let NodeState {
        conns,
        mut stays,
        kept,
        fetches,
        cache: _,
        disk: _,
    } = state;
    conns.finish();
    while let Some(_stay) = stays.pop() {}
    stays.destroy_empty();
    kept.finish();
    fetches.finish();
}

/// What a node does with what comes to it, on a state of `begin` or of steps that were done. Its disk has fewer than
/// 2^31 jobs. Without memory the state is of no use any more but to be spent.
pub fn step(
    state: &mut NodeState,
    alloc: Global,
    setting: &Setting<'_>,
    input: BackIn,
) -> Result<Out, NoMemory>
    requires sound { IsNodeSound state.old }
    requires stream { setting.now.stream ≤ MAX_STREAM_BYTES }
    requires few { length state.old.disk < 2 ^ 31 }
    ensures ok { IfOk result (λ out. (state.new, out) ≡ node_step (node_setting_seen setting.now) state.old input) }
    ensures sound { OnOk result (IsNodeSound state.new) }
    ensures fits { IfOk result IsNodeOut }
    // Each job that is queued has its record.
    ensures queue { IfOk result (λ out. length state.new.disk ≤ length state.old.disk + length out.notes) }
{
    match input {
        BackIn::Message { from, bytes } => {
            return get(state, alloc, setting, from, bytes.as_slice());
        }
        BackIn::Timer(c) => return fire(state, alloc, setting, c),
        BackIn::Disk(j) => return complete(state, alloc, setting, j),
    }
}

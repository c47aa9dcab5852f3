//! The steps of disks and of the clock.

ghost use Rattle.std.specs.Prelude.{◌≡◌, ◌≤◌, true, false, Ok, IfSome, IfNone, OnOk};
ghost use Rattle.lard_rules.specs.Machine.{Steps, clocked, completes, is_no_node};
ghost use Rattle.lard_stepping.specs.Sound.{HasRoom, IsSet, IsMachineSound};

use crate::acting::note;
use crate::places::node_acts;
use lard_base::{Event, Millis, NodeId};
use lard_journal::Rec;
use lard_rules::{BackIn, Machine, Refusal, StepFault};
use std::alloc::Global;

/// Node n completes the j-th of its disk's jobs, both counted from 1. After `NoNode`, where there is no such node, and
/// `NoJob`, where it has no such job, everything is as it was. Without memory the journal is as it was.
#[tactic(auto, unfolding(lard_rules::specs::Machine::completes))]
pub fn complete(machine: &mut Machine, alloc: Global, n: u32, j: u32) -> Result<(), StepFault>
    requires room { HasRoom machine.old }
    requires sound { IsMachineSound machine.old }
    requires set { IsSet machine.old.config }
    ensures step { Steps (completes machine.old n j) machine.old machine.new result }
    ensures sound { OnOk result (IsMachineSound machine.new) }
{
    let nodes = machine.config.nodes;
    let Some(node) = node_of(n, nodes) else {
        return Err(StepFault::Refused(Refusal::NoNode { n, nodes }));
    };
    let len = machine.nodes.node(n as usize - 1).disk.len();
    if j == 0 || len < j {
        let n = n as u8;
        return Err(StepFault::Refused(Refusal::NoJob { n, j, len }));
    }
    let event = Event::Disk { n, j };
    node_acts(machine, alloc, event, None, node, BackIn::Disk(j))?;
    Ok(())
}

/// The node with a number, where it is one of so many, at most 64; else `None`.
pub fn node_of(n: u32, nodes: u8) -> Option<NodeId>
    requires few { nodes ≤ 64 }
    ensures none { IfNone result (is_no_node nodes n ≡ true) }
    ensures some { IfSome result (λ node. (is_no_node nodes n ≡ false) × (node ≡ n) × (1 ≤ n) × (n ≤ nodes)) }
{
    if n == 0 || u32::from(nodes) < n {
        return None;
    }
    NodeId::new(n)
}

/// The time moves on by so many milliseconds. `NoMemory` alone can come; the journal is as it was then.
#[tactic(auto, using(crate::proofs::Sound::passed_at), unfolding(lard_rules::specs::Machine::clocked))]
pub fn tick(machine: &mut Machine, alloc: Global, ms: u32) -> Result<(), StepFault>
    requires room { HasRoom machine.old }
    requires sound { IsMachineSound machine.old }
    ensures step { Steps (Ok (clocked machine.old ms)) machine.old machine.new result }
    ensures sound { OnOk result (IsMachineSound machine.new) }
{
    machine.now += u64::from(ms);
    let now = Millis(machine.now);
    note(machine, alloc, Event::Clock(ms), Rec::Clock(now))?;
    Ok(())
}

//! The step in which a node is closed.

ghost use Rattle.std.specs.Prelude.{◌≡◌, OnOk};
ghost use Rattle.lard_rules.specs.Machine.{Steps, drained};
ghost use Rattle.lard_stepping.specs.Sound.{HasRoom, IsSet, IsMachineSound};

use crate::disks::node_of;
use crate::places::front_acts;
use lard_base::Event;
use lard_rules::{FrontIn, Machine, Refusal, StepFault};
use std::alloc::Global;

/// Node n, counted from 1, is closed to new assignments. After `NoNode`, where there is no such node, and `LastNode`,
/// where each other node is closed, everything is as it was. Without memory the journal is as it was.
#[tactic(auto, unfolding(lard_rules::specs::Machine::drained))]
pub fn drain(machine: &mut Machine, alloc: Global, n: u32) -> Result<(), StepFault>
    requires room { HasRoom machine.old }
    requires sound { IsMachineSound machine.old }
    requires set { IsSet machine.old.config }
    ensures step { Steps (drained machine.old n) machine.old machine.new result }
    ensures sound { OnOk result (IsMachineSound machine.new) }
{
    let nodes = machine.config.nodes;
    let Some(node) = node_of(n, nodes) else {
        return Err(StepFault::Refused(Refusal::NoNode { n, nodes }));
    };
    if !machine.front.dispatch.loads().has_other_open(node) {
        return Err(StepFault::Refused(Refusal::LastNode(n as u8)));
    }
    front_acts(machine, alloc, Event::Drain(n), None, FrontIn::Drain(node))?;
    Ok(())
}

//! The steps of the front end and of nodes: each does the rule of what comes to it, and all that it did is told.

ghost use Rattle.std.specs.Prelude.{◌≡◌, ◌≤◌, ◌∷◌, [], length, OnOk, OnErr};
ghost use Rattle.lard_rules.specs.FrontSound.{MayClose};
ghost use Rattle.lard_rules.specs.Machine.{front_acts, node_acts, node_at};
ghost use Rattle.lard_front.specs.Bounds.{IsShort};
ghost use Rattle.lard_stepping.specs.Sound.{HasRoom, IsSet, IsMachineSound};
ghost use Rattle.lard_rules.specs.Speaking.{listed};

use crate::acting::{pass, tell};
use lard_base::{Event, Millis, NoMemory, NodeId, Place};
use lard_journal::Rec;
use lard_rules::{BackIn, FrontIn, Machine};
use std::alloc::Global;

/// Ends a step in which the front end does the rule of what comes to it. Without memory the journal is as it was.
pub fn front_acts(
    machine: &mut Machine,
    alloc: Global,
    event: Event,
    own: Option<Rec>,
    input: FrontIn,
) -> Result<(), NoMemory>
    requires room { HasRoom machine.old }
    requires sound { IsMachineSound machine.old }
    requires set { IsSet machine.old.config }
    requires short { IsShort input }
    requires closes { MayClose machine.old.front input }
    ensures ok { OnOk result (machine.new ≡ front_acts machine.old event (listed own) input) }
    ensures sound { OnOk result (IsMachineSound machine.new) }
    ensures err { OnErr result (machine.new.journal ≡ machine.old.journal) }
{
    let setting = lard_front::step::Setting {
        files: &machine.files,
        stream: machine.config.stream,
        now: Millis(machine.now),
    };
    let out = lard_front::step::step(&mut machine.front, alloc, &setting, input)?;
    tell(machine, alloc, event, own, Place::Front, out)
}

/// Ends a step in which a node, which is there, does the rule of what comes to it. Without memory the journal is as it was.
pub fn node_acts(
    machine: &mut Machine,
    alloc: Global,
    event: Event,
    own: Option<Rec>,
    n: NodeId,
    input: BackIn,
) -> Result<(), NoMemory>
    requires room { HasRoom machine.old }
    requires sound { IsMachineSound machine.old }
    requires set { IsSet machine.old.config }
    requires there { n ≤ length machine.old.nodes }
    ensures ok { OnOk result (machine.new ≡ node_acts machine.old event (listed own) n input (node_at machine.old.nodes n)) }
    ensures sound { OnOk result (IsMachineSound machine.new) }
    ensures err { OnErr result (machine.new.journal ≡ machine.old.journal) }
{
    let setting = lard_back::Setting {
        n,
        files: &machine.files,
        stream: machine.config.stream,
    };
    let at = n.number() as usize - 1;
    let out = lard_back::step(machine.nodes.node_mut(at), alloc, &setting, input)?;
    tell(machine, alloc, event, own, Place::Node(n), out)
}

/// A packet comes to a node. Where there is no such node, it arrives and nothing else is done. Without memory the
/// journal is as it was.
pub fn to_node(
    machine: &mut Machine,
    alloc: Global,
    k: u32,
    n: NodeId,
    input: BackIn,
) -> Result<(), NoMemory>
    requires room { HasRoom machine.old }
    requires sound { IsMachineSound machine.old }
    requires set { IsSet machine.old.config }
    ensures ok { OnOk result (machine.new ≡ node_acts machine.old (Event.Deliver k) (Rec.Got k ∷ []) n input (node_at machine.old.nodes n)) }
    ensures sound { OnOk result (IsMachineSound machine.new) }
    ensures err { OnErr result (machine.new.journal ≡ machine.old.journal) }
{
    if machine.nodes.len() < n.number() as usize {
        return pass(machine, alloc, Event::Deliver(k), Rec::Got(k));
    }
    node_acts(
        machine,
        alloc,
        Event::Deliver(k),
        Some(Rec::Got(k)),
        n,
        input,
    )
}

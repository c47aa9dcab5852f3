//! One step: no limit was reached, and the event has its rule.

ghost use Rattle.std.specs.Prelude.{◌≡◌, OnOk};
ghost use Rattle.lard_rules.specs.Bounds.{HasRule};
ghost use Rattle.lard_rules.specs.Machine.{Steps, happens, limit_reached, machine_step};
ghost use Rattle.lard_stepping.specs.Sound.{HasRoom, IsSet, IsMachineSound, MayStep};

use crate::{disks, nodes, packets, stations};
use lard_base::Event;
use lard_rules::{Machine, StepFault, What, first_limit};
use std::alloc::Global;

/// Does the step of an event, unless a limit was reached before it. After a fault everything is as it was; if memory
/// ran out, only the journal is.
#[tactic(auto, unfolding(lard_rules::specs::Machine::machine_step))]
pub fn machine_step(machine: &mut Machine, alloc: Global, event: Event) -> Result<(), StepFault>
    requires ruled { HasRule event }
    requires sound { IsMachineSound machine.old }
    requires set { IsSet machine.old.config }
    requires closes { MayStep machine.old event }
    ensures step { Steps (machine_step machine.old event) machine.old machine.new result }
    ensures sound { OnOk result (IsMachineSound machine.new) }
{
    if let Some(what) = limit_reached(machine) {
        return Err(StepFault::Limit(what));
    }
    happen(machine, alloc, event)
}

/// The first limit that was reached; `None` where none was.
pub fn limit_reached(machine: &Machine) -> Option<What>
    ensures { result ≡ limit_reached machine.entry.now }
{
    first_limit(
        machine.net.sent(),
        machine.net.bytes(),
        machine.journal.len(),
        machine.answered,
    )
}

/// Follows the rule of the event.
fn happen(machine: &mut Machine, alloc: Global, event: Event) -> Result<(), StepFault>
    requires ruled { HasRule event }
    requires room { HasRoom machine.old }
    requires sound { IsMachineSound machine.old }
    requires set { IsSet machine.old.config }
    requires closes { MayStep machine.old event }
    ensures step { Steps (happens machine.old event) machine.old machine.new result }
    ensures sound { OnOk result (IsMachineSound machine.new) }
{
    match event {
        Event::Open {
            c,
            isn,
            iss,
            wnd,
            mss,
        } => return stations::open(machine, alloc, c, isn, iss, wnd, mss),
        Event::Get { c, path } => return stations::write_request(machine, alloc, c, path),
        Event::Write { c, bytes } => return stations::write_bytes(machine, alloc, c, bytes),
        Event::Shut(c) => return stations::shut(machine, alloc, c),
        Event::Abort(c) => return stations::abort(machine, alloc, c),
        Event::Hold(c) => return stations::hold(machine, alloc, c),
        Event::Take(c) => return stations::take(machine, alloc, c),
        Event::Inject { c, bytes } => return stations::inject(machine, alloc, c, bytes),
        Event::Deliver(k) => return packets::deliver(machine, alloc, k),
        Event::Lose(k) => return packets::lose(machine, alloc, k),
        Event::Timer { place, c } => return packets::fire(machine, alloc, place, c),
        Event::Disk { n, j } => return disks::complete(machine, alloc, n, j),
        Event::Drain(n) => return nodes::drain(machine, alloc, n),
        Event::Clock(ms) => return disks::tick(machine, alloc, ms),
        Event::Settle(_) => unreachable!(),
    }
}

//! What becomes of the SYNs.

ghost use Rattle.std.specs.Prelude.{◌≡◌, ◌≤◌, ◌++◌, IfOk, OnOk};
ghost use Rattle.lard_generate.specs.Clients.{drawn_fate, fate_at};
ghost use Rattle.lard_generate.specs.Draws.{each};

use crate::draws::draw;
use lard_base::{ConnId, Event, Events, NoMemory};
use rand_pcg::Lcg64Xsh32;
use std::alloc::Global;

/// Some SYNs are lost, and some come twice, of so many clients, to 16,384. `NoMemory` where memory runs out.
pub fn fates(alloc: Global, draws: &mut Lcg64Xsh32, clients: u32) -> Result<Events, NoMemory>
    requires { clients ≤ ConnId.MAX }
    ensures { IfOk result (λ events. each drawn_fate clients draws.old ≡ (events, draws.new)) }
{
    let mut events = Events::new(alloc);
    for k in 0..clients {
        push_fate(&mut events, k + 1, draw(draws, 8))?;
    }
    Ok(events)
}

/// Packet `c` is lost where the draw is 0, and comes twice where it is 1.
fn push_fate(events: &mut Events, c: u32, draw: u32) -> Result<(), NoMemory>
    ensures { OnOk result (events.new ≡ events.old ++ fate_at c draw) }
{
    match draw {
        0 => events.push(Event::Lose(c)),
        1 => {
            events.push(Event::Deliver(c))?;
            events.push(Event::Deliver(c))
        }
        _ => Ok(()),
    }
}

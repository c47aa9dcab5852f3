//! The clients open.

ghost use Rattle.std.specs.Prelude.{◌≡◌, ◌≤◌, [], ◌∷◌, IfOk};
ghost use Rattle.lard_generate.specs.Clients.{drawn_open};
ghost use Rattle.lard_generate.specs.Draws.{each};

use crate::draws::{client, word};
use lard_base::limits::MAX_SEGMENT_DATA;
use lard_base::{ConnId, Event, Events, NoMemory};
use rand_pcg::Lcg64Xsh32;
use std::alloc::Global;

/// All clients open, of which there are so many, to 16,384. `NoMemory` where memory runs out.
pub fn opens(alloc: Global, draws: &mut Lcg64Xsh32, clients: u32) -> Result<Events, NoMemory>
    requires { clients ≤ ConnId.MAX }
    ensures { IfOk result (λ events. each drawn_open clients draws.old ≡ (events, draws.new)) }
{
    let mut events = Events::new(alloc);
    for k in 0..clients {
        events.push(open(draws, client(k + 1)))?;
    }
    Ok(events)
}

/// A client opens.
fn open(draws: &mut Lcg64Xsh32, c: ConnId) -> Event
    ensures { drawn_open c draws.old ≡ (result ∷ [], draws.new) }
{
    let isn = word(draws);
    let iss = word(draws);
    Event::Open {
        c,
        isn,
        iss,
        wnd: 65_535,
        mss: MAX_SEGMENT_DATA,
    }
}

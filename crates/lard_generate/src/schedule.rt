//! The whole schedule.

ghost use Rattle.std.specs.Prelude.{◌≡◌, ◌≤◌, IfOk};
ghost use Rattle.lard_generate.specs.Generated.{generated};

use crate::action::{actions, events};
use crate::files::{files, sizes};
use crate::opens::opens;
use crate::rounds::rounds;
use crate::syns::fates;
use lard_base::{Event, Events, NoMemory};
use lard_files::Files;
use rand_pcg::Lcg64Xsh32;
use std::alloc::Global;

/// The most clients of a generated schedule.
pub const MAX_CLIENTS: u32 = 2_000;

/// What a schedule says: its files, and its events in order.
#[derive(Drop)]
pub struct Schedule {
    pub files: Files,
    pub events: Events,
}

/// The generated schedule of a seed and of so many clients, 1 to 2,000. It is for 64 nodes, with the standard numbers.
/// `NoMemory` comes where memory runs out.
pub fn generate(alloc: Global, seed: u64, clients: u32) -> Result<Schedule, NoMemory>
    requires { (1 ≤ clients) × (clients ≤ MAX_CLIENTS) }
    ensures { IfOk result (λ schedule. schedule ≡ generated seed clients) }
{
    let mut draws = Lcg64Xsh32::new(seed, 1);
    let sizes = sizes(alloc, &mut draws)?;
    let files = files(alloc, sizes.as_slice())?;
    let mut all = opens(alloc, &mut draws, clients)?;
    let actions = actions(alloc, &mut draws, clients)?;
    all.append(&mut events(alloc, actions.as_slice())?)?;
    all.append(&mut fates(alloc, &mut draws, clients)?)?;
    let rounds = rounds(clients, sizes.as_slice(), actions.as_slice());
    all.push(Event::Settle(rounds))?;
    Ok(Schedule { files, events: all })
}

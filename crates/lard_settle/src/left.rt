//! What is left to be done.

ghost use Rattle.std.specs.Prelude.{◌≡◌, ◌≤◌, ◌<◌, ◌^◌, false, IfOk};
ghost use Rattle.lard_agenda.specs.Agenda.{IsAgendaOf};
ghost use Rattle.lard_settling.specs.Settling.{is_quiet, jobs_left, settle_left};
ghost use Rattle.lard_settling.specs.Left.{jobs_at};

use lard_agenda::Agenda;
use lard_base::{NoMemory, NodeId};
use lard_world::World;

/// Whether no timer runs but those that are stalled, and no job waits. The agenda is one of the world's journal, and
/// stays so. `NoMemory` where memory runs out.
pub fn is_quiet(world: &World, agenda: &mut Agenda) -> Result<bool, NoMemory>
    requires usable { world.now.spoiled ≡ false }
    requires agenda { IsAgendaOf agenda.old world.now.machine.journal }
    ensures quiet { IfOk result (λ quiet. quiet ≡ is_quiet world.now.machine) }
    ensures agenda { IsAgendaOf agenda.new world.now.machine.journal }
{
    agenda.follow(world.journal().as_slice())?;
    Ok(agenda.rests(world.dispatch()) && jobs_left(world) == 0)
}

/// How many timers run that are not stalled, and how many jobs wait. The agenda is one of the world's journal, and
/// stays so. `NoMemory` where memory runs out.
pub fn left(world: &World, agenda: &mut Agenda) -> Result<u64, NoMemory>
    requires usable { world.now.spoiled ≡ false }
    requires agenda { IsAgendaOf agenda.old world.now.machine.journal }
    ensures left { IfOk result (λ count. count ≡ settle_left world.now.machine) }
    ensures agenda { IsAgendaOf agenda.new world.now.machine.journal }
{
    agenda.follow(world.journal().as_slice())?;
    Ok(agenda.timers_left(world.dispatch()) + jobs_left(world))
}

/// How many jobs wait at the disks of all nodes.
fn jobs_left(world: &World) -> u64
    requires { world.now.spoiled ≡ false }
    ensures count { result ≡ jobs_left world.now.machine }
    ensures few { result < 2 ^ 40 }
{
    let mut left = 0;
    for at in 0..world.config().nodes {
        left += u64::from(jobs(world, at + 1));
    }
    left
}

/// How many jobs wait at the disk of node n, one of those that there are.
pub fn jobs(world: &World, n: u8) -> u32
    requires usable { world.now.spoiled ≡ false }
    requires there { (1 ≤ n) × (n ≤ world.now.machine.config.nodes) }
    ensures { result ≡ jobs_at world.now.machine n }
{
    world.law();
    match NodeId::new(u32::from(n)) {
        Some(node) => world.jobs(node),
        None => 0,
    }
}

//! The events of a settle, list by list.

ghost use Rattle.std.specs.Prelude.{◌≡◌, ◌≤◌, false, filter, map, replicate, IfOk};
ghost use Rattle.std.specs.List.{AllByRecursion};
ghost use Rattle.lard_agenda.specs.Agenda.{IsAgendaOf, due, holders, on_way};
ghost use Rattle.lard_base.specs.declared.event.Event.TheVariants as event;
ghost use Rattle.lard_rules.specs.Bounds.{HasRule};
ghost use Rattle.lard_settling.specs.Settling.{completions, deliveries, firings, is_own_seat, is_own_at, takes};
ghost use Rattle.lard_settling.specs.Left.{is_holder};

use crate::left::jobs;
use lard_agenda::Agenda;
use lard_base::{ConnId, Event, Events, Items, NoMemory, Place};
use lard_world::World;
use std::alloc::Global;

/// Each client that holds takes, by number. The agenda is one of the world's journal, and stays so. `NoMemory` where
/// memory runs out.
pub fn takes(world: &World, agenda: &mut Agenda, alloc: Global) -> Result<Events, NoMemory>
    requires { IsAgendaOf agenda.old world.now.machine.journal }
    ensures events { IfOk result (λ events. events ≡ takes world.now.machine) }
    ensures ruled { IfOk result (AllByRecursion HasRule) }
    ensures agenda { IsAgendaOf agenda.new world.now.machine.journal }
{
    agenda.follow(world.journal().as_slice())?;
    takes_of(world, agenda.holders(alloc)?, alloc)
}

/// Those of these clients that hold take.
fn takes_of(world: &World, clients: Items<ConnId>, alloc: Global) -> Result<Events, NoMemory>
    ensures { IfOk result (λ events. events ≡ map event.Take (filter (is_holder world.now.machine) clients)) }
{
    let mut events = Events::new(alloc);
    for c in clients.into_vec() {
        if world.holds(c) {
            events.push(Event::Take(c))?;
        }
    }
    Ok(events)
}

/// Each packet that is on its way is delivered, by number. The agenda is one of the world's journal, and stays so.
/// `NoMemory` where memory runs out.
pub fn deliveries(world: &World, agenda: &mut Agenda, alloc: Global) -> Result<Events, NoMemory>
    requires { IsAgendaOf agenda.old world.now.machine.journal }
    ensures events { IfOk result (λ events. events ≡ deliveries world.now.machine) }
    ensures ruled { IfOk result (AllByRecursion HasRule) }
    ensures agenda { IsAgendaOf agenda.new world.now.machine.journal }
{
    agenda.follow(world.journal().as_slice())?;
    deliveries_of(agenda.on_way(alloc)?, alloc)
}

/// Each of these packets is delivered.
fn deliveries_of(packets: Items<u32>, alloc: Global) -> Result<Events, NoMemory>
    ensures { IfOk result (λ events. events ≡ map event.Deliver packets) }
{
    let mut events = Events::new(alloc);
    for k in packets.into_vec() {
        events.push(Event::Deliver(k))?;
    }
    Ok(events)
}

/// Node n, one of those that there are, completes its first job as often as it has jobs. `NoMemory` where memory runs
/// out.
pub fn completions(world: &World, n: u8, alloc: Global) -> Result<Events, NoMemory>
    requires usable { world.now.spoiled ≡ false }
    requires there { (1 ≤ n) × (n ≤ world.now.machine.config.nodes) }
    ensures events { IfOk result (λ events. events ≡ completions world.now.machine n) }
    ensures ruled { IfOk result (AllByRecursion HasRule) }
{
    completions_of(n, jobs(world, n), alloc)
}

/// Node n completes its first job so many times.
fn completions_of(n: u8, count: u32, alloc: Global) -> Result<Events, NoMemory>
    ensures { IfOk result (λ events. events ≡ replicate count (event.Disk n 1)) }
{
    let mut events = Events::new(alloc);
    for _job in 0..count {
        let n = u32::from(n);
        events.push(Event::Disk { n, j: 1 })?;
    }
    Ok(events)
}

/// Each timer fires that runs and is not stalled, once for each place and connection. The agenda is one of the world's
/// journal, and stays so. `NoMemory` where memory runs out.
pub fn firings(world: &World, agenda: &mut Agenda, alloc: Global) -> Result<Events, NoMemory>
    requires { IsAgendaOf agenda.old world.now.machine.journal }
    ensures events { IfOk result (λ events. events ≡ firings world.now.machine) }
    ensures ruled { IfOk result (AllByRecursion HasRule) }
    ensures agenda { IsAgendaOf agenda.new world.now.machine.journal }
{
    agenda.follow(world.journal().as_slice())?;
    firings_of(agenda.due(alloc, world.dispatch())?, alloc)
}

/// The timers of these places and connections fire.
fn firings_of(seats: Items<(Place, ConnId)>, alloc: Global) -> Result<Events, NoMemory>
    ensures { IfOk result (λ events. events ≡ map (λ seat. event.Timer seat.0 seat.1) (filter is_own_seat seats)) }
{
    let mut events = Events::new(alloc);
    for (place, c) in seats.into_vec() {
        if is_own_at(&place, c) {
            events.push(Event::Timer { place, c })?;
        }
    }
    Ok(events)
}

/// Whether a place has the timers of a connection: a client has those of its own.
fn is_own_at(place: &Place, c: ConnId) -> bool
    ensures { result ≡ is_own_at place.now c }
{
    match place {
        Place::Client(d) => d.number() == c.number(),
        Place::Front => true,
        Place::Node(_) => true,
    }
}

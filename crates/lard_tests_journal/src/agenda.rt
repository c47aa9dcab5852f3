//! Each call with ample memory, where nobody waits.

use crate::compare::{same, shows};
use lard_agenda::{Agenda, Kinds};
use lard_base::{Config, ConnId, Event, NoMemory, NodeId, Place, TimerKind};
use lard_dispatch::Dispatch;
use lard_journal::{Rec, Recs};
use lard_shared::Shared;
use std::alloc::Global;
use std::process::Abort;
use std::test::Fail;

fn conn(rt: &impl Abort, number: u32) -> ConnId {
    ConnId::new(number).expect(rt, "the number of a connection")
}

/// Three packets of a client.
fn packets(alloc: Global, c: ConnId) -> Result<Recs, NoMemory> {
    let mut recs = Recs::new(alloc);
    for k in 1..4 {
        recs.push(Rec::Sent {
            k,
            from: Place::Client(c),
            to: Place::Front,
            bytes: Shared::from_slice(alloc, b"x")?,
        })?;
    }
    Ok(recs)
}

/// The first packet is got and the second lost, and of two clients that hold the first takes.
fn losses_and_holders(recs: &mut Recs, c: ConnId, other: ConnId) -> Result<(), NoMemory> {
    recs.push(Rec::Got(1))?;
    recs.push(Rec::Lost(2))?;
    let event = Event::Hold(c);
    recs.push(Rec::Event { i: 1, event })?;
    recs.push(Rec::Inner(Event::Hold(other)))?;
    recs.push(Rec::Inner(Event::Take(c)))?;
    Ok(())
}

fn armed(place: Place, c: ConnId, kind: TimerKind) -> Rec {
    Rec::Armed { place, c, kind }
}

fn cleared(place: Place, c: ConnId, kind: TimerKind) -> Rec {
    Rec::Cleared { place, c, kind }
}

/// Timers at clients, a node and the front end. One of two at the node is cleared, and the only one of the first client.
fn timers(recs: &mut Recs, c: ConnId, other: ConnId, n: NodeId) -> Result<(), NoMemory> {
    recs.push(armed(Place::Client(other), other, TimerKind::Tcp))?;
    recs.push(armed(Place::Client(c), c, TimerKind::Tcp))?;
    recs.push(armed(Place::Node(n), c, TimerKind::Ask))?;
    recs.push(armed(Place::Node(n), c, TimerKind::Tcp))?;
    recs.push(armed(Place::Front, other, TimerKind::Offer))?;
    recs.push(cleared(Place::Node(n), c, TimerKind::Tcp))?;
    recs.push(cleared(Place::Client(c), c, TimerKind::Tcp))?;
    Ok(())
}

/// All of these.
fn records(alloc: Global, c: ConnId, other: ConnId, n: NodeId) -> Result<Recs, NoMemory> {
    let mut recs = packets(alloc, c)?;
    losses_and_holders(&mut recs, c, other)?;
    timers(&mut recs, c, other, n)?;
    Ok(recs)
}

/// An agenda that has followed these records.
fn followed(alloc: Global, recs: &Recs) -> Result<Agenda, NoMemory> {
    let mut agenda = Agenda::new(alloc);
    agenda.follow(recs.as_slice())?;
    Ok(agenda)
}

#[test]
fn what_is_left_is_told(rt: HostRuntime) -> Result<(), Fail> {
    let n = NodeId::new(2).expect(&rt, "the number of a node");
    let recs = records(rt.alloc(), conn(&rt, 2), conn(&rt, 5), n)?;
    let agenda = followed(rt.alloc(), &recs)?;
    has_packets_and_holders(&rt, rt.alloc(), &agenda);
    let dispatch = Dispatch::new(rt.alloc(), Config::standard())?;
    has_timers(&rt, rt.alloc(), &agenda, &dispatch);
    Ok(())
}

/// The third packet is on its way, and the second client holds.
fn has_packets_and_holders(rt: &impl Abort, alloc: Global, agenda: &Agenda) {
    let way = agenda.on_way(alloc);
    shows(rt, alloc, &way, "Ok(Items { items: [3] })");
    let holders = agenda.holders(alloc);
    let want = "Ok(Items { items: [ConnId { number: 5 }] })";
    shows(rt, alloc, &holders, want);
}

/// Three timers are left.
fn has_timers(rt: &impl Abort, alloc: Global, agenda: &Agenda, dispatch: &Dispatch) {
    let due = agenda.due(alloc, dispatch);
    shows(rt, alloc, &due, DUE);
    let told = (agenda.timers_left(dispatch), agenda.rests(dispatch));
    same(rt, &told, &(3, false));
}

const DUE: &str = "Ok(Items { items: [(Front, ConnId { number: 5 }), \
    (Node(NodeId { number: 2 }), ConnId { number: 2 }), \
    (Client(ConnId { number: 5 }), ConnId { number: 5 })] })";

#[test]
fn kinds_are_set_and_counted(rt: HostRuntime) {
    let none = Kinds::none();
    let two = none
        .with(TimerKind::Fetch, true)
        .with(TimerKind::Ended, true);
    let one = two.with(TimerKind::Fetch, false);
    same(&rt, &(none.is_none(), two.is_none()), &(true, false));
    same(&rt, &(two.how_many(), one.how_many()), &(2, 1));
    let all = [
        TimerKind::Tcp,
        TimerKind::Offer,
        TimerKind::Ask,
        TimerKind::Fetch,
        TimerKind::Ended,
        TimerKind::Give,
    ];
    let six = all.iter().fold(none, |kinds, kind| kinds.with(*kind, true));
    same(&rt, &six.how_many(), &6);
}

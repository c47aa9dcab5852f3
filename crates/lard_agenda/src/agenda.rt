//! What is left to be done, kept up to date by the records.

ghost use Rattle.std.specs.Prelude.{◌≡◌, ◌<◌, ◌≤◌, ◌*◌, ◌^◌, true, false, IfOk, OnOk, OnErr};
ghost use Rattle.lard_agenda.specs.Kinds.{kinds_of};
ghost use Rattle.lard_agenda.specs.Agenda.{IsAgendaOf, agenda_of, changed_by, due, entry, held_by, holders, is_stalled, nothing_noted, on_way, rests, seat, timer_set, timers_left};

use crate::kinds::{Kinds, Running};
use crate::register::Register;
use lard_base::{ConnId, Event, Items, NoMemory, NodeId, Place, TimerKind};
use lard_dispatch::Dispatch;
use lard_journal::Rec;
use std::alloc::Global;

/// How many seats a place has: more than there are connections.
const SEATS: u32 = 65_536;

/// What a journal leaves to be done.
#[derive(Drop)]
pub struct Agenda {
    /// How many records it has seen.
    noted: u64,
    /// The packets on their way, by their numbers.
    way: Register<()>,
    /// The connections of which timers run at a place, by their seats.
    running: Register<Running>,
    /// The clients that hold, by their numbers.
    held: Register<ConnId>,
}

impl Agenda {
    /// Nothing is to be done. It takes no memory yet.
    pub fn new(alloc: Global) -> Agenda
        ensures { result ≡ nothing_noted }
    {
        Agenda {
            noted: 0,
            way: Register::new(alloc),
            running: Register::new(alloc),
            held: Register::new(alloc),
        }
    }

    /// Notes the records of a journal that it has not seen. Those that it has seen are the first of them. Without
    /// memory it has noted some more of them.
    pub fn follow(&mut self, records: &[Rec]) -> Result<(), NoMemory>
        requires { IsAgendaOf self.old records.now }
        ensures ok { OnOk result (self.new ≡ agenda_of records.now) }
        ensures still { IsAgendaOf self.new records.now }
    {
        while self.noted < records.len() as u64 {
            self.change(&records[self.noted as usize])?;
            self.noted += 1;
        }
        Ok(())
    }

    /// What one record changes. Without memory all is as it was.
    fn change(&mut self, rec: &Rec) -> Result<(), NoMemory>
        ensures ok { OnOk result (self.new ≡ changed_by self.old rec.now) }
        ensures err { OnErr result (self.new ≡ self.old) }
    {
        match rec {
            Rec::Sent {
                k,
                from: _,
                to: _,
                bytes: _,
            } => self.way.put(*k, Some(())),
            Rec::Got(k) => self.way.put(*k, None),
            Rec::Lost(k) => self.way.put(*k, None),
            Rec::Armed { place, c, kind } => set_timer(&mut self.running, place, *c, *kind, true),
            Rec::Cleared { place, c, kind } => {
                set_timer(&mut self.running, place, *c, *kind, false)
            }
            Rec::Event { i: _, event } => hear(&mut self.held, event),
            Rec::Inner(event) => hear(&mut self.held, event),
            _ => Ok(()),
        }
    }

    /// The packets on their way, by number. `NoMemory` where memory runs out.
    pub fn on_way(&self, alloc: Global) -> Result<Items<u32>, NoMemory>
        ensures { IfOk result (λ packets. packets ≡ on_way self.now) }
    {
        let mut packets = Items::new(alloc);
        for k in self.way.numbers() {
            packets.push(*k)?;
        }
        Ok(packets)
    }

    /// The clients that hold, by number. `NoMemory` where memory runs out.
    pub fn holders(&self, alloc: Global) -> Result<Items<ConnId>, NoMemory>
        ensures { IfOk result (λ clients. clients ≡ holders self.now) }
    {
        let mut clients = Items::new(alloc);
        for c in self.held.values() {
            clients.push(*c)?;
        }
        Ok(clients)
    }

    /// The places and connections whose timers run and are not stalled, in the order in which they fire. `NoMemory`
    /// where memory runs out.
    pub fn due(&self, alloc: Global, line: &Dispatch) -> Result<Items<(Place, ConnId)>, NoMemory>
        ensures { IfOk result (λ seats. seats ≡ due line.now self.now) }
    {
        let mut seats = Items::new(alloc);
        for running in self.running.values() {
            if !stalls(line, running) {
                seats.push((running.place, running.c))?;
            }
        }
        Ok(seats)
    }

    /// Whether no timer runs that is not stalled.
    pub fn rests(&self, line: &Dispatch) -> bool
        ensures { result ≡ rests line.now self.now }
    {
        for running in self.running.values() {
            if !stalls(line, running) {
                return false;
            }
        }
        true
    }

    /// How many timers run and are not stalled.
    pub fn timers_left(&self, line: &Dispatch) -> u64
        ensures count { result ≡ timers_left line.now self.now }
        ensures few { result ≤ 6 * 2 ^ 32 }
    {
        let mut left = 0;
        for running in self.running.values() {
            if !stalls(line, running) {
                left += running.kinds.how_many();
            }
        }
        left
    }
}

/// Whether the timers are those of a client whose connection waits for admission.
fn stalls(line: &Dispatch, running: &Running) -> bool
    ensures { result ≡ is_stalled line.now running.now }
{
    match running.place {
        Place::Client(_) => line.waits(running.c),
        Place::Front => false,
        Place::Node(_) => false,
    }
}

/// The seat of a connection at a place.
fn seat_of(place: &Place, c: ConnId) -> u32
    ensures { result ≡ seat place.now c }
{
    let number = match place {
        Place::Front => 0,
        Place::Node(n) => n.number(),
        Place::Client(d) => NodeId::MAX + d.number(),
    };
    number * SEATS + c.number()
}

/// The timer of a kind runs at a place from now on, or no longer. Without memory all is as it was.
fn set_timer(
    running: &mut Register<Running>,
    place: &Place,
    c: ConnId,
    kind: TimerKind,
    runs: bool,
) -> Result<(), NoMemory>
    ensures ok { OnOk result (running.new ≡ timer_set running.old place.now c kind runs) }
    ensures err { OnErr result (running.new ≡ running.old) }
{
    let seat = seat_of(place, c);
    let kinds = kinds_of(running.get(seat)).with(kind, runs);
    running.put(seat, entry(place, c, kinds))
}

/// The kinds of timers that run, where any do.
fn kinds_of(running: Option<Running>) -> Kinds
    ensures { result ≡ kinds_of running }
{
    match running {
        Some(running) => running.kinds,
        None => Kinds::none(),
    }
}

/// What is kept of a connection at a place: nothing where no timer runs.
fn entry(place: &Place, c: ConnId, kinds: Kinds) -> Option<Running>
    ensures { result ≡ entry place.now c kinds }
{
    if kinds.is_none() {
        None
    } else {
        Some(Running {
            place: *place,
            c,
            kinds,
        })
    }
}

/// A client holds, or takes what it held. Without memory all is as it was.
fn hear(held: &mut Register<ConnId>, event: &Event) -> Result<(), NoMemory>
    ensures ok { OnOk result (held.new ≡ held_by held.old event.now) }
    ensures err { OnErr result (held.new ≡ held.old) }
{
    match event {
        Event::Hold(c) => held.put(c.number(), Some(*c)),
        Event::Take(c) => held.put(c.number(), None),
        _ => Ok(()),
    }
}

//! Who is in, how loaded each node is, and who serves what.

ghost use Rattle.std.specs.Prelude.{◌≡◌, ◌<◌, ◌≤◌, Ok, Some, None, true, IfOk, OnOk, OnErr};
ghost use Rattle.lard_base.specs.Config.{config_check, room_of};
ghost use Rattle.lard_dispatch.specs.Calls.{joined, reduced};
ghost use Rattle.lard_journal.specs.declared.rec.Rec.TheVariants as rec;
ghost use Rattle.lard_costs.specs.declared.later.LaterChoice.{LaterChoice};
ghost use Rattle.lard_costs.specs.Later.{later_choice};
ghost use Rattle.lard_loads.specs.Tally.{admitted, batch_ended, connected, has_other_open, home, is_open, open_shares, released, shared, tally_closed};
ghost use Rattle.lard_policy.specs.declared.first.FirstChoice.{FirstChoice};
ghost use Rattle.lard_sets.specs.Sets.{has_place, set_of, sets_closed, touched};
ghost use Rattle.lard_audit.specs.Sound.{audit_first_at, is_first_choice, is_first_of, is_later_choice, is_same, keeps_admission, keeps_choice, keeps_clock, keeps_later, keeps_room};
ghost use Rattle.lard_audit.specs.Books.{AreSound, AuditBooks, blank_books, count_in, is_inside, is_it};

use lard_base::{Config, ConnId, Millis, NoMemory, NodeId, Path};
use lard_costs::{LaterChoice, choose_later};
use lard_journal::Rec;
use lard_loads::Loads;
use lard_policy::{FirstChoice, choose_first};
use lard_sets::Sets;
use std::alloc::Global;
use std::marker::Model;

/// The time, the loads of the nodes, the server sets, and the connection whose first assignment is due.
#[derive(Drop)]
pub struct Books {
    config: Config,
    /// How many connections may be in.
    room: u32,
    time: Millis,
    loads: Loads,
    sets: Sets,
    due: Option<ConnId>,
}

impl Model for Books {
    ghost use Rattle.std.specs.Prelude.{◌≡◌};
    ghost use Rattle.lard_base.specs.Config.{room_of};
    ghost use Rattle.lard_audit.specs.Books.{AreSound, AuditBooks, audit_coded_books};

    ghost Value = { AuditBooks };

    ghost coded = { audit_coded_books };

    ghost view = { λ b. record { config = b.config; time = b.time; loads = b.loads; sets = b.sets; due = b.due } };

    ghost invariant = { λ b. (b.room ≡ room_of b.config) × AreSound (record { config = b.config; time = b.time; loads = b.loads; sets = b.sets; due = b.due }) };
}

impl Books {
    /// Nobody came. The configuration passes its check. It takes the memory for the loads at once.
    pub fn new(alloc: Global, config: Config) -> Result<Books, NoMemory>
        requires { config_check config ≡ Ok tt }
        ensures { IfOk result (λ b. b ≡ blank_books config) }
    {
        let Ok(()) = config.check() else {
            unreachable!();
        };
        let room = config.room();
        let loads = Loads::new(alloc, config.nodes)?;
        Ok(Books {
            config,
            room,
            time: Millis(0),
            loads,
            sets: Sets::new(alloc),
            due: None,
        })
    }

    /// Whether the record keeps the rule of admission.
    pub fn keeps_admission(&self, rec: &Rec) -> bool
        ensures law { AreSound self.now }
        ensures value { result ≡ keeps_admission self.now.due (room_of self.now.config) (count_in self.now) (is_inside self.now) rec.now }
    {
        match self.due {
            Some(c) => is_first_of(c, rec),
            None => self.keeps_room(rec),
        }
    }

    /// Whether the record keeps the rule of choices.
    pub fn keeps_choice(&self, rec: &Rec) -> bool
        ensures { result ≡ keeps_choice self.now.config self.now.time self.now.loads self.now.sets (is_inside self.now) rec.now }
    {
        match rec {
            Rec::AssignedFirst {
                c: _,
                r: _,
                path,
                n,
                add,
                remove,
            } => is_first_choice(&self.first_at(path), *n, *add, *remove),
            Rec::AssignedLater {
                c,
                r: _,
                path,
                n,
                add,
                size,
                queue,
            } => self.is_inside(*c) && self.keeps_later(*c, path, *n, *add, *size, *queue),
            Rec::Closed(n) => self.loads.is_open(*n) && self.loads.has_other_open(*n),
            _ => true,
        }
    }

    /// Whether the record keeps the rule of the clock.
    pub fn keeps_clock(&self, rec: &Rec) -> bool
        ensures { result ≡ keeps_clock self.now.time rec.now }
    {
        match rec {
            Rec::Clock(time) => self.time.0 <= time.0,
            _ => true,
        }
    }

    /// The time moves on, or stays.
    pub fn advance(&mut self, time: Millis)
        requires { self.old.time.0 ≤ time.0 }
        ensures { self.new ≡ record self.old { time = time } }
    {
        self.time = time;
    }

    /// A connection that is not in is admitted, where there is room: its first assignment is due.
    pub fn admit(&mut self, c: ConnId)
        requires due { self.old.due ≡ None }
        requires keeps { keeps_room (room_of self.old.config) (count_in self.old) (is_inside self.old) (rec.Admitted c) ≡ true }
        ensures { self.new ≡ record self.old { due = Some c } }
    {
        self.due = Some(c);
    }

    /// A connection that has a node is released.
    pub fn release(&mut self, c: ConnId)
        requires due { self.old.due ≡ None }
        requires inside { is_inside self.old c ≡ true }
        ensures { self.new ≡ record self.old { loads = released self.old.loads c } }
    {
        self.loads.release(c);
    }

    /// The connection that is due is assigned as the policy says. Without memory nothing changes.
    pub fn assign_first(
        &mut self,
        c: ConnId,
        path: &Path,
        n: NodeId,
        add: Option<NodeId>,
        remove: Option<NodeId>,
    ) -> Result<(), NoMemory>
        requires due { self.old.due ≡ Some c }
        requires choice { audit_first_at self.old.config self.old.time self.old.loads self.old.sets path.now ≡ record { node = n; add = add; remove = remove } }
        ensures ok { OnOk result (self.new ≡ record self.old { loads = connected self.old.loads c n; sets = reduced (joined (touched self.old.sets path.now) path.now add self.old.time) path.now remove self.old.time; due = None }) }
        ensures err { OnErr result (self.new ≡ self.old) }
    {
        self.sets.touch(path.as_slice())?;
        self.due = None;
        self.loads.connect(c, n);
        join(&mut self.sets, path.as_slice(), add, self.time);
        if let Some(m) = remove {
            self.sets.remove(path.as_slice(), m, self.time);
        }
        Ok(())
    }

    /// A later request of a connection is assigned as the policy says. Without memory nothing changes.
    pub fn assign_later(
        &mut self,
        c: ConnId,
        path: &Path,
        n: NodeId,
        add: Option<NodeId>,
        size: u32,
        queue: u32,
    ) -> Result<(), NoMemory>
        requires { keeps_later self.old.config self.old.loads self.old.sets (home self.old.loads c) c path.now n add size queue ≡ true }
        ensures ok { OnOk result (self.new ≡ record self.old { loads = shared self.old.loads c n size; sets = joined (touched self.old.sets path.now) path.now add self.old.time }) }
        ensures err { OnErr result (self.new ≡ self.old) }
    {
        self.sets.touch(path.as_slice())?;
        self.loads.share(c, n, size as u8);
        join(&mut self.sets, path.as_slice(), add, self.time);
        Ok(())
    }

    /// An open node is closed to new assignments, where another one is open.
    pub fn close(&mut self, n: NodeId)
        requires open { is_open self.old.loads n ≡ true }
        requires other { has_other_open self.old.loads n ≡ true }
        ensures { self.new ≡ record self.old { loads = tally_closed self.old.loads n; sets = sets_closed self.old.sets n } }
    {
        self.loads.close(n);
        self.sets.close(n);
    }

    /// The shares of a connection end, if it has some.
    pub fn end_batch(&mut self, c: ConnId)
        ensures { self.new ≡ record self.old { loads = batch_ended self.old.loads c } }
    {
        if self.loads.home(c).is_some() {
            self.loads.batch_over(c);
        }
    }

    /// Whether the record keeps the rule of admission, where no first assignment is due.
    fn keeps_room(&self, rec: &Rec) -> bool
        ensures { result ≡ keeps_room (room_of self.now.config) (count_in self.now) (is_inside self.now) rec.now }
    {
        match rec {
            Rec::Waits(_) => self.count_in() == self.room,
            Rec::Admitted(c) => self.count_in() < self.room && !self.is_inside(*c),
            Rec::AssignedFirst {
                c: _,
                r: _,
                path: _,
                n: _,
                add: _,
                remove: _,
            } => false,
            Rec::Released(c) => self.is_inside(*c),
            _ => true,
        }
    }

    /// How many connections are in.
    fn count_in(&self) -> u32
        ensures { result ≡ count_in self.now }
    {
        match self.due {
            Some(_) => self.loads.admitted() + 1,
            None => self.loads.admitted(),
        }
    }

    /// Whether a connection is in.
    fn is_inside(&self, c: ConnId) -> bool
        ensures { result ≡ is_inside self.now c }
    {
        self.loads.home(c).is_some() || is_it(self.due, c)
    }

    /// The first choice for a path.
    fn first_at(&self, path: &Path) -> FirstChoice
        ensures { result ≡ audit_first_at self.now.config self.now.time self.now.loads self.now.sets path.now }
    {
        let path = path.as_slice();
        choose_first(
            self.sets.members(path),
            &self.loads,
            self.time,
            self.sets.last_mod(path),
            &self.config,
        )
    }

    /// Whether a later assignment of a connection is as the policy says.
    fn keeps_later(
        &self,
        c: ConnId,
        path: &Path,
        n: NodeId,
        add: Option<NodeId>,
        size: u32,
        queue: u32,
    ) -> bool
        ensures { result ≡ keeps_later self.now.config self.now.loads self.now.sets (home self.now.loads c) c path.now n add size queue }
    {
        match self.loads.home(c) {
            Some(h) => {
                (1 <= size && size <= 8)
                    && (self.loads.open_shares(c) < 8
                        && is_later_choice(&self.later_at(h, path, queue), n, add))
            }
            None => false,
        }
    }

    /// The later choice for a path, of a connection at a node.
    fn later_at(&self, h: NodeId, path: &Path, queue: u32) -> LaterChoice
        requires { h ≤ self.now.loads.nodes }
        ensures { result ≡ later_choice self.now.loads h (set_of self.now.sets path.now).members queue self.now.config }
    {
        choose_later(
            h,
            self.sets.members(path.as_slice()),
            &self.loads,
            queue,
            &self.config,
        )
    }
}

/// A node joins the set of a path, for which a place is kept, if one does.
fn join(sets: &mut Sets, path: &[u8], node: Option<NodeId>, now: Millis)
    requires { has_place sets.old path.now ≡ true }
    ensures { sets.new ≡ joined sets.old path.now node now }
{
    if let Some(n) = node {
        match sets.add(path, n, now) {
            Ok(()) => {}
            Err(NoMemory) => unreachable!(),
        }
    }
}

/// Whether the record is the first assignment of this connection.
fn is_first_of(c: ConnId, rec: &Rec) -> bool
    ensures { result ≡ is_first_of c rec.now }
{
    match rec {
        Rec::AssignedFirst {
            c: d,
            r: _,
            path: _,
            n: _,
            add: _,
            remove: _,
        } => d.number() == c.number(),
        _ => false,
    }
}

/// Whether a choice is that of this node, with these that join and leave.
fn is_first_choice(
    choice: &FirstChoice,
    n: NodeId,
    add: Option<NodeId>,
    remove: Option<NodeId>,
) -> bool
    ensures { result ≡ is_first_choice choice.now n add remove }
{
    choice.node.number() == n.number()
        && (is_same(choice.add, add) && is_same(choice.remove, remove))
}

/// Whether a choice is that of this node, with this one that joins.
fn is_later_choice(choice: &LaterChoice, n: NodeId, add: Option<NodeId>) -> bool
    ensures { result ≡ is_later_choice choice.now n add }
{
    choice.node.number() == n.number() && is_same(choice.add, add)
}

/// Whether both are none, or the same node.
fn is_same(a: Option<NodeId>, b: Option<NodeId>) -> bool
    ensures { result ≡ is_same a b }
{
    match (a, b) {
        (None, None) => true,
        (Some(n), Some(m)) => n.number() == m.number(),
        _ => false,
    }
}

/// Whether there is one, and it is this connection.
fn is_it(due: Option<ConnId>, c: ConnId) -> bool
    ensures { result ≡ is_it due c }
{
    match due {
        Some(d) => d.number() == c.number(),
        None => false,
    }
}

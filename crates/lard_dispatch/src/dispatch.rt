//! The dispatcher.

ghost use Rattle.std.specs.Prelude.{◌≡◌, ℕ, ◌+◌, ◌<◌, ◌≤◌, ◌++◌, vec_len, true, false, Some, None, Ok, is_some, length, option_map, IfOk, OnOk, OnErr};
ghost use Rattle.std.specs.FinMap as map;
ghost use Rattle.std.specs.List.{AllByRecursion};
ghost use Rattle.std.specs.Vec.{vec_capacity};
ghost use Rattle.lard_base.specs.Config.{config_check};
ghost use Rattle.lard_loads.specs.Tally.{connected, has_other_open, home as home_of, is_open, open_shares, shared};
ghost use Rattle.lard_sets.specs.Sets.{has_place, set_of};
ghost use Rattle.lard_dispatch.specs.Books.{Books, Dispatcher, dispatch_begun};
ghost use Rattle.lard_dispatch.specs.Calls.{all_choices, all_shared, all_touched, later_choice_at, unlined, joined, reduced, choice_at, first_answer, after_first, later_answer, after_later, ended_answer, after_ended, after_leave, after_close};
ghost use Rattle.lard_dispatch.specs.Line.{line_waits};
ghost use Rattle.lard_dispatch.specs.Sound.{AreBefore, AreServedByNodes, IsDispatcherSound};

use crate::line::Line;
use lard_base::{Config, ConnId, Items, Millis, NoMemory, NodeId, Path, Paths};
use lard_costs::{LaterChoice, LaterChoices, choose_later};
use lard_loads::Loads;
use lard_policy::{FirstChoice, choose_first};
use lard_sets::Sets;
use std::alloc::Global;
use std::marker::Model;

/// What becomes of a connection with its first request.
#[derive(Clone, Copy, Debug, PartialEq, Eq)]
pub enum First {
    /// It is admitted, and goes to the node of this choice.
    Go(FirstChoice),
    /// It waits until another connection is released.
    Waits,
}

/// The further requests of a batch, for which a node asks.
#[derive(Debug, Drop)]
pub struct Ask {
    pub c: ConnId,
    /// The connection's node.
    pub home: NodeId,
    /// The number of the Ask among those of the connection, from 1.
    pub number: u32,
    /// How many jobs that node's disk has.
    pub queue: u32,
    /// How many requests the batch has, 1 to 8.
    pub size: u8,
    /// Those that are to be assigned, in order: 1 to `size`.
    pub paths: Paths,
}

/// Where the requests of a batch go.
#[derive(Debug, Drop)]
pub struct Later {
    /// Whether shares of the batch before it were open.
    pub over: bool,
    /// One for each path, in order.
    pub choices: LaterChoices,
}

/// Which connections are admitted and where, who serves what, and who waits.
#[derive(Drop)]
pub struct Dispatch {
    alloc: Global,
    config: Config,
    /// How many connections may be admitted.
    room: u32,
    loads: Loads,
    sets: Sets,
    line: Line,
}

impl Model for Dispatch {
    ghost use Rattle.std.specs.Prelude.{◌≡◌};
    ghost use Rattle.lard_base.specs.Config.{room_of};
    ghost use Rattle.lard_dispatch.specs.Books.{Dispatcher, coded_dispatcher};
    ghost use Rattle.lard_dispatch.specs.Sound.{IsDispatcherSound};

    ghost Value = { Dispatcher };

    ghost coded = { coded_dispatcher };

    ghost view = { λ d. record { config = d.config; books = record { loads = d.loads; sets = d.sets; line = d.line } } };

    ghost invariant = { λ d. (d.room ≡ room_of d.config) × IsDispatcherSound (record { config = d.config; books = record { loads = d.loads; sets = d.sets; line = d.line } }) };
}

impl Dispatch {
    /// No connection, and no server set. The configuration passes its check. `NoMemory` where memory runs out.
    pub fn new(alloc: Global, config: Config) -> Result<Dispatch, NoMemory>
        requires { config_check config ≡ Ok tt }
        ensures value { IfOk result (λ d. d ≡ dispatch_begun config) }
        ensures clock { IfOk result (λ d. AreBefore 0 d.books.sets) }
    {
        let Ok(()) = config.check() else {
            unreachable!();
        };
        let room = config.room();
        let loads = Loads::new(alloc, config.nodes)?;
        let line = Line::new(alloc)?;
        let sets = Sets::new(alloc);
        Ok(Dispatch {
            alloc,
            config,
            room,
            loads,
            sets,
            line,
        })
    }

    /// The loads of the nodes, lent, with what holds between two calls.
    pub fn loads(&self) -> &Loads
        ensures value { result.now ≡ self.now.books.loads }
        ensures law { IsDispatcherSound self.now }
    {
        &self.loads
    }

    /// Whether the connection waits.
    pub fn waits(&self, c: ConnId) -> bool
        ensures { result ≡ line_waits self.now.books.line c }
    {
        self.line.waits(c)
    }

    /// A connection that is neither admitted nor waits comes with its first request. It is admitted and assigned where
    /// there is room, and else waits. No set was changed after `now`. Without memory nothing changes.
    pub fn first(&mut self, c: ConnId, target: &Path, now: Millis) -> Result<First, NoMemory>
        requires free { home_of self.old.books.loads c ≡ None }
        requires away { line_waits self.old.books.line c ≡ false }
        requires clock { AreBefore now.0 self.old.books.sets }
        ensures clock { OnOk result (AreBefore now.0 self.new.books.sets) }
        ensures answer { IfOk result (λ first. first ≡ first_answer self.old target.now now) }
        ensures ok { OnOk result (self.new ≡ after_first self.old c target.now now) }
        ensures err { OnErr result (self.new ≡ self.old) }
    {
        if self.loads.admitted() == self.room {
            let target = target.copy(self.alloc)?;
            self.line.push(c, target)?;
            return Ok(First::Waits);
        }
        self.sets.touch(target.as_slice())?;
        let choice = admit(
            &self.config,
            &mut self.loads,
            &mut self.sets,
            c,
            target.as_slice(),
            now,
        );
        Ok(First::Go(choice))
    }

    /// An Ask of an admitted connection, its first time: the batch before it is over, and each path is assigned in
    /// order, at the loads and the sets that those before it left. It asks for 1 to `size` paths, `size` is at most 8,
    /// and `home` is the connection's node. No set was changed after `now`. Without memory nothing changes.
    pub fn later(&mut self, ask: &Ask, now: Millis) -> Result<Later, NoMemory>
        requires home { home_of self.old.books.loads ask.now.c ≡ Some ask.now.home }
        requires some { 1 ≤ length ask.now.paths }
        requires within { length ask.now.paths ≤ ask.now.size }
        requires few { ask.now.size ≤ 8 }
        requires clock { AreBefore now.0 self.old.books.sets }
        ensures clock { OnOk result (AreBefore now.0 self.new.books.sets) }
        ensures answer { IfOk result (λ later. later ≡ later_answer self.old ask.now now) }
        ensures ok { OnOk result (self.new ≡ after_later self.old ask.now now) }
        ensures err { OnErr result (self.new ≡ self.old) }
    {
        let paths = ask.paths.as_slice();
        let mut choices = Vec::with_capacity(self.alloc, paths.len())?;
        keep_places(&mut self.sets, paths)?;
        let over = self.loads.batch_over(ask.c);
        share_all(
            &self.config,
            &mut self.loads,
            &mut self.sets,
            ask,
            now,
            &mut choices,
        );
        Ok(Later {
            over,
            choices: Items::from_vec(choices),
        })
    }

    /// Releases an admitted connection, and admits the first of the line, with the choice for the target that it waits
    /// with: the answer is both, or `None` where nobody waits. No set was changed after `now`. Without memory nothing
    /// changes.
    pub fn ended(
        &mut self,
        c: ConnId,
        now: Millis,
    ) -> Result<Option<(ConnId, FirstChoice)>, NoMemory>
        requires admitted { is_some (home_of self.old.books.loads c) ≡ true }
        requires clock { AreBefore now.0 self.old.books.sets }
        ensures clock { OnOk result (AreBefore now.0 self.new.books.sets) }
        ensures answer { IfOk result (λ next. next ≡ ended_answer self.old c now) }
        ensures ok { OnOk result (self.new ≡ after_ended self.old c now) }
        ensures err { OnErr result (self.new ≡ self.old) }
    {
        let Some(next) = self.line.first() else {
            self.loads.release(c);
            return Ok(None);
        };
        self.sets.touch(next.target.as_slice())?;
        self.loads.release(c);
        let Some(next) = self.line.pop() else {
            unreachable!();
        };
        let choice = admit(
            &self.config,
            &mut self.loads,
            &mut self.sets,
            next.c,
            next.target.as_slice(),
            now,
        );
        Ok(Some((next.c, choice)))
    }

    /// Takes a connection out of the line. One that does not wait changes nothing.
    pub fn leave(&mut self, c: ConnId)
        ensures { self.new ≡ after_leave self.old c }
    {
        self.line.leave(c);
    }

    /// Closes a node to new assignments, and answers whether it was open. Connections stay there. Another node is open.
    pub fn close(&mut self, n: NodeId) -> bool
        requires other { has_other_open self.old.books.loads n ≡ true }
        ensures value { result ≡ is_open self.old.books.loads n }
        ensures after { self.new ≡ after_close self.old n }
    {
        if !self.loads.is_open(n) {
            return false;
        }
        self.loads.close(n);
        self.sets.close(n);
        true
    }
}

/// Keeps a place for each of these targets. Without memory nothing changes.
fn keep_places(sets: &mut Sets, paths: &[Path]) -> Result<(), NoMemory>
    ensures ok { OnOk result (sets.new ≡ all_touched sets.old paths.now) }
    ensures err { OnErr result (sets.new ≡ sets.old) }
{
    let count = sets.places();
    for path in paths {
        match sets.touch(path.as_slice()) {
            Ok(()) => {}
            Err(NoMemory) => {
                sets.truncate(count);
                return Err(NoMemory);
            }
        }
    }
    Ok(())
}

/// Assigns the paths of an Ask in order, for each of which a place is kept, and adds the choices to those given.
fn share_all(
    config: &Config,
    loads: &mut Loads,
    sets: &mut Sets,
    ask: &Ask,
    now: Millis,
    choices: &mut Vec<LaterChoice>,
)
    requires home { home_of loads.old ask.now.c ≡ Some ask.now.home }
    requires at_node { ask.now.home ≤ loads.old.nodes }
    requires served { AreServedByNodes loads.old.nodes sets.old }
    requires places { AllByRecursion (λ path. has_place sets.old path ≡ true) ask.now.paths }
    requires over { open_shares loads.old ask.now.c ≡ 0 }
    requires within { length ask.now.paths ≤ ask.now.size }
    requires few { ask.now.size ≤ 8 }
    requires room { vec_len choices.old + length ask.now.paths ≤ vec_capacity choices.old }
    ensures books { unlined loads.new sets.new ≡ all_shared config.now ask.now now ask.now.paths (unlined loads.old sets.old) }
    ensures choices { choices.new.items ≡ choices.old.items ++ all_choices config.now ask.now now ask.now.paths (unlined loads.old sets.old) }
{
    let _number = ask.home.number();
    for path in ask.paths.as_slice() {
        let path = path.as_slice();
        let choice = share(config, loads, sets, ask, path);
        join(sets, path, choice.add, now);
        choices.push_reserved(choice);
    }
}

/// Assigns one path of an Ask.
fn share(config: &Config, loads: &mut Loads, sets: &Sets, ask: &Ask, path: &[u8]) -> LaterChoice
    requires home { home_of loads.old ask.now.c ≡ Some ask.now.home }
    requires at_node { ask.now.home ≤ loads.old.nodes }
    requires served { AreServedByNodes loads.old.nodes sets.now }
    requires some { 1 ≤ ask.now.size }
    requires few { ask.now.size ≤ 8 }
    requires room { open_shares loads.old ask.now.c < 8 }
    ensures choice { result ≡ later_choice_at config.now (unlined loads.old sets.now) ask.now path.now }
    ensures loads { loads.new ≡ shared loads.old ask.now.c result.node ask.now.size }
{
    let choice = choose_later(ask.home, sets.members(path), loads, ask.queue, config);
    loads.share(ask.c, choice.node, ask.size);
    choice
}

/// Admits a connection to the node that is chosen for its target, for which a place is kept.
fn admit(
    config: &Config,
    loads: &mut Loads,
    sets: &mut Sets,
    c: ConnId,
    target: &[u8],
    now: Millis,
) -> FirstChoice
    requires usable { config_check config.now ≡ Ok tt }
    requires free { map.get loads.old.standings c ≡ None }
    requires place { has_place sets.old target.now ≡ true }
    requires clock { (set_of sets.old target.now).modified.0 ≤ now.0 }
    ensures choice { result ≡ choice_at config.now (unlined loads.old sets.old) target.now now }
    ensures loads { loads.new ≡ connected loads.old c result.node }
    ensures sets { sets.new ≡ reduced (joined sets.old target.now result.add now) target.now result.remove now }
{
    let choice = choose_first(
        sets.members(target),
        loads,
        now,
        sets.last_mod(target),
        config,
    );
    loads.connect(c, choice.node);
    join(sets, target, choice.add, now);
    if let Some(n) = choice.remove {
        sets.remove(target, n, now);
    }
    choice
}

/// A node joins the set of a target, for which a place is kept, if one does.
fn join(sets: &mut Sets, target: &[u8], node: Option<NodeId>, now: Millis)
    requires place { has_place sets.old target.now ≡ true }
    ensures { sets.new ≡ joined sets.old target.now node now }
{
    if let Some(n) = node {
        match sets.add(target, n, now) {
            Ok(()) => {}
            Err(NoMemory) => unreachable!(),
        }
    }
}

//! The whole: a machine that takes its steps as long as memory suffices, and whose journal obeys the laws.

ghost use Rattle.std.specs.Prelude.{◌≡◌, ◌∷◌, ◌++◌, ◌≤◌, [], true, false, replicate, Ok, IfOk, OnOk, OnErr};
ghost use Rattle.lard_base.specs.Config.{config_check};
ghost use Rattle.lard_rules.specs.Bounds.{HasRule};
ghost use Rattle.lard_rules.specs.Machine.{Steps, machine_step, machine_start};
ghost use Rattle.lard_laws.specs.Lawful.{IsLawful};
ghost use Rattle.lard_world.specs.World.{is_short};
ghost use Rattle.lard_files.specs.Files.{file_at};
ghost use Rattle.lard_rules.specs.NodePlace.{no_stays};
ghost use Rattle.lard_law_settles.specs.Enough.{RestsWithEnough};
ghost use Rattle.lard_settling.specs.Left.{is_holder, jobs_at};
ghost use Rattle.lard_settling.specs.Settling as settling_of;
ghost use Rattle.lard_settling.specs.Steps.{inner_step, settle_begun, settle_closed};
ghost use Rattle.lard_settling.specs.Written.{written_out};

use lard_base::{Config, ConnId, Event, NoMemory, NodeId};
use lard_dispatch::Dispatch;
use lard_files::Files;
use lard_journal::Journal;
use lard_net::Net;
use lard_rules::{Machine, NodeList, Station, StepFault};
use lard_stepping::{settling, steps};
use lard_table::Table;
use std::alloc::Global;
use std::marker::Model;

/// The state of the whole. It holds endpoints, and so has to be spent, by `finish`.
pub struct World {
    machine: Machine,
    spoiled: bool,
}

impl Model for World {
    ghost use Rattle.std.specs.Prelude.{◌≡◌, false};
    ghost use Rattle.lard_world.specs.Runs.{IsRun};
    ghost use Rattle.lard_world.specs.World.{WorldStanding, coded_world_standing};

    ghost Value = { WorldStanding };

    ghost coded = { coded_world_standing };

    ghost view = { λ w. record { machine = w.machine; spoiled = w.spoiled } };

    // as long as memory sufficed, some events led to the machine, and its places are as they are to be
    ghost invariant = { λ w. w.spoiled ≡ false → IsRun w.machine };
}

impl World {
    /// Nobody has opened, and nothing was sent. The configuration passes its check. `NoMemory` where memory runs out.
    pub fn new(alloc: Global, config: Config, files: Files) -> Result<World, NoMemory>
        requires usable { config_check config ≡ Ok tt }
        ensures machine { IfOk result (λ world. world.machine ≡ machine_start config files) }
        ensures usable { IfOk result (λ world. world.spoiled ≡ false) }
    {
        let front = lard_front::place::begin(alloc, config)?;
        match begin_nodes(alloc, config.nodes, config.cache) {
            Ok(nodes) => {
                return Ok(World {
                    machine: Machine {
                        config,
                        files,
                        clients: Table::new(alloc),
                        front,
                        nodes,
                        net: Net::new(alloc),
                        now: 0,
                        answered: 0,
                        events: 0,
                        journal: Journal::new(alloc),
                    },
                    spoiled: false,
                });
            }
            Err(fault) => {
                lard_front::place::finish(front);
                return Err(fault);
            }
        }
    }

    /// Does the step of an event. The world is not spoiled. After a fault, of which `StepFault` says when it comes, the
    /// world is as it was, unless memory ran out. If memory ran out it is spoiled, and its journal is as it was.
    pub fn step(&mut self, alloc: Global, event: Event) -> Result<(), StepFault>
        requires usable { self.old.spoiled ≡ false }
        requires ruled { HasRule event }
        ensures step { Steps (machine_step self.old.machine event) self.old.machine self.new.machine result }
        ensures spoiled { self.new.spoiled ≡ is_short result }
        // Done or not, what happened obeys the laws, with each settle written out as the steps that it did.
        ensures lawful { IsLawful self.old.machine.config (file_at self.old.machine.files) (written_out self.new.machine.journal) }
    {
        let done = steps::machine_step(&mut self.machine, alloc, event);
        self.spoiled = is_short(done);
        done
    }

    // ---- settling

    /// Begins a settle of at most so many rounds, by the record of its event. Its one fault is the limit that was
    /// reached before, and `NoMemory` where memory runs out: the world is left as by `step`.
    pub fn begin_settle(&mut self, alloc: Global, rounds: u32) -> Result<(), StepFault>
        requires usable { self.old.spoiled ≡ false }
        ensures step { Steps (settle_begun self.old.machine rounds) self.old.machine self.new.machine result }
        ensures spoiled { self.new.spoiled ≡ is_short result }
        ensures lawful { IsLawful self.old.machine.config (file_at self.old.machine.files) (written_out self.new.machine.journal) }
    {
        let done = settling::begin(&mut self.machine, alloc, rounds);
        self.spoiled = is_short(done);
        done
    }

    /// Does the step of an event as an inner one of a settle. Faults, and `NoMemory` where memory runs out, leave the
    /// world as those of `step` do.
    pub fn inner(&mut self, alloc: Global, event: Event) -> Result<(), StepFault>
        requires usable { self.old.spoiled ≡ false }
        requires ruled { HasRule event }
        ensures step { Steps (inner_step self.old.machine event) self.old.machine self.new.machine result }
        ensures spoiled { self.new.spoiled ≡ is_short result }
        ensures lawful { IsLawful self.old.machine.config (file_at self.old.machine.files) (written_out self.new.machine.journal) }
    {
        let done = settling::step_inside(&mut self.machine, alloc, event);
        self.spoiled = is_short(done);
        done
    }

    /// Ends a settle by its closing record: so many rounds were done, and so many timers and jobs are left, which are
    /// as many as the agenda of the journal tells. Without memory the world is spoiled, and its journal is as it was.
    /// Where the settle that ends so was begun with as many rounds as the bound of its journal, no job waits and no
    /// timer runs but those that are stalled, where no packet was put on the way in a client's name and each client
    /// wrote fewer than 16,383 bytes.
    pub fn end_settle(&mut self, alloc: Global, rounds: u32, left: u64) -> Result<(), NoMemory>
        requires usable { self.old.spoiled ≡ false }
        requires true_count { left ≡ settling_of.settle_left self.old.machine }
        ensures ok { OnOk result (self.new.machine ≡ settle_closed self.old.machine rounds left) }
        ensures usable { OnOk result (self.new.spoiled ≡ false) }
        ensures lawful { IsLawful self.old.machine.config (file_at self.old.machine.files) (written_out self.new.machine.journal) }
        ensures enough { OnOk result (RestsWithEnough self.new.machine) }
        ensures err { OnErr result (self.new.machine.journal ≡ self.old.machine.journal) }
        ensures spoiled { OnErr result (self.new.spoiled ≡ true) }
    {
        let done = settling::close(&mut self.machine, alloc, rounds, left);
        self.spoiled = done.is_err();
        done
    }

    /// How many jobs wait at the disk of a node, one of those that there are.
    pub fn jobs(&self, n: NodeId) -> u32
        requires usable { self.now.spoiled ≡ false }
        requires there { n ≤ self.now.machine.config.nodes }
        ensures { result ≡ jobs_at self.now.machine n }
    {
        self.machine.nodes.node(n.number() as usize - 1).disk.len()
    }

    /// Whether a client holds: it opened, was neither aborted nor reset, and was told to hold last.
    pub fn holds(&self, c: ConnId) -> bool
        ensures { result ≡ is_holder self.now.machine c }
    {
        match self.machine.clients.get(c.number()) {
            Some(station) => station.client.holding(),
            None => false,
        }
    }

    /// The dispatcher, with the line of those that wait, lent.
    pub fn dispatch(&self) -> &Dispatch
        ensures { result.now ≡ self.now.machine.front.dispatch }
    {
        &self.machine.front.dispatch
    }

    /// What happened, lent.
    pub fn journal(&self) -> &Journal
        ensures { result.now ≡ self.now.machine.journal }
    {
        &self.machine.journal
    }

    /// Whether memory ran out in a step.
    pub fn spoiled(&self) -> bool
        ensures { result ≡ self.now.spoiled }
    {
        self.spoiled
    }

    /// The numbers of the run, lent.
    pub fn config(&self) -> &Config
        ensures { result.now ≡ self.now.machine.config }
    {
        &self.machine.config
    }

    /// The files of the run, lent.
    pub fn files(&self) -> &Files
        ensures { result.now ≡ self.now.machine.files }
    {
        &self.machine.files
    }

    /// What holds of the numbers of every usable world: there are at most 64 nodes. It is called where a proof wants it, and does
    /// nothing.
    pub fn law(&self)
        requires { self.now.spoiled ≡ false }
        ensures { self.now.machine.config.nodes ≤ 64 }
    {
        let _spoiled = self.spoiled;
    }

    /// Spends the world, and keeps what happened.
    pub fn finish(self) -> Journal
        ensures { result ≡ self.machine.journal }
    {
        let World {
            machine,
            spoiled: _,
        } = self;
        let Machine {
            config: _,
            files: _,
            clients,
            front,
            nodes,
            net: _,
            now: _,
            answered: _,
            events: _,
            journal,
        } = machine;
        spend_clients(clients);
        lard_front::place::finish(front);
        spend_nodes(nodes);
        journal
    }
}

/// Whether memory ran out.
fn is_short(done: Result<(), StepFault>) -> bool
    ensures { result ≡ is_short done }
{
    matches!(done, Err(StepFault::NoMemory))
}

/// So many nodes, each with a cache for so many bytes.
fn begin_nodes(alloc: Global, count: u8, cache: u32) -> Result<NodeList, NoMemory>
    ensures { IfOk result (λ nodes. nodes ≡ replicate count (no_stays cache)) }
{
    let mut nodes = NodeList::new(alloc);
    for _made in 0..count {
        if let Err(fault) = begin_node(&mut nodes, alloc, cache) {
            spend_nodes(nodes);
            return Err(fault);
        }
    }
    Ok(nodes)
}

/// One node more.
fn begin_node(nodes: &mut NodeList, alloc: Global, cache: u32) -> Result<(), NoMemory>
    ensures { OnOk result (nodes.new ≡ nodes.old ++ no_stays cache ∷ []) }
{
    let node = lard_back::begin(alloc, cache)?;
    match nodes.push(node) {
        Ok(()) => return Ok(()),
        Err(failed) => {
            lard_back::finish(failed.value);
            return Err(NoMemory);
        }
    }
}

fn spend_nodes(mut nodes: NodeList) {
    while let Some(node) = nodes.pop() {
        lard_back::finish(node);
    }
    nodes.destroy_empty();
}

fn spend_clients(mut clients: Table<Station>) {
    while let Some(_station) = clients.pop() {}
    clients.destroy_empty();
}

//! Where each request goes.

ghost use Rattle.std.specs.Prelude.{◌≡◌, ◌+◌, ◌%◌, ◌/◌, ◌<◌, ◌≤◌, ◌^◌, [], ◌∷◌, ◌++◌, Ok, Some, IfOk, IfSome, OnOk, OnErr, if◌then◌else◌};
ghost use Rattle.lard_base.specs.Config.{config_check};
ghost use Rattle.lard_files.specs.Files.{AnswersAddition};
ghost use Rattle.lard_loads.specs.Tally.{load};
ghost use Rattle.lard_policy.specs.First.{is_overloaded};
ghost use Rattle.lard_lab.specs.Desk.{answer_at, desk_assigned, desk_begun, desk_choice, choice_by, chosen_for, done_with, is_desk_full, is_request_open, desk_joined, later_by, request_passed_over, plain_choice, desk_reduced, served_by};
ghost use Rattle.lard_lab.specs.Targets.{AreFresh, target_check, fresh_target, target_at};

use crate::policy::{Policy, hash_of};
use crate::targets::{Target, Targets};
use lard_base::{Config, ConnId, Millis, NoMemory, NodeId};
use lard_files::FileFault;
use lard_loads::Loads;
use lard_loads::loads::WHOLE;
use lard_policy::{FirstChoice, choose_first};
use lard_sets::{ServerSet, with_member, without_member};
use std::alloc::Global;
use std::marker::Model;

/// The most requests of a trace: as many as there are connections.
pub const MAX_REQUESTS: u32 = ConnId::MAX;

/// Assigns requests to nodes. It is seen as a desk: what the choices rest on.
#[derive(Drop)]
pub struct Assigner {
    policy: Policy,
    config: Config,
    /// How many requests may be open.
    room: u32,
    time: Millis,
    made: u32,
    loads: Loads,
    targets: Targets,
}

impl Model for Assigner {
    ghost use Rattle.std.specs.Prelude.{◌≡◌};
    ghost use Rattle.lard_base.specs.Config.{room_of};
    ghost use Rattle.lard_lab.specs.Desk.{Desk, coded_desk};
    ghost use Rattle.lard_lab.specs.Sound.{IsDeskSound};

    ghost Value = { Desk };

    ghost coded = { coded_desk };

    ghost view = { λ a. record { policy = a.policy; config = a.config; time = a.time; made = a.made; loads = a.loads; targets = a.targets } };

    ghost invariant = { λ a. (a.room ≡ room_of a.config) × IsDeskSound (record { policy = a.policy; config = a.config; time = a.time; made = a.made; loads = a.loads; targets = a.targets }) };
}

impl Assigner {
    /// No request and no file. The configuration passes its check.
    pub fn new(alloc: Global, policy: Policy, config: Config) -> Result<Assigner, NoMemory>
        requires { config_check config ≡ Ok tt }
        ensures { IfOk result (λ a. a ≡ desk_begun policy config) }
    {
        Assigner::with_targets(alloc, policy, config, Targets::new(alloc))
    }

    /// No request, and files that were added, for none of which a request was. The configuration passes its check.
    pub fn with_targets(
        alloc: Global,
        policy: Policy,
        config: Config,
        targets: Targets,
    ) -> Result<Assigner, NoMemory>
        requires usable { config_check config ≡ Ok tt }
        requires fresh { AreFresh targets }
        ensures { IfOk result (λ a. a ≡ record (desk_begun policy config) { targets = targets }) }
    {
        let Ok(()) = config.check() else {
            unreachable!();
        };
        let room = config.room();
        let loads = Loads::new(alloc, config.nodes)?;
        Ok(Assigner {
            policy,
            config,
            room,
            time: Millis(0),
            made: 0,
            loads,
            targets,
        })
    }

    /// Adds a file of so many bytes. The causes are those of `Targets::add`.
    pub fn add(&mut self, path: &[u8], size: u64) -> Result<(), FileFault>
        ensures answer { AnswersAddition (target_check self.old.targets path.now size) result }
        ensures ok { OnOk result (self.new ≡ record self.old { targets = self.old.targets ++ (path.now, fresh_target size) ∷ [] }) }
        ensures err { OnErr result (self.new ≡ self.old) }
    {
        self.targets.add(path, size)
    }

    /// What is kept of the target with this path, where it is that of a file.
    pub fn target(&self, path: &[u8]) -> Option<Target>
        ensures { result ≡ target_at self.now.targets path.now }
    {
        self.targets.get(path)
    }

    /// How many requests were made, to 16,384.
    pub fn made(&self) -> u32
        ensures value { result ≡ self.now.made }
        ensures most { result ≤ 16384 }
    {
        self.made
    }

    /// How many requests are open at a node, to 147,456.
    pub fn load(&self, n: NodeId) -> u32
        requires { n ≤ self.now.config.nodes }
        ensures value { result ≡ load self.now.loads n / WHOLE }
        ensures most { result ≤ 147456 }
    {
        self.loads.of(n) / WHOLE
    }

    /// Where a request for this target goes. `None` exactly where it is full.
    pub fn choose(&self, path: &[u8], target: &Target) -> Option<FirstChoice>
        requires { target_at self.now.targets path.now ≡ Some target.now }
        ensures choice { result ≡ answer_at self.now path.now target.now }
        ensures within { IfSome result (λ choice. choice.node ≤ self.now.config.nodes) }
    {
        if self.loads.admitted() >= self.room {
            return None;
        }
        Some(self.choice(path, target))
    }

    /// Notes a request for this target, which goes where the choice says.
    pub fn assign(&mut self, path: &[u8], target: &Target, choice: FirstChoice)
        requires few { self.old.made < 16384 }
        requires target { target_at self.old.targets path.now ≡ Some target.now }
        requires node { choice.node ≤ self.old.config.nodes }
        ensures { self.new ≡ desk_assigned self.old path.now target.now choice }
    {
        let number = self.made + 1;
        let Some(c) = ConnId::new(number) else {
            unreachable!();
        };
        self.made = number;
        self.loads.connect(c, choice.node);
        self.targets
            .set(path, chosen_for(target, choice, self.time));
    }

    /// Notes a request that is full.
    pub fn pass_over(&mut self)
        requires { self.old.made < 16384 }
        ensures { self.new ≡ request_passed_over self.old }
    {
        self.made += 1;
    }

    /// Ends the request with this number, and answers whether it was open. Any other number changes nothing.
    pub fn end(&mut self, number: u32) -> bool
        ensures value { result ≡ is_request_open self.old number }
        ensures after { self.new ≡ (if is_request_open self.old number then done_with self.old number else self.old) }
    {
        if number == 0 || number > self.made {
            return false;
        }
        let Some(c) = ConnId::new(number) else {
            unreachable!();
        };
        if self.loads.home(c).is_none() {
            return false;
        }
        self.loads.release(c);
        true
    }

    /// Moves the clock on by so many milliseconds.
    pub fn advance(&mut self, ms: u32)
        requires { self.old.time.0 + ms < 2 ^ 64 }
        ensures { self.new ≡ later_by self.old ms }
    {
        self.time = Millis(self.time.0 + u64::from(ms));
    }

    /// The policy's choice.
    #[tactic(auto, unfolding(crate::specs::Desk::choice_by))]
    fn choice(&self, path: &[u8], target: &Target) -> FirstChoice
        requires { target_at self.now.targets path.now ≡ Some target.now }
        ensures choice { result ≡ desk_choice self.now path.now target.now }
        ensures within { result.node ≤ self.now.config.nodes }
    {
        match self.policy {
            Policy::Rr => plain(in_turn(self.made, self.config.nodes)),
            Policy::Hash => plain(in_turn(hash_of(path), self.config.nodes)),
            Policy::Lard => plain(served_by(&self.loads, &self.config, target.server)),
            Policy::LardR => choose_first(
                target.set.members,
                &self.loads,
                self.time,
                target.set.modified,
                &self.config,
            ),
        }
    }
}

/// A choice that changes no server set.
fn plain(node: NodeId) -> FirstChoice
    ensures { result ≡ plain_choice node }
{
    FirstChoice {
        node,
        add: None,
        remove: None,
    }
}

/// The node of a number, where nodes are counted in turn from 0.
fn in_turn(number: u32, nodes: u8) -> NodeId
    requires some { 1 ≤ nodes }
    requires few { nodes ≤ 64 }
    ensures node { result ≡ 1 + number % nodes }
    ensures within { result ≤ nodes }
{
    match NodeId::new(1 + number % u32::from(nodes)) {
        Some(n) => n,
        None => unreachable!(),
    }
}

/// The target's server, or the least loaded node where it has none or that is overloaded.
fn served_by(loads: &Loads, config: &Config, server: Option<NodeId>) -> NodeId
    requires usable { config_check config.now ≡ Ok tt }
    requires there { IfSome server (λ n. n ≤ loads.now.nodes) }
    ensures node { result ≡ served_by loads.now config.now server }
    ensures within { result ≤ loads.now.nodes }
{
    match server {
        Some(n) if !is_overloaded(loads, config, n) => n,
        _ => loads.least(),
    }
}

/// Whether a node's load is above `high` while another could take more, or reaches twice that.
fn is_overloaded(loads: &Loads, config: &Config, n: NodeId) -> bool
    requires usable { config_check config.now ≡ Ok tt }
    requires node { n ≤ loads.now.nodes }
    ensures { result ≡ is_overloaded loads.now config.now n }
{
    let load = loads.of(n);
    let high = config.high * WHOLE;
    load > high && loads.any_below(config.low * WHOLE) || load >= 2 * high
}

/// What is kept of a target behind a choice for it.
fn chosen_for(target: &Target, choice: FirstChoice, now: Millis) -> Target
    ensures { result ≡ chosen_for target.now choice now }
{
    Target {
        size: target.size,
        server: Some(choice.node),
        set: reduced(joined(target.set, choice.add, now), choice.remove, now),
    }
}

/// A set that a node joins, if one does.
fn joined(set: ServerSet, node: Option<NodeId>, now: Millis) -> ServerSet
    ensures { result ≡ desk_joined set node now }
{
    match node {
        Some(n) => ServerSet {
            members: with_member(set.members, n),
            modified: now,
        },
        None => set,
    }
}

/// A set that a node leaves, if one does.
fn reduced(set: ServerSet, node: Option<NodeId>, now: Millis) -> ServerSet
    ensures { result ≡ desk_reduced set node now }
{
    match node {
        Some(n) => ServerSet {
            members: without_member(set.members, n),
            modified: now,
        },
        None => set,
    }
}

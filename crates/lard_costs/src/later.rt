//! The later choice: the extended LARD policy (Aron, Druschel and Zwaenepoel, USENIX 1999).

ghost use Rattle.std.specs.Prelude.{◌≡◌, ◌≤◌, ℕ, true, if◌then◌else◌};
ghost use Rattle.lard_base.specs.Members.{has};
ghost use Rattle.lard_costs.specs.Costs.{cost_at};
ghost use Rattle.lard_costs.specs.Later.{stays, cheaper, cheapest, members_of, later_placed, later_joining, later_choice};

use crate::cost::{cost_at, is_less};
use lard_base::{Config, Items, Members, NodeId};
use lard_loads::Loads;

/// How many jobs make a node's disk queue too long to take a request that other nodes serve.
pub const SHORT_QUEUE: u32 = 5;

/// Where a further request goes, and what becomes of the server set of its target.
#[derive(Clone, Copy, Debug, PartialEq, Eq)]
pub struct LaterChoice {
    /// The node that gets the request.
    pub node: NodeId,
    /// The node that joins the set, which is the connection's own.
    pub add: Option<NodeId>,
}

/// Later choices, in order.
pub type LaterChoices = Items<LaterChoice>;

/// The node for a further request of a connection at home at `h`, whose disk queue has so many jobs, for a target with
/// this server set. It stays at `h` where `h` is a member, or the queue is short. Else it goes to the cheapest of `h`
/// and the members: `h` at a tie, then the lowest number. Where `h` is chosen, is open and is no member, it joins the
/// set. `h` and all members are nodes of these loads.
#[tactic(auto, unfolding(crate::specs::Later::later_choice))]
pub fn choose_later(h: NodeId, set: Members, loads: &Loads, queue: u32, cfg: &Config) -> LaterChoice
    requires home { h ≤ loads.now.nodes }
    requires members { (n : ℕ) → has set n ≡ true → n ≤ loads.now.nodes }
    ensures choice { result ≡ later_choice loads.now h set queue cfg.now }
    ensures within { result.node ≤ loads.now.nodes }
{
    let node = placed(loads, cfg, h, set, queue);
    LaterChoice {
        node,
        add: joining(loads, h, set, node),
    }
}

/// The node for the request.
fn placed(loads: &Loads, cfg: &Config, h: NodeId, set: Members, queue: u32) -> NodeId
    requires home { h ≤ loads.now.nodes }
    requires members { (n : ℕ) → has set n ≡ true → n ≤ loads.now.nodes }
    ensures node { result ≡ later_placed loads.now cfg.now h set queue }
    ensures within { result ≤ loads.now.nodes }
{
    if set.has(h) || queue < SHORT_QUEUE {
        return h;
    }
    cheapest(loads, cfg, h, set)
}

/// The first of the connection's node and the members that costs least.
fn cheapest(loads: &Loads, cfg: &Config, h: NodeId, set: Members) -> NodeId
    requires home { h ≤ loads.now.nodes }
    requires members { (n : ℕ) → has set n ≡ true → n ≤ loads.now.nodes }
    ensures node { result ≡ cheapest (cost_at loads.now cfg.now set) h (members_of set) }
    ensures within { result ≤ loads.now.nodes }
{
    let mut best = h;
    for number in 1..65 {
        best = after_member(loads, cfg, set, best, number);
    }
    best
}

/// The cheapest so far, once the node with this number was looked at, which counts where it is a member.
fn after_member(loads: &Loads, cfg: &Config, set: Members, best: NodeId, number: u32) -> NodeId
    requires best { best ≤ loads.now.nodes }
    requires members { (n : ℕ) → has set n ≡ true → n ≤ loads.now.nodes }
    ensures node { 1 ≤ number → number ≤ 64 → result ≡ (if has set number then cheaper (cost_at loads.now cfg.now set) best number else best) }
    ensures within { result ≤ loads.now.nodes }
{
    match NodeId::new(number) {
        Some(n) if set.has(n) => cheaper(loads, cfg, set, best, n),
        _ => best,
    }
}

/// The second of two nodes where it costs less, else the first.
fn cheaper(loads: &Loads, cfg: &Config, set: Members, n: NodeId, m: NodeId) -> NodeId
    requires first { n ≤ loads.now.nodes }
    requires second { m ≤ loads.now.nodes }
    ensures node { result ≡ cheaper (cost_at loads.now cfg.now set) n m }
    ensures within { result ≤ loads.now.nodes }
{
    if is_less(cost_at(loads, cfg, set, m), cost_at(loads, cfg, set, n)) {
        m
    } else {
        n
    }
}

/// The connection's node, where it was chosen and may join the set.
fn joining(loads: &Loads, h: NodeId, set: Members, n: NodeId) -> Option<NodeId>
    requires home { h ≤ loads.now.nodes }
    ensures { result ≡ later_joining loads.now h set n }
{
    if n.number() == h.number() && loads.is_open(h) && !set.has(h) {
        Some(h)
    } else {
        None
    }
}

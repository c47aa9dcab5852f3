//! What it costs to send a request to a node: three costs (USENIX 1999), in 840ths of a connection.

ghost use Rattle.std.specs.Prelude.{◌≡◌, ◌≤◌, ◌<◌, ◌^◌, Ok, Some, None};
ghost use Rattle.lard_base.specs.Config.{config_check};
ghost use Rattle.lard_base.specs.Members.{has};
ghost use Rattle.lard_loads.specs.Tally.{load as load_of};
ghost use Rattle.lard_costs.specs.Costs.{cost, cost_at, cost_balancing, cost_locality, cost_replacement, is_less, more};

use lard_base::{Config, Members, NodeId};
use lard_loads::loads::{Loads, WHOLE};

/// A cost: so many 840ths of a connection, or more than any number.
#[derive(Clone, Copy, Debug, PartialEq, Eq)]
pub enum Cost {
    /// So many 840ths.
    Units(u64),
    /// The node's load is above `over`.
    Over,
}

/// How much a load, in 840ths of a connection, is above `idle`: 0 below it, and `Over` above `over`.
pub fn cost_balancing(cfg: &Config, load: u32) -> Cost
    ensures { result ≡ cost_balancing cfg.now load }
{
    let load = load as u64;
    let idle = cfg.idle as u64 * WHOLE as u64;
    let over = cfg.over as u64 * WHOLE as u64;
    if load < idle {
        Cost::Units(0)
    } else if load > over {
        Cost::Over
    } else {
        Cost::Units(load - idle)
    }
}

/// What it costs to fetch the target, in 840ths of a connection: one connection at a member, which has it in its cache,
/// else `miss` connections.
pub fn cost_locality(cfg: &Config, is_member: bool) -> u64
    ensures value { result ≡ cost_locality cfg.now is_member }
    ensures fits { result < 2 ^ 42 }
{
    let connections = if is_member { 1 } else { cfg.miss };
    connections as u64 * WHOLE as u64
}

/// What it costs that another target leaves the node's cache, in 840ths of a connection: `miss` connections, but 0 at a
/// member and where the load, in 840ths too, is below `idle`.
pub fn cost_replacement(cfg: &Config, load: u32, is_member: bool) -> u64
    ensures value { result ≡ cost_replacement cfg.now load is_member }
    ensures fits { result < 2 ^ 42 }
{
    if (load as u64) < cfg.idle as u64 * WHOLE as u64 || is_member {
        0
    } else {
        cfg.miss as u64 * WHOLE as u64
    }
}

/// The sum of the three at a node, which is one of those with these loads, for a target that the nodes of `set` serve.
pub fn cost_at(loads: &Loads, cfg: &Config, set: Members, n: NodeId) -> Cost
    requires node { n ≤ loads.now.nodes }
    ensures { result ≡ cost_at loads.now cfg.now set n }
{
    let load = loads.of(n);
    let is_member = set.has(n);
    match cost_balancing(cfg, load) {
        Cost::Units(balancing) => Cost::Units(
            balancing + (cost_locality(cfg, is_member) + cost_replacement(cfg, load, is_member)),
        ),
        Cost::Over => Cost::Over,
    }
}

/// Whether a cost is less than another. `Over` is less than none.
pub(crate) fn is_less(a: Cost, b: Cost) -> bool
    ensures { result ≡ is_less a b }
{
    match (a, b) {
        (Cost::Units(a), Cost::Units(b)) => a < b,
        (Cost::Units(_), Cost::Over) => true,
        (Cost::Over, _) => false,
    }
}

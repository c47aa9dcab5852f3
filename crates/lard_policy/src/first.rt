//! The first choice: LARD with replication (Pai and others, ASPLOS 1998).

ghost use Rattle.std.specs.Prelude.{◌≡◌, ◌≤◌, Ok};
ghost use Rattle.lard_base.specs.Config.{config_check};
ghost use Rattle.lard_policy.specs.First.{is_overloaded, relieved, joining, leaving, first_choice};

use lard_base::{Config, Members, Millis, NodeId};
use lard_loads::loads::{Loads, WHOLE};
use lard_sets::with_member;

/// Where a connection's first request goes, and what becomes of the server set of its target.
#[derive(Clone, Copy, Debug, PartialEq, Eq)]
pub struct FirstChoice {
    /// The node that gets the request.
    pub node: NodeId,
    /// The node that joins the set, which is the one that gets the request.
    pub add: Option<NodeId>,
    /// The node that leaves it then.
    pub remove: Option<NodeId>,
}

/// The node for a target with this server set: its least loaded member, or the least loaded of all open nodes where the
/// set is empty or that member is overloaded. A node that is no member joins the set. Where it then has more than one
/// member and was last changed more than `age` milliseconds before, the most loaded of those that were in it leaves it.
/// The configuration passes its check, and `last_mod` is not after `now`.
pub fn choose_first(
    set: Members,
    loads: &Loads,
    now: Millis,
    last_mod: Millis,
    cfg: &Config,
) -> FirstChoice
    requires usable { config_check cfg.now ≡ Ok tt }
    requires later { last_mod.0 ≤ now.0 }
    ensures choice { result ≡ first_choice loads.now set now last_mod cfg.now }
    ensures within { result.node ≤ loads.now.nodes }
{
    let Some(n) = loads.least_of(set) else {
        let p = loads.least();
        return FirstChoice {
            node: p,
            add: Some(p),
            remove: None,
        };
    };
    let p = relieved(loads, n, cfg);
    FirstChoice {
        node: p,
        add: joining(set, p),
        remove: leaving(loads, set, p, now.0 - last_mod.0, cfg.age),
    }
}

/// The node itself, or the least loaded one where it is overloaded.
fn relieved(loads: &Loads, n: NodeId, cfg: &Config) -> NodeId
    requires usable { config_check cfg.now ≡ Ok tt }
    requires node { n ≤ loads.now.nodes }
    ensures node { result ≡ relieved loads.now cfg.now n }
    ensures within { result ≤ loads.now.nodes }
{
    if is_overloaded(loads, n, cfg) {
        loads.least()
    } else {
        n
    }
}

/// Whether a node's load is above `high` while another could take more, or reaches twice that.
fn is_overloaded(loads: &Loads, n: NodeId, cfg: &Config) -> bool
    requires usable { config_check cfg.now ≡ Ok tt }
    requires node { n ≤ loads.now.nodes }
    ensures { result ≡ is_overloaded loads.now cfg.now n }
{
    let load = loads.of(n);
    let high = cfg.high * WHOLE;
    load > high && loads.any_below(cfg.low * WHOLE) || load >= 2 * high
}

/// The node, where it is no member yet.
fn joining(set: Members, p: NodeId) -> Option<NodeId>
    ensures { result ≡ joining set p }
{
    if set.has(p) { None } else { Some(p) }
}

/// The most loaded member, where the set with node `p` has more than one, and was last changed long enough before.
fn leaving(loads: &Loads, set: Members, p: NodeId, unchanged: u64, age: u64) -> Option<NodeId>
    ensures { result ≡ leaving loads.now set p unchanged age }
{
    if with_member(set, p).count() > 1 && unchanged > age {
        loads.most_of(set)
    } else {
        None
    }
}

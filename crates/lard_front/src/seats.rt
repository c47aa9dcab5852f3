//! The front end's connections, each taken out for its rule and put back behind it.

ghost use Rattle.std.specs.Prelude.{◌≡◌, true, is_some, IsSome, None, Some};
ghost use Rattle.std.specs.FinMap as table;
ghost use Rattle.lard_rules.specs.Front.{front_rest};
ghost use Rattle.lard_front.specs.Hand.{front_count_of, front_lent, front_rested_in};
ghost use Rattle.lard_handoff_front.specs.Front.{endpoint_of, may_put};

use lard_base::{ConnId, Nodes};
use lard_endpoint::Endpoint;
use lard_rules::{Ending, FrontRest, FrontState};
use lard_table::Table;
use std::alloc::Global;

/// Takes out the endpoint of a connection, which is here.
pub fn take_out(state: &mut FrontState, c: ConnId) -> Endpoint
    requires { is_some (endpoint_of (table.get state.old.conns c)) ≡ true }
    ensures endpoint { endpoint_of (table.get state.old.conns c) ≡ Some result }
    ensures after { state.new ≡ front_lent state.old c }
    ensures lent { may_put (table.get state.new.conns c) ≡ true }
{
    match state.conns.take(c) {
        Some(endpoint) => endpoint,
        None => unreachable!(),
    }
}

/// How many responses were queued on a connection.
pub fn count_of(rests: &Table<FrontRest>, c: ConnId) -> u32
    ensures { result ≡ front_count_of (table.get rests.now c) }
{
    match rests.get(c.number()) {
        Some(rest) => rest.count,
        None => 0,
    }
}

/// Puts a connection back that was taken out, to wait or not. It takes no memory.
pub fn put_back(state: &mut FrontState, alloc: Global, c: ConnId, waiting: bool, ending: Ending)
    requires lent { may_put (table.get state.old.conns c) ≡ true }
    requires rest { IsSome (table.get state.old.rests c) }
    ensures { state.new ≡ front_rested_in state.old c waiting ending }
{
    match ending {
        Ending::Here { endpoint, count } => {
            state.conns.put(c, endpoint, waiting);
            set_count(&mut state.rests, alloc, c, count);
        }
        Ending::Over(last) => {
            state.conns.close(c, last);
            let _ = state.rests.remove(c.number());
        }
    }
}

/// Sets the number of responses that were queued on a connection.
#[tactic(auto, using(lard_table::proofs::Map::insert_twice, lard_table::proofs::Map::get_inserted))]
fn set_count(rests: &mut Table<FrontRest>, alloc: Global, c: ConnId, count: u32)
    requires { IsSome (table.get rests.old c) }
    ensures { rests.new ≡ table.insert rests.old c (record (front_rest (table.get rests.old c)) { count = count }) }
{
    let mut rest = rests.replace(c.number(), no_rest(alloc));
    rest.count = count;
    let _ = rests.replace(c.number(), rest);
}

/// Nothing is known of what was done.
pub fn no_rest(alloc: Global) -> FrontRest
    ensures { result ≡ front_rest None }
{
    FrontRest {
        count: 0,
        asks: 0,
        tag: Nodes::new(alloc),
        assigned: 0,
        target: None,
    }
}

//! A connection in hand: its endpoint and its stay are taken out for a rule and put back behind it.

ghost use Rattle.std.specs.Prelude.{◌≡◌, ◌≤◌, ◌-◌, [], ◌∷◌, true, is_some, length, Some, IfOk, IsSome, OnOk, OnSome};
ghost use Rattle.std.specs.FinMap as table;
ghost use Rattle.lard_back.specs.Bounds.{AreMessages, AreWants, IsSpelledAsk, MayTellEnd};
ghost use Rattle.lard_back.specs.Hand.{end_sent, gave_at, handed_back, node_left, lent_if, node_rested_in, stage_of, stay_epoch, turn_at};
ghost use Rattle.lard_base.specs.declared.limits.TheConstants.{MAX_MESSAGE_BYTES};
ghost use Rattle.lard_endpoint.specs.Moving.{may_freeze, parts_of};
ghost use Rattle.lard_handoff_back.specs.Back.{back_may_put, back_with_stage};
ghost use Rattle.lard_message.specs.declared.message.Body.TheVariants as body;
ghost use Rattle.lard_rules.specs.Node.{here, message};
ghost use Rattle.lard_rules.specs.NodePlace.{node_part};

use crate::sends::{ask, end, tell_last, want_all};
use lard_base::{Bytes, ConnId, Epoch, Items, NoMemory, NodeId, Place, Sends, TimerKind};
use lard_disk::Job;
use lard_endpoint::{Endpoint, Final};
use lard_handoff_back::BackTable;
use lard_journal::{Rec, Recs};
use lard_rules::{Asked, Ending, Entry, NodeState, NodeTurn, Stay, Turn, Want};
use lard_table::Table;
use std::alloc::Global;

/// Whose stay it is, where, and in which epoch.
#[derive(Clone, Copy, Debug)]
pub struct At {
    pub n: NodeId,
    pub c: ConnId,
    pub epoch: Epoch,
}

/// What is left of a turn beside its endpoint and what was served.
#[derive(Debug, Drop)]
pub struct Rest {
    /// The requests that are not served yet.
    pub batch: Items<Entry>,
    /// How many Asks were sent in this stay.
    pub asks: u32,
    /// The jobs that the disk is given.
    pub jobs: Items<Job>,
    /// The contents that are to be fetched.
    pub wants: Items<Want>,
    /// The Ask that is to be sent.
    pub asked: Option<Asked>,
    /// The count of bytes that would have passed the stream limit.
    pub over: Option<u32>,
}

/// Where a connection is at the end of a turn, without its endpoint.
#[derive(Debug, Drop)]
pub enum Rested {
    /// Still here; so many responses were queued.
    Here(u32),
    /// It ended, with these numbers.
    Over(Final),
    /// It went back to the front end, with the bytes of this Give.
    Back(Bytes),
}

/// Takes the endpoint and the stay of a connection out, where it is here in this epoch; else `None`, and nothing
/// changes.
pub fn take_out(state: &mut NodeState, c: ConnId, epoch: Epoch) -> Option<(Endpoint, Stay)>
    ensures found { result ≡ here epoch.0 (node_part state.old c) }
    ensures after { state.new ≡ lent_if state.old c result }
    ensures out { OnSome result (back_may_put (table.get state.new.conns.rows c) ≡ true) }
{
    if !is_here(state, c, epoch) {
        return None;
    }
    let stay = take_stay(&mut state.stays, c);
    let Some(endpoint) = state.conns.take(c, epoch) else {
        unreachable!()
    };
    Some((endpoint, stay))
}

/// Whether a connection is here in this epoch.
pub fn is_here(state: &NodeState, c: ConnId, epoch: Epoch) -> bool
    ensures { result ≡ is_some (here epoch.0 (node_part state.now c)) }
{
    let Some(row) = state.conns.row(c) else {
        return false;
    };
    if row.epoch.0 == epoch.0 && row.stage.has_endpoint() {
        return state.stays.get(c.number()).is_some();
    }
    false
}

/// Takes out a stay that is there.
fn take_stay(stays: &mut Table<Stay>, c: ConnId) -> Stay
    requires { IsSome (table.get stays.old c) }
    ensures stay { table.get stays.old c ≡ Some result }
    ensures after { stays.new ≡ table.remove stays.old c }
{
    let Some(stay) = stays.remove(c.number()) else {
        unreachable!()
    };
    stay
}

/// Puts an endpoint back that was taken out, or the end of it. It takes no memory.
pub fn put_back(conns: &mut BackTable, c: ConnId, ending: Ending) -> Rested
    requires { back_may_put (table.get conns.old.rows c) ≡ true }
    ensures rested { result ≡ node_rested_in ending }
    ensures after { conns.new ≡ record conns.old { rows = back_with_stage conns.old.rows c (stage_of ending) (table.get conns.old.rows c) } }
{
    match ending {
        Ending::Here { endpoint, count } => {
            conns.put(c, endpoint);
            return Rested::Here(count);
        }
        Ending::Over(last) => {
            conns.close(c);
            return Rested::Over(last);
        }
    }
}

/// Gives an endpoint that was taken out to the front end, where the node leaves and it may be frozen: it goes on from the
/// parts of the Give that is answered, with so many responses. Without memory it is put back.
pub fn hand_back(
    conns: &mut BackTable,
    alloc: Global,
    c: ConnId,
    endpoint: Endpoint,
    served: u32,
) -> Result<Bytes, NoMemory>
    requires out { back_may_put (table.get conns.old.rows c) ≡ true }
    requires leaves { conns.old.leaving ≡ true }
    requires still { may_freeze endpoint ≡ true }
    requires served { served ≤ endpoint.recv.got - length endpoint.recv.unread }
    ensures bytes { IfOk result (λ bytes. bytes ≡ message c (stay_epoch (table.get conns.old.rows c)) (body.Give (parts_of endpoint served))) }
    ensures size { IfOk result (λ bytes. length bytes ≤ MAX_MESSAGE_BYTES) }
    ensures after { OnOk result (conns.new ≡ handed_back conns.old c served) }
{
    conns.put(c, endpoint);
    let Some(bytes) = conns.give_back(alloc, c, served)? else {
        unreachable!()
    };
    Ok(bytes)
}

/// The end of a turn, once the endpoint is back: these messages go out and what the turn asks for, and the stay goes on,
/// ends or went back. Without memory the state is of no use any more but to be spent.
pub fn leave(
    state: &mut NodeState,
    alloc: Global,
    at: &At,
    before: Sends,
    rest: Rest,
    rested: Rested,
    turn: Turn,
) -> Result<NodeTurn, NoMemory>
    requires fit { AreMessages before }
    requires asked { IsSpelledAsk rest.asked }
    requires wants { AreWants rest.wants }
    requires count { MayTellEnd rested rest.over }
    ensures after { OnOk result (state.new ≡ node_left state.old at.now rest rested) }
    ensures turn { IfOk result (λ done. done ≡ turn_at at.now before rest rested turn) }
    ensures fit { IfOk result (λ done. AreMessages done.messages) }
{
    let Rest {
        batch,
        asks,
        jobs,
        wants,
        asked,
        over,
    } = rest;
    let mut messages = before;
    ask(&mut state.kept, alloc, at, asked, &mut messages)?;
    want_all(
        &mut state.fetches,
        alloc,
        at,
        wants.as_slice(),
        &mut messages,
    )?;
    let gave = match rested {
        Rested::Here(served) => {
            let stay = Stay {
                served,
                batch,
                asks,
            };
            let _ = state.stays.insert(at.c.number(), stay)?;
            Recs::new(alloc)
        }
        Rested::Over(last) => {
            state.fetches.forget(at.c);
            end(&mut state.kept, alloc, at, last, over, &mut messages)?;
            gave(alloc, at)?
        }
        Rested::Back(bytes) => {
            state.fetches.forget(at.c);
            tell_last(
                &mut state.kept,
                alloc,
                at,
                TimerKind::Give,
                bytes,
                &mut messages,
            )?;
            gave(alloc, at)?
        }
    };
    let Turn {
        notes,
        segments,
        answered,
    } = turn;
    Ok(NodeTurn {
        notes,
        segments,
        gave,
        messages,
        jobs,
        answered,
    })
}

/// The record of the connection that is given up.
fn gave(alloc: Global, at: &At) -> Result<Recs, NoMemory>
    ensures { IfOk result (λ recs. recs ≡ Rec.Gave (Place.Node at.now.n) at.now.c at.now.epoch ∷ []) }
{
    let mut recs = Recs::new(alloc);
    recs.push(Rec::Gave {
        place: Place::Node(at.n),
        c: at.c,
        epoch: at.epoch,
    })?;
    Ok(recs)
}

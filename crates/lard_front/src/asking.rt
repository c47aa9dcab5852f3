//! What the front end answers to the Ask of a node: where the further requests of a connection go.

ghost use Rattle.std.specs.Prelude.{◌≡◌, ℕ, ◌+◌, ◌-◌, ◌<◌, ◌^◌, ◌==◌, List, [], ◌++◌, length, map, slice_get, IfOk, OnOk, Some, IsSome, option_copied};
ghost use Rattle.std.specs.FinMap as table;
ghost use Rattle.lard_dispatch.specs.Sound.{AreBefore};
ghost use Rattle.lard_rules.specs.Front.{assigned_notes, front_asked, is_row_at, is_with, over_note};
ghost use Rattle.lard_rules.specs.FrontPlace.{front_part};
ghost use Rattle.lard_rules.specs.FrontSound.{HasTag, IsAsk};
ghost use Rattle.lard_front.specs.Bounds.{IsFrontTurn};
ghost use Rattle.lard_front.specs.Asking.{AsksFromHome, assigned_by, kept_rests};
ghost use Rattle.lard_front.specs.Hand.{deed_turn, front_env_of};
ghost use Rattle.lard_loads.specs.Tally.{home};

use crate::passing::telling;
use crate::seats::no_rest;
use crate::turns::{Around, silent};
use lard_base::{Epoch, Items, NoMemory, NodeId, Nodes};
use lard_costs::LaterChoice;
use lard_dispatch::{Ask, Later};
use lard_handoff_front::{FrontConn, FrontRow};
use lard_journal::{Rec, Recs};
use lard_message::Body;
use lard_rules::{FrontRest, FrontState, FrontTurn};
use lard_table::Table;
use std::alloc::{AllocError, Global};

/// An Ask comes from a node. Where the connection is there in this epoch, the last Ask that was answered gets its Tag
/// again, the next one is new, and any other is dropped. Without memory the state is of no use any more but to be
/// spent.
pub fn asked(
    state: &mut FrontState,
    alloc: Global,
    around: &Around<'_>,
    epoch: Epoch,
    ask: Ask,
) -> Result<FrontTurn, NoMemory>
    requires number { ask.c ≡ around.now.serve.c }
    requires ask { IsAsk ask }
    requires home { AsksFromHome state.old ask epoch.0 }
    requires tag { HasTag (table.get state.old.rests ask.c) }
    requires kept { table.get state.old.kept ask.c ≡ Some [] → ⊥ }
    requires clock { AreBefore around.now.time.0 state.old.dispatch.books.sets }
    ensures turn { IfOk result (λ turn. (state.new, turn) ≡ deed_turn state.old ask.c (front_asked (front_env_of around.now state.old) (front_part state.old ask.c) ask.home epoch.0 ask)) }
    ensures fits { IfOk result IsFrontTurn }
    ensures clock { OnOk result (AreBefore around.now.time.0 state.new.dispatch.books.sets) }
{
    let c = ask.c;
    if !is_at(state.conns.row(c), ask.home, epoch) {
        return Ok(silent(alloc));
    }
    let Some(rest) = state.rests.get(c.number()) else {
        return Ok(silent(alloc));
    };
    let (asks, assigned) = (rest.asks, rest.assigned);
    if follows(ask.number, asks) {
        return assign(state, alloc, around, epoch, ask, assigned);
    }
    if ask.number == asks && 0 < asks {
        let nodes = copy(alloc, rest.tag.as_slice())?;
        let body = Body::Tag {
            number: asks,
            nodes,
        };
        return telling(alloc, c, epoch, ask.home, body);
    }
    Ok(silent(alloc))
}

/// Whether the connection is with this node, in this epoch.
pub fn is_at(row: Option<&FrontRow>, from: NodeId, epoch: Epoch) -> bool
    ensures { result ≡ is_row_at from epoch.0 (option_copied row.entry) }
{
    match row {
        Some(row) => is_with(&row.stage, from, epoch),
        None => false,
    }
}

fn is_with(stage: &FrontConn, from: NodeId, epoch: Epoch) -> bool
    ensures { result ≡ is_with from epoch.0 stage.now }
{
    match stage {
        FrontConn::Offering { node, epoch: e } => node.number() == from.number() && e.0 == epoch.0,
        FrontConn::Moved { node, epoch: e } => node.number() == from.number() && e.0 == epoch.0,
        FrontConn::Held(_) => false,
        FrontConn::Waiting(_) => false,
        FrontConn::Lent => false,
        FrontConn::Closed(_) => false,
    }
}

/// Whether a number is the next one.
fn follows(number: u32, last: u32) -> bool
    ensures { result ≡ (number == last + 1) }
{
    0 < number && number - 1 == last
}

fn copy(alloc: Global, nodes: &[NodeId]) -> Result<Nodes, NoMemory>
    ensures { IfOk result (λ copy. copy ≡ nodes.now) }
{
    Ok(Items::from_vec(Vec::from_slice(alloc, nodes)?))
}

/// A new Ask: each of its paths is assigned, in order, each at the loads after those before it.
fn assign(
    state: &mut FrontState,
    alloc: Global,
    around: &Around<'_>,
    epoch: Epoch,
    ask: Ask,
    assigned: u32,
) -> Result<FrontTurn, NoMemory>
    requires number { ask.c ≡ around.now.serve.c }
    requires ask { IsAsk ask }
    requires home { home state.old.dispatch.books.loads ask.c ≡ Some ask.home }
    requires there { IsSome (table.get state.old.rests ask.c) }
    requires clock { AreBefore around.now.time.0 state.old.dispatch.books.sets }
    ensures turn { IfOk result (λ turn. (state.new, turn) ≡ assigned_by (front_env_of around.now state.old) state.old epoch.0 ask assigned) }
    ensures fits { IfOk result IsFrontTurn }
    ensures clock { OnOk result (AreBefore around.now.time.0 state.new.dispatch.books.sets) }
{
    let Some(last) = assigned.checked_add(ask.paths.len() as u32) else {
        return Err(NoMemory);
    };
    let Later { over, choices } = state.dispatch.later(&ask, around.time)?;
    let notes = notes(alloc, &ask, assigned, over, choices.as_slice())?;
    let nodes = nodes(alloc, choices.as_slice())?;
    let tag = copy(alloc, nodes.as_slice())?;
    keep(&mut state.rests, alloc, &ask, tag, last);
    let body = Body::Tag {
        number: ask.number,
        nodes,
    };
    let mut turn = telling(alloc, ask.c, epoch, ask.home, body)?;
    turn.notes = notes;
    Ok(turn)
}

/// The records of an Ask: that shares of the batch before it are over, where some were open, and each assignment.
fn notes(
    alloc: Global,
    ask: &Ask,
    assigned: u32,
    over: bool,
    choices: &[LaterChoice],
) -> Result<Recs, NoMemory>
    requires each { length choices.now ≡ length ask.now.paths }
    requires room { assigned + length ask.now.paths < 2 ^ 32 }
    ensures { IfOk result (λ notes. notes ≡ over_note ask.now.c over ++ assigned_notes ask.now.c ask.now assigned ask.now.paths choices.now) }
{
    let mut notes = Recs::new(alloc);
    if over {
        notes.push(Rec::BatchOver(ask.c))?;
    }
    for i in 0..choices.len() {
        notes.push(note(alloc, ask, assigned + i as u32, i, &choices[i])?)?;
    }
    Ok(notes)
}

/// The record of the i-th assignment, counted from 0, behind `r` others of the connection.
fn note(alloc: Global, ask: &Ask, r: u32, i: usize, choice: &LaterChoice) -> Result<Rec, NoMemory>
    requires there { i < length ask.now.paths }
    requires room { r < 2 ^ 32 - 1 }
    ensures { IfOk result (λ rec. (path : List ℕ) → slice_get ask.now.paths i ≡ Some path → rec ≡ Rec.AssignedLater ask.now.c (r + 1) path choice.now.node choice.now.add ask.now.size ask.now.queue) }
{
    let path = ask.paths.as_slice()[i].copy(alloc)?;
    Ok(Rec::AssignedLater {
        c: ask.c,
        r: r + 1,
        path,
        n: choice.node,
        add: choice.add,
        size: u32::from(ask.size),
        queue: ask.queue,
    })
}

/// The nodes of these choices.
fn nodes(alloc: Global, choices: &[LaterChoice]) -> Result<Nodes, NoMemory>
    ensures { IfOk result (λ nodes. nodes ≡ map (λ x. x.node) choices.now) }
{
    Ok(Items::from_vec(each_node(alloc, choices)?))
}

fn each_node(alloc: Global, choices: &[LaterChoice]) -> Result<Vec<NodeId>, AllocError>
    ensures { IfOk result (λ nodes. nodes.items ≡ map (λ x. x.node) choices.now) }
{
    choices.iter().map(|choice| choice.node).collect(alloc)
}

/// The Ask is the last that was answered, by this Tag; so many requests were assigned.
#[tactic(auto, using(lard_table::proofs::Map::insert_twice, lard_table::proofs::Map::get_inserted))]
fn keep(rests: &mut Table<FrontRest>, alloc: Global, ask: &Ask, tag: Nodes, last: u32)
    requires { IsSome (table.get rests.old ask.now.c) }
    ensures { rests.new ≡ kept_rests rests.old ask.now tag last }
{
    let mut rest = rests.replace(ask.c.number(), no_rest(alloc));
    rest.asks = ask.number;
    rest.tag = tag;
    rest.assigned = last;
    let _ = rests.replace(ask.c.number(), rest);
}

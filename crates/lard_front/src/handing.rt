//! The hand-off of a connection to a node.

ghost use Rattle.std.specs.Prelude.{◌≡◌, ◌+◌, ◌^◌, ◌<◌, ◌≤◌, [], ◌∷◌, ◌++◌, IfOk, OnOk, None, Some, length, option_map};
ghost use Rattle.std.specs.FinMap as table;
ghost use Rattle.lard_base.specs.declared.limits.TheConstants.{MAX_MESSAGE_BYTES, MAX_STREAM_BYTES};
ghost use Rattle.lard_front.specs.Bounds.{IsFrontTurn};
ghost use Rattle.lard_front.specs.Hand.{front_env_of, handed_at};
ghost use Rattle.lard_handoff_front.specs.Front.{MayBeOffered};
ghost use Rattle.lard_resend.specs.Pending.{held, renewed};

use crate::turns::Around;
use lard_base::{Bytes, ConnId, Epoch, NoMemory, NodeId, Nodes, Path, Place, Sends, TimerKind};
use lard_handoff_front::FrontTable;
use lard_journal::{Rec, Recs};
use lard_policy::FirstChoice;
use lard_resend::{Pending, PendingKey};
use lard_rules::{FrontRest, FrontState, FrontTurn};
use lard_serving::Service;
use lard_table::Table;
use std::alloc::Global;

/// A connection whose endpoint is here, and may move, goes to the node of this choice. The endpoint is frozen with its
/// unread bytes and spent, and its Offer is told until the node answers. Without memory the state is of no use any more
/// but to be spent.
pub fn hand_off(
    state: &mut FrontState,
    alloc: Global,
    around: &Around<'_>,
    service: Service,
    path: Path,
    choice: FirstChoice,
) -> Result<FrontTurn, NoMemory>
    requires may { MayBeOffered (table.get state.old.conns around.now.serve.c) service.count }
    requires none { held state.old.kept around.now.serve.c ≡ [] }
    requires few { service.count < 2 ^ 31 }
    requires answered { service.answered ≤ MAX_STREAM_BYTES }
    ensures turn { IfOk result (λ turn. handed_at (front_env_of around.now state.old) state.old service path choice (table.get state.old.conns around.now.serve.c) ≡ Some (state.new, turn)) }
    ensures fits { IfOk result IsFrontTurn }
    ensures quiet { IfOk result (λ turn. turn.segments ≡ []) }
{
    let c = around.serve.c;
    let epoch = epoch_of(&state.conns, c);
    let bytes = state.conns.offer(alloc, c, choice.node, service.count)?;
    keep_offer(&mut state.kept, alloc, c, choice.node, &bytes)?;
    keep_rest(&mut state.rests, alloc, c, service.count)?;
    handed_turn(alloc, c, epoch, service, path, choice, bytes)
}

/// The epoch of a connection that is known.
fn epoch_of(conns: &FrontTable, c: ConnId) -> Epoch
    requires { (table.get conns.now c ≡ None) → ⊥ }
    ensures { option_map (λ row. row.epoch) (table.get conns.now c) ≡ Some result }
{
    match conns.row(c) {
        Some(row) => row.epoch,
        None => unreachable!(),
    }
}

/// The Offer awaits the node's answer.
fn keep_offer(
    kept: &mut Pending,
    alloc: Global,
    c: ConnId,
    node: NodeId,
    bytes: &Bytes,
) -> Result<(), NoMemory>
    requires { length bytes.now ≤ MAX_MESSAGE_BYTES }
    ensures { OnOk result (kept.new ≡ renewed kept.old c (record { kind = TimerKind.Offer; r = 0; to = Place.Node node; bytes = bytes.now })) }
{
    let key = PendingKey {
        c,
        kind: TimerKind::Offer,
        r: 0,
    };
    kept.renew(key, Place::Node(node), bytes.copy(alloc)?)
}

/// What was done on a connection that goes to a node with its first request.
fn keep_rest(
    rests: &mut Table<FrontRest>,
    alloc: Global,
    c: ConnId,
    count: u32,
) -> Result<(), NoMemory>
    requires { count < 2 ^ 31 }
    ensures { OnOk result (rests.new ≡ table.insert rests.old c (record { count = count; asks = 0; tag = []; assigned = count + 1; target = None })) }
{
    let rest = FrontRest {
        count,
        asks: 0,
        tag: Nodes::new(alloc),
        assigned: count + 1,
        target: None,
    };
    let _ = rests.insert(c.number(), rest)?;
    Ok(())
}

/// What is told of a hand-off.
fn handed_turn(
    alloc: Global,
    c: ConnId,
    epoch: Epoch,
    service: Service,
    path: Path,
    choice: FirstChoice,
    bytes: Bytes,
) -> Result<FrontTurn, NoMemory>
    requires few { service.count < 2 ^ 31 }
    requires answered { service.answered ≤ MAX_STREAM_BYTES }
    requires size { length bytes ≤ MAX_MESSAGE_BYTES }
    ensures turn { IfOk result (λ turn. turn ≡ record {
      notes = service.notes ++ Rec.Admitted c ∷ Rec.AssignedFirst c (service.count + 1) path choice.node choice.add choice.remove ∷ [];
      segments = [];
      gave = Rec.Gave Place.Front c epoch ∷ [];
      messages = (Place.Node choice.node, bytes) ∷ [];
      answered = service.answered;
    }) }
    ensures fits { IfOk result IsFrontTurn }
    ensures quiet { IfOk result (λ turn. turn.segments ≡ []) }
{
    let Service {
        count,
        mut notes,
        answered,
        over: _,
    } = service;
    notes.push(Rec::Admitted(c))?;
    notes.push(Rec::AssignedFirst {
        c,
        r: count + 1,
        path,
        n: choice.node,
        add: choice.add,
        remove: choice.remove,
    })?;
    let mut gave = Recs::new(alloc);
    let place = Place::Front;
    gave.push(Rec::Gave { place, c, epoch })?;
    let mut messages = Sends::new(alloc);
    messages.push((Place::Node(choice.node), bytes))?;
    Ok(FrontTurn {
        notes,
        segments: Sends::new(alloc),
        gave,
        messages,
        answered,
    })
}

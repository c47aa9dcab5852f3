//! The end of a connection and the admission behind it, in one step.

ghost use Rattle.std.specs.Prelude.{◌≡◌, ◌≤◌, [], ◌++◌, IfOk, Some, option_map};
ghost use Rattle.lard_base.specs.declared.limits.TheConstants.{MAX_STREAM_BYTES};
ghost use Rattle.std.specs.FinMap as table;
ghost use Rattle.lard_dispatch.specs.Sound.{AreBefore};
ghost use Rattle.lard_rules.specs.Front.{front_admitted, front_ended};
ghost use Rattle.lard_rules.specs.FrontPlace.{ended_deed, front_env, front_part, in_order, front_joined};
ghost use Rattle.lard_rules.specs.FrontSound.{IsFrontSound};
ghost use Rattle.lard_front.specs.Bounds.{IsFrontOut, IsFrontTurn};
ghost use Rattle.lard_front.specs.Hand.{HeadWaits, armed_of, changes, gives};
ghost use Rattle.lard_front.specs.Place.{head_too, front_setting_seen};

use crate::admitting::admit;
use crate::releasing::{Released, end};
use crate::step::Setting;
use crate::turns::{Around, armed_at, changes, out_of};
use lard_base::{ConnId, Epoch, NoMemory, NodeId, Place};
use lard_endpoint::Final;
use lard_journal::Recs;
use lard_policy::FirstChoice;
use lard_rules::{FrontState, FrontTurn, Out};
use lard_seq::Seq;
use lard_serving::Env;
use std::alloc::Global;

/// An Ended comes, of this node: its connection is put back and released, and the first of the line is handed off
/// behind it. Without memory the state is of no use any more but to be spent.
pub fn ended(
    state: &mut FrontState,
    alloc: Global,
    setting: &Setting<'_>,
    c: ConnId,
    from: NodeId,
    epoch: Epoch,
    last: Final,
) -> Result<Out, NoMemory>
    requires sound { IsFrontSound state.old }
    requires clock { AreBefore setting.now.now.0 state.old.dispatch.books.sets }
    ensures out { IfOk result (λ out. (state.new, out) ≡ ended_deed (front_setting_seen setting.entry.now) state.old c
        (front_ended (front_env (front_setting_seen setting.entry.now) state.old c 0) (front_part state.old c) from epoch.0 last)) }
    ensures fits { IfOk result IsFrontOut }
{
    let around = Around {
        serve: Env {
            place: Place::Front,
            c,
            files: setting.files,
            stream: setting.stream,
        },
        iss: Seq(0),
        time: setting.now,
    };
    let was = armed_at(state, c);
    let Released { turn, next } = end(state, alloc, &around, from, epoch, last)?;
    let timers = changes(alloc, c, was, armed_at(state, c))?;
    match next {
        None => return Ok(out_of(turn, timers)),
        Some(next) => return admits_too(state, alloc, setting, c, turn, timers, next),
    }
}

/// The first of the line is handed off as well, behind the turn of connection `c`, whose timers changed so.
fn admits_too(
    state: &mut FrontState,
    alloc: Global,
    setting: &Setting<'_>,
    c: ConnId,
    turn: FrontTurn,
    timers: Recs,
    next: (ConnId, FirstChoice),
) -> Result<Out, NoMemory>
    requires head { HeadWaits state.old next.0 }
    requires fits { IsFrontTurn turn }
    requires quiet { turn.segments ≡ [] }
    ensures out { IfOk result (λ out. (state.new, out) ≡ head_too state.old turn timers c next.0
        (front_admitted (front_env (front_setting_seen setting.entry.now) state.old next.0 0) (front_part state.old next.0) next.1)) }
    ensures fits { IfOk result IsFrontOut }
{
    let Head {
        c: head,
        turn: admitted,
        timers: others,
    } = hand_head(state, alloc, setting, next)?;
    let answered = turn.answered;
    let all = joined(turn, admitted, answered)?;
    Ok(out_of(all, in_order(c, head, timers, others)?))
}

/// What is done for the head of the line, or nothing.
#[derive(Debug, Drop)]
pub struct Head {
    /// The head, or the connection that made room.
    pub c: ConnId,
    pub turn: FrontTurn,
    /// The records of its timers.
    pub timers: Recs,
}

/// The first of the line is handed off by the dispatcher's choice. Without memory the state is of no use any more but to
/// be spent.
pub fn hand_head(
    state: &mut FrontState,
    alloc: Global,
    setting: &Setting<'_>,
    next: (ConnId, FirstChoice),
) -> Result<Head, NoMemory>
    requires { HeadWaits state.old next.0 }
    ensures c { IfOk result (λ x. x.c ≡ next.0) }
    ensures turn { IfOk result (λ x. option_map (gives state.old next.0)
        (front_admitted (front_env (front_setting_seen setting.entry.now) state.old next.0 0) (front_part state.old next.0) next.1) ≡ Some (state.new, x.turn)) }
    ensures timers { IfOk result (λ x. x.timers ≡ changes next.0 (armed_of (front_part state.old next.0)) (armed_of (front_part state.new next.0))) }
    ensures fits { IfOk result (λ x. IsFrontTurn x.turn) }
    ensures quiet { IfOk result (λ x. x.turn.segments ≡ []) }
{
    let (c, choice) = next;
    let around = Around {
        serve: Env {
            place: Place::Front,
            c,
            files: setting.files,
            stream: setting.stream,
        },
        iss: Seq(0),
        time: setting.now,
    };
    let was = armed_at(state, c);
    let turn = admit(state, alloc, &around, choice)?;
    let timers = changes(alloc, c, was, armed_at(state, c))?;
    Ok(Head { c, turn, timers })
}

/// Two turns as one, of which the first sent no segment, and which queued so many bytes of responses.
pub fn joined(turn: FrontTurn, behind: FrontTurn, answered: u32) -> Result<FrontTurn, NoMemory>
    requires fits { IsFrontTurn turn }
    requires behind { IsFrontTurn behind }
    requires quiet { turn.segments ≡ [] }
    requires answered { answered ≤ MAX_STREAM_BYTES }
    ensures turn { IfOk result (λ all. all ≡ record (front_joined turn behind) { answered = answered }) }
    ensures fits { IfOk result IsFrontTurn }
{
    let FrontTurn {
        mut notes,
        mut segments,
        mut gave,
        mut messages,
        answered: _,
    } = turn;
    let FrontTurn {
        notes: mut more_notes,
        segments: mut more_segments,
        gave: mut more_gave,
        messages: mut more_messages,
        answered: _,
    } = behind;
    notes.append(&mut more_notes)?;
    segments.append(&mut more_segments)?;
    gave.append(&mut more_gave)?;
    messages.append(&mut more_messages)?;
    Ok(FrontTurn {
        notes,
        segments,
        gave,
        messages,
        answered,
    })
}

/// The records of the timers of two connections, in the order of their numbers.
pub fn in_order(c: ConnId, head: ConnId, mut ours: Recs, mut theirs: Recs) -> Result<Recs, NoMemory>
    ensures { IfOk result (λ recs. recs ≡ in_order c head ours theirs) }
{
    if head.number() < c.number() {
        theirs.append(&mut ours)?;
        return Ok(theirs);
    }
    ours.append(&mut theirs)?;
    Ok(ours)
}

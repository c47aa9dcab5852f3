//! What the front end rests on in a step, the timers of a connection, and what a turn comes to.

ghost use Rattle.std.specs.Prelude.{◌≡◌, ◌==◌, [], ◌∷◌, ◌++◌, IfOk, OnOk, option_copied};
ghost use Rattle.std.specs.FinMap as table;
ghost use Rattle.std.specs.List.{list_any};
ghost use Rattle.lard_base.specs.declared.place.TimerKind.TheVariants as kind;
ghost use Rattle.lard_rules.specs.Front.{front_armed, row_armed, front_saying, stage_armed, turn_here};
ghost use Rattle.lard_rules.specs.FrontPlace.{front_part, front_out_of};
ghost use Rattle.lard_front.specs.Bounds.{AreMessages, IsFrontOut, IsFrontTurn};
ghost use Rattle.lard_front.specs.Hand.{changes, armed_of, out_by, front_silent};
ghost use Rattle.lard_resend.specs.Kept.{kind_rank};
ghost use Rattle.lard_rules.specs.Outs.{kind_change};
ghost use Rattle.lard_rules.specs.Speaking.{listed};
ghost use Rattle.lard_serving.specs.Bounds.{IsTurn};

use lard_base::{ConnId, Millis, NoMemory, Place, Sends, TimerKind};
use lard_handoff_front::{FrontConn, FrontRow};
use lard_journal::{Rec, Recs};
use lard_resend::Kept;
use lard_rules::{FrontState, FrontTurn, Out, Turn};
use lard_seq::Seq;
use lard_serving::Env;
use std::alloc::Global;

/// What the rules of one connection rest on beside what is kept.
#[derive(Clone, Copy)]
pub struct Around<'a> {
    /// What serving rests on; the place that serves is the front end.
    pub serve: Env<'a>,
    /// The sequence number with which the cluster begins.
    pub iss: Seq,
    pub time: Millis,
}

/// The timers of a connection that run at the front end.
#[derive(Clone, Copy, Debug)]
pub struct Armed {
    pub tcp: bool,
    pub offer: bool,
}

// ---- timers

/// The timers of a connection that run.
pub fn armed_at(state: &FrontState, c: ConnId) -> Armed
    ensures { result ≡ armed_of (front_part state.now c) }
{
    let tcp = row_armed(state.conns.row(c));
    let offer = has_offer(state.kept.of(c));
    Armed { tcp, offer }
}

fn row_armed(row: Option<&FrontRow>) -> bool
    ensures { result ≡ row_armed (option_copied row.entry) }
{
    match row {
        Some(row) => stage_armed(&row.stage),
        None => false,
    }
}

fn stage_armed(stage: &FrontConn) -> bool
    ensures { result ≡ stage_armed stage.now }
{
    match stage {
        FrontConn::Held(endpoint) => !endpoint.clear(),
        FrontConn::Waiting(endpoint) => !endpoint.clear(),
        FrontConn::Lent => false,
        FrontConn::Offering { .. } => false,
        FrontConn::Moved { .. } => false,
        FrontConn::Closed(_) => false,
    }
}

fn has_offer(kept: &[Kept]) -> bool
    ensures { result ≡ list_any (λ x. kind_rank x.kind == kind_rank kind.Offer) kept.now }
{
    kept.iter().any(|kept| is_offer(kept))
}

fn is_offer(kept: &Kept) -> bool
    ensures { result ≡ (kind_rank kept.now.kind == kind_rank kind.Offer) }
{
    match kept.kind {
        TimerKind::Tcp => false,
        TimerKind::Offer => true,
        TimerKind::Ask => false,
        TimerKind::Fetch => false,
        TimerKind::Ended => false,
        TimerKind::Give => false,
    }
}

/// The records of the timers of a connection that changed. `NoMemory` where memory runs out.
pub fn changes(alloc: Global, c: ConnId, was: Armed, is: Armed) -> Result<Recs, NoMemory>
    ensures { IfOk result (λ recs. recs ≡ changes c was is) }
{
    let mut recs = Recs::new(alloc);
    push(&mut recs, change(c, TimerKind::Tcp, was.tcp, is.tcp))?;
    push(&mut recs, change(c, TimerKind::Offer, was.offer, is.offer))?;
    Ok(recs)
}

fn change(c: ConnId, kind: TimerKind, was: bool, is: bool) -> Option<Rec>
    ensures { listed result ≡ kind_change Place.Front c kind was is }
{
    let place = Place::Front;
    match (was, is) {
        (false, true) => Some(Rec::Armed { place, c, kind }),
        (true, false) => Some(Rec::Cleared { place, c, kind }),
        (false, false) | (true, true) => None,
    }
}

/// Adds a record, where there is one.
fn push(recs: &mut Recs, rec: Option<Rec>) -> Result<(), NoMemory>
    ensures { OnOk result (recs.new ≡ recs.old ++ listed rec) }
{
    match rec {
        None => return Ok(()),
        Some(rec) => return recs.push(rec),
    }
}

// ---- turns

/// Nothing is done.
pub fn silent(alloc: Global) -> FrontTurn
    ensures turn { result ≡ front_silent }
    ensures fits { IsFrontTurn result }
{
    saying(alloc, Sends::new(alloc))
}

/// These messages go out, and nothing else is done.
pub fn saying(alloc: Global, messages: Sends) -> FrontTurn
    requires { AreMessages messages }
    ensures turn { result ≡ front_saying messages }
    ensures fits { IsFrontTurn result }
{
    FrontTurn {
        notes: Recs::new(alloc),
        segments: Sends::new(alloc),
        gave: Recs::new(alloc),
        messages,
        answered: 0,
    }
}

/// A turn of an endpoint that is here.
pub fn turn_here(alloc: Global, turn: Turn) -> FrontTurn
    requires { IsTurn turn }
    ensures turn { result ≡ turn_here turn }
    ensures fits { IsFrontTurn result }
{
    let Turn {
        notes,
        segments,
        answered,
    } = turn;
    FrontTurn {
        notes,
        segments,
        gave: Recs::new(alloc),
        messages: Sends::new(alloc),
        answered,
    }
}

/// What a turn on a connection comes to, whose timers were so before it. `NoMemory` where memory runs out.
pub fn out_by(
    alloc: Global,
    state: &FrontState,
    c: ConnId,
    was: Armed,
    turn: FrontTurn,
) -> Result<Out, NoMemory>
    requires { IsFrontTurn turn }
    ensures out { IfOk result (λ out. out ≡ out_by c was (armed_of (front_part state.now c)) turn) }
    ensures fits { IfOk result IsFrontOut }
{
    let timers = changes(alloc, c, was, armed_at(state, c))?;
    Ok(out_of(turn, timers))
}

/// What a turn comes to, whose timers changed so.
pub fn out_of(turn: FrontTurn, timers: Recs) -> Out
    requires { IsFrontTurn turn }
    ensures out { result ≡ front_out_of turn timers }
    ensures fits { IsFrontOut result }
{
    let FrontTurn {
        notes,
        segments,
        gave,
        messages,
        answered,
    } = turn;
    Out {
        notes,
        segments,
        gave,
        messages,
        timers,
        answered,
    }
}

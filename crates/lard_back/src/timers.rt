//! Which timers of a connection run at a node.

ghost use Rattle.std.specs.Prelude.{◌≡◌, ◌++◌, IfOk, OnOk};
ghost use Rattle.std.specs.FinMap as table;
ghost use Rattle.lard_back.specs.Timers.{flag_changes, timer_flags};
ghost use Rattle.lard_handoff_back.specs.Back.{back_endpoint};
ghost use Rattle.lard_rules.specs.Node.{holds_kind, is_unsaid};
ghost use Rattle.lard_rules.specs.NodePlace.{node_part};
ghost use Rattle.lard_rules.specs.Outs.{kind_change};

use lard_base::{ConnId, NoMemory, NodeId, Place, TimerKind};
use lard_handoff_back::{BackConn, BackTable};
use lard_journal::{Rec, Recs};
use lard_resend::{Kept, rank};
use lard_rules::NodeState;
use std::alloc::Global;

/// Which timers of a connection run: that of its endpoint, and those of messages that await their answers.
#[derive(Clone, Copy, Debug)]
pub struct Flags {
    pub tcp: bool,
    pub ask: bool,
    pub fetch: bool,
    pub ended: bool,
    pub give: bool,
}

/// Which timers of a connection run.
pub fn running(state: &NodeState, c: ConnId) -> Flags
    ensures { result ≡ timer_flags (node_part state.now c) }
{
    Flags {
        tcp: is_unsaid(&state.conns, c),
        ask: holds_kind(state.kept.of(c), TimerKind::Ask),
        fetch: holds_kind(state.fetches.of(c), TimerKind::Fetch),
        ended: holds_kind(state.kept.of(c), TimerKind::Ended),
        give: holds_kind(state.kept.of(c), TimerKind::Give),
    }
}

/// Whether some symbol of an endpoint that is here is not acknowledged.
fn is_unsaid(conns: &BackTable, c: ConnId) -> bool
    ensures { result ≡ is_unsaid (back_endpoint (table.get conns.now.rows c)) }
{
    match conns.row(c) {
        None => false,
        Some(row) => match &row.stage {
            BackConn::Here(endpoint) => !endpoint.clear(),
            BackConn::Out => false,
            BackConn::Ended => false,
            BackConn::Gone => false,
        },
    }
}

/// Whether some message of this kind awaits its answer.
fn holds_kind(kept: &[Kept], kind: TimerKind) -> bool
    ensures { result ≡ holds_kind kind kept.now }
{
    kept.iter().any(|kept| rank(kept.kind) == rank(kind))
}

/// The records of the timers that changed, in the order of their kinds. `NoMemory` where memory runs out.
pub fn changes(alloc: Global, n: NodeId, c: ConnId, was: Flags, is: Flags) -> Result<Recs, NoMemory>
    ensures { IfOk result (λ recs. recs ≡ flag_changes n c was is) }
{
    let mut recs = Recs::new(alloc);
    change(&mut recs, n, c, TimerKind::Tcp, was.tcp, is.tcp)?;
    change(&mut recs, n, c, TimerKind::Ask, was.ask, is.ask)?;
    change(&mut recs, n, c, TimerKind::Fetch, was.fetch, is.fetch)?;
    change(&mut recs, n, c, TimerKind::Ended, was.ended, is.ended)?;
    change(&mut recs, n, c, TimerKind::Give, was.give, is.give)?;
    Ok(recs)
}

/// Adds the record of a timer that changed.
fn change(
    recs: &mut Recs,
    n: NodeId,
    c: ConnId,
    kind: TimerKind,
    was: bool,
    is: bool,
) -> Result<(), NoMemory>
    ensures { OnOk result (recs.new ≡ recs.old ++ kind_change (Place.Node n) c kind was is) }
{
    let place = Place::Node(n);
    match (was, is) {
        (false, true) => return recs.push(Rec::Armed { place, c, kind }),
        (true, false) => return recs.push(Rec::Cleared { place, c, kind }),
        (false, false) => return Ok(()),
        (true, true) => return Ok(()),
    }
}

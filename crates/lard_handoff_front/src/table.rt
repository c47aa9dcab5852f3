//! The table of the front end's connections.

ghost use Rattle.std.specs.Prelude.{◌≡◌, ◌↔◌, ◌-◌, ◌≤◌, IsTrue, length, Some, None, true, false, is_some, IsSome, IfOk, OnOk, OnErr, OnSome, option_copied, option_map};
ghost use Rattle.std.specs.FinMap as map;
ghost use Rattle.lard_base.specs.declared.limits.TheConstants.{MAX_MESSAGE_BYTES};
ghost use Rattle.lard_endpoint.specs.Control.{ControlBlock, listening};
ghost use Rattle.lard_message.specs.Message.{spelled_message};
ghost use Rattle.lard_segment.specs.Segment.{said};
ghost use Rattle.lard_handoff_front.specs.declared.row.FrontConn.TheVariants as stage;
ghost use Rattle.lard_handoff_front.specs.Row.{held_in, IsRow};
ghost use Rattle.lard_handoff_front.specs.Front.{MayBeOffered, MayLeave, front_after_ended, asked_node, row_begun, end_answer, endpoint_of, ended_row, ended_with, IsSmall, leaving_of, offer_message, in_stage, may_put, row_moved, next_epoch, offer_of, offered, row_taken, with_stage};

use crate::row::{FrontConn, FrontRow};
use lard_base::{Bytes, ConnId, Epoch, NoMemory, NodeId};
use lard_endpoint::{Endpoint, Final, Frozen};
use lard_message::{Body, Message, encode};
use lard_segment::Segment;
use lard_seq::Seq;
use lard_table::Table;
use std::alloc::Global;
use std::marker::Model;

mod returns;

pub use returns::Back;

/// No connection is offered in an epoch above this one.
const MAX_EPOCH: u16 = 65_000;

/// What the end of a connection at a node is to the front end.
#[derive(Clone, Copy, Debug, PartialEq, Eq)]
pub enum OnEnded {
    /// The connection is the front end's again, in this epoch.
    New(Epoch),
    /// It was so before.
    Again,
    /// No end of this epoch was awaited.
    Stale,
}

/// The connections of the front end, each kept to the end of the run. The table has to be spent, by `finish`.
pub struct FrontTable {
    conns: Table<FrontRow>,
}

impl Model for FrontTable {
    ghost use Rattle.std.specs.Coded.{coded_ℕ};
    ghost use Rattle.std.specs.FinMap as map;
    ghost use Rattle.std.specs.Ordering.{nat_cmp};
    ghost use Rattle.lard_handoff_front.specs.contracts.row.FrontRow as row;
    ghost use Rattle.lard_handoff_front.specs.declared.row.FrontRow.{FrontRow};

    ghost Value = { map.FinMap nat_cmp FrontRow };

    ghost coded = { map.code coded_ℕ row.the_row.coded };

    ghost use Rattle.lard_handoff_front.specs.Front.{AreRows};

    ghost view = { λ t. t.conns };

    ghost invariant = { λ t. AreRows t.conns };
}

impl FrontTable {
    /// No connection. It takes no memory yet.
    #[tactic(auto, using(crate::proofs::Rows::no_rows))]
    pub fn new(alloc: Global) -> FrontTable
        ensures { result ≡ map.empty }
    {
        FrontTable {
            conns: Table::new(alloc),
        }
    }

    /// What is kept of a connection, lent; `None` where it never began.
    pub fn row(&self, c: ConnId) -> Option<&FrontRow>
        ensures { option_copied result ≡ map.get self.now c }
    {
        self.conns.get(c.number())
    }

    /// The state of a connection, lent; `None` where it never began.
    pub fn state(&self, c: ConnId) -> Option<&FrontConn>
        ensures { option_copied result ≡ option_map (λ row. row.stage) (map.get self.now c) }
    {
        match self.conns.get(c.number()) {
            Some(row) => Some(&row.stage),
            None => None,
        }
    }

    /// The epoch of a connection's present owner; `None` where it never began.
    pub fn epoch(&self, c: ConnId) -> Option<Epoch>
        ensures { result ≡ option_map (λ row. row.epoch) (map.get self.now c) }
    {
        match self.conns.get(c.number()) {
            Some(row) => Some(row.epoch),
            None => None,
        }
    }

    /// Begins a connection, which is not known yet, with an endpoint that took this SYN, without ACK, RST and FIN. It
    /// is held here, in epoch 1 (RFC 9293, 3.10.7.2). Without memory nothing changes.
    #[tactic(auto, using(crate::proofs::Rows::row_put))]
    pub fn listen(
        &mut self,
        alloc: Global,
        c: ConnId,
        syn: &Segment<'_>,
        iss: Seq,
    ) -> Result<(), NoMemory>
        requires unknown { map.get self.old c ≡ None }
        requires syn { syn.now.flags.syn ≡ true }
        requires no_ack { syn.now.flags.ack ≡ false }
        requires no_rst { syn.now.flags.rst ≡ false }
        requires no_fin { syn.now.flags.fin ≡ false }
        ensures ok { OnOk result (self.new ≡ map.insert self.old c (row_begun (listening (said syn.now) iss.0))) }
        ensures err { OnErr result (self.new ≡ self.old) }
    {
        let endpoint = Endpoint::listen(alloc, syn, iss)?;
        let row = FrontRow {
            stage: FrontConn::Held(endpoint),
            epoch: Epoch(1),
            ended_by: None,
        };
        keep(&mut self.conns, c.number(), row)
    }

    /// Takes the endpoint of a connection out, where it is here; the connection is lent then. `None` where it is not
    /// here, which changes nothing.
    #[tactic(auto, using(crate::proofs::Rows::stage_put))]
    pub fn take(&mut self, c: ConnId) -> Option<Endpoint>
        ensures found { result ≡ endpoint_of (map.get self.old c) }
        ensures after { self.new ≡ row_taken self.old c (map.get self.old c) }
        ensures lent { OnSome result (may_put (map.get self.new c) ≡ true) }
    {
        let number = c.number();
        let Some(row) = self.conns.get(number) else {
            return None;
        };
        if !row.stage.has_endpoint() {
            return None;
        }
        let lent = FrontRow {
            stage: FrontConn::Lent,
            epoch: row.epoch,
            ended_by: row.ended_by,
        };
        let FrontRow {
            stage,
            epoch: _,
            ended_by: _,
        } = self.conns.replace(number, lent);
        stage.into_endpoint()
    }

    /// Brings back the endpoint of a connection that is lent. It is held here, or waits for room.
    #[tactic(auto, using(crate::proofs::Rows::stage_put))]
    pub fn put(&mut self, c: ConnId, endpoint: Endpoint, waiting: bool)
        requires { may_put (map.get self.old c) ≡ true }
        ensures { self.new ≡ with_stage self.old c (in_stage waiting endpoint) (map.get self.old c) }
    {
        set_stage(&mut self.conns, c.number(), here(endpoint, waiting)).spend();
    }

    /// Ends a connection that is lent, with these last numbers.
    #[tactic(auto, using(crate::proofs::Rows::stage_put))]
    pub fn close(&mut self, c: ConnId, last: Final)
        requires { may_put (map.get self.old c) ≡ true }
        ensures { self.new ≡ with_stage self.old c (stage.Closed last) (map.get self.old c) }
    {
        set_stage(&mut self.conns, c.number(), FrontConn::Closed(last)).spend();
    }

    /// Whether the endpoint of a connection is here and may be frozen, and its epoch has one after it: what `offer` asks for
    /// beside its number of responses.
    pub fn may_offer(&self, c: ConnId) -> bool
        ensures { IsTrue result ↔ MayBeOffered (map.get self.now c) 0 }
    {
        match self.conns.get(c.number()) {
            Some(row) => return may_leave(row),
            None => return false,
        }
    }

    /// Hands the connection to a node: its endpoint is frozen and spent, and goes on from the parts of the Offer that is
    /// answered, of the next epoch, with the number of responses that were queued before. Without memory the connection is as
    /// before. It is here, and may be frozen; `served` is at most the number of bytes received less the unread ones, and the
    /// epoch is below 65,000.
    pub fn offer(
        &mut self,
        alloc: Global,
        c: ConnId,
        node: NodeId,
        served: u32,
    ) -> Result<Bytes, NoMemory>
        requires { MayBeOffered (map.get self.old c) served }
        ensures bytes { IfOk result (λ bytes. option_map spelled_message (offer_of c (map.get self.old c) served) ≡ Some bytes) }
        ensures size { IfOk result (λ bytes. length bytes ≤ MAX_MESSAGE_BYTES) }
        ensures ok { OnOk result (self.new ≡ offered self.old c node (map.get self.old c)) }
        ensures err { OnErr result (self.new ≡ self.old) }
    {
        let number = c.number();
        let (waiting, epoch) = leaving(&self.conns, number);
        let Some(endpoint) = set_stage(&mut self.conns, number, FrontConn::Lent).into_endpoint()
        else {
            unreachable!()
        };
        let frozen = endpoint.freeze();
        match write_offer(alloc, &frozen, c, epoch, served) {
            Ok(bytes) => {
                frozen.release();
                let row = FrontRow {
                    stage: FrontConn::Offering { node, epoch },
                    epoch,
                    ended_by: None,
                };
                spend_row(Some(self.conns.replace(number, row)));
                return Ok(bytes);
            }
            Err(NoMemory) => {
                let endpoint = frozen.thaw();
                set_stage(&mut self.conns, number, here(endpoint, waiting)).spend();
                return Err(NoMemory);
            }
        }
    }

    /// A Taken came: true exactly where the Offer of this epoch has no answer yet. The connection is moved then.
    pub fn on_taken(&mut self, c: ConnId, epoch: Epoch) -> bool
        ensures value { result ≡ is_some (asked_node epoch.0 (map.get self.old c)) }
        ensures after { self.new ≡ row_moved self.old c epoch (map.get self.old c) (asked_node epoch.0 (map.get self.old c)) }
    {
        let number = c.number();
        let Some(node) = asked_node(&self.conns, number, epoch) else {
            return false;
        };
        set_stage(&mut self.conns, number, FrontConn::Moved { node, epoch }).spend();
        true
    }

    /// An Ended came. Where the connection is on its way to a node or there, in this epoch, it is closed with these last
    /// numbers, and the front end's in the next epoch. Again and Stale change nothing.
    pub fn on_ended(&mut self, c: ConnId, epoch: Epoch, last: Final) -> OnEnded
        ensures answer { result ≡ end_answer epoch.0 (map.get self.old c) }
        ensures after { self.new ≡ front_after_ended self.old c epoch last (map.get self.old c) }
    {
        let number = c.number();
        let Some(row) = self.conns.get(number) else {
            return OnEnded::Stale;
        };
        if row.stage.is_away(epoch) {
            let next = Epoch(row.epoch.0 + 1);
            let row = FrontRow {
                stage: FrontConn::Closed(last),
                epoch: next,
                ended_by: Some(epoch),
            };
            spend_row(Some(self.conns.replace(number, row)));
            return OnEnded::New(next);
        }
        if ended_with(row.ended_by, epoch) {
            return OnEnded::Again;
        }
        OnEnded::Stale
    }

    /// Spends every endpoint, and the table.
    pub fn finish(self) {
        let FrontTable { mut conns } = self;
        while let Some(row) = conns.pop() {
            let FrontRow {
                stage,
                epoch: _,
                ended_by: _,
            } = row;
            stage.spend();
        }
        conns.destroy_empty();
    }
}

/// Whether the connection of this row may be offered.
fn may_leave(row: &FrontRow) -> bool
    ensures { IsTrue result ↔ MayBeOffered (Some row.now) 0 }
{
    match &row.stage {
        FrontConn::Held(endpoint) => return is_free(endpoint, row.epoch),
        FrontConn::Waiting(endpoint) => return is_free(endpoint, row.epoch),
        FrontConn::Lent => return false,
        FrontConn::Offering { .. } => return false,
        FrontConn::Moved { .. } => return false,
        FrontConn::Closed(_) => return false,
    }
}

/// Whether an endpoint of this epoch may be offered.
fn is_free(endpoint: &Endpoint, epoch: Epoch) -> bool
    ensures { IsTrue result ↔ MayLeave endpoint.now epoch.0 0 }
{
    if epoch.0 >= MAX_EPOCH {
        return false;
    }
    endpoint.can_freeze()
}

/// The bytes of the Offer of a frozen endpoint.
fn write_offer(
    alloc: Global,
    frozen: &Frozen,
    c: ConnId,
    epoch: Epoch,
    served: u32,
) -> Result<Bytes, NoMemory>
    requires { served ≤ frozen.now.recv.got - length frozen.now.recv.unread }
    ensures bytes { IfOk result (λ bytes. bytes ≡ spelled_message (offer_message c epoch frozen.now served)) }
    ensures size { IfOk result (λ bytes. length bytes ≤ MAX_MESSAGE_BYTES) }
{
    let parts = frozen.parts(alloc, served)?;
    let message = Message {
        c,
        epoch,
        body: Body::Offer(parts),
    };
    encode(alloc, &message)
}

/// Whether the connection waits for room, and the epoch after its present one.
fn leaving(conns: &Table<FrontRow>, c: u32) -> (bool, Epoch)
    requires { IsSmall (map.get conns.now c) }
    ensures { Some result ≡ option_map leaving_of (map.get conns.now c) }
{
    match conns.get(c) {
        Some(row) => return (row.stage.is_waiting(), Epoch(row.epoch.0 + 1)),
        None => unreachable!(),
    }
}

/// The stage of an endpoint that is here.
fn here(endpoint: Endpoint, waiting: bool) -> FrontConn
    ensures { result ≡ in_stage waiting endpoint }
{
    if waiting {
        return FrontConn::Waiting(endpoint);
    }
    FrontConn::Held(endpoint)
}

/// The node that has not answered the Offer of this epoch, if there is one.
fn asked_node(conns: &Table<FrontRow>, c: u32, epoch: Epoch) -> Option<NodeId>
    ensures { result ≡ asked_node epoch.0 (map.get conns.now c) }
{
    match conns.get(c) {
        Some(row) => return row.stage.offered_to(epoch),
        None => return None,
    }
}

/// Whether the connection ended by a call with this epoch.
fn ended_with(ended_by: Option<Epoch>, epoch: Epoch) -> bool
    ensures { result ≡ ended_with epoch.0 ended_by }
{
    match ended_by {
        Some(by) => by.0 == epoch.0,
        None => false,
    }
}

/// Keeps a row of a connection that has none yet.
fn keep(conns: &mut Table<FrontRow>, c: u32, row: FrontRow) -> Result<(), NoMemory>
    requires { map.get conns.old c ≡ None }
    ensures ok { OnOk result (conns.new ≡ map.insert conns.old c row) }
    ensures err { OnErr result (conns.new ≡ conns.old) }
{
    match conns.insert(c, row) {
        Ok(before) => {
            spend_row(before);
            return Ok(());
        }
        Err(failed) => {
            let (_, row) = failed.value;
            spend_row(Some(row));
            return Err(NoMemory);
        }
    }
}

/// Spends a row that is kept no longer.
fn spend_row(row: Option<FrontRow>) {
    if let Some(row) = row {
        let FrontRow {
            stage,
            epoch: _,
            ended_by: _,
        } = row;
        stage.spend();
    }
}

/// Sets the stage of a connection, and hands out the one before.
#[tactic(auto, using(lard_table::proofs::Map::get_inserted))]
fn set_stage(conns: &mut Table<FrontRow>, c: u32, stage: FrontConn) -> FrontConn
    requires { IsSome (map.get conns.old c) }
    ensures before { option_map (λ row. row.stage) (map.get conns.old c) ≡ Some result }
    ensures after { conns.new ≡ with_stage conns.old c stage (map.get conns.old c) }
    ensures there { option_map (λ row. row.stage) (map.get conns.new c) ≡ Some stage }
{
    let Some(row) = conns.get(c) else {
        unreachable!()
    };
    let (epoch, ended_by) = (row.epoch, row.ended_by);
    let row = FrontRow {
        stage,
        epoch,
        ended_by,
    };
    let FrontRow {
        stage: before,
        epoch: _,
        ended_by: _,
    } = conns.replace(c, row);
    before
}

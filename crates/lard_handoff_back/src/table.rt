//! The table of a node's connections.

ghost use Rattle.std.specs.Prelude.{◌≡◌, Some, None, true, is_some, IsSome, IfOk, OnOk, OnErr, OnSome, option_copied, option_map};
ghost use Rattle.std.specs.FinMap as map;
ghost use Rattle.lard_base.specs.Parts.{IsValidParts};
ghost use Rattle.lard_base.specs.declared.place.Reason.TheVariants.{Limit};
ghost use Rattle.lard_endpoint.specs.Moving.{final_of};
ghost use Rattle.lard_handoff_back.specs.declared.row.BackConn.TheVariants as stage;
ghost use Rattle.lard_handoff_back.specs.Back.{back_acknowledged, awaits_ack, back_endpoint, back_ends, epoch_of, given, back_may_put, staying, back_taken, back_with_stage};
ghost use Rattle.lard_handoff_back.specs.Leaving.{after_offer, awaits_ended, offer_decision};
ghost use Rattle.lard_handoff_back.specs.Table.{beside_in, table_begun};

use crate::row::{BackConn, BackRow};
use lard_base::{ConnId, EndpointParts, Epoch, NoMemory};
use lard_endpoint::{Endpoint, Final};
use lard_table::Table;
use std::alloc::Global;
use std::marker::Model;

mod deciding;
mod leaving;

use deciding::decision;

/// What an Offer is to a node.
#[derive(Clone, Copy, Debug, PartialEq, Eq)]
pub enum Adopt {
    /// The connection stays here from now on.
    New,
    /// It was decided before.
    Again,
    /// An old one, or one that comes before the end of an earlier stay is acknowledged.
    Stale,
    /// The node leaves: it is refused, now or before.
    Refuse,
}

/// The connections that were ever offered to a node, each kept to the end of the run. The table has to be spent, by `finish`.
pub struct BackTable {
    conns: Table<BackRow>,
    /// Of each connection the highest epoch that was refused.
    refused: Table<Epoch>,
    /// Of each connection that was given back how many responses were queued before.
    returned: Table<u32>,
    /// The node takes nothing new, and gives back what it has.
    leaving: bool,
}

impl Model for BackTable {
    ghost use Rattle.lard_handoff_back.specs.Table as specs;

    ghost Value = { specs.Table };

    ghost coded = { specs.coded_table };

    ghost view = { λ t. record { rows = t.conns; refused = t.refused; returned = t.returned; leaving = t.leaving } };

    ghost invariant = { λ t. specs.IsTableSound (record { rows = t.conns; refused = t.refused; returned = t.returned; leaving = t.leaving }) };
}

impl BackTable {
    /// No connection, at a node that stays. It takes no memory yet.
    #[tactic(auto, using(crate::proofs::Leaving::begun_sound))]
    pub fn new(alloc: Global) -> BackTable
        ensures { result ≡ table_begun }
    {
        BackTable {
            conns: Table::new(alloc),
            refused: Table::new(alloc),
            returned: Table::new(alloc),
            leaving: false,
        }
    }

    /// An Offer came, with parts that are valid. A new one makes an endpoint of them, which is here in this epoch; one that
    /// is refused is remembered so. Without memory nothing changes.
    pub fn on_offer(
        &mut self,
        alloc: Global,
        c: ConnId,
        epoch: Epoch,
        parts: &EndpointParts,
    ) -> Result<Adopt, NoMemory>
        requires { IsValidParts parts.now }
        ensures answer { IfOk result (λ adopt. adopt ≡ offer_decision self.old.leaving epoch.0 (map.get self.old.rows c) (beside_in self.old c)) }
        ensures ok { OnOk result (self.new ≡ after_offer self.old c epoch parts.now (offer_decision self.old.leaving epoch.0 (map.get self.old.rows c) (beside_in self.old c))) }
        ensures err { OnErr result (self.new ≡ self.old) }
    {
        let number = c.number();
        match decision(self, number, epoch) {
            Adopt::New => {
                let endpoint = Endpoint::adopt(alloc, parts)?;
                let row = BackRow {
                    stage: BackConn::Here(endpoint),
                    epoch,
                };
                keep(&mut self.conns, number, row)?;
                return Ok(Adopt::New);
            }
            Adopt::Again => return Ok(Adopt::Again),
            Adopt::Stale => return Ok(Adopt::Stale),
            Adopt::Refuse => {
                let _ = self.refused.insert(number, epoch)?;
                return Ok(Adopt::Refuse);
            }
        }
    }

    /// Takes the endpoint of a connection out, where it is here with this epoch. `None` where it is not, which changes
    /// nothing.
    pub fn take(&mut self, c: ConnId, epoch: Epoch) -> Option<Endpoint>
        ensures found { result ≡ staying epoch.0 (map.get self.old.rows c) }
        ensures after { self.new ≡ record self.old { rows = back_taken self.old.rows c (map.get self.old.rows c) (staying epoch.0 (map.get self.old.rows c)) } }
        ensures out { OnSome result (back_may_put (map.get self.new.rows c) ≡ true) }
    {
        let number = c.number();
        if !stays(&self.conns, number, epoch) {
            return None;
        }
        set_stage(&mut self.conns, number, BackConn::Out).into_endpoint()
    }

    /// Brings back the endpoint of a connection that is out.
    pub fn put(&mut self, c: ConnId, endpoint: Endpoint)
        requires { back_may_put (map.get self.old.rows c) ≡ true }
        ensures { self.new ≡ record self.old { rows = back_with_stage self.old.rows c (stage.Here endpoint) (map.get self.old.rows c) } }
    {
        set_stage(&mut self.conns, c.number(), BackConn::Here(endpoint)).spend();
    }

    /// Ends a connection that is out, whose endpoint has ended. EndedAck is awaited then.
    pub fn close(&mut self, c: ConnId)
        requires { back_may_put (map.get self.old.rows c) ≡ true }
        ensures { self.new ≡ record self.old { rows = back_with_stage self.old.rows c stage.Ended (map.get self.old.rows c) } }
    {
        set_stage(&mut self.conns, c.number(), BackConn::Ended).spend();
    }

    /// What is kept of a connection, lent; `None` where nothing is.
    pub fn row(&self, c: ConnId) -> Option<&BackRow>
        ensures { option_copied result ≡ map.get self.now.rows c }
    {
        self.conns.get(c.number())
    }

    /// The epoch of an endpoint that is here; `None` where none is.
    pub fn epoch(&self, c: ConnId) -> Option<Epoch>
        ensures { result ≡ epoch_of (map.get self.now.rows c) }
    {
        match self.conns.get(c.number()) {
            Some(row) => {
                if row.stage.has_endpoint() {
                    return Some(row.epoch);
                }
                return None;
            }
            None => return None,
        }
    }

    /// Ends the endpoint of a connection, which is here, since it passed the stream limit. EndedAck is awaited then.
    pub fn kill(&mut self, c: ConnId) -> Final
        requires { is_some (epoch_of (map.get self.old.rows c)) ≡ true }
        ensures last { option_map (λ b. final_of b Limit) (back_endpoint (map.get self.old.rows c)) ≡ Some result }
        ensures after { self.new ≡ record self.old { rows = back_with_stage self.old.rows c stage.Ended (map.get self.old.rows c) } }
    {
        let Some(endpoint) = set_stage(&mut self.conns, c.number(), BackConn::Ended).into_endpoint()
        else {
            unreachable!()
        };
        endpoint.kill()
    }

    /// Ends the endpoint of a connection, where it is here and may end, and answers its last numbers. EndedAck is
    /// awaited then. `None` where it is not here or may not end, which changes nothing.
    pub fn give(&mut self, c: ConnId) -> Option<Final>
        ensures last { result ≡ back_ends (back_endpoint (map.get self.old.rows c)) }
        ensures after { self.new ≡ record self.old { rows = given self.old.rows c (map.get self.old.rows c) (back_ends (back_endpoint (map.get self.old.rows c))) } }
    {
        let number = c.number();
        if !has_endpoint(&self.conns, number) {
            return None;
        }
        let Some(endpoint) = set_stage(&mut self.conns, number, BackConn::Ended).into_endpoint()
        else {
            unreachable!()
        };
        match endpoint.end() {
            Ok(last) => return Some(last),
            Err(endpoint) => {
                set_stage(&mut self.conns, number, BackConn::Here(endpoint)).spend();
                return None;
            }
        }
    }

    /// An EndedAck came: true exactly where it is awaited in this epoch, and then no longer.
    pub fn on_ended_ack(&mut self, c: ConnId, epoch: Epoch) -> bool
        ensures value { result ≡ awaits_ended epoch.0 (map.get self.old.rows c) (beside_in self.old c) }
        ensures after { self.new ≡ record self.old { rows = back_acknowledged self.old.rows c (map.get self.old.rows c) (awaits_ended epoch.0 (map.get self.old.rows c) (beside_in self.old c)) } }
    {
        let number = c.number();
        if !awaits_ack(&self.conns, number, epoch) || self.returned.get(number).is_some() {
            return false;
        }
        set_stage(&mut self.conns, number, BackConn::Gone).spend();
        true
    }

    /// Spends every endpoint, and the table.
    pub fn finish(self) {
        let BackTable {
            mut conns,
            mut refused,
            mut returned,
            leaving: _,
        } = self;
        while let Some(row) = conns.pop() {
            spend_row(Some(row));
        }
        conns.destroy_empty();
        while let Some(_epoch) = refused.pop() {}
        refused.destroy_empty();
        while let Some(_served) = returned.pop() {}
        returned.destroy_empty();
    }
}

/// Whether the endpoint of a connection is here with this epoch.
fn stays(conns: &Table<BackRow>, c: u32, epoch: Epoch) -> bool
    ensures { result ≡ is_some (staying epoch.0 (map.get conns.now c)) }
{
    match conns.get(c) {
        Some(row) => {
            if row.epoch.0 == epoch.0 {
                return row.stage.has_endpoint();
            }
            return false;
        }
        None => return false,
    }
}

/// Whether the endpoint of a connection is here.
fn has_endpoint(conns: &Table<BackRow>, c: u32) -> bool
    ensures { result ≡ is_some (back_endpoint (map.get conns.now c)) }
{
    match conns.get(c) {
        Some(row) => row.stage.has_endpoint(),
        None => false,
    }
}

/// Whether a stay of this epoch is over, and what told the front end so has no answer yet.
fn awaits_ack(conns: &Table<BackRow>, c: u32, epoch: Epoch) -> bool
    ensures { result ≡ awaits_ack epoch.0 (map.get conns.now c) }
{
    match conns.get(c) {
        Some(row) => row.epoch.0 == epoch.0 && row.stage.is_ended(),
        None => false,
    }
}

/// Keeps a row of a connection. Without memory the table is as it was.
fn keep(conns: &mut Table<BackRow>, c: u32, row: BackRow) -> Result<(), NoMemory>
    ensures ok { OnOk result (conns.new ≡ map.insert conns.old c row) }
    ensures err { OnErr result (conns.new ≡ conns.old) }
{
    match conns.insert(c, row) {
        Ok(before) => {
            spend_row(before);
            return Ok(());
        }
        Err(failed) => {
            let (_, row) = failed.value;
            spend_row(Some(row));
            return Err(NoMemory);
        }
    }
}

/// Spends a row that is kept no longer.
fn spend_row(row: Option<BackRow>) {
    if let Some(row) = row {
        let BackRow { stage, epoch: _ } = row;
        stage.spend();
    }
}

/// Sets the stage of a connection, and hands out the one before.
#[tactic(auto, using(lard_table::proofs::Map::get_inserted))]
fn set_stage(conns: &mut Table<BackRow>, c: u32, stage: BackConn) -> BackConn
    requires { IsSome (map.get conns.old c) }
    ensures before { option_map (λ row. row.stage) (map.get conns.old c) ≡ Some result }
    ensures after { conns.new ≡ back_with_stage conns.old c stage (map.get conns.old c) }
    ensures there { option_map (λ row. row.stage) (map.get conns.new c) ≡ Some stage }
{
    let Some(row) = conns.get(c) else {
        unreachable!()
    };
    let epoch = row.epoch;
    let row = BackRow { stage, epoch };
    let BackRow {
        stage: before,
        epoch: _,
    } = conns.replace(c, row);
    before
}

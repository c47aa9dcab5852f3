//! A connection that a node refuses, or gives back: the front end has it again.

ghost use Rattle.std.specs.Prelude.{◌≡◌, IsSome, IfOk, OnOk, OnErr, None};
ghost use Rattle.std.specs.FinMap as map;
ghost use Rattle.lard_base.specs.Parts.{IsValidParts};
ghost use Rattle.lard_endpoint.specs.Moving.{adopted};
ghost use Rattle.lard_handoff_front.specs.declared.row.FrontConn.TheVariants.{Held};
ghost use Rattle.lard_handoff_front.specs.Returns.{after_back, give_answer, refused_answer};

use super::{FrontTable, spend_row};
use crate::row::{FrontConn, FrontRow};
use lard_base::{ConnId, EndpointParts, Epoch, NoMemory};
use lard_endpoint::Endpoint;
use lard_table::Table;
use std::alloc::Global;

/// What a node's Refused or Give is to the front end.
#[derive(Clone, Copy, Debug, PartialEq, Eq)]
pub enum Back {
    /// The connection is the front end's again, in this epoch.
    New(Epoch),
    /// It was so before, and the node is to be told so once more.
    Again,
    /// Nothing of this epoch was awaited.
    Stale,
}

impl FrontTable {
    /// A Refused came: New exactly where the Offer of this epoch has no answer yet, else Stale. Where it is New, the connection
    /// is held here in the next epoch, and goes on from these parts, which are valid: those of the Offer. `NoMemory` changes
    /// nothing.
    pub fn on_refused(
        &mut self,
        alloc: Global,
        c: ConnId,
        epoch: Epoch,
        parts: &EndpointParts,
    ) -> Result<Back, NoMemory>
        requires { IsValidParts parts.now }
        ensures answer { IfOk result (λ back. back ≡ refused_answer epoch.0 (map.get self.old c)) }
        ensures ok { OnOk result (self.new ≡ after_back self.old c parts.now (map.get self.old c) (refused_answer epoch.0 (map.get self.old c))) }
        ensures err { OnErr result (self.new ≡ self.old) }
    {
        let number = c.number();
        let Some(row) = self.conns.get(number) else {
            return Ok(Back::Stale);
        };
        if row.stage.offered_to(epoch).is_none() {
            return Ok(Back::Stale);
        }
        let next = Epoch(row.epoch.0 + 1);
        hold_again(&mut self.conns, alloc, number, next, parts)?;
        Ok(Back::New(next))
    }

    /// A Give came: New exactly where the connection is on its way to a node or there, in this epoch; Again exactly where its
    /// epoch is a later one; else Stale. Where it is New, the connection is held here in the next epoch, and goes on from
    /// these parts, which are valid: those of the Give. `NoMemory` changes nothing.
    pub fn on_give(
        &mut self,
        alloc: Global,
        c: ConnId,
        epoch: Epoch,
        parts: &EndpointParts,
    ) -> Result<Back, NoMemory>
        requires { IsValidParts parts.now }
        ensures answer { IfOk result (λ back. back ≡ give_answer epoch.0 (map.get self.old c)) }
        ensures ok { OnOk result (self.new ≡ after_back self.old c parts.now (map.get self.old c) (give_answer epoch.0 (map.get self.old c))) }
        ensures err { OnErr result (self.new ≡ self.old) }
    {
        let number = c.number();
        let Some(row) = self.conns.get(number) else {
            return Ok(Back::Stale);
        };
        if row.stage.is_away(epoch) {
            let next = Epoch(row.epoch.0 + 1);
            hold_again(&mut self.conns, alloc, number, next, parts)?;
            return Ok(Back::New(next));
        }
        if epoch.0 < row.epoch.0 {
            return Ok(Back::Again);
        }
        Ok(Back::Stale)
    }
}

/// Holds a connection that is known in this epoch, by an endpoint that goes on from these parts.
fn hold_again(
    conns: &mut Table<FrontRow>,
    alloc: Global,
    c: u32,
    epoch: Epoch,
    parts: &EndpointParts,
) -> Result<(), NoMemory>
    requires known { IsSome (map.get conns.old c) }
    requires valid { IsValidParts parts.now }
    ensures ok { OnOk result (conns.new ≡ map.insert conns.old c (record { stage = Held (adopted parts.now); epoch = epoch; ended_by = None })) }
    ensures err { OnErr result (conns.new ≡ conns.old) }
{
    let endpoint = Endpoint::adopt(alloc, parts)?;
    let row = FrontRow {
        stage: FrontConn::Held(endpoint),
        epoch,
        ended_by: None,
    };
    spend_row(Some(conns.replace(c, row)));
    Ok(())
}

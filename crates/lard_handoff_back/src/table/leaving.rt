//! A node that leaves: it takes nothing new, and gives back what it has.

ghost use Rattle.std.specs.Prelude.{◌≡◌, ◌≤◌, ◌-◌, true, length, option_map, IfOk, IfSome, OnOk, OnErr};
ghost use Rattle.std.specs.FinMap as map;
ghost use Rattle.lard_base.specs.declared.limits.TheConstants.{MAX_MESSAGE_BYTES};
ghost use Rattle.lard_message.specs.Message.{spelled_message};
ghost use Rattle.lard_handoff_back.specs.Back.{back_acknowledged, back_endpoint};
ghost use Rattle.lard_handoff_back.specs.Leaving.{MayCarry, awaits_given, give_message, give_of, given_back, going_back, ready_epoch};
ghost use Rattle.lard_handoff_back.specs.Table.{IsTableSound, beside_in};

use super::{BackTable, awaits_ack, set_stage};
use crate::row::{BackConn, BackRow};
use lard_base::{Bytes, ConnId, Epoch, NoMemory};
use lard_endpoint::Frozen;
use lard_message::{Body, Message, encode};
use lard_table::Table;
use std::alloc::Global;

impl BackTable {
    /// From now on nothing new is taken.
    pub fn leave(&mut self)
        ensures { self.new ≡ record self.old { leaving = true } }
    {
        self.leaving = true;
    }

    /// Only a node that leaves refused an Offer, or gave a connection back. It is called where a proof wants it, and does
    /// nothing.
    pub fn law(&self)
        ensures { IsTableSound self.now }
    {
        let _leaving = self.leaving;
    }

    /// Whether the node leaves.
    pub fn is_leaving(&self) -> bool
        ensures { result ≡ self.now.leaving }
    {
        self.leaving
    }

    /// Gives a connection back to the front end, where the node leaves, its endpoint is here, and that may be frozen: the
    /// endpoint is spent, and goes on from the parts of the Give that is answered, of the epoch of its stay, with the number
    /// of responses that were queued before. Given is awaited then. `None` else, which changes nothing, as want of memory
    /// does. `served` is at most the number of bytes received less the unread ones.
    pub fn give_back(
        &mut self,
        alloc: Global,
        c: ConnId,
        served: u32,
    ) -> Result<Option<Bytes>, NoMemory>
        requires { MayCarry served (back_endpoint (map.get self.old.rows c)) }
        ensures bytes { IfOk result (λ answer. answer ≡ option_map spelled_message (give_of c (map.get self.old.rows c) (going_back self.old.leaving (back_endpoint (map.get self.old.rows c))) served)) }
        ensures size { IfOk result (λ answer. IfSome answer (λ bytes. length bytes ≤ MAX_MESSAGE_BYTES)) }
        ensures ok { OnOk result (self.new ≡ given_back self.old c served (going_back self.old.leaving (back_endpoint (map.get self.old.rows c)))) }
        ensures err { OnErr result (self.new ≡ self.old) }
    {
        let number = c.number();
        if !self.leaving {
            return Ok(None);
        }
        let Some(epoch) = ready(&self.conns, number) else {
            return Ok(None);
        };
        let Some(endpoint) = set_stage(&mut self.conns, number, BackConn::Ended).into_endpoint()
        else {
            unreachable!()
        };
        let frozen = endpoint.freeze();
        match write_back(&mut self.returned, alloc, &frozen, c, epoch, served) {
            Ok(bytes) => {
                frozen.release();
                return Ok(Some(bytes));
            }
            Err(NoMemory) => {
                let endpoint = frozen.thaw();
                set_stage(&mut self.conns, number, BackConn::Here(endpoint)).spend();
                return Err(NoMemory);
            }
        }
    }

    /// A Given came: true exactly where it is awaited in this epoch, and then no longer.
    pub fn on_given(&mut self, c: ConnId, epoch: Epoch) -> bool
        ensures value { result ≡ awaits_given epoch.0 (map.get self.old.rows c) (beside_in self.old c) }
        ensures after { self.new ≡ record self.old { rows = back_acknowledged self.old.rows c (map.get self.old.rows c) (awaits_given epoch.0 (map.get self.old.rows c) (beside_in self.old c)) } }
    {
        let number = c.number();
        if !awaits_ack(&self.conns, number, epoch) || self.returned.get(number).is_none() {
            return false;
        }
        set_stage(&mut self.conns, number, BackConn::Gone).spend();
        true
    }
}

/// The epoch of an endpoint that is here and may be frozen; `None` where none is.
fn ready(conns: &Table<BackRow>, c: u32) -> Option<Epoch>
    ensures { result ≡ ready_epoch (map.get conns.now c) }
{
    let Some(row) = conns.get(c) else {
        return None;
    };
    match &row.stage {
        BackConn::Here(endpoint) => {
            if endpoint.can_freeze() {
                return Some(row.epoch);
            }
            return None;
        }
        BackConn::Out => return None,
        BackConn::Ended => return None,
        BackConn::Gone => return None,
    }
}

/// The bytes of the Give of a frozen endpoint, whose connection stands as given back then. Without memory it does not.
fn write_back(
    returned: &mut Table<u32>,
    alloc: Global,
    frozen: &Frozen,
    c: ConnId,
    epoch: Epoch,
    served: u32,
) -> Result<Bytes, NoMemory>
    requires { served ≤ frozen.now.recv.got - length frozen.now.recv.unread }
    ensures bytes { IfOk result (λ bytes. bytes ≡ spelled_message (give_message c epoch frozen.now served)) }
    ensures size { IfOk result (λ bytes. length bytes ≤ MAX_MESSAGE_BYTES) }
    ensures ok { OnOk result (returned.new ≡ map.insert returned.old c served) }
    ensures err { OnErr result (returned.new ≡ returned.old) }
{
    let parts = frozen.parts(alloc, served)?;
    let message = Message {
        c,
        epoch,
        body: Body::Give(parts),
    };
    let bytes = encode(alloc, &message)?;
    let _ = returned.insert(c.number(), served)?;
    Ok(bytes)
}

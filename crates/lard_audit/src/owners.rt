//! Who owns each connection.

ghost use Rattle.std.specs.Prelude.{◌≡◌, [], Some, None, nat_eq, OnOk, OnErr};
ghost use Rattle.indexmap.specs.IndexMap.{insert_entry};
ghost use Rattle.lard_history.specs.Journal.{is_place};
ghost use Rattle.lard_audit.specs.Sound.{is_owner, keeps_owner, keeps_sender, may_audit_send};
ghost use Rattle.lard_audit.specs.Network.{audit_epoch_in, holder, owner_in};

use crate::register::Register;
use lard_base::{ConnId, Epoch, NoMemory, Place};
use lard_journal::Rec;
use std::alloc::Global;
use std::marker::Model;

/// Who owns a connection, and the epoch in which it was taken last.
#[derive(Clone, Copy, Debug)]
pub struct Holder {
    pub owner: Option<Place>,
    pub epoch: u16,
}

/// The holders of the connections that were ever taken.
#[derive(Drop)]
pub struct Owners {
    holders: Register<Holder>,
}

impl Model for Owners {
    ghost use Rattle.std.specs.Prelude.{ℕ, List};
    ghost use Rattle.lard_audit.specs.declared.owners.Holder.{Holder};

    ghost Value = { List (ℕ × Holder) };

    ghost view = { λ o. o.holders };
}

impl Owners {
    /// Nothing was taken. It takes no memory yet.
    pub fn new(alloc: Global) -> Owners
        ensures { result ≡ [] }
    {
        Owners {
            holders: Register::new(alloc),
        }
    }

    /// Whether the record keeps the rule of owners.
    pub fn keeps(&self, rec: &Rec) -> bool
        ensures { result ≡ keeps_owner (owner_in self.now) (audit_epoch_in self.now) rec.now }
    {
        match rec {
            Rec::Took { place: _, c, epoch } => {
                let held = self.holder(*c);
                held.owner.is_none() && held.epoch < epoch.0
            }
            Rec::Gave { place, c, epoch } => {
                let held = self.holder(*c);
                is_owner(&held.owner, place) && held.epoch == epoch.0
            }
            _ => true,
        }
    }

    /// Whether the record keeps the rule of who sends.
    pub fn keeps_sender(&self, rec: &Rec) -> bool
        ensures { result ≡ keeps_sender (owner_in self.now) rec.now }
    {
        match rec {
            Rec::Sent {
                k: _,
                from,
                to,
                bytes: _,
            } => self.may_send(from, to),
            _ => true,
        }
    }

    /// A place takes a connection. Without memory nothing changes.
    pub fn take(&mut self, place: &Place, c: ConnId, epoch: Epoch) -> Result<(), NoMemory>
        ensures ok { OnOk result (self.new ≡ insert_entry nat_eq self.old c (record { owner = Some place.now; epoch = epoch.0 })) }
        ensures err { OnErr result (self.new ≡ self.old) }
    {
        let held = Holder {
            owner: Some(*place),
            epoch: epoch.0,
        };
        self.holders.put(c.number(), held)
    }

    /// A place gives a connection up. Without memory nothing changes.
    pub fn give(&mut self, c: ConnId) -> Result<(), NoMemory>
        ensures ok { OnOk result (self.new ≡ insert_entry nat_eq self.old c (record { owner = None; epoch = audit_epoch_in self.old c })) }
        ensures err { OnErr result (self.new ≡ self.old) }
    {
        let held = Holder {
            owner: None,
            epoch: self.holder(c).epoch,
        };
        self.holders.put(c.number(), held)
    }

    /// Who holds the connection.
    fn holder(&self, c: ConnId) -> Holder
        ensures { result ≡ holder self.now c }
    {
        match self.holders.get(c.number()) {
            Some(held) => held,
            None => Holder {
                owner: None,
                epoch: 0,
            },
        }
    }

    /// Whether a place may send to another.
    fn may_send(&self, from: &Place, to: &Place) -> bool
        ensures { result ≡ may_audit_send (owner_in self.now) from.now to.now }
    {
        match (from, to) {
            (Place::Front, Place::Client(c)) => is_owner(&self.holder(*c).owner, from),
            (Place::Node(_), Place::Client(c)) => is_owner(&self.holder(*c).owner, from),
            _ => true,
        }
    }
}

/// Whether the owner is there, and is this place.
fn is_owner(owner: &Option<Place>, place: &Place) -> bool
    ensures { result ≡ is_owner owner.now place.now }
{
    match owner {
        Some(held) => is_place(held, place),
        None => false,
    }
}

/// Whether two places are the same.
fn is_place(p: &Place, q: &Place) -> bool
    ensures { result ≡ is_place p.now q.now }
{
    match (p, q) {
        (Place::Front, Place::Front) => true,
        (Place::Node(n), Place::Node(m)) => n.number() == m.number(),
        (Place::Client(c), Place::Client(d)) => c.number() == d.number(),
        _ => false,
    }
}

//! Which packets were sent, and which of them were lost.

ghost use Rattle.std.specs.Prelude.{◌≡◌, ◌+◌, [], true, nat_eq, OnOk, OnErr};
ghost use Rattle.indexmap.specs.IndexMap.{insert_entry};
ghost use Rattle.lard_audit.specs.Sound.{keeps_network};
ghost use Rattle.lard_audit.specs.Network.{is_audit_on_way};

use crate::register::Register;
use lard_base::NoMemory;
use lard_journal::Rec;
use std::alloc::Global;

/// How many packets were sent, which have the numbers from 1 on, and which of them were lost.
#[derive(Drop)]
pub struct Packets {
    sent: u32,
    lost: Register<()>,
}

impl Packets {
    /// None was sent. It takes no memory yet.
    pub fn new(alloc: Global) -> Packets
        ensures sent { result.sent ≡ 0 }
        ensures lost { result.lost ≡ [] }
    {
        Packets {
            sent: 0,
            lost: Register::new(alloc),
        }
    }

    /// Whether the record keeps the rule of the network.
    pub fn keeps(&self, rec: &Rec) -> bool
        ensures { result ≡ keeps_network self.now.sent (is_audit_on_way self.now) rec.now }
    {
        match rec {
            Rec::Sent {
                k,
                from: _,
                to: _,
                bytes: _,
            } => self.is_next(*k),
            Rec::Got(k) => self.is_on_way(*k),
            Rec::Lost(k) => self.is_on_way(*k),
            _ => true,
        }
    }

    /// The packet behind the last one is sent; it has this number.
    pub fn send(&mut self, k: u32)
        requires { nat_eq k (self.old.sent + 1) ≡ true }
        ensures sent { self.new.sent ≡ self.old.sent + 1 }
        ensures lost { self.new.lost ≡ self.old.lost }
    {
        self.sent = k;
    }

    /// A packet is lost. Without memory nothing changes.
    pub fn lose(&mut self, k: u32) -> Result<(), NoMemory>
        ensures ok { OnOk result (self.new ≡ record self.old { lost = insert_entry nat_eq self.old.lost k tt }) }
        ensures err { OnErr result (self.new ≡ self.old) }
    {
        self.lost.put(k, ())
    }

    /// Whether this is the number behind the last one.
    fn is_next(&self, k: u32) -> bool
        ensures { result ≡ nat_eq k (self.now.sent + 1) }
    {
        u64::from(k) == u64::from(self.sent) + 1
    }

    /// Whether the packet was sent, and not lost.
    fn is_on_way(&self, k: u32) -> bool
        ensures { result ≡ is_audit_on_way self.now k }
    {
        k > 0 && k <= self.sent && self.lost.get(k).is_none()
    }
}

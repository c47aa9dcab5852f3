//! Every packet that was ever sent, by its number.

ghost use Rattle.std.specs.Prelude.{◌≡◌, ◌+◌, ◌-◌, ◌≤◌, ◌<◌, ◌^◌, [], ◌∷◌, ◌++◌, false, length, slice_get, IfOk, IfSome, OnOk, OnErr};
ghost use Rattle.std.specs.Option.{option_copied, option_map};
ghost use Rattle.lard_net.specs.Net.{IsSized, bytes_in, lent_packet, lose_at, packet_at};

use lard_base::{Bytes, NoMemory, Place};
use lard_shared::{Pages, Shared};
use std::alloc::Global;
use std::marker::Model;

/// A packet that was sent, lent.
#[derive(Debug, Clone, Copy)]
pub struct Packet<'a> {
    pub from: Place,
    pub to: Place,
    /// At most 1,520 bytes where one of the places is a client, and else at most 2^21.
    pub bytes: &'a Shared,
    /// It arrives no more.
    pub lost: bool,
}

/// A packet as it is kept, whose bytes lie on a page.
#[derive(Debug, Drop)]
struct Kept {
    from: Place,
    to: Place,
    bytes: Shared,
    lost: bool,
}

/// Every packet that was ever sent, in the order of their numbers, which run from 1.
#[derive(Debug, Drop)]
pub struct Net {
    packets: Vec<Kept>,
    pages: Pages,
    bytes: u64,
}

impl Model for Net {
    ghost use Rattle.std.specs.Prelude.{List, ◌≡◌, ◌<◌, ◌^◌, length};
    ghost use Rattle.lard_net.specs.Net as net;
    ghost use Rattle.lard_net.specs.Net.{AreSized, bytes_in, packets_shown};

    ghost Value = { List net.Packet };

    ghost view = { λ n. packets_shown n.packets.items };

    ghost invariant = { λ n. AreSized (packets_shown n.packets.items) × (n.bytes ≡ bytes_in (packets_shown n.packets.items)) × (length (packets_shown n.packets.items) < 2 ^ 32) };
}

impl Net {
    /// A network without packets. It takes no memory yet.
    pub fn new(alloc: Global) -> Net
        ensures { result ≡ [] }
    {
        Net {
            packets: Vec::new(alloc),
            pages: Pages::new(alloc),
            bytes: 0,
        }
    }

    /// Sends a packet, and answers its number, counted from 1. Fewer than 2^32 - 1 were sent before. It has at most
    /// 1,520 bytes where one of the places is a client, and else at most 2^21. Without memory nothing is sent.
    pub fn send(&mut self, from: Place, to: Place, bytes: Bytes) -> Result<u32, NoMemory>
        requires room { length self.old < 2 ^ 32 - 1 }
        requires sized { IsSized from to (length bytes) }
        ensures number { IfOk result (λ k. k ≡ length self.old + 1) }
        ensures ok { OnOk result (self.new ≡ self.old ++ record { from = from; to = to; bytes = bytes; lost = false } ∷ []) }
        ensures err { OnErr result (self.new ≡ self.old) }
    {
        let len = bytes.len() as u64;
        let bytes = self.pages.keep(bytes.as_slice())?;
        self.packets.push(Kept {
            from,
            to,
            bytes,
            lost: false,
        })?;
        self.bytes += len;
        Ok(self.packets.len() as u32)
    }

    /// The packet with this number, counted from 1, lent; `None` where none was sent with it. It has no more bytes than
    /// may go between its places.
    pub fn get(&self, k: u32) -> Option<Packet<'_>>
        ensures packet { option_map lent_packet result ≡ packet_at self.now k }
        ensures sized { IfSome result (λ packet. IsSized packet.from packet.to (length packet.bytes.now)) }
    {
        if k == 0 {
            return None;
        }
        let kept = at(self.packets.as_slice(), k as usize - 1)?;
        Some(Packet {
            from: kept.from,
            to: kept.to,
            bytes: &kept.bytes,
            lost: kept.lost,
        })
    }

    /// From now on the packet with this number, which was sent, arrives no more.
    pub fn lose(&mut self, k: u32)
        requires sent { (1 ≤ k) × (k ≤ length self.old) }
        ensures { self.new ≡ lose_at (k - 1) self.old }
    {
        self.packets[k as usize - 1].lost = true;
    }

    /// How many packets were sent.
    pub fn sent(&self) -> u32
        ensures { result ≡ length self.now }
    {
        self.packets.len() as u32
    }

    /// The bytes of all packets that were sent, below 2^53.
    pub fn bytes(&self) -> u64
        ensures { result ≡ bytes_in self.now }
    {
        self.bytes
    }
}

fn at(packets: &[Kept], i: usize) -> Option<&Kept>
    ensures { option_copied result ≡ slice_get packets.now i }
{
    packets.get(i)
}

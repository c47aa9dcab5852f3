//! Connections that begin at the front end and end there, or at a node to which they are handed, through the tables of both.

use lard_base::{ConnId, NoMemory, NodeId};
use lard_handoff_back::BackTable;
use lard_handoff_front::FrontTable;
use lard_message::{Body, decode};
use lard_segment::{Flags, Segment};
use lard_seq::Seq;
use std::alloc::Global;

/// Where a connection ends.
#[derive(Clone, Copy)]
pub enum Way {
    /// At the front end, where it began.
    Stays,
    /// At a node, to which it was handed.
    Moves,
}

/// What ended.
#[derive(Drop)]
pub struct Ended {
    pub connections: u64,
    /// The bytes of their Offers.
    pub bytes: u64,
}

/// The SYN of a client, from 1000 on.
const OPENING: Segment<'static> = Segment {
    seq: Seq(1_000),
    ack: Seq(0),
    flags: Flags {
        syn: true,
        ack: false,
        fin: false,
        rst: false,
        psh: false,
    },
    wnd: 65_535,
    mss: Some(1_460),
    payload: b"",
};

/// Our initial sequence number.
const ISS: Seq = Seq(5_000);

/// The tables of the front end and of a node.
struct Tables {
    front: FrontTable,
    back: BackTable,
}

/// So many connections begin, each with this request, and end this way. No table ever has more than there are numbers of
/// connections.
pub fn pass(alloc: Global, times: u32, request: &[u8], way: Way) -> Result<Ended, NoMemory> {
    let mut ended = Ended {
        connections: 0,
        bytes: 0,
    };
    let mut left = times;
    for _round in 0..=times / ConnId::MAX {
        let count = left.min(ConnId::MAX);
        left -= count;
        let mut tables = Tables::new(alloc);
        let passed = tables.pass(alloc, count, request, way);
        tables.finish();
        let passed = passed?;
        ended.connections = ended.connections.saturating_add(passed.connections);
        ended.bytes = ended.bytes.saturating_add(passed.bytes);
    }
    Ok(ended)
}

impl Tables {
    fn new(alloc: Global) -> Tables {
        Tables {
            front: FrontTable::new(alloc),
            back: BackTable::new(alloc),
        }
    }

    /// Spends both.
    fn finish(self) {
        let Tables { front, back } = self;
        front.finish();
        back.finish();
    }

    /// The first so many connections pass.
    fn pass(
        &mut self,
        alloc: Global,
        count: u32,
        request: &[u8],
        way: Way,
    ) -> Result<Ended, NoMemory> {
        let mut ended = Ended {
            connections: 0,
            bytes: 0,
        };
        for number in 1..=count {
            let Some(c) = ConnId::new(number) else {
                return Ok(ended);
            };
            self.begin(alloc, c, request)?;
            let (has_ended, bytes) = match way {
                Way::Stays => (self.end_here(c), 0),
                Way::Moves => {
                    let bytes = self.hand_over(alloc, c)?;
                    (self.end_there(c), bytes)
                }
            };
            ended.connections = ended.connections.saturating_add(u64::from(has_ended));
            ended.bytes = ended.bytes.saturating_add(bytes as u64);
        }
        Ok(ended)
    }

    /// A connection begins: its SYN, and with the handshake's last ACK the request.
    fn begin(&mut self, alloc: Global, c: ConnId, request: &[u8]) -> Result<(), NoMemory> {
        if self.front.state(c).is_some() {
            return Ok(());
        }
        self.front.listen(alloc, c, &OPENING, ISS)?;
        if let Some(mut endpoint) = self.front.take(c) {
            let _greeting = endpoint.emit();
            let _arrival = endpoint.arrive(&Segment {
                seq: Seq(1_001),
                ack: Seq(5_001),
                flags: Flags::ACK,
                wnd: 65_535,
                mss: None,
                payload: request,
            });
            self.front.put(c, endpoint, false);
        }
        Ok(())
    }

    /// The front end offers a connection, and the node takes it from the bytes of the Offer: how many they are.
    fn hand_over(&mut self, alloc: Global, c: ConnId) -> Result<usize, NoMemory> {
        let Some(node) = NodeId::new(1) else {
            return Ok(0);
        };
        if !self.front.may_offer(c) {
            return Ok(0);
        }
        let offer = self.front.offer(alloc, c, node, 0)?;
        self.take_over(alloc, offer.as_slice())?;
        Ok(offer.len())
    }

    /// The node takes a connection from the bytes of an Offer, and the front end learns it.
    fn take_over(&mut self, alloc: Global, offer: &[u8]) -> Result<(), NoMemory> {
        let Ok(message) = decode(alloc, offer) else {
            return Ok(());
        };
        if let Body::Offer(parts) = &message.body {
            let _adopt = self.back.on_offer(alloc, message.c, message.epoch, parts)?;
            let _taken = self.front.on_taken(message.c, message.epoch);
        }
        Ok(())
    }

    /// A connection ends at the front end: whether it was there.
    fn end_here(&mut self, c: ConnId) -> bool {
        let Some(endpoint) = self.front.take(c) else {
            return false;
        };
        self.front.close(c, endpoint.kill());
        true
    }

    /// A connection ends at the node, the front end learns it, and the node that it did: whether it was there.
    fn end_there(&mut self, c: ConnId) -> bool {
        let Some(epoch) = self.back.epoch(c) else {
            return false;
        };
        let last = self.back.kill(c);
        let _ended = self.front.on_ended(c, epoch, last);
        self.back.on_ended_ack(c, epoch)
    }
}

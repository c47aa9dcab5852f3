//! Messages that are written to their bytes, and read again.

use lard_base::{
    Bytes, ConnId, EndpointParts, Epoch, NoMemory, NodeId, Nodes, Path, Paths, Reason,
};
use lard_message::{Body, Message, decode, encode};
use std::alloc::Global;

/// What was written and read again.
#[derive(Drop)]
pub struct Carried {
    pub messages: u64,
    pub bytes: u64,
}

/// The bytes of the segment of a Forward, which are full.
const SEGMENT: usize = 1_480;

/// The bytes of the file of a Content.
const FILE: usize = 1_024;

/// Writes and reads so many messages, one of each kind in turn.
pub fn carry(alloc: Global, times: u32) -> Result<Carried, NoMemory> {
    let messages = one_of_each(alloc)?;
    let messages = messages.as_slice();
    let mut carried = Carried {
        messages: 0,
        bytes: 0,
    };
    for turn in 0..times as usize {
        let Some(message) = messages.get(turn % messages.len().max(1)) else {
            return Ok(carried);
        };
        let bytes = there_and_back(alloc, message)?;
        carried.messages = carried.messages.saturating_add(1);
        carried.bytes = carried.bytes.saturating_add(bytes as u64);
    }
    Ok(carried)
}

/// Writes a message, and reads it again: how many bytes were read as a message.
fn there_and_back(alloc: Global, message: &Message) -> Result<usize, NoMemory> {
    if !message.body.is_of_table() {
        return Ok(0);
    }
    let bytes = encode(alloc, message)?;
    match decode(alloc, bytes.as_slice()) {
        Ok(_message) => Ok(bytes.len()),
        Err(_fault) => Ok(0),
    }
}

/// A message of each kind.
fn one_of_each(alloc: Global) -> Result<Vec<Message>, NoMemory> {
    let mut messages = Vec::new(alloc);
    for body in bodies(alloc)? {
        if let Some(c) = ConnId::new(1) {
            let epoch = Epoch(2);
            messages.push(Message { c, epoch, body })?;
        }
    }
    Ok(messages)
}

fn bodies(alloc: Global) -> Result<Vec<Body>, NoMemory> {
    let path = Path::from_slice(alloc, b"/index.html")?;
    let bodies = vec![in alloc;
        Body::Offer(parts(alloc)?),
        Body::Taken,
        Body::Forward(Bytes::from_slice(alloc, &[b'x'; SEGMENT])?),
        Body::Ask {
            number: 1,
            queue: 1,
            size: 8,
            paths: paths(alloc)?,
        },
        Body::Tag {
            number: 1,
            nodes: nodes(alloc)?,
        },
        Body::Fetch { r: 2, path },
        Body::Content {
            r: 2,
            bytes: Bytes::from_slice(alloc, &[b'x'; FILE])?,
        },
        Body::Ended {
            reason: Reason::Closed,
            snd: 5_045,
            rcv: 1_033,
            count: 0,
        },
        Body::EndedAck,
        Body::Refused,
        Body::Give(parts(alloc)?),
        Body::Given,
    ]?;
    Ok(bodies)
}

/// What an endpoint goes on from, with a request unread.
fn parts(alloc: Global) -> Result<EndpointParts, NoMemory> {
    let unread = Bytes::from_slice(
        alloc,
        b"GET /index.html HTTP/1.1\r\nHost: lard.example\r\nAccept: */*\r\n\r\n",
    )?;
    Ok(EndpointParts {
        irs: 1_000,
        iss: 5_000,
        got: 61,
        fin: false,
        una: 1,
        wnd: 65_535,
        wl1: 1_001,
        wl2: 5_001,
        mss: 1_460,
        served: 0,
        unread,
    })
}

/// The paths of a batch of eight.
fn paths(alloc: Global) -> Result<Paths, NoMemory> {
    let mut paths = Paths::new(alloc);
    for _ in 0..8u8 {
        paths.push(Path::from_slice(alloc, b"/index.html")?)?;
    }
    Ok(paths)
}

fn nodes(alloc: Global) -> Result<Nodes, NoMemory> {
    let mut nodes = Nodes::new(alloc);
    for n in 1..9 {
        if let Some(node) = NodeId::new(n) {
            nodes.push(node)?;
        }
    }
    Ok(nodes)
}

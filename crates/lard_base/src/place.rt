//! Where things happen, and the words that records use for it.

use crate::ids::{ConnId, NodeId};

/// A place of the network: the front end, a node, or a client.
#[derive(Clone, Copy, Debug, PartialEq, Eq)]
pub enum Place {
    Front,
    Node(NodeId),
    Client(ConnId),
}

/// Why a connection ended: both sides closed it, the peer reset it, or the stream limit was passed.
#[derive(Clone, Copy, Debug, PartialEq, Eq)]
pub enum Reason {
    Closed,
    Peer,
    Limit,
}

/// What a timer would send again: a segment, or a message that awaits its answer.
#[derive(Clone, Copy, Debug, PartialEq, Eq, PartialOrd, Ord)]
pub enum TimerKind {
    Tcp,
    Offer,
    Ask,
    Fetch,
    Ended,
    Give,
}

/// Where a response's content came from: the place's own answer, its cache, its disk, or another node.
#[derive(Clone, Copy, Debug, PartialEq, Eq)]
pub enum Via {
    Own,
    Cache,
    Disk,
    Node(NodeId),
}

//! What the front end keeps, what comes to it, and what it does for a connection.

use lard_base::{Bytes, ConnId, NodeId, Nodes, Path, Sends};
use lard_dispatch::Dispatch;
use lard_handoff_front::FrontTable;
use lard_journal::Recs;
use lard_resend::Pending;
use lard_seq::Seq;
use lard_table::Table;

/// All that the front end keeps. It holds endpoints, and so has to be spent: `conns` and `kept` by their `finish`, `rests` by
/// `pop` and `destroy_empty`.
pub struct FrontState {
    /// Who holds each connection that was taken, for ever.
    pub conns: FrontTable,
    /// What was done on each that has not ended.
    pub rests: Table<FrontRest>,
    /// The Offer of each connection whose node has not answered it.
    pub kept: Pending,
    /// Which connections are admitted and where, who serves what, and who waits.
    pub dispatch: Dispatch,
}

/// What was done on a connection, kept until it ends.
#[derive(Debug, Drop)]
pub struct FrontRest {
    /// How many responses the front end queued.
    pub count: u32,
    /// The number of the last Ask that was answered, or 0.
    pub asks: u32,
    /// The nodes that the Tag of this Ask names, in order.
    pub tag: Nodes,
    /// The number of the request in the last `assigned` record, or 0.
    pub assigned: u32,
    /// The path with which the connection waits, while it does.
    pub target: Option<Path>,
}

/// What comes to the front end.
#[derive(Debug, Drop)]
pub enum FrontIn {
    /// A segment of client `c`, as it came in a packet. `iss` is the sequence number with which the cluster begins on this
    /// connection, if this segment begins it.
    Segment { c: ConnId, iss: Seq, bytes: Bytes },
    /// A message of a node.
    Message { from: NodeId, bytes: Bytes },
    /// The timers of a connection fire.
    Timer(ConnId),
    /// A node is closed to new assignments.
    Drain(NodeId),
}

/// What the front end does for a connection in its turn, in the order in which it is told.
#[derive(Debug, Drop)]
pub struct FrontTurn {
    /// The records of what it did, without those of packets and timers.
    pub notes: Recs,
    /// The segments that it sends, each with its goal.
    pub segments: Sends,
    /// The record of the connection where it gave it up.
    pub gave: Recs,
    /// The messages that it sends, each with its goal.
    pub messages: Sends,
    /// How many bytes of responses it queued.
    pub answered: u32,
}

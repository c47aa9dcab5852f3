//! What a node keeps, what comes to it, and what it does for a connection.

use crate::stay::Stay;
use lard_base::{Bytes, ConnId, Items, Place, Sends};
use lard_cache::Cache;
use lard_disk::{Disk, Job};
use lard_handoff_back::BackTable;
use lard_journal::Recs;
use lard_lateral::Lateral;
use lard_resend::Pending;
use lard_table::Table;

/// All that a node keeps. It holds endpoints, and so has to be spent: `conns`, `kept` and `fetches` by their `finish`, `stays`
/// by `pop` and `destroy_empty`.
pub struct NodeState {
    /// Each connection that was ever offered to it, for ever.
    pub conns: BackTable,
    /// What was read of each that is here.
    pub stays: Table<Stay>,
    /// The Ask of each that is here and has one unanswered; the Ended or the Give of each whose stay is over, until that is answered.
    pub kept: Pending,
    /// The Fetches whose contents are awaited.
    pub fetches: Lateral,
    pub cache: Cache,
    pub disk: Disk,
}

/// What comes to a node.
#[derive(Debug, Drop)]
pub enum BackIn {
    /// A message of the front end or of another node.
    Message { from: Place, bytes: Bytes },
    /// The timers of a connection fire.
    Timer(ConnId),
    /// The disk completes its j-th job, counted from 1.
    Disk(u32),
}

/// What a node does for a connection in its turn, in the order in which it is told.
#[derive(Debug, Drop)]
pub struct NodeTurn {
    /// The records of what it did, without those of packets and timers.
    pub notes: Recs,
    /// The segments that it sends, each with its goal.
    pub segments: Sends,
    /// The record of the connection where it gave it up.
    pub gave: Recs,
    /// The messages that it sends, each with its goal.
    pub messages: Sends,
    /// The jobs that its disk is given.
    pub jobs: Items<Job>,
    /// How many bytes of responses it queued.
    pub answered: u32,
}

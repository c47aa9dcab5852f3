//! A client's place, and what a place does in its turn and in a step.

use lard_base::Sends;
use lard_client::Client;
use lard_endpoint::{Endpoint, Final};
use lard_journal::Recs;

/// A client's place.
#[derive(Drop)]
pub struct Station {
    /// The client's end of the connection.
    pub client: Client,
    /// The sequence number with which the cluster begins on this connection.
    pub iss: u32,
}

/// What a place does in its turn.
#[derive(Debug, Drop)]
pub struct Turn {
    /// The records of what it did, without those of packets and timers.
    pub notes: Recs,
    /// The segments that it sends, each with its goal.
    pub segments: Sends,
    /// How many bytes of responses it queued.
    pub answered: u32,
}

/// Where a connection is at the end of a turn of the place that held it. It may hold an endpoint, and so has to be spent.
pub enum Ending {
    /// Still here: its endpoint, and how many responses were queued on it.
    Here { endpoint: Endpoint, count: u32 },
    /// It ended, with these numbers.
    Over(Final),
}

/// What a place does in a step, in the order in which it is told.
#[derive(Debug, Drop)]
pub struct Out {
    /// The records of what it did, without those of packets and timers.
    pub notes: Recs,
    /// The segments that it sends, each with its goal.
    pub segments: Sends,
    /// The records of the connections that it gave up.
    pub gave: Recs,
    /// The messages that it sends, each with its goal.
    pub messages: Sends,
    /// The records of the timers that changed.
    pub timers: Recs,
    /// How many bytes of responses it queued.
    pub answered: u32,
}

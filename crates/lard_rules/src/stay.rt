//! The stay of a connection at a node: the requests that were read of it and are not served yet.

use lard_base::{Items, NodeId, Path, Paths, Via};
use lard_request::Verdict;

/// What a node keeps of a connection beside its endpoint, as long as it is here.
#[derive(Debug, Drop)]
pub struct Stay {
    /// How many responses were queued on the connection, at all places.
    pub served: u32,
    /// The requests of the last batch that are not served yet, in order; the first has the number `served` + 1.
    pub batch: Items<Entry>,
    /// How many Asks were sent in this stay; the last has this number.
    pub asks: u32,
}

/// A request that was read.
#[derive(Debug, Drop)]
pub struct Entry {
    pub verdict: Verdict,
    pub progress: Progress,
}

/// How far a request has come.
#[derive(Clone, Copy, Debug, PartialEq, Eq)]
pub enum Progress {
    /// An Ask names its path, and the node that it is assigned to is awaited.
    Named,
    /// A job of this node's disk reads its file.
    Reading,
    /// Its content is awaited from this node.
    Awaited(NodeId),
    /// It may be served; its content came by this way.
    Ready(Via),
}

/// A content that is to be fetched from another node.
#[derive(Debug, Drop)]
pub struct Want {
    /// The number of the request.
    pub r: u32,
    pub node: NodeId,
    pub path: Path,
}

/// What an Ask says.
#[derive(Debug, Drop)]
pub struct Asked {
    /// The number of the Ask in this stay, from 1.
    pub number: u32,
    /// How many jobs the node's disk had when it was made.
    pub queue: u32,
    /// How many requests the batch has, 1 to 8.
    pub size: u8,
    /// The paths of those that are to be assigned, in order.
    pub paths: Paths,
}

/// What is done next for a stay.
#[derive(Clone, Copy, Debug, PartialEq, Eq)]
pub enum Next {
    /// The first request of the batch is served.
    Serve,
    /// A batch is read, where there is one.
    Read,
    /// Nothing.
    Stop,
}

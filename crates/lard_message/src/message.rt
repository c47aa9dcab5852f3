//! What a message says.

ghost use Rattle.std.specs.Prelude.{◌≡◌, ◌↔◌, IsTrue};
ghost use Rattle.std.specs.List.{list_all};
ghost use Rattle.lard_message.specs.Message.{IsOfTable, kind_of};
ghost use Rattle.lard_message.specs.Reading.{is_of_table, is_message_path, is_count, are_parts};

use crate::kind::Kind;
use lard_base::limits::{MAX_FILE_BYTES, MAX_PATH_BYTES, MAX_SEGMENT_BYTES};
use lard_base::{Bytes, ConnId, EndpointParts, Epoch, Nodes, Path, Paths, Reason};

/// A message from one place of the cluster to another.
#[derive(Debug, Drop)]
pub struct Message {
    /// The connection that it is about.
    pub c: ConnId,
    /// The epoch of that connection in which it was written.
    pub epoch: Epoch,
    pub body: Body,
}

/// What a message says beside its connection and epoch, by its kind.
#[derive(Debug, Drop)]
pub enum Body {
    /// The front end hands the connection to a node.
    Offer(EndpointParts),
    /// The node has decided the Offer of this epoch.
    Taken,
    /// The bytes of a segment of the client, 20 to 1,520.
    Forward(Bytes),
    /// A node asks which nodes are to serve later requests.
    Ask {
        /// Counts the Asks of a connection, from 1.
        number: u32,
        /// How many jobs wait for the node's disk.
        queue: u32,
        /// How many requests were read together, 1 to 8.
        size: u8,
        /// What they ask for, in order: 1 to `size` paths of 1 to 1,024 bytes.
        paths: Paths,
    },
    /// The front end answers an Ask.
    Tag {
        /// The number of the Ask.
        number: u32,
        /// The node of each of its paths, in order, 1 to 8.
        nodes: Nodes,
    },
    /// A node asks another one for a file.
    Fetch {
        /// The number of the request on its connection, from 1.
        r: u32,
        /// The file's path, of 1 to 1,024 bytes.
        path: Path,
    },
    /// A node answers a Fetch.
    Content {
        /// The number of the request.
        r: u32,
        /// The file's bytes, at most 1,048,576.
        bytes: Bytes,
    },
    /// The connection ended at the node.
    Ended {
        reason: Reason,
        /// The next sequence number of the cluster, SND.NXT.
        snd: u32,
        /// The next sequence number of the client, RCV.NXT.
        rcv: u32,
        /// The bytes of responses that would have passed the stream limit, where that is the reason; else 0.
        count: u32,
    },
    /// The front end knows of the end.
    EndedAck,
    /// The node leaves, and does not take the connection.
    Refused,
    /// The node leaves, and gives the connection back to the front end.
    Give(EndpointParts),
    /// The front end has the connection again.
    Given,
}

impl Body {
    /// The kind of a message that says this.
    pub fn kind(&self) -> Kind
        ensures { result ≡ kind_of self.now }
    {
        match self {
            Body::Offer(_) => Kind::Offer,
            Body::Taken => Kind::Taken,
            Body::Forward(_) => Kind::Forward,
            Body::Ask { .. } => Kind::Ask,
            Body::Tag { .. } => Kind::Tag,
            Body::Fetch { .. } => Kind::Fetch,
            Body::Content { .. } => Kind::Content,
            Body::Ended { .. } => Kind::Ended,
            Body::EndedAck => Kind::EndedAck,
            Body::Refused => Kind::Refused,
            Body::Give(_) => Kind::Give,
            Body::Given => Kind::Given,
        }
    }

    /// Whether the numbers and lengths are in the ranges that stand beside them, so that a message may say this.
    #[tactic(auto, using(crate::proofs::Tables::table_test))]
    pub fn is_of_table(&self) -> bool
        ensures { IsTrue result ↔ IsOfTable self.now }
    {
        passes(self)
    }
}

/// The same, as a test that reading goes by.
pub fn passes(body: &Body) -> bool
    ensures { result ≡ is_of_table body.now }
{
    match body {
        Body::Offer(parts) => are_parts(parts),
        Body::Taken => true,
        Body::Forward(bytes) => bytes.len() >= 20 && bytes.len() <= MAX_SEGMENT_BYTES,
        Body::Ask { size, paths, .. } => {
            *size <= 8
                && paths.len() >= 1
                && paths.len() <= *size as usize
                && are_paths(paths.as_slice())
        }
        Body::Tag { nodes, .. } => nodes.len() >= 1 && nodes.len() <= 8,
        Body::Fetch { path, .. } => is_path(path),
        Body::Content { bytes, .. } => bytes.len() <= MAX_FILE_BYTES,
        Body::Ended { reason, count, .. } => is_count(*reason, *count),
        Body::EndedAck => true,
        Body::Refused => true,
        Body::Give(parts) => are_parts(parts),
        Body::Given => true,
    }
}

/// Whether an endpoint can be made of these parts.
#[tactic(auto, using(crate::proofs::Tables::parts_test))]
fn are_parts(parts: &EndpointParts) -> bool
    ensures { result ≡ are_parts parts.now }
{
    parts.is_valid()
}

/// Whether each of these paths has a length that a message may name.
fn are_paths(paths: &[Path]) -> bool
    ensures { result ≡ list_all is_message_path paths.now }
{
    paths.iter().all(|path| is_path(path))
}

/// Whether the path has a length that a message may name.
fn is_path(path: &Path) -> bool
    ensures { result ≡ is_message_path path.now }
{
    let len = path.as_slice().len();
    len >= 1 && len <= MAX_PATH_BYTES
}

/// Whether an end for this reason may carry this count.
fn is_count(reason: Reason, count: u32) -> bool
    ensures { result ≡ is_count reason count }
{
    match reason {
        Reason::Limit => true,
        Reason::Closed => count == 0,
        Reason::Peer => count == 0,
    }
}

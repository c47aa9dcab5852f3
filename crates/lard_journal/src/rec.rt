//! What happens in a run, as records.

use lard_base::{Bytes, ConnId, Epoch, Event, Items, Millis, NodeId, Path, Place, TimerKind, Via};
use lard_shared::Shared;

/// Records, in order.
pub type Recs = Items<Rec>;

/// One thing that happened. `c` is a connection, `r` the number of a request on its connection,
/// counted from 1.
#[derive(Debug, Drop)]
pub enum Rec {
    /// The `i`-th event of the schedule, counted from 1.
    Event {
        i: u64,
        event: Event,
    },
    /// An inner step of a settle.
    Inner(Event),
    /// Client `c` opened, with its initial sequence number, the one that the cluster is to use, and the
    /// window and maximum segment size that it offers.
    Opened {
        c: ConnId,
        isn: u32,
        iss: u32,
        wnd: u32,
        mss: u32,
    },
    /// The client wrote these bytes.
    Wrote {
        c: ConnId,
        bytes: Bytes,
    },
    /// Packet `k` goes from one place to another.
    Sent {
        k: u32,
        from: Place,
        to: Place,
        bytes: Shared,
    },
    /// The packet with this number was delivered.
    Got(u32),
    /// The packet with this number was lost.
    Lost(u32),
    /// New bytes in order at the client, at least one.
    Accepted {
        c: ConnId,
        bytes: Shared,
    },
    /// The client took the end of its stream.
    Eof(ConnId),
    /// The place begins to own the connection's send side.
    Took {
        place: Place,
        c: ConnId,
        epoch: Epoch,
    },
    /// The place ends to own the connection's send side.
    Gave {
        place: Place,
        c: ConnId,
        epoch: Epoch,
    },
    /// The connection waits for admission.
    Waits(ConnId),
    /// The connection was admitted.
    Admitted(ConnId),
    /// The connection's admission ended.
    Released(ConnId),
    /// The first choice of a node `n`, with the node that joined the path's server set and the one that
    /// left it.
    AssignedFirst {
        c: ConnId,
        r: u32,
        path: Path,
        n: NodeId,
        add: Option<NodeId>,
        remove: Option<NodeId>,
    },
    /// A later choice of a node `n`, with the node that joined the path's server set, and the size and the
    /// queue of the batch that was asked for. `r` is one more than in the assignment of the same
    /// connection before.
    AssignedLater {
        c: ConnId,
        r: u32,
        path: Path,
        n: NodeId,
        add: Option<NodeId>,
        size: u32,
        queue: u32,
    },
    /// The open shares of the connection ended.
    BatchOver(ConnId),
    /// A response was queued, with its code, its length in bytes, and where its content came from.
    Served {
        place: Place,
        c: ConnId,
        r: u32,
        code: u16,
        length: u32,
        via: Via,
    },
    /// A path in the cache of node `n` was brought to the front.
    Hit {
        n: NodeId,
        path: Path,
    },
    /// A disk job was queued at node `n`, for a request of node `m`.
    Queued {
        n: NodeId,
        m: NodeId,
        c: ConnId,
        r: u32,
        path: Path,
    },
    /// A disk job of node `n`, for a request of node `m`, was completed.
    Read {
        n: NodeId,
        m: NodeId,
        c: ConnId,
        r: u32,
        path: Path,
    },
    /// Node `n` was closed: it was open, and no new connection and no new share goes there any more.
    Closed(NodeId),
    /// A timer of the connection was armed at the place.
    Armed {
        place: Place,
        c: ConnId,
        kind: TimerKind,
    },
    /// A timer of the connection was cleared at the place.
    Cleared {
        place: Place,
        c: ConnId,
        kind: TimerKind,
    },
    /// The stream limit reset the connection, with the count of bytes that would have passed it.
    Reset {
        place: Place,
        c: ConnId,
        count: u32,
    },
    /// The client reset its connection.
    Aborted(ConnId),
    /// A packet from the client was put on the way. The record of the packet follows.
    Injected(ConnId),
    /// The clock moved on to this time.
    Clock(Millis),
    /// A settle ended with nothing left, after this many rounds.
    Settled(u32),
    /// A settle ended after its last round. `left` counts the armed timers that are not stalled and the
    /// queued jobs.
    Unsettled {
        rounds: u32,
        left: u64,
    },
}

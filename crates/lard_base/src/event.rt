//! What a line of a schedule stands for.

use crate::bytes::{Bytes, Path};
use crate::ids::ConnId;
use crate::place::Place;

/// One step of a schedule.
#[derive(Debug, Drop)]
pub enum Event {
    /// Client `c` opens, with its initial sequence number, the one that the cluster is to use, and the
    /// window (1 to 65,535) and maximum segment size (1 to 1,460) that it offers.
    Open {
        c: ConnId,
        isn: u32,
        iss: u32,
        wnd: u16,
        mss: u16,
    },
    /// Client `c` writes a plain GET request for a path of 1 to 1,024 bytes.
    Get {
        c: ConnId,
        path: Path,
    },
    /// Client `c` writes bytes, at least one.
    Write {
        c: ConnId,
        bytes: Bytes,
    },
    /// The client closes its side after what it wrote.
    Shut(ConnId),
    /// The client resets its connection.
    Abort(ConnId),
    /// The client leaves arriving bytes in its window.
    Hold(ConnId),
    /// The client takes all that it holds, and holds no longer.
    Take(ConnId),
    /// The packet with this number arrives at its place.
    Deliver(u32),
    /// The packet with this number arrives no more from now on.
    Lose(u32),
    /// The timers of a connection at a place fire.
    Timer {
        place: Place,
        c: ConnId,
    },
    /// Node `n` completes the `j`-th of its queued jobs, counted from 1 with the oldest.
    Disk {
        n: u32,
        j: u32,
    },
    /// The operator closes node `n`: no new connection and no new share of a batch goes there.
    Drain(u32),
    /// The clock moves on by this many milliseconds.
    Clock(u32),
    /// At most so many settling rounds, at least one.
    Settle(u32),
    /// A packet with these bytes, 1 to 1,520 of them, is put on the way from client `c` to the front end.
    Inject {
        c: ConnId,
        bytes: Bytes,
    },
}

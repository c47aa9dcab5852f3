//! The rules that a report is judged by, and why a record is refused.

use thiserror::Error;

/// A rule of a report, in the order in which a record is judged by them.
#[derive(Clone, Copy, Debug, PartialEq, Eq)]
pub enum Rule {
    /// Packets have numbers in order, and are got or lost only if they were sent, and not lost.
    Network,
    /// A connection is taken where nobody owns it, in an epoch above the last, and given up by its owner.
    Owner,
    /// Of the cluster only the owner of a connection sends to its client.
    Sender,
    /// Connections are admitted by room, and assigned directly behind that.
    Admission,
    /// A node is chosen as the policy says, and closed only where it is open, and another one is.
    Choice,
    /// What is hit is in the cache, what is queued is not, and what is read is the job that the event names.
    Cache,
    /// The time does not go back.
    Clock,
}

/// Why a record is not taken.
#[derive(Clone, Copy, Debug, PartialEq, Eq, Error)]
pub enum AuditFault {
    /// The first rule that the record breaks.
    #[error("breaks {0:?}")]
    Broken(Rule),
    /// Memory ran out.
    #[error("memory ran out")]
    NoMemory,
}

//! Why bytes are no segment.

use thiserror::Error;

/// Why bytes are no segment of a connection, in the order in which the faults are looked for.
#[derive(Clone, Copy, Debug, PartialEq, Eq, Error)]
pub enum SegFault {
    #[error("there are fewer than 20 bytes")]
    Short,
    #[error("the checksum does not agree")]
    Sum,
    #[error("a port is not the connection's")]
    Port,
    #[error("the data offset is below 5 or goes past the segment")]
    Offset,
    #[error("an option is cut off or has a wrong length")]
    Option,
}

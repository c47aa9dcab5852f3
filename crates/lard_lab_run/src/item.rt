//! What a line of a trace stands for.

use lard_base::{Key, Path};
use lard_lab::LabEvent;

/// What a line of a trace stands for.
#[derive(Debug, Drop)]
pub enum Item {
    /// `lab 1`, the version of the format.
    Header,
    /// A number of the configuration, below 2^64. Whether it is in its key's range is not asked here.
    Set(Key, u64),
    /// A file of so many bytes, to 2^20.
    File { path: Path, size: u64 },
    /// `go`: the configuration is whole, and events follow.
    Go,
    /// An event.
    Event(LabEvent),
}

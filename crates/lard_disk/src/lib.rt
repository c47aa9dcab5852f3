//! The jobs of a node's disk.
//!
//! It stands above `lard_base`: a node queues a job for each path that its cache lacks, and the schedule says which job is
//! completed next. There is no disk behind it.
#![tactic(auto)]

mod disk;

pub use disk::{Disk, Job};

//! The cache of a node: which paths it keeps, by how lately they were used and by the bytes of their files.
//!
//! It stands above `lard_base`: a node asks it before it queues a job for its disk, and puts what the disk has read. The
//! files themselves are not copied: the whole cluster has them once.
#![tactic(auto)]

mod cache;
pub mod laws;

pub use cache::{Cache, MAX_CACHED_PATHS};

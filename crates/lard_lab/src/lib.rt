//! The policy lab: where each request of a trace goes by one of four policies, and which requests find their files in the
//! cache of their node.
//!
//! It stands on `lard_policy`, whose choice LARD with replication is, on `lard_loads` for the open requests of each node, and on
//! `lard_cache` for what each node keeps. A command feeds it a trace, event by event.
#![tactic(auto)]

mod assigner;
mod backends;
mod event;
mod lab;
pub mod laws;
mod policy;
mod targets;
mod text;

pub use assigner::{Assigner, MAX_REQUESTS};
pub use backends::{Backend, Backends};
pub use event::{LabEvent, LabFault};
pub use lab::Lab;
pub use policy::{Policy, hash_of};
pub use targets::{Target, Targets};
pub use text::heading;

//! An audit of a report: whether each of its records keeps the rules of the network, of owners, of who sends, of admission, of the
//! policy's choices, of caches and of the clock, by the records before it.
//!
//! It stands beside the main path, on the folds of a journal and on the leaves of policy and stores, and on no law and no step of the
//! machine. A command feeds it a report, record by record.
#![tactic(auto)]

mod audit;
mod books;
pub mod laws;
mod nodes;
mod owners;
mod packets;
mod queue;
mod register;
mod rule;

pub use audit::Audit;
pub use rule::{AuditFault, Rule};

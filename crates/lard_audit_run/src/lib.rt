//! A report that is audited line by line, as a stream: one line is held at a time, and how many records it has is written where
//! all of it is sound.
//!
//! It stands beside the main path, above `lard_report`, which reads lines, and `lard_audit`, which judges records;
//! `lard_app::run` calls it for `audit`.
#![tactic(auto)]

mod auditor;
mod heading;
pub mod laws;
mod run;
mod verdict;

pub use run::audit;
pub use verdict::{Flaw, Verdict};

//! The next requests among the bytes that a connection has not read yet.
//!
//! It stands above `lard_block` and `lard_request`: a place that answers requests calls `batch` on the bytes that its
//! endpoint lends, serves the verdicts in order, and takes the used bytes off the front.
#![tactic(auto)]

pub mod laws;
mod reading;

pub use reading::{Reading, batch};

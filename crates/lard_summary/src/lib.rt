//! What is counted of a journal, and the four lines that say it.
//!
//! It stands above `lard_journal`, whose records it counts, and calls `itoa` for the numbers. The top prints these lines at the end
//! of a generated run.
#![tactic(auto)]

mod counts;
mod lines;

pub use counts::{Counts, count};
pub use lines::summary;

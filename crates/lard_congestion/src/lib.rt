//! How much one side may have on its way before it is acknowledged: congestion control in whole bytes (RFC 5681, 3.1
//! and 3.2).
//!
//! It stands at the bottom of TCP, on `lard_base` alone, and takes no memory. Nothing calls it yet: an endpoint is to
//! tell it of acknowledgements, duplicates and timers, and to send no more than its `limit`.
#![tactic(auto)]

mod congestion;
pub mod laws;

pub use congestion::{Congestion, MAX_FLIGHT, MAX_WINDOW};

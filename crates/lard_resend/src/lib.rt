//! Messages that are sent again until they are answered.
//!
//! It stands on `lard_table`. The front end keeps its Offers here, and a node its Asks, Fetches and Ended; a timer sends
//! what is held of its connection once more.
#![tactic(auto)]

mod kept;
pub mod laws;
mod pending;

pub use kept::{Kept, PendingKey, rank};
pub use pending::Pending;

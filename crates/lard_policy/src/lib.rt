//! Which node gets the first request of a connection: LARD with replication.
//!
//! It stands on `lard_loads` and `lard_sets`. The dispatcher asks `choose_first` with the loads as they are and the set of
//! the request's target, and then counts the connection at the node and changes the set as the choice says.
#![tactic(auto)]

mod first;
pub mod laws;

pub use first::{FirstChoice, choose_first};

//! Which node gets a further request of a connection: three costs.
//!
//! It stands on `lard_loads`. The dispatcher asks `choose_later` for each path of an Ask in order, and counts a share at the
//! node before it asks for the next.
#![tactic(auto)]

mod cost;
mod later;
pub mod laws;

pub use cost::{Cost, cost_at, cost_balancing, cost_locality, cost_replacement};
pub use later::{LaterChoice, LaterChoices, SHORT_QUEUE, choose_later};

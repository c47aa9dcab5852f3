//! Which node each request goes to, and who waits.
//!
//! It stands on `lard_loads`, `lard_sets`, `lard_policy` and `lard_costs`: the front end asks it for the node of a first
//! request and for those of later ones, and tells it who ended and who left.
#![tactic(auto)]

mod dispatch;
pub mod laws;
mod line;

pub use dispatch::{Ask, Dispatch, First, Later};
pub use line::{Line, Waiting};

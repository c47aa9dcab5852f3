//! How much each node is loaded, counted as connections and their shares come and go.
//!
//! It stands on `lard_base` and `lard_table`. The dispatcher tells it of each assignment and each release, and asks it for
//! the least and the most loaded node of a set.
#![tactic(auto)]

pub mod laws;
pub mod loads;
pub mod running;
pub mod slot;

pub use loads::Loads;
pub use slot::Share;

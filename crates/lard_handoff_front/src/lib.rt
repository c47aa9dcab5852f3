//! The connections of the front end, by the stages of their way to a node and back.
//!
//! It stands on `lard_endpoint` and `lard_message`; the front end keeps every endpoint of its own here. An endpoint leaves it
//! only by `take`, for a while, or as the parts of an Offer.
#![tactic(auto)]

pub mod laws;
mod row;
mod table;

pub use row::{FrontConn, FrontRow};
pub use table::{Back, FrontTable, OnEnded};

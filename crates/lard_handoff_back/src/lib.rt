//! The connections of a node, by the stages of their stay.
//!
//! It stands on `lard_endpoint`; a node keeps every endpoint of its own here. An endpoint enters it only as the parts of an
//! Offer, and leaves it only by `take`, for a while, or by its end.
#![tactic(auto)]

pub mod laws;
mod row;
mod table;

pub use row::{BackConn, BackRow};
pub use table::{Adopt, BackTable};

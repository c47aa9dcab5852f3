//! Files that a node asks other nodes for.
//!
//! It stands on `lard_resend`: a content is awaited exactly as long as its Fetch is sent again, so that this is kept once.
#![tactic(auto)]

mod lateral;
pub mod laws;

pub use lateral::Lateral;

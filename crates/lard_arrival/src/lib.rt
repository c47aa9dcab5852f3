//! What either end of a connection asks of a segment that arrives, before it takes anything of it (RFC 9293, 3.10.7).
//!
//! It stands above `lard_segment`, and keeps nothing: `lard_endpoint` and `lard_client` call it, each with the number
//! that it awaits and the size of its window.
#![tactic(auto)]

mod rules;

pub use rules::{DEFAULT_MSS, bare, is_acceptable, is_allowed, peer_mss};

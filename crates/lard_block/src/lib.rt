//! Where the next request head ends in the bytes that a client sent.
//!
//! It stands at the bottom: the reader of requests calls `cut` on the bytes that an endpoint lends, judges the block
//! that it finds, and cuts again what lies behind it.
#![tactic(auto)]

mod block;
pub mod laws;

pub use block::{Found, MAX_HEAD_BYTES, cut};

//! A client of the cluster: what it makes of its own calls and of the segments that come to it (RFC 9293).
//!
//! It stands above `lard_send`, which keeps its symbols, and `lard_segment`, whose `Segment`s it takes and whose `Ready`s
//! it gives; the place that runs clients calls it, sends what it gives, and writes down what it accepted.
#![tactic(auto)]

pub mod client;
pub mod heard;
pub mod laws;
pub mod phase;

pub use client::Client;
pub use heard::Heard;

//! The receiving half of a connection's endpoint: which bytes came in order, and which of them are not read yet.
//!
//! On the path it stands below an endpoint, which asks `window` and `next` whether a segment is acceptable,
//! and then calls `arrive`; it calls `lard_seq` to compare numbers, and keeps its bytes in a `Buffer`.
#![tactic(auto)]

mod buffer;
mod half;
pub mod laws;

pub use half::{RecvHalf, Took};

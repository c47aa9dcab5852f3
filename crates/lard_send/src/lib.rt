//! The sending half of a connection's endpoint: which bytes are queued, sent and acknowledged.
//!
//! On the path it stands below an endpoint, which calls `ack` for a segment that arrives, and `next` or `resend` and
//! then `fill` for one that leaves; it calls `lard_seq` to compare numbers, and keeps its bytes in a `Rest`,
//! whose parts are `lard_shared`'s: of what it is given by `queue_shared` it makes no copy.
#![tactic(auto)]

mod half;
pub mod laws;
mod piece;
mod rest;

pub use half::{Ack, SendHalf};
pub use piece::Piece;

//! The bytes of a response (RFC 9112, 4; RFC 9110, 15).
//!
//! It stands behind `lard_request`: what was judged, and the file that was found for it, make one response. `head`
//! gives its bytes up to the body, which is then queued on the connection behind them, and `write` all of them.
#![tactic(auto)]

mod bytes;
pub mod laws;

pub use bytes::{head, may_write, write};

//! TCP segments: their parts, the one spelling that is written, and what bytes say (RFC 9293, 3.1).
//!
//! It stands above `lard_seq` and below the endpoint and the client: what arrives goes through `decode`,
//! and what is to be sent is an endpoint's `Ready`, filled to a `Segment` and written by `encode`.
#![tactic(auto)]

mod checksum;
pub mod fault;
mod fields;
pub mod laws;
mod options;
mod reading;
pub mod segment;
mod writing;

pub use fault::SegFault;
pub use reading::decode;
pub use segment::{Dir, Flags, Ready, Segment};
pub use writing::encode;

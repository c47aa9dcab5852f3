//! The one range of bytes that a Range field may ask for, and which part of a file that is (RFC 9110, 14).
//!
//! It stands at the bottom of HTTP and takes no memory. Nothing calls it yet: `lard_request` is to ask `read` for the
//! value of a field, and who writes the response is to ask `apply` for the part.
#![tactic(auto)]

mod blanks;
pub mod laws;
mod parts;
mod reading;

pub use blanks::trimmed;
pub use parts::{Part, apply};
pub use reading::{Range, read};

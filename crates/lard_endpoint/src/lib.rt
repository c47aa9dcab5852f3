//! The cluster's end of a TCP connection: what it makes of a segment, what it sends, and how it goes on at another place.
//!
//! It stands on the two halves `lard_recv` and `lard_send`, of whose numbers it makes a `Ready` of `lard_segment`; the
//! front end and the nodes call it, and pass on what `Frozen::parts` says in a message.
#![tactic(auto)]

mod control;
pub mod laws;

pub use control::Endpoint;
pub use control::arriving::Arrival;
pub use control::moving::{Final, Frozen};

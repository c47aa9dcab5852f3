//! Bytes that have several owners: a file's content, parts of it that wait to be sent, packets.
//!
//! It stands on `lard_base` and the kit's `bytes`. Files, send halves, the network and the journal hold their bytes by it,
//! so what goes from one to the next is not copied.
#![tactic(auto)]

pub mod pages;
pub mod shared;

pub use pages::Pages;
pub use shared::Shared;

//! The network: packets by their numbers, which may arrive any number of times until they are lost.
//!
//! It stands on `lard_base` and `lard_shared`; the world sends every packet through it and takes each delivery from it. The bytes
//! of packets lie in pages, and whoever needs them longer than they are lent shares them.
#![tactic(auto)]

pub mod net;

pub use net::{Net, Packet};

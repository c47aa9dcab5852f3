//! Messages between the places of the cluster: their parts, the one spelling of each, and what bytes say.
//!
//! It stands on `lard_base` alone. The tables of moving connections and of fetches write by `encode`, and both kinds of
//! places read what arrives from another place of the cluster by `decode`.
#![tactic(auto)]

mod bodies;
mod fault;
mod kind;
pub mod laws;
mod lists;
mod message;
mod numbers;
mod reading;
mod writing;

pub use fault::MsgFault;
pub use message::{Body, Message};
pub use reading::decode;
pub use writing::encode;

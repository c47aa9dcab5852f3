//! A node, rule by rule: it serves the requests of the connections that are here from its cache, its disk and the other nodes,
//! and answers what other nodes ask for.
//!
//! It stands above the tables of a node, its cache and its disk, and what is done with the requests of one stay, and follows the
//! rules of `lard_rules`. `begin`, `step` and `finish` are its calls; what they stand on is private.
#![tactic(auto)]

mod acting;
mod firing;
mod hand;
mod hearing;
mod offers;
mod place;
mod reads;
mod rules;
mod sends;
mod stores;
mod timers;

pub use acting::Setting;
pub use place::{begin, finish, step};

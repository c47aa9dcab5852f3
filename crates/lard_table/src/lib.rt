//! The one map from numbers to values that may have to be spent.
//!
//! It stands at the bottom of the path: the tables of connections keep what they hold by its number here, look it up by
//! `get`, exchange it by `replace`, which takes no memory, and spend it by `pop` at the end.
#![tactic(auto)]

pub mod table;

pub use table::Table;

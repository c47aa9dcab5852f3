//! The whole cluster: a machine that takes the steps of `lard_stepping`, and whose journal obeys the laws.
//!
//! It stands above these steps and the laws of the cluster. The replay of a schedule calls it for each event.
#![tactic(auto)]

mod world;

pub use world::World;

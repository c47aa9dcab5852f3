//! Settling: rounds of inner steps, until nothing is left to do.
//!
//! It stands above the world, whose steps it takes, and the agenda, which tells it what a journal leaves to be done. The replay of
//! a schedule calls it for each `settle`.
#![tactic(auto)]

mod left;
mod lists;
mod rounds;
mod settles;
mod steps;

pub use lard_settling::Settled;
pub use lard_world::World;
pub use settles::settle;

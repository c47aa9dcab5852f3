//! The front end of a cluster: it reads the requests of each connection until one is good, hands the connection to a node by
//! the dispatcher's choice, passes on what its client says from then on, and knows of its end. It closes nodes to new assignments.
//!
//! It stands above the table of the front end's connections, the dispatcher and what a place does with an endpoint, and
//! follows `front_step` of `lard_rules`. `place::begin`, `step::step` and `place::finish` are its calls; what they stand on is private.
#![tactic(auto)]

mod admitting;
mod asking;
mod closing;
mod ended;
mod handing;
mod hearing;
mod joining;
mod passing;
pub mod place;
mod placing;
mod reading;
mod receiving;
mod releasing;
mod returning;
mod seats;
pub mod step;
mod told;
mod turns;

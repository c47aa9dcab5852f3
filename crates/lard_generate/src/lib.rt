//! A large schedule from two numbers, a seed and a number of clients: files, and clients that ask for them as browsers do.
//!
//! It stands above `lard_base` and `lard_files`, of whose events and files a schedule is made, and calls `rand_pcg` for the
//! draws. Its laws speak of the lines of `lard_schedule` and the responses of `lard_response`. The top replays what it makes, without
//! a report. `tools/generate-schedule` writes the same schedules as text, which `lardsim replay` reads.
#![tactic(auto)]

mod action;
mod draws;
mod files;
pub mod laws;
mod opens;
mod rounds;
mod schedule;
mod syns;

pub use schedule::{MAX_CLIENTS, Schedule, generate};

//! Tests of the cluster as a whole: single steps of the machine, a settle, and the command that replays a schedule.
//!
//! Each file has the tests of the crate of its name. They stand apart so that no crate is proved a second time for its tests.
#![tactic(auto)]

#[cfg(test)]
mod app;
#[cfg(test)]
mod settle;
#[cfg(test)]
mod world;

//! Tests of what goes in and out of a run, and of what all crates share: words, lines, tables, shared bytes, and packets.
//!
//! Each file has the tests of the crate of its name. They stand apart so that no crate is proved a second time for its tests.
#![tactic(auto)]

#[cfg(test)]
mod base;
#[cfg(test)]
mod compare;
#[cfg(test)]
mod lines;
#[cfg(test)]
mod net;
#[cfg(test)]
mod shared;
#[cfg(test)]
mod table;

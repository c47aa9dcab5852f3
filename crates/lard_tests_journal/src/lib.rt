//! Tests of the journal, what is told and left of it, and of a large schedule from a seed.
//!
//! Each file has the tests of the crate of its name. They stand apart so that no crate is proved a second time for its tests.
#![tactic(auto)]

#[cfg(test)]
mod agenda;
#[cfg(test)]
mod compare;
#[cfg(test)]
mod generate;
#[cfg(test)]
mod journal;
#[cfg(test)]
mod summary;

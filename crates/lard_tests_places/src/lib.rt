//! Tests of the rules as code at their places: a stay, a node and the front end.
//!
//! Each file has the tests of the crate of its name. They stand apart so that no crate is proved a second time for its tests.
#![tactic(auto)]

#[cfg(test)]
mod back;
#[cfg(test)]
mod front;
#[cfg(test)]
mod stay;

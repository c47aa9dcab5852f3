//! Tests of TCP: sequence numbers, windows, segments, the halves of an end, the cluster's end and a client's.
//!
//! Each file has the tests of the crate of its name. They stand apart so that no crate is proved a second time for its tests.
#![tactic(auto)]

#[cfg(test)]
mod arrival;
#[cfg(test)]
mod client;
#[cfg(test)]
mod congestion;
#[cfg(test)]
mod endpoint;
#[cfg(test)]
mod recv;
#[cfg(test)]
mod segment;
#[cfg(test)]
mod send;
#[cfg(test)]
mod seq;

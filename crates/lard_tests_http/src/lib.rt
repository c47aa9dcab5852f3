//! Tests of HTTP: heads, ranges, judgements, responses, batches, and files.
//!
//! Each file has the tests of the crate of its name. They stand apart so that no crate is proved a second time for its tests.
#![tactic(auto)]

#[cfg(test)]
mod block;
#[cfg(test)]
mod files;
#[cfg(test)]
mod ranges;
#[cfg(test)]
mod reader;
#[cfg(test)]
mod request;
#[cfg(test)]
mod response;

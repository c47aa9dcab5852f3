//! Tests of lines of text: schedules as they are read, and records of a report.
//!
//! Each file has the tests of the crate of its name. They stand apart so that no crate is proved a second time for its tests.
#![tactic(auto)]

#[cfg(test)]
mod compare;
#[cfg(test)]
mod report;
#[cfg(test)]
mod schedule;

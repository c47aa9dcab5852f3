//! Tests of the leaves of moving: messages, what is sent again, contents, and who holds a connection.
//!
//! Each file has the tests of the crate of its name. They stand apart so that no crate is proved a second time for its tests.
#![tactic(auto)]

#[cfg(test)]
mod compare;
#[cfg(test)]
mod handoff_back;
#[cfg(test)]
mod handoff_front;
#[cfg(test)]
mod lateral;
#[cfg(test)]
mod message;
#[cfg(test)]
mod resend;

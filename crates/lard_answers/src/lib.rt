//! What a server answers to all the bytes that a client wrote: definitions, and laws of them.
//!
//! It stands above the leaves that cut, judge and write, and below the laws of the journal. No code calls it: its
//! functions are laws, and have no body.
#![tactic(auto)]

pub mod laws;

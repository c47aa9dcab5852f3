//! What a journal leaves to be done: the packets on their way, the timers that run, and the clients that hold.
//!
//! It stands above the journal and the dispatcher. An agenda follows the records as they are written, so that a round of a settle
//! knows what to deliver and which timers to fire without going through the journal.
#![tactic(auto)]

mod agenda;
mod kinds;
pub mod laws;
mod register;

pub use agenda::Agenda;
pub use kinds::{Kinds, Running};

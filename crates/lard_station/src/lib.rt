//! A client's place: what its client does at each event of the schedule, and at each packet that comes.
//!
//! It stands above the client's end of a connection, and follows the rules of clients of `lard_rules`. `lard_stepping`
//! keeps a client's station in its machine, takes it out for its turn, and tells what it did.
#![tactic(auto)]

pub mod speaking;
pub mod turns;

pub use speaking::{client_speak, to_front};
pub use turns::{
    abort, fire, hold, inject, open, receive, request, shut, take, write, written_len,
};

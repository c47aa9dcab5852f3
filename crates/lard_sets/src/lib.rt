//! Which nodes serve a target: LARD's server sets.
//!
//! It stands on `lard_base`. The dispatcher looks a target's set up by `members` and `last_mod`, takes a place for it by
//! `touch` before it decides, and writes its choice by `add` and `remove`, which take no memory then.
#![tactic(auto)]

pub mod laws;
mod sets;

pub use sets::{ServerSet, Sets, with_member, without_member};

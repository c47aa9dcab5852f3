//! What a settle does of the whole: inner steps in rounds, between its event and its closing record. And the journal of a run with
//! its settles written out, which is that of a run without any.
//!
//! It stands above the cluster's machine, the view of one connection, and what a journal leaves to do. It has no code:
//! `lard_stepping` does the steps that it defines, and `lard_settle` the rounds.
#![tactic(auto)]

mod settled;

ghost use Rattle.lard_settling.specs.Written.{SettlesAreWrittenOut};

pub use settled::Settled;

/// A step, an inner step, and both ends of a settle lead on from a machine whose journal, with its settles written out, is that
/// of a run without settles. So each law of the journals of such runs is one of every journal with its settles written out.
pub fn settles_are_written_out()
    ensures { SettlesAreWrittenOut }
{}

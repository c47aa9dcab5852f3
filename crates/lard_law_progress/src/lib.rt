//! How each rule of the cluster leads further: no unit of what is left to do comes back, and where none goes, what decides what comes
//! of a packet is as it was.
//!
//! It stands above `lard_bound`, which has the measure, and has no code. The rules' halves are lemmas in proofs/; that a client's are
//! so is a law of its own.
#![tactic(auto)]

ghost use Rattle.lard_law_progress.specs.Laws.{ClientsLeaveNoMore};

/// Whatever segment comes to a client, and where its timer fires, no more is left to be done on its connection than before.
pub fn clients_leave_no_more()
    ensures { ClientsLeaveNoMore }
{}

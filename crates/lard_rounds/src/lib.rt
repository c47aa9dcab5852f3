//! Machines that go on by rounds, whatever they are: where each step owes a measure that never grows, and where what
//! timers send surely lowers it within some rounds, they come to rest within a number of rounds.
//!
//! It has no code, and stands on no other crate: a settle of the cluster is such a machine, by `lard_law_settles`.
#![tactic(auto)]

ghost use Rattle.lard_rounds.specs.Tests.{MachinesComeToRest};

/// A round delivers all that is on its way and does all jobs, or fires all timers. Where no packet has a chain of as many packets
/// as `longest` that come of one another without a unit going, and what the timers send leads to a unit within `reach` rounds, the
/// machine is quiet after `longest + 1 + reach` rounds for each unit that is left, and as many more.
pub fn machines_come_to_rest()
    ensures { MachinesComeToRest }
{}

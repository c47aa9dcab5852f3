//! The rounds for which a generated schedule settles reach the bound of the journal that its events before the settle lead to. Definitions
//! and laws, without code.
//!
//! It stands above the generator (`lard_generate`), the bound of a journal (`lard_bound`), and the law that a journal follows the events
//! (`lard_laws`). So it looks at no rule: the heads of requests are cut and judged by computing each, and what clients wrote is
//! read off the steps of the events.
#![tactic(auto)]

ghost use Rattle.lard_generate_bound.specs.Laws.{RoundsReachTheBound, SettlesLast};

/// The settle is the last event of a generated schedule.
pub fn generated_schedules_settle_last()
    ensures { SettlesLast }
{}

/// Where the events before it were done, its rounds reach the bound of the journal, nobody put a packet on the way in a
/// client's name, and each client wrote fewer than 16,383 bytes.
pub fn generated_rounds_reach_the_bound()
    ensures { RoundsReachTheBound }
{}

//! What is left to do on a connection of the cluster, as far as a settle goes: how much, how many packets can come of
//! one, which packets surely lead further, and how many rounds surely settle a journal. Definitions, without code.
//!
//! It stands above the view of one connection (`lard_law_view`). That each rule keeps to it is proved above, in
//! `lard_law_settles`.
#![tactic(auto)]

ghost use Rattle.lard_bound.specs.Bound.{NineRoundsAUnitSuffice};

/// The bound of a journal pays for what is left to do: nine rounds a unit.
pub fn nine_rounds_a_unit_suffice()
    ensures { NineRoundsAUnitSuffice }
{}

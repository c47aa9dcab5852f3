//! What any number of calls leave of server sets.

ghost use Rattle.lard_sets.specs.Laws.{LastCallDecides, TellsTheLastChange};

/// A node serves a target exactly where the last call that takes it into the target's set or out of it takes it in.
pub fn the_last_call_decides()
    ensures { LastCallDecides }
{}

/// The time of a target's last change is that of the last call that adds a node to its set or removes one.
pub fn the_last_change_is_told()
    ensures { TellsTheLastChange }
{}

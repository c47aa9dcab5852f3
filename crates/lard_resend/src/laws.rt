//! What holds of messages that are held.

ghost use Rattle.lard_resend.specs.Laws.{HeldIsFound, DropsIt, LeavesOthers, KeepsTheOrder};

/// What is held is found under its kind and number.
pub fn holds_it()
    ensures { HeldIsFound }
{}

/// What is dropped is found no more.
pub fn drops_it()
    ensures { DropsIt }
{}

/// Neither changes what is found under another kind or number.
pub fn leaves_others()
    ensures { LeavesOthers }
{}

/// Both keep the order of kinds, and of numbers among those of one kind.
pub fn keeps_the_order()
    ensures { KeepsTheOrder }
{}

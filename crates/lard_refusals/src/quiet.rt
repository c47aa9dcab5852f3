//! What the laws of quiet connections and of responses that are due refuse.

ghost use Rattle.lard_refusals.specs.Quiet as the;
ghost use Rattle.lard_refusals.specs.Refusals.{Allows, IsLawOfAll, Refuses};

/// A connection of which nothing is under way is complete.
pub fn quiet_refuses()
    ensures law { IsLawOfAll the.quiet }
    ensures shut_and_forgotten { Refuses the.quiet the.shut_and_forgotten }
    ensures asked_and_forgotten { Refuses the.quiet the.asked_and_forgotten }
{}

/// What is due is served, or reset, in the step in which it is.
pub fn nothing_due_refuses()
    ensures law { IsLawOfAll the.nothing_due }
    ensures reset_comes_late { Refuses the.nothing_due the.reset_comes_late }
    ensures reset_comes_at_once { Allows the.nothing_due the.reset_comes_at_once }
{}

//! What holds of the table over its calls.

ghost use Rattle.lard_handoff_back.specs.Laws.{AdoptsOnce, DecidesOnce, RefusalsStay, ReturnsStay, StagesKeepTheEpoch};

/// An epoch that is not above the highest that was decided is never new, whatever became of the stay.
pub fn adopts_once()
    ensures { AdoptsOnce }
{}

/// And that highest epoch never falls: a call that is no new Offer leaves it.
pub fn stages_keep_the_epoch()
    ensures { StagesKeepTheEpoch }
{}

/// A connection is taken or refused, and not both, as long as it is not offered in a further epoch.
pub fn decides_once()
    ensures { DecidesOnce }
{}

/// What was refused stays refused, and is refused again.
pub fn refusals_stay()
    ensures { RefusalsStay }
{}

/// What was given back is not taken again.
pub fn returns_stay()
    ensures { ReturnsStay }
{}

//! What holds of caches.

ghost use Rattle.lard_cache.specs.Laws.{EvictsFromTheEnd, KeepsWhatIsPut, StaysWithinItsBounds};

/// What stays is the longest front that is within both bounds.
pub fn evicts_from_the_end()
    ensures { EvictsFromTheEnd }
{}

/// A path that is put is there, where its file is no larger than the cache.
pub fn keeps_what_is_put()
    ensures { KeepsWhatIsPut }
{}

/// A cache within its bounds stays so.
pub fn stays_within_its_bounds()
    ensures { StaysWithinItsBounds }
{}

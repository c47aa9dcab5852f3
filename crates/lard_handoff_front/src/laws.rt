//! What holds of the table over its calls.

ghost use Rattle.lard_handoff_front.specs.Laws.{EndsOnce, OffersOnce, ReturnsOnce};

/// An end is new once: behind it the same epoch is answered by Again, and changes nothing.
pub fn ends_once()
    ensures { EndsOnce }
{}

/// A connection comes back once in an epoch: behind that a Refused of the same epoch is Stale, and a Give is answered by Again.
pub fn returns_once()
    ensures { ReturnsOnce }
{}

/// An epoch is offered once: an Offer takes the next one, and no call makes the epoch fall.
pub fn offers_once()
    ensures { OffersOnce }
{}

//! What the laws of what clients write and take, and of timers, refuse.

ghost use Rattle.lard_refusals.specs.Clients as the;
ghost use Rattle.lard_refusals.specs.Refusals.{Allows, IsLawOfAll, Refuses};

/// A client that closed its side writes nothing.
pub fn writers_refuses()
    ensures law { IsLawOfAll the.writers }
    ensures writes_when_shut { Refuses the.writers the.writes_when_shut }
    ensures writes_when_aborted { Refuses the.writers the.writes_when_aborted }
    ensures writes_and_shuts { Allows the.writers the.writes_and_shuts }
{}

/// A client takes what it got, in order, and so it does where the schedule touched its connection.
pub fn takers_refuses()
    ensures law { IsLawOfAll the.takers }
    ensures accepts_out_of_nothing { Refuses the.takers the.accepts_out_of_nothing }
    ensures accepts_other_bytes { Refuses the.takers the.accepts_other_bytes }
    ensures accepts_twice { Refuses the.takers the.accepts_twice }
    ensures ends_without_a_fin { Refuses the.takers the.ends_without_a_fin }
    ensures accepts_what_came { Allows the.takers the.accepts_what_came }
    ensures accepts_what_came_when_touched { Allows the.takers the.accepts_what_came_when_touched }
    ensures accepts_twice_when_touched { Refuses the.takers the.accepts_twice_when_touched }
    ensures skips_a_byte_when_touched { Refuses the.takers the.skips_a_byte_when_touched }
{}

/// A client does what its table says, and no more.
pub fn tables_refuses()
    ensures law { IsLawOfAll the.tables }
    ensures writes_before_it_opens { Refuses the.tables the.writes_before_it_opens }
    ensures needless_packet { Refuses the.tables the.needless_packet }
    ensures opens_in_silence { Refuses the.tables the.opens_in_silence }
{}

/// A timer is armed that does not run, and cleared that runs, at the end of the step.
pub fn timers_refuses()
    ensures law { IsLawOfAll the.timers }
    ensures cleared_and_never_armed { Refuses the.timers the.cleared_and_never_armed }
    ensures armed_twice { Refuses the.timers the.armed_twice }
    ensures armed_too_early { Refuses the.timers the.armed_too_early }
{}

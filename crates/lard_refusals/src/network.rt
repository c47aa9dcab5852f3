//! What the laws of the network, of the places that act, and of the clock refuse.

ghost use Rattle.lard_refusals.specs.Network as the;
ghost use Rattle.lard_refusals.specs.Refusals.{Allows, IsLawOfAll, Refuses};

/// Packets have numbers from 1, and come where they were sent, if they were not lost.
pub fn network_refuses()
    ensures law { IsLawOfAll the.network }
    ensures numbered_from_two { Refuses the.network the.numbered_from_two }
    ensures got_and_never_sent { Refuses the.network the.got_and_never_sent }
    ensures got_though_lost { Refuses the.network the.got_though_lost }
    ensures got_elsewhere { Refuses the.network the.got_elsewhere }
    ensures lost_twice { Refuses the.network the.lost_twice }
    ensures sent_and_got { Allows the.network the.sent_and_got }
{}

/// What a place writes of itself stands in its steps.
pub fn places_refuses()
    ensures law { IsLawOfAll the.places }
    ensures acts_in_the_step_of_another { Refuses the.places the.acts_in_the_step_of_another }
    ensures acts_in_a_step_of_nobody { Refuses the.places the.acts_in_a_step_of_nobody }
    ensures acts_in_its_own_step { Allows the.places the.acts_in_its_own_step }
{}

/// No node acts but those that there are.
pub fn acts_refuses()
    ensures law { IsLawOfAll the.acts }
    ensures fourth_of_three { Refuses the.acts the.fourth_of_three }
    ensures node_without_a_number { Refuses the.acts the.node_without_a_number }
    ensures third_of_three { Allows the.acts the.third_of_three }
{}

/// The time is what the clock was moved by.
pub fn clock_refuses()
    ensures law { IsLawOfAll the.clock }
    ensures a_millisecond_lost { Refuses the.clock the.a_millisecond_lost }
    ensures time_of_its_own { Refuses the.clock the.time_of_its_own }
    ensures five_milliseconds_told { Allows the.clock the.five_milliseconds_told }
{}

//! What the laws of nodes that close refuse.

ghost use Rattle.lard_refusals.specs.Closing as the;
ghost use Rattle.lard_refusals.specs.Refusals.{Allows, IsLawOfAll, Refuses};

/// A node is closed where a `drain` names it while it is open, or a connection comes back from it, and nowhere else.
pub fn closings_refuses()
    ensures law { IsLawOfAll the.closings }
    ensures drained_and_not_closed { Refuses the.closings the.drained_and_not_closed }
    ensures another_is_closed { Refuses the.closings the.another_is_closed }
    ensures closed_by_itself { Refuses the.closings the.closed_by_itself }
    ensures closed_twice { Refuses the.closings the.closed_twice }
    ensures closed_again { Refuses the.closings the.closed_again }
    ensures back_and_left_open { Refuses the.closings the.back_and_left_open }
    ensures back_and_another_is_closed { Refuses the.closings the.back_and_another_is_closed }
    ensures closed_with_nothing_back { Refuses the.closings the.closed_with_nothing_back }
    ensures closed_by_an_end { Refuses the.closings the.closed_by_an_end }
    ensures closed_as_it_is_back { Allows the.closings the.closed_as_it_is_back }
    ensures closed_once { Allows the.closings the.closed_once }
{}

/// Some node stays open.
pub fn some_stays_refuses()
    ensures law { IsLawOfAll the.some_stays }
    ensures all_are_closed { Refuses the.some_stays the.all_are_closed }
    ensures third_stays { Allows the.some_stays the.third_stays }
{}

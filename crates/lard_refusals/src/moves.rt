//! What the laws of how a connection moves and of what an Offer and a Give carry refuse.

ghost use Rattle.lard_refusals.specs.Moves as the;
ghost use Rattle.lard_refusals.specs.Refusals.{IsLawOfAll, Refuses};

/// A connection is taken, given up and forwarded in the steps in which it has to be.
pub fn motion_refuses()
    ensures law { IsLawOfAll the.motion }
    ensures taken_without_a_syn { Refuses the.motion the.taken_without_a_syn }
    ensures given_to_no_node { Refuses the.motion the.given_to_no_node }
    ensures given_with_no_offer { Refuses the.motion the.given_with_no_offer }
    ensures taken_without_an_offer { Refuses the.motion the.taken_without_an_offer }
    ensures repeated_offer_adopted { Refuses the.motion the.repeated_offer_adopted }
    ensures offer_passed_over { Refuses the.motion the.offer_passed_over }
    ensures given_up_in_silence { Refuses the.motion the.given_up_in_silence }
    ensures taken_back_with_no_end { Refuses the.motion the.taken_back_with_no_end }
    ensures taken_back_late { Refuses the.motion the.taken_back_late }
    ensures epoch_passed_over { Refuses the.motion the.epoch_passed_over }
    ensures segment_not_forwarded { Refuses the.motion the.segment_not_forwarded }
{}

/// An Offer carries the endpoint, and so does a Give.
pub fn offers_refuses()
    ensures law { IsLawOfAll the.offers }
    ensures offer_of_nobody { Refuses the.offers the.offer_of_nobody }
    ensures unread_bytes_left_behind { Refuses the.offers the.unread_bytes_left_behind }
    ensures unread_bytes_not_given_back { Refuses the.offers the.unread_bytes_not_given_back }
{}

//! What the laws of who owns a connection and who sends on it refuse.

ghost use Rattle.lard_refusals.specs.Owners as the;
ghost use Rattle.lard_refusals.specs.Refusals.{Allows, IsLawOfAll, Refuses};

/// Epochs rise, and who gives a connection up owns it.
pub fn ownership_refuses()
    ensures law { IsLawOfAll the.ownership }
    ensures adopted_twice { Refuses the.ownership the.adopted_twice }
    ensures given_by_another { Refuses the.ownership the.given_by_another }
    ensures given_in_another_epoch { Refuses the.ownership the.given_in_another_epoch }
    ensures given_twice { Refuses the.ownership the.given_twice }
    ensures adopted_by_a_new_offer { Allows the.ownership the.adopted_by_a_new_offer }
    ensures given_by_its_owner { Allows the.ownership the.given_by_its_owner }
{}

/// Nobody takes what another owns, and only the owner sends to the client.
pub fn sole_sender_refuses()
    ensures law { IsLawOfAll the.sole_sender }
    ensures owned_by_two { Refuses the.sole_sender the.owned_by_two }
    ensures acknowledged_after_the_freeze { Refuses the.sole_sender the.acknowledged_after_the_freeze }
    ensures another_speaks { Refuses the.sole_sender the.another_speaks }
    ensures spoken_to_another { Refuses the.sole_sender the.spoken_to_another }
    ensures acknowledged_before_the_freeze { Allows the.sole_sender the.acknowledged_before_the_freeze }
{}

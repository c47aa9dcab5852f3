//! What the laws of the choice of nodes and of loads refuse.

ghost use Rattle.lard_refusals.specs.Placing as the;
ghost use Rattle.lard_refusals.specs.Refusals.{Allows, IsLawOfAll, Refuses};

/// Each choice is that of the policy, among nodes that are open; and one of these is closed only where another one stays.
pub fn choices_refuses()
    ensures law { IsLawOfAll the.choices }
    ensures tie_to_the_highest { Refuses the.choices the.tie_to_the_highest }
    ensures threshold_at_high { Refuses the.choices the.threshold_at_high }
    ensures chosen_and_not_joined { Refuses the.choices the.chosen_and_not_joined }
    ensures another_joins { Refuses the.choices the.another_joins }
    ensures assigned_first_twice { Refuses the.choices the.assigned_first_twice }
    ensures leaves_a_short_queue { Refuses the.choices the.leaves_a_short_queue }
    ensures batch_of_nine { Refuses the.choices the.batch_of_nine }
    ensures ninth_share { Refuses the.choices the.ninth_share }
    ensures later_without_a_node { Refuses the.choices the.later_without_a_node }
    ensures closed_node_is_chosen { Refuses the.choices the.closed_node_is_chosen }
    ensures closed_server_is_chosen { Refuses the.choices the.closed_server_is_chosen }
    ensures closed_home_joins { Refuses the.choices the.closed_home_joins }
    ensures fourth_of_three_is_closed { Refuses the.choices the.fourth_of_three_is_closed }
    ensures closed_once_more { Refuses the.choices the.closed_once_more }
    ensures last_node_is_closed { Refuses the.choices the.last_node_is_closed }
    ensures tie_to_the_lowest { Allows the.choices the.tie_to_the_lowest }
    ensures threshold_above_high { Allows the.choices the.threshold_above_high }
    ensures stays_at_a_short_queue { Allows the.choices the.stays_at_a_short_queue }
    ensures next_node_is_chosen { Allows the.choices the.next_node_is_chosen }
    ensures stays_at_a_closed_home { Allows the.choices the.stays_at_a_closed_home }
{}

/// One batch of a connection is open at a time.
pub fn batches_refuses()
    ensures law { IsLawOfAll the.batches }
    ensures two_batches_open { Refuses the.batches the.two_batches_open }
    ensures one_batch_open { Allows the.batches the.one_batch_open }
{}

/// What nodes bear is what was charged.
pub fn loads_refuses()
    ensures law { IsLawOfAll the.loads }
    ensures share_of_nobody { Refuses the.loads the.share_of_nobody }
{}

/// The nodes of a set are those that joined it.
pub fn servers_refuses()
    ensures law { IsLawOfAll the.servers }
    ensures joined_without_a_number { Refuses the.servers the.joined_without_a_number }
{}

/// No node bears more connections than there is room for.
pub fn most_by_room_refuses()
    ensures law { IsLawOfAll the.most_by_room }
    ensures three_at_one_node { Refuses the.most_by_room the.three_at_one_node }
{}

/// Nor, while no node is closed, much more than the thresholds say.
pub fn most_by_policy_refuses()
    ensures law { IsLawOfAll the.most_by_policy }
    ensures four_at_one_node { Refuses the.most_by_policy the.four_at_one_node }
    ensures four_at_the_last_open_node { Allows the.most_by_policy the.four_at_the_last_open_node }
{}

/// While no node is closed, none has more than twice `high`.
pub fn few_refuses()
    ensures law { IsLawOfAll the.few }
    ensures three_at_one_node { Refuses the.few the.three_at_one_node }
    ensures three_at_the_last_open_node { Allows the.few the.three_at_the_last_open_node }
{}

/// While no node is below `low`, two are below `high`.
pub fn never_all_busy_refuses()
    ensures law { IsLawOfAll the.never_all_busy }
    ensures one_at_each_node { Refuses the.never_all_busy the.one_at_each_node }
{}

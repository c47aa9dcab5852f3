//! What the laws of Asks and Tags and of later requests refuse.

ghost use Rattle.lard_refusals.specs.Asks as the;
ghost use Rattle.lard_refusals.specs.Refusals.{Allows, IsLawOfAll, Refuses};

/// An Ask is the last one again or the next one, and tells the queue.
pub fn asks_refuses()
    ensures law { IsLawOfAll the.asks }
    ensures job_behind_the_ask { Refuses the.asks the.job_behind_the_ask }
    ensures queue_overstated { Refuses the.asks the.queue_overstated }
    ensures asks_from_two { Refuses the.asks the.asks_from_two }
{}

/// Later requests are assigned where the next Ask comes, once.
pub fn tags_refuses()
    ensures law { IsLawOfAll the.tags }
    ensures assigned_without_an_ask { Refuses the.tags the.assigned_without_an_ask }
    ensures repeated_ask_assigns_again { Refuses the.tags the.repeated_ask_assigns_again }
    ensures ask_passed_over { Refuses the.tags the.ask_passed_over }
    ensures tag_without_an_ask { Refuses the.tags the.tag_without_an_ask }
{}

/// The batch before is over where later requests are assigned and shares were open.
pub fn batch_ends_refuses()
    ensures law { IsLawOfAll the.batch_ends }
    ensures batch_over_by_itself { Refuses the.batch_ends the.batch_over_by_itself }
    ensures batch_over_without_shares { Refuses the.batch_ends the.batch_over_without_shares }
{}

/// An Ask names the batch that was read.
pub fn sizes_refuses()
    ensures law { IsLawOfAll the.sizes }
    ensures asks_for_nothing { Refuses the.sizes the.asks_for_nothing }
    ensures asks_for_what_came_with_it { Refuses the.sizes the.asks_for_what_came_with_it }
{}

/// The next request for a file is assigned next.
pub fn requests_refuses()
    ensures law { IsLawOfAll the.requests }
    ensures assigned_before_it_is_written { Refuses the.requests the.assigned_before_it_is_written }
    ensures another_path_assigned { Refuses the.requests the.another_path_assigned }
    ensures its_path_assigned { Allows the.requests the.its_path_assigned }
    ensures assigned_twice { Refuses the.requests the.assigned_twice }
    ensures assigned_again_behind_a_stay { Refuses the.requests the.assigned_again_behind_a_stay }
    ensures assigned_again { Allows the.requests the.assigned_again }
{}

/// At each moment the paths that were assigned are the first of those that were asked for.
pub fn paths_refuses()
    ensures law { IsLawOfAll the.paths }
    ensures assigned_before_it_is_written { Refuses the.paths the.assigned_before_it_is_written }
    ensures another_path_assigned { Refuses the.paths the.another_path_assigned }
    ensures its_path_assigned { Allows the.paths the.its_path_assigned }
{}

/// An Ask names those that come next.
pub fn names_next_refuses()
    ensures law { IsLawOfAll the.names_next }
    ensures asks_for_nothing { Refuses the.names_next the.asks_for_nothing }
    ensures asks_for_the_first_again { Refuses the.names_next the.asks_for_the_first_again }
    ensures asks_for_what_is_next { Allows the.names_next the.asks_for_what_is_next }
{}

/// A content comes from where its request was assigned.
pub fn ways_refuses()
    ensures law { IsLawOfAll the.ways }
    ensures answered_and_not_asked { Refuses the.ways the.answered_and_not_asked }
    ensures served_and_not_assigned { Refuses the.ways the.served_and_not_assigned }
    ensures served_by_another_node { Refuses the.ways the.served_by_another_node }
    ensures served_by_its_node { Allows the.ways the.served_by_its_node }
    ensures served_by_the_node_before { Refuses the.ways the.served_by_the_node_before }
    ensures served_by_the_node_after { Allows the.ways the.served_by_the_node_after }
{}

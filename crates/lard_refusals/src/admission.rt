//! What the laws of the room, of releases and of the line refuse.

ghost use Rattle.lard_refusals.specs.Admission as the;
ghost use Rattle.lard_refusals.specs.Refusals.{Allows, IsLawOfAll, Refuses};

/// Who waits finds the room full, who is admitted finds room, and who is released is in.
pub fn admission_refuses()
    ensures law { IsLawOfAll the.admission }
    ensures waits_beside_free_room { Refuses the.admission the.waits_beside_free_room }
    ensures one_too_many { Refuses the.admission the.one_too_many }
    ensures admitted_twice { Refuses the.admission the.admitted_twice }
    ensures released_twice { Refuses the.admission the.released_twice }
    ensures third_waits { Allows the.admission the.third_waits }
    ensures released_once { Allows the.admission the.released_once }
{}

/// No more are admitted than there is room for.
pub fn room_refuses()
    ensures law { IsLawOfAll the.room }
    ensures one_too_many { Refuses the.room the.one_too_many }
    ensures third_waits { Allows the.room the.third_waits }
{}

/// Directly behind an admission a node is chosen, and nowhere else.
pub fn nodes_refuses()
    ensures law { IsLawOfAll the.nodes }
    ensures admitted_to_no_node { Refuses the.nodes the.admitted_to_no_node }
    ensures assigned_and_not_admitted { Refuses the.nodes the.assigned_and_not_admitted }
    ensures batch_over_for_nothing { Refuses the.nodes the.batch_over_for_nothing }
    ensures admitted_to_a_node { Allows the.nodes the.admitted_to_a_node }
{}

/// A release stands behind the record that the front end took the connection; only that a node is closed stands between.
pub fn releases_refuses()
    ensures law { IsLawOfAll the.releases }
    ensures released_where_it_is { Refuses the.releases the.released_where_it_is }
    ensures another_is_released { Refuses the.releases the.another_is_released }
    ensures another_waits_between { Refuses the.releases the.another_waits_between }
    ensures taken_and_released { Allows the.releases the.taken_and_released }
    ensures taken_closed_and_released { Allows the.releases the.taken_closed_and_released }
{}

/// And there it has to stand.
pub fn taken_back_refuses()
    ensures law { IsLawOfAll the.taken_back }
    ensures taken_and_not_released { Refuses the.taken_back the.taken_and_not_released }
    ensures taken_and_closed { Refuses the.taken_back the.taken_and_closed }
    ensures another_waits_between { Refuses the.taken_back the.another_waits_between }
    ensures taken_and_released { Allows the.taken_back the.taken_and_released }
    ensures taken_closed_and_released { Allows the.taken_back the.taken_closed_and_released }
{}

/// Who waits is owned by the front end, in an odd epoch, and is not in the line yet.
pub fn joins_refuses()
    ensures law { IsLawOfAll the.joins }
    ensures stranger_waits { Refuses the.joins the.stranger_waits }
    ensures waits_twice { Refuses the.joins the.waits_twice }
    ensures waits_in_an_even_epoch { Refuses the.joins the.waits_in_an_even_epoch }
    ensures waits_once { Allows the.joins the.waits_once }
    ensures waits_once_more { Allows the.joins the.waits_once_more }
{}

/// Somebody is in the line only at a full room.
pub fn line_refuses()
    ensures law { IsLawOfAll the.line }
    ensures line_before_an_empty_room { Refuses the.line the.line_before_an_empty_room }
    ensures third_waits { Allows the.line the.third_waits }
{}

/// The first of the line is admitted first, and directly behind a release.
pub fn passes_refuses()
    ensures law { IsLawOfAll the.passes }
    ensures second_passes_the_first { Refuses the.passes the.second_passes_the_first }
    ensures nobody_follows { Refuses the.passes the.nobody_follows }
    ensures first_passes { Allows the.passes the.first_passes }
{}

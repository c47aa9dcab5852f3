//! What the laws of what clients are told, of responses and of resets refuse.

ghost use Rattle.lard_refusals.specs.Service as the;
ghost use Rattle.lard_refusals.specs.Refusals.{Allows, IsLawOfAll, Refuses};

/// A client is sent parts of its responses, its end, and no more is acknowledged than it wrote.
pub fn tells_refuses()
    ensures law { IsLawOfAll the.tells }
    ensures no_segment { Refuses the.tells the.no_segment }
    ensures reset_at_will { Refuses the.tells the.reset_at_will }
    ensures bytes_of_no_response { Refuses the.tells the.bytes_of_no_response }
    ensures bytes_begin_one_too_late { Refuses the.tells the.bytes_begin_one_too_late }
    ensures acknowledged_before_it_is_written { Refuses the.tells the.acknowledged_before_it_is_written }
    ensures served_behind_the_end { Refuses the.tells the.served_behind_the_end }
    ensures number_does_not_wrap { Refuses the.tells the.number_does_not_wrap }
    ensures reset_behind_the_limit { Allows the.tells the.reset_behind_the_limit }
    ensures bytes_of_a_response { Allows the.tells the.bytes_of_a_response }
    ensures number_wraps { Allows the.tells the.number_wraps }
{}

/// The owner answers the next request, by its answer.
pub fn service_refuses()
    ensures law { IsLawOfAll the.service }
    ensures second_answer_first { Refuses the.service the.second_answer_first }
    ensures answered_by_a_stranger { Refuses the.service the.answered_by_a_stranger }
    ensures response_of_another_length { Refuses the.service the.response_of_another_length }
    ensures its_answer_served { Allows the.service the.its_answer_served }
{}

/// A client accepts what answers its requests, in their order.
pub fn prefix_refuses()
    ensures law { IsLawOfAll the.prefix }
    ensures accepted_and_not_asked { Refuses the.prefix the.accepted_and_not_asked }
    ensures another_answer_accepted { Refuses the.prefix the.another_answer_accepted }
    ensures its_answer_accepted { Allows the.prefix the.its_answer_accepted }
{}

/// A reset stands at the stream limit alone.
pub fn resets_refuses()
    ensures law { IsLawOfAll the.resets }
    ensures malformed_request_is_reset { Refuses the.resets the.malformed_request_is_reset }
    ensures third_response_passes_the_limit { Refuses the.resets the.third_response_passes_the_limit }
    ensures served_behind_a_reset { Refuses the.resets the.served_behind_a_reset }
    ensures malformed_request_is_answered { Allows the.resets the.malformed_request_is_answered }
    ensures third_response_resets { Allows the.resets the.third_response_resets }
{}

/// RST is sent to a client only behind a reset at the stream limit, also to one in whose name the schedule put a packet on the way.
pub fn sends_rst_refuses()
    ensures law { IsLawOfAll the.sends_rst }
    ensures touched_client_is_reset { Refuses the.sends_rst the.touched_client_is_reset }
    ensures reset_for_another_client { Refuses the.sends_rst the.reset_for_another_client }
    ensures touched_client_passes_the_limit { Allows the.sends_rst the.touched_client_passes_the_limit }
{}

/// The home answers a request for a file, and the owner any other.
pub fn answerers_refuses()
    ensures law { IsLawOfAll the.answerers }
    ensures node_answers_no_file { Refuses the.answerers the.node_answers_no_file }
    ensures file_answered_at_the_front_end { Refuses the.answerers the.file_answered_at_the_front_end }
    ensures file_answered_at_its_node { Allows the.answerers the.file_answered_at_its_node }
{}

/// A first assignment and each job are for a request that was written.
pub fn named_refuses()
    ensures law { IsLawOfAll the.named }
    ensures second_request_assigned_first { Refuses the.named the.second_request_assigned_first }
    ensures assigned_first_again { Refuses the.named the.assigned_first_again }
    ensures job_for_no_request { Refuses the.named the.job_for_no_request }
    ensures assigned_first_once { Allows the.named the.assigned_first_once }
{}

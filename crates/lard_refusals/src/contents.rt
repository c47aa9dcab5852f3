//! What the laws of disks and caches and of contents refuse.

ghost use Rattle.lard_laws.specs.Formed.{RecordsHavePathsAndBytes};
ghost use Rattle.lard_refusals.specs.Contents as the;
ghost use Rattle.lard_refusals.specs.Refusals.{Allows, IsLawOfAll, Refuses};

/// A hit is of what is cached, and a job of a file that is not.
pub fn stores_refuses()
    ensures law { IsLawOfAll the.stores }
    ensures hit_of_what_was_never_read { Refuses the.stores the.hit_of_what_was_never_read }
    ensures evicted_path_is_a_hit { Refuses the.stores the.evicted_path_is_a_hit }
    ensures queued_though_cached { Refuses the.stores the.queued_though_cached }
    ensures queued_without_a_file { Refuses the.stores the.queued_without_a_file }
    ensures kept_path_is_a_hit { Allows the.stores the.kept_path_is_a_hit }
    ensures queued_for_a_file { Allows the.stores the.queued_for_a_file }
{}

/// A disk reads the job that its event names, and reads it there.
pub fn disks_refuses()
    ensures law { IsLawOfAll the.disks }
    ensures done_and_not_read { Refuses the.disks the.done_and_not_read }
    ensures another_job_is_read { Refuses the.disks the.another_job_is_read }
    ensures read_in_another_step { Refuses the.disks the.read_in_another_step }
    ensures oldest_job_is_read { Allows the.disks the.oldest_job_is_read }
{}

/// A content was there before its response.
pub fn came_refuses()
    ensures law { IsLawOfAll the.came }
    ensures remote_request_served_at_once { Refuses the.came the.remote_request_served_at_once }
    ensures served_before_it_is_read { Refuses the.came the.served_before_it_is_read }
    ensures served_once_it_is_read { Allows the.came the.served_once_it_is_read }
{}

/// It was there for this request.
pub fn backed_refuses()
    ensures law { IsLawOfAll the.backed }
    ensures cache_without_a_hit { Refuses the.backed the.cache_without_a_hit }
{}

/// A node starts on a request once it is told of it.
pub fn starts_refuses()
    ensures law { IsLawOfAll the.starts }
    ensures job_before_it_is_told { Refuses the.starts the.job_before_it_is_told }
    ensures read_before_it_is_assigned { Refuses the.starts the.read_before_it_is_assigned }
    ensures job_once_it_is_told { Allows the.starts the.job_once_it_is_told }
{}

/// A content is sent where a Fetch finds it, or its job is read.
pub fn contents_refuses()
    ensures law { IsLawOfAll the.contents }
    ensures content_out_of_nothing { Refuses the.contents the.content_out_of_nothing }
{}

/// A job for another node is that of a Fetch.
pub fn queues_refuses()
    ensures law { IsLawOfAll the.queues }
    ensures job_for_another_unasked { Refuses the.queues the.job_for_another_unasked }
    ensures job_of_its_own { Allows the.queues the.job_of_its_own }
{}

/// The paths of records name files, and their bytes are at least one. This is no field of `IsLawful`: it asks of a run what its
/// clients are told to write.
pub fn paths_and_bytes_refuses()
    ensures law { RecordsHavePathsAndBytes }
    ensures assigned_without_a_file { Refuses the.paths_and_bytes the.assigned_without_a_file }
    ensures read_without_a_file { Refuses the.paths_and_bytes the.read_without_a_file }
    ensures nothing_is_accepted { Refuses the.paths_and_bytes the.nothing_is_accepted }
    ensures empty_packet { Refuses the.paths_and_bytes the.empty_packet }
    ensures assigned_for_a_file { Allows the.paths_and_bytes the.assigned_for_a_file }
{
    lard_laws::records_have_paths_and_bytes();
}

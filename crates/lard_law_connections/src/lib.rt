//! Laws of every run on single connections, across every move: admission and the choice of nodes (`Policy`), where a connection is
//! (`Places`), its resets (`Limits`), who is sent RST (`Resets`), when it is taken and given up (`Motion`), the line (`Line`), what is left to say (`Silence`), why
//! reading stops (`Stops`), what a place awaits (`Awaits`) and keeps (`Kept`), disks and caches (`Stores`, `Jobs`), the bytes that are
//! said and taken (`Bytes`), and what an Offer and a Give carry (`Offers`).
//!
//! It stands above the view, by which a law of one connection is one of every run. The files of a topic have its word in front. It has
//! no code.
#![tactic(auto)]

ghost use Rattle.lard_law_connections.specs.AwaitsLaws.{ConnectionsAwait};
ghost use Rattle.lard_law_connections.specs.BytesKeeping.{AdmissionsKeep, ContentsKeep, EndsAreRead, EndsKeep, ForwardsAreRead, FrontHearsTruth, FrontTimerKeeps, NodeHearsTruth, NodeTimerKeeps, OffersAreRead, OffersKeep, ReadsKeep, SaidStays, SeatStays, TagsKeep};
ghost use Rattle.lard_law_connections.specs.BytesRuns.{ClientsAcceptAnswers, JournalsServeTheAnswers, JournalsTellTheTruth, StatesAreTruthful};
ghost use Rattle.lard_law_connections.specs.JobsLaws.{ReadsAreJobs, ReadsAreQueued};
ghost use Rattle.lard_law_connections.specs.KeptLaws.{ConnectionsAreKept};
ghost use Rattle.lard_law_connections.specs.LimitsLaws.{ConnectionsAreCounted, ResetsAreLawful};
ghost use Rattle.lard_law_connections.specs.LineLaws.{ConnectionsStayFew, LineIsKept, LineIsOfThoseWhoWait, LinePasses, LoadsStayNearTheThresholds, LoadsStayWithinTheRoom, NeverAllBusy, TakesRelease, WaitsAtAFullRoom, WaitsAtTheFrontEnd};
ghost use Rattle.lard_law_connections.specs.MotionRuns.{ConnectionsMoveInSteps};
ghost use Rattle.lard_law_connections.specs.Offers.{OffersCarryTheEndpoint};
ghost use Rattle.lard_law_connections.specs.PlacesLaws.{EachConnectionSits, OwnersAreLawful, SendersAreLawful};
ghost use Rattle.lard_law_connections.specs.PolicyLaws.{AdmitsByRoom, AdmitsInOrder, AdmitsToANode, AssignsAsStated, BooksAreTold, LineIsTold, LoadsAreAlwaysCharges, ReleasesWhatItTook, ServersAreTold, SharesOneBatch, StandingsAreTold, RoomIsNeverPassed};
ghost use Rattle.lard_law_connections.specs.ResetsLaws.{EndsFollowResets, RstFollowsResets};
ghost use Rattle.lard_law_connections.specs.SilenceLaws.{ConnectionsHaveSpoken};
ghost use Rattle.lard_law_connections.specs.StopsLaws.{ConnectionsStop};
ghost use Rattle.lard_law_connections.specs.StoresLaws.{CachesAreTold, DisksAreRead, JobsAreTold, StoresAreLawful};

/// A connection waits only where as many are admitted as there is room for, is admitted only where there is room, and is released
/// only where it is admitted; at no moment are more admitted than there is room for; and one that is admitted is assigned at
/// once, as is one whose shares end.
/// In each step those who wait are admitted in the order of the line, and where one is released the first of them is. One is
/// released behind the record that the front end took it; only that a node is closed stands between.
pub fn admission_is_counted()
    ensures records { AdmitsByRoom }
    ensures room { RoomIsNeverPassed }
    ensures nodes { AdmitsToANode }
    ensures order { AdmitsInOrder }
    ensures releases { ReleasesWhatItTook }
    ensures standings { StandingsAreTold }
{}

/// Each first and each later choice of a node is that of the stated rule, at the loads and the server sets that the journal counts
/// just before it. The shares of a batch are over before the next one's are opened.
pub fn choices_are_as_stated()
    ensures choices { AssignsAsStated }
    ensures loads { LoadsAreAlwaysCharges }
    ensures servers { ServersAreTold }
    ensures batches { SharesOneBatch }
{}

/// In every state that events lead to, the front end's books are those that the journal counts, and somebody waits only while as
/// many are admitted as there is room for. Its line stands among those who wait by the journal, in their order.
pub fn books_are_told()
    ensures books { BooksAreTold }
    ensures line { LineIsTold }
{}

/// In every run of the cluster's machine, whatever is lost, repeated or comes out of order, and also of a connection that the
/// schedule touched: each connection is at one place, or on its way to one that will take it in the next epoch. The front end has
/// it in an odd epoch and a node in an even one: 1 or 3, and 2, since it leaves the front end once. The epochs in which it is taken
/// rise, it is taken where nobody owns it, a place gives up only what it owns, and only its owner sends to its client.
pub fn every_move_keeps_one_owner()
    ensures connections { EachConnectionSits }
    ensures owners { OwnersAreLawful }
    ensures senders { SendersAreLawful }
{}

/// In every run of the cluster's machine, and also of a connection that the schedule touched: the place that has a connection
/// counts the bytes of all responses that were queued on it, also where it took it from another place. So these bytes are
/// at most the stream limit, and none follows a reset, which stands where the next response would pass it.
pub fn responses_stay_within_the_limit()
    ensures connections { ConnectionsAreCounted }
    ensures resets { ResetsAreLawful }
{}

/// In every run of the cluster's machine, and also of a connection that the schedule touched: a place of the cluster sends a segment with
/// RST to a client only behind the record that the stream limit reset its connection (RFC 9293, 3.10.5 and 3.10.7.1). Where the front end
/// keeps that the limit ended a connection, and wherever an Ended says so, it was reset.
pub fn rst_is_sent_behind_resets()
    ensures ends { EndsFollowResets }
    ensures rst { RstFollowsResets }
{}

/// In every run of the cluster's machine, and also of a connection that the schedule touched, whatever is lost, repeated or
/// comes out of order. The front end takes a connection first at the first plain SYN of its client, in epoch 1 (RFC 9293,
/// 3.10.7.2). It gives it up where its first request is assigned, and offers it to that node in the next epoch. A node takes it
/// at an Offer of a higher epoch than it had. Where a node gives it up, it tells the front end, which takes it again at the first
/// such message. Meanwhile the front end forwards each segment that comes, once, as it came.
pub fn connections_move()
    ensures { ConnectionsMoveInSteps }
{}

/// The line that the front end keeps is the one that the journal tells: those who were to wait and were not admitted since, in that
/// order, but for each whose segment came to the front end that decodes, has RST and the acknowledgement number of the last segment
/// that the cluster sent to its client, and no length unless that segment told a window above 0. So it is of connections that the
/// schedule touched, too. Those who wait at the front end are in it, and nobody else.
/// A connection is told to wait only where it is not admitted, is not in the line, and the front end owns it, in an odd epoch.
/// Wherever a step ends, somebody is in the line only where as many are admitted as there is room for.
/// Wherever one is admitted while somebody is in the line, it is its first; and wherever one is released while somebody is, its first is
/// admitted directly behind that.
pub fn the_line_is_told()
    ensures kept { LineIsKept }
    ensures those { LineIsOfThoseWhoWait }
    ensures joins { WaitsAtTheFrontEnd }
    ensures full { WaitsAtAFullRoom }
    ensures order { LinePasses }
{}

/// In each step, where the front end takes a connection that was admitted before it, or takes it in an epoch behind the first, the
/// connection is released behind that record; only that a node is closed stands between. That nothing else releases one is a law of
/// admission (`lard_law_connections`).
pub fn what_is_taken_back_is_released()
    ensures { TakesRelease }
{}

/// At no moment is the load of a node, as the journal counts it, above a whole for each connection that there is room for, nor above
/// the greatest of twice `high`, `over` and `idle` by more than a whole.
pub fn the_greatest_load_is_told()
    ensures room { LoadsStayWithinTheRoom }
    ensures thresholds { LoadsStayNearTheThresholds }
{}

/// At no moment has a node more than twice `high` connections, each from its first assignment to its release; and at no moment has every
/// node at least `low` of them while all, or all but one, have at least `high`.
pub fn connections_are_told()
    ensures most { ConnectionsStayFew }
    ensures few { NeverAllBusy }
{}

/// In every run of the cluster's machine, and also of a connection that the schedule touched: an endpoint that the front end or a
/// node has is sound, was not reset, and sends nothing of itself before something comes; the window that it told last ends no
/// sooner than the first. Its client sends nothing of itself either, and one that does not hold has nothing in its window.
pub fn nothing_is_left_to_say()
    ensures { ConnectionsHaveSpoken }
{}

/// In every run of the cluster's machine, and also of a connection that the schedule touched: at the front end no whole block
/// is left to be read, or the next one asks for a file and not all is acknowledged, so that it is not placed yet; at a node the
/// first request of the batch is not ready, or the batch is empty and no whole block is left; behind the cluster's FIN nothing
/// more is to be read.
pub fn reading_stops_for_a_reason()
    ensures { ConnectionsStop }
{}

/// In every run of the cluster's machine, and also of a connection that the schedule touched: while a request of a batch has no
/// node yet, it is for a file and the node keeps an Ask; while its content is to come from another node, the node keeps a Fetch
/// of it, which goes there.
pub fn what_is_awaited_was_asked_for()
    ensures { ConnectionsAwait }
{}

/// In every run of the cluster's machine, and also of a connection that the schedule touched: the front end keeps an Offer exactly
/// while the connection is on its way to a node. A node keeps an Ask exactly while requests of the batch have no node, and it names
/// these, with the number of the last Ask; it keeps Fetches only of files, and only while the connection is there; and it keeps an
/// Ended exactly while it tells the end of a stay.
pub fn places_keep_what_they_await()
    ensures { ConnectionsAreKept }
{}

/// In every state that events lead to, each disk has the jobs that the journal tells, and each cache its paths.
pub fn disks_are_told()
    ensures jobs { JobsAreTold }
    ensures caches { CachesAreTold }
{}

/// A hit, a job that is queued and one that is read stand only where the disk and the cache let them, and each event of a disk
/// reads the job that it names.
pub fn stores_are_lawful()
    ensures law { StoresAreLawful }
    ensures reads { DisksAreRead }
{}

/// In every run of the cluster's machine, and also of a connection that the schedule touched: while a node reads the file of a
/// request, its disk has a job for it; and the journal tells that job as one that was queued there and not yet read.
pub fn what_is_read_is_a_job()
    ensures jobs { ReadsAreJobs }
    ensures told { ReadsAreQueued }
{}

/// A node that has a connection answers what its client wrote, in order, each request once, and says nothing else: after each
/// rule all that it said is the answers to the requests that were read, in their order, and its batch is what was read and is not
/// answered (RFC 9112, 9.3.2). It goes on so from the parts of an endpoint that the front end froze, wherever contents come from
/// and in whatever order they come.
pub fn a_node_keeps_the_agreement()
    ensures offer { OffersKeep }
    ensures segment { NodeHearsTruth }
    ensures tag { TagsKeep }
    ensures content { ContentsKeep }
    ensures disk { ReadsKeep }
    ensures timer { NodeTimerKeeps }
{}

/// The front end answers what its client wrote until a request is to be placed, in order, and says nothing else; then it freezes
/// the endpoint, with all that it answered acknowledged and nothing else read, and offers its parts. So it is also of a connection
/// that waits to be admitted. Of one that ended it says what its last numbers allow (RFC 9293, 3.10.7.1), whichever place ended it.
pub fn the_front_end_keeps_the_agreement()
    ensures segment { FrontHearsTruth }
    ensures timer { FrontTimerKeeps }
    ensures end { EndsKeep }
    ensures admission { AdmissionsKeep }
{}

/// Where the client writes on or closes, all that the cluster keeps of its connection agrees with it still, wherever the connection
/// is, also while its Offer is on the way.
pub fn the_agreement_goes_on()
    ensures kept { SeatStays }
    ensures said { SaidStays }
{}

/// What a place reads of a message of another one is what was said: the parts of the endpoint that was frozen, the segment as it came,
/// and how a connection ended.
pub fn messages_say_what_was_kept()
    ensures offer { OffersAreRead }
    ensures forward { ForwardsAreRead }
    ensures end { EndsAreRead }
{}

/// In every run of the cluster's machine, whatever is lost, repeated or comes out of order, and wherever connections move: its client,
/// the place that has it, the journal, and every packet that was ever sent agree on each connection that the schedule did not touch.
/// All that is sent to its client is true, each response answers the next request and is of the place that owns the connection, a
/// reset stands where the next response would be, and what the client accepted is at every moment a prefix of the right responses to
/// what it wrote.
pub fn every_run_is_true()
    ensures states { StatesAreTruthful }
    ensures tells { JournalsTellTheTruth }
    ensures serves { JournalsServeTheAnswers }
    ensures prefix { ClientsAcceptAnswers }
{}

/// In every run of the cluster's machine, whatever is lost, repeated or comes out of order: each Offer, and each Give, of a
/// connection that the schedule did not touch carries, where it is sent first, both first numbers of the connection, how many
/// responses were queued, that all their bytes are acknowledged, and the bytes that were received and not read. These begin where
/// the answered requests are cut off from what follows (RFC 9112, 2.2 and 9.3.2).
pub fn offers_carry_the_endpoint()
    ensures carries { OffersCarryTheEndpoint }
{}

//! All that the journal of every run obeys, as one record (`Lawful`), and those of its laws that rest on where connections are: Asks and
//! Tags (`Asks`, `Tags`), to which nodes a connection goes (`Past`) and for whom jobs are (`Origins`), how requests are assigned and what
//! backs a response (`Ways`, `Backing`, `Sizes`), what counts all connections (`Steps`, `Clients`, `Records`), what records say of paths
//! and bytes (`Formed`), and that a quiet connection is complete (`Acks`, `Ended`, `Windows`, `Quiet`).
//!
//! It stands above the laws of connections, and below the world and the public call, which promise its record of the journals that they
//! give. The files of a topic have its word in front. It has no code.
#![tactic(auto)]

ghost use Rattle.lard_laws.specs.AcksLaws.{ConnectionsAckWhatWasTaken};
ghost use Rattle.lard_laws.specs.AsksRuns.{AsksAreAnswered, AsksGoOnInSteps, BatchesEndInSteps};
ghost use Rattle.lard_laws.specs.BackingRuns.{JobsAreAsked, JobsStartWhenTold, JournalsNameRequests, PlacesAnswer, ResponsesAreBacked};
ghost use Rattle.lard_laws.specs.ClientsLaws.{ClientsKeepTheirTables, ClientsTakeInOrder, WritersAreLawful};
ghost use Rattle.lard_laws.specs.Due.{JournalsAnswerWhatIsDue};
ghost use Rattle.lard_laws.specs.DueAnswers.{ConnectionsAwaitAnswers};
ghost use Rattle.lard_laws.specs.EndedLaws.{ConnectionsWereClosed};
ghost use Rattle.lard_laws.specs.Formed.{RecordsHavePathsAndBytes};
ghost use Rattle.lard_laws.specs.Lawful.{JournalsAreLawful};
ghost use Rattle.lard_laws.specs.OriginsLaws.{JobsComeFromHome};
ghost use Rattle.lard_law_connections.specs.PastLaws.{ConnectionsGoToNew, EachEndIsOfItsStay, EachEpochIsOfOneNode, FirstsAreOpen, PastIsClosed};
ghost use Rattle.lard_laws.specs.Quiet.{JournalsComplete};
ghost use Rattle.lard_laws.specs.QuietRests.{RestingIsComplete};
ghost use Rattle.lard_laws.specs.QuietStill.{QuietIsCompleteOrElse};
ghost use Rattle.lard_laws.specs.Records.{RecordsAreInRange};
ghost use Rattle.lard_laws.specs.RecordsDisks.{DisksStayShort};
ghost use Rattle.lard_laws.specs.RecordsMessages.{OnlyNodesThatAreThereAct, PacketsAreMessages};
ghost use Rattle.lard_laws.specs.Sizes.{BatchesHaveTheirSize};
ghost use Rattle.lard_laws.specs.StepsLaws.{JournalsFollow, NetworksAreLawful, PacketsAreTold, PlacesAreLawful, ResponsesAreCounted, SettingsStay, TimesAreLawful};
ghost use Rattle.lard_laws.specs.StepsTimers.{TimersChangeInSteps, TimersRunAsKept};
ghost use Rattle.lard_laws.specs.TagsLaws.{ConnectionsNameNodes};
ghost use Rattle.lard_laws.specs.WaysBefore.{ContentsWereThere};
ghost use Rattle.lard_laws.specs.WaysContents.{ContentsAreFiles};
ghost use Rattle.lard_laws.specs.WaysRuns.{AsksNameTheNext, ContentsComeAsAssigned, JournalsAssignAPrefix, JournalsAssignInOrder};
ghost use Rattle.lard_laws.specs.WindowsLaws.{ClientsStart, ForwardsComeFromClients, OpenClientsSentTheirSyn, RefusalsAnswer, WindowsReach, WordsFit};

/// In every run of the cluster's machine, and also of a connection that the schedule touched, whatever is lost, repeated or
/// comes out of order. While the front end has given a connection up, an Ask that comes from the connection's node with its
/// epoch is the next one where its number is one more than that of the last that was answered, or 1 where none was. In the step
/// in which the next one comes, and in no other, later requests of the connection are assigned: one for each path of the Ask, in
/// order, with numbers that go on, and its size and queue. A Tag with its number and the assigned nodes goes to the node in that
/// step. In each step in which the last one comes again the same Tag does, and no other Tag is sent. The batch before is over in a
/// step exactly where later requests are assigned in it and shares of the connection were open, as the journal counts them.
pub fn asks_are_answered()
    ensures answers { AsksAreAnswered }
    ensures batches { BatchesEndInSteps }
{}

/// The Asks that a node sends for one connection and epoch go on one by one. Each that is sent is the last one again, byte for
/// byte, or the next one, of which a step sends at most one: its number is one more, or 1 where there was none, and its queue is
/// how many jobs wait at the node, as the journal counts them just before it is sent: all that a step queues and reads stands
/// before what it sends.
pub fn nodes_ask()
    ensures { AsksGoOnInSteps }
{}

/// In every state that events lead to, the settings are those of the start, and what the network holds and the bytes of the
/// responses are what the journal tells.
pub fn states_are_told()
    ensures settings { SettingsStay }
    ensures packets { PacketsAreTold }
    ensures responses { ResponsesAreCounted }
{}

/// The journal obeys the law of packets, all that it says of a place is said by the place that acts, it tells the time, and it is
/// the steps of the events, in order.
pub fn journals_are_lawful()
    ensures network { NetworksAreLawful }
    ensures places { PlacesAreLawful }
    ensures clock { TimesAreLawful }
    ensures follows { JournalsFollow }
{}

/// In every state the journal tells of each timer, at a client, at the front end and at each node, whether it is armed. A step has
/// of each timer the record of its change and no other, behind all its other records (RFC 9293, 3.8.1).
pub fn timers_are_told()
    ensures flags { TimersRunAsKept }
    ensures steps { TimersChangeInSteps }
{}

/// A client's state is a fold over its own events and the packets that it got, and behind each of these stand exactly the
/// records that its table gives from that state (RFC 9293, 3.10), whichever place of the cluster sent them.
pub fn clients_keep_their_tables()
    ensures { ClientsKeepTheirTables }
{}

/// A client writes nothing once it was shut or aborted, or took the end of its stream.
pub fn clients_write_while_open()
    ensures { WritersAreLawful }
{}

/// In every run, and also of a connection that the schedule touched, a client accepts bytes exactly of the segment that it got, in
/// order, and nothing twice, wherever its connection is: they follow directly behind the cluster's SYN and all that it accepted, by
/// the first number with which the cluster's side was opened (RFC 9293, 3.4). It takes the FIN behind all data of its segment.
pub fn clients_take_what_comes_next()
    ensures { ClientsTakeInOrder }
{}

/// In every run whose configuration may be used, and whose events and files are in range, every record is, so that a report
/// tells its journal.
pub fn records_are_in_range()
    ensures range { RecordsAreInRange }
{}

/// In every run of the cluster's machine, whatever is lost, repeated or comes out of order, and also of connections that the schedule
/// touched: each path that is assigned, hit, queued or read names a file, and what is written, sent or accepted has a byte. Of what a
/// client writes that is so where the schedule tells it to write one.
pub fn records_have_paths_and_bytes()
    ensures formed { RecordsHavePathsAndBytes }
{}

/// In every such run each packet between two machines of the cluster is a message: its bytes decode, and are the one spelling of
/// what they decode to. So its head is that message's kind and epoch.
pub fn machines_talk_in_messages()
    ensures messages { PacketsAreMessages }
{}

/// In every run, whatever its events name, each node of which a record tells that it acts is one of those that there are.
pub fn only_nodes_that_are_there_act()
    ensures nodes { OnlyNodesThatAreThereAct }
{}

/// In every run, whatever its events name, fewer than 2^31 jobs wait at each node: before a step there are few records, and a step
/// queues eight jobs at most.
pub fn disks_stay_short()
    ensures short { DisksStayShort }
{}

/// In every run of the cluster's machine, whatever is lost, repeated or comes out of order: each assignment of a connection that the
/// schedule did not touch is of the next good request that its client wrote, whichever node it is made for. So the paths that were
/// assigned are, at every moment, the first of the paths of the good requests, in their order.
pub fn requests_are_assigned_in_order()
    ensures next { JournalsAssignInOrder }
    ensures paths { JournalsAssignAPrefix }
{}

/// In every run of the cluster's machine, whatever is lost, repeated or comes out of order, and of each connection that the schedule
/// did not touch: an Ask, where a node sends it first, names the next paths. Those that were assigned before it is sent, and behind
/// them its own, are the first of the paths of the good requests that the client wrote, in their order.
pub fn asks_name_the_next_paths()
    ensures { AsksNameTheNext }
{}

/// In every run of the cluster's machine, whatever is lost, repeated or comes out of order, and for every connection that the schedule
/// did not touch: a response has the place's own content just where its request is not for a file. The response to the k-th good
/// request goes with the k-th assignment, which is for its path. It is of the connection's home, the node of the first assignment,
/// and its content came out of the home's cache or from its disk where that assignment is for the home, and from the node of that
/// assignment where it is another one.
pub fn contents_come_as_assigned()
    ensures ways { ContentsComeAsAssigned }
{}

/// In every run of the cluster's machine, and of each connection, also of one that the schedule touched: each content that a node
/// sends to another one carries the file of a path, and the step in which it is sent answers that node's Fetch for the path by a hit
/// of the cache, or reads the job that was queued for it.
pub fn contents_are_files()
    ensures contents { ContentsAreFiles }
{}

/// In every run of the cluster's machine, and of each connection, also of one that the schedule touched: a node that serves a request
/// from its disk took the connection, and behind that its disk read a job of its own for this request. One that serves a request from
/// another node took the connection in an epoch, and behind that a content of this connection, epoch and request came to it from
/// there.
pub fn contents_were_there()
    ensures came { ContentsWereThere }
{}

/// In every run of the cluster's machine, whatever is lost, repeated or comes out of order, and of each connection that the schedule
/// did not touch: a first assignment stands behind the answers to all that was assigned before, has the number of the response that is
/// next, and is for the path of the request that this answers. And each job of a disk is for the path of the request that it names,
/// counted among all that the client wrote, whether the request is the node's own or came in the Fetch of another one.
pub fn requests_are_named()
    ensures names { JournalsNameRequests }
{}

/// In every run of the cluster's machine, whatever is lost, repeated or comes out of order, and of each connection that the schedule
/// did not touch: a request for a file is answered by the connection's home, the node of its last first assignment, and each other one
/// by the place that owns the connection.
pub fn the_home_answers_for_files()
    ensures answers { PlacesAnswer }
{}

/// In every run of the cluster's machine, whatever is lost, repeated or comes out of order, and of each connection that the schedule
/// did not touch: before a response from the cache the node's cache was hit for the path of that request. Before one from the disk a
/// job of the node for that request and for its path was queued, and behind that its disk read one. Before a response with the
/// content of another node a content came from there, for that request, and it is the file of its path. Each stands behind what told
/// the node where the request is assigned. The record that assigns it, the k-th assignment for the k-th request for a file, is for its
/// path and to the node from which the content came. Of the first one the node is told as it takes the connection. A later one is made
/// for an Ask, and the node is told by a Tag with the number of that Ask, which comes behind the record that it took the connection
/// and in the epoch of that.
pub fn responses_are_backed()
    ensures backed { ResponsesAreBacked }
{}

/// In every run of the cluster's machine, whatever is lost, repeated or comes out of order, and of each connection that the schedule
/// did not touch: a job of a node itself is queued, and is read, only behind what told the node where its request is assigned. The
/// record that assigns it, the k-th assignment for the k-th request for a file, is for the path of the job.
pub fn jobs_start_when_told()
    ensures starts { JobsStartWhenTold }
{}

/// In every run of the cluster's machine, whatever is lost, repeated or comes out of order, and of every connection: a job that a
/// node's disk is given is the node's own, or in the step in which it is queued a Fetch of the node that it is for comes, of this
/// request of this connection and for this path.
pub fn jobs_are_asked()
    ensures queues { JobsAreAsked }
{}

/// In every run of the cluster's machine, whatever is lost, repeated or comes out of order, and of each connection that the schedule
/// did not touch: an Ask, in the step in which a node sends it first, tells of the batch of requests that the node read last. Which
/// batch that is follows from the journal. A batch is what stands next of the requests that are complete in what the cluster has
/// acknowledged to the client, at most eight, and a node reads the next one once all of the last are answered. So, step by step, it
/// is told how many requests were read. All that were read before the step of the Ask are answered in it, and its batch stands
/// behind whole batches of eight that were read and answered in it, and is not answered whole. The size of the Ask is how many
/// requests the batch has, and its paths are those of its requests for files, in order, but for the first since a node took the
/// connection last: that one was assigned with the connection.
pub fn batches_have_their_size()
    ensures { BatchesHaveTheirSize }
{}

/// In every run of the cluster's machine, with a configuration that may be used, and as long as the schedule did not touch the
/// connection: the last Tag names nodes that are there, and as many as the requests that wait for it.
pub fn tags_name_nodes()
    ensures { ConnectionsNameNodes }
{}

/// In every run of the cluster's machine, with a configuration that may be used, and also of connections that the schedule touched:
/// each job of a disk is for a node that decided its connection in the epoch of the job, or in a later one. So while a node has the
/// connection in that epoch, the job is for that node.
pub fn jobs_come_from_home()
    ensures { JobsComeFromHome }
{}

/// In every run of the cluster's machine, with a configuration that may be used, and also of connections that the schedule touched. A
/// first assignment is to a node that was not closed. A node that decided a connection is closed, but where the connection is there,
/// on its way there, or over. So the node to which a connection goes knows nothing of it, until it decides just this epoch.
pub fn connections_go_to_new_nodes()
    ensures firsts { FirstsAreOpen }
    ensures past { PastIsClosed }
    ensures goes { ConnectionsGoToNew }
{}

/// In every run of the cluster's machine, and also of connections that the schedule touched: no two nodes decide a connection in the
/// same epoch; and a node tells the end of a stay only where the connection is there in its epoch, or was closed by that end.
pub fn an_epoch_is_of_one_node()
    ensures epochs { EachEpochIsOfOneNode }
    ensures ends { EachEndIsOfItsStay }
{}

/// In every run of the cluster's machine, of each connection that the schedule did not touch by a packet of its own: a client
/// acknowledges no more than it took, and resets only where it aborted; the place that has the connection, all its packets and
/// what is forwarded to a node acknowledge no more of the client's than was taken; and what is taken stays taken where the
/// connection moves.
pub fn what_was_acknowledged_was_taken()
    ensures { ConnectionsAckWhatWasTaken }
{}

/// In every run of the cluster's machine, of each connection that the schedule did not touch by a packet of its own: where the
/// front end keeps the last numbers of one that both sides closed, or a node tells them of a stay whose end the front end does not
/// know, there was an endpoint with these numbers that both sides had closed. It had taken all that the client wrote, answered all
/// of it, and had all that it said acknowledged.
pub fn what_ended_had_closed()
    ensures { ConnectionsWereClosed }
{}

/// In every run of the cluster's machine, of a connection that the schedule did not touch: each segment to the client but a reset
/// tells a window that ends at 16,384 bytes at least from the client's first number, and so does what an established client knows
/// of it; and where the front end or a node has the endpoint, the client took no more symbols than that sent, and no segment has more.
pub fn windows_reach()
    ensures { WindowsReach }
{}

/// In every run of the cluster's machine, of a connection that the schedule did not touch: no segment of the client but a reset has a
/// number beyond the symbols that the client has; where there is a reset the client is open no more, the reset has no symbol, and one
/// without ACK has the number that a segment to the client acknowledged.
pub fn words_fit()
    ensures { WordsFit }
{}

/// In every run of the cluster's machine, and also of a connection that the schedule touched: the bytes that the front end forwards
/// to a node are those of a packet from the client.
pub fn forwards_come_from_clients()
    ensures { ForwardsComeFromClients }
{}

/// In every run of the cluster's machine, of a connection that the schedule did not touch: a segment to the client that resets and has
/// no ACK has no symbol, and the number that a segment of the client acknowledged.
pub fn refusals_answer()
    ensures { RefusalsAnswer }
{}

/// In every run of the cluster's machine, of a connection that the schedule did not touch: its client has a window, and sent its SYN
/// alone as long as that is not acknowledged.
pub fn clients_start()
    ensures { ClientsStart }
{}

/// In every run of the cluster's machine, of a connection that the schedule did not touch: where its client is open and its SYN is
/// not acknowledged, the front end has its endpoint if any, which took the SYN alone; no node has one, and nothing was said between
/// the front end and the nodes.
pub fn open_clients_sent_their_syn()
    ensures { OpenClientsSentTheirSyn }
{}

/// In every run of the cluster's machine, in each state: where all that a client sent is acknowledged, and the place that has its
/// connection has all that it sent acknowledged and awaits nothing for its next request, the client accepted all responses to
/// what it wrote, and took the end of its stream where the last of them closes or its own side was closed. Those that a client
/// aborted, the stream limit reset or the schedule touched by a packet of its own are left out.
pub fn resting_connections_are_complete()
    ensures { RestingIsComplete }
{}

/// In every run of the cluster's machine, in each state: a connection that opened and of which no timer runs anywhere, by the
/// journal, is complete, or waits at the front end to be admitted, or its next request awaits the disk of the node that has it. The
/// same are left out.
pub fn quiet_connections_are_complete_or_are_held_up()
    ensures { QuietIsCompleteOrElse }
{}

/// In every run of the cluster's machine whose configuration may be used, at the end of each step and by the journal alone: a
/// connection that opened, of which no timer runs anywhere and for which no job waits at a disk, is complete, or in the line while
/// as many are admitted as there is room for. The same are left out.
pub fn quiet_connections_are_complete_or_in_line()
    ensures { JournalsComplete }
{}

/// In every state that events lead to, and also of a connection that the schedule touched: what a node asked for and has not got was
/// sent, and no answer came behind that. Where requests of a batch have no node yet, the last Ask of the stay names them, and no Tag
/// with its number and a node for each of its paths came to the node behind it; and for each Fetch that it keeps no Content came there
/// from the node that it asked.
pub fn what_is_awaited_has_not_come()
    ensures { ConnectionsAwaitAnswers }
{}

/// In every run of the cluster's machine whose configuration may be used, at the end of each step and by the journal alone: where the
/// cluster acknowledged more requests of a client than it answered, the next response is not due, however long it is. Where a place
/// has the connection, that request is for a file. At the front end something that was sent is not acknowledged yet, or the connection
/// is in the line; at a node an Ask awaits its Tag, a job waits at the disk, or a Fetch awaits its Content. While nobody has it, its
/// Offer or its Ended is told on. Left out is a connection that its client aborted, the stream limit reset, or the schedule touched:
/// so a reset stands wherever it has to (RFC 9112, 9.3.2).
pub fn no_response_is_due_at_the_end_of_a_step()
    ensures { JournalsAnswerWhatIsDue }
{}

/// In every run of the cluster's machine, whatever is lost, repeated or comes out of order, and wherever connections move, the
/// journal obeys each of these laws, also before its last step is done.
pub fn every_journal_is_lawful()
    ensures laws { JournalsAreLawful }
{}

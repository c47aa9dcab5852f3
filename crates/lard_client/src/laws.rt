//! What holds of all that a client accepts.

ghost use Rattle.lard_client.specs.Laws.{ArrivalsAreInOrder, AcceptedStaysBounded, EndedTakesNothing, RepliesByTheirCause, TrueSegmentsAreAccepted, ClientEmittedStaysInTheWindow, ClientWindowIsNotTakenBack, ClientSegmentsTellTheWindow};

/// What a client accepts is exactly the part of each segment that begins at the awaited number and for which there is
/// room, and it counts: nothing is left out and nothing is taken twice (RFC 9293, 3.10.7.4). No more than 2^30 bytes
/// are accepted, and a client that was aborted or reset accepts nothing. Only one that was aborted replies.
pub fn accepted_bytes_are_in_order()
    ensures order { ArrivalsAreInOrder }
    ensures bounded { AcceptedStaysBounded }
    ensures ended { EndedTakesNothing }
    ensures replies { RepliesByTheirCause }
{}

/// Of a segment that tells the truth about the bytes of the cluster, a client accepts those behind the ones that it
/// accepted before, all for which there is room, and it takes the FIN behind all of them.
pub fn true_segments_are_accepted()
    ensures { TrueSegmentsAreAccepted }
{}

/// What is emitted lies in the window of the cluster, and no segment takes back the window that an earlier one told
/// (RFC 9293, 3.4 and 3.8.6).
pub fn windows_are_kept()
    ensures sending { ClientEmittedStaysInTheWindow }
    ensures receiving { ClientWindowIsNotTakenBack }
    ensures telling { ClientSegmentsTellTheWindow }
{}

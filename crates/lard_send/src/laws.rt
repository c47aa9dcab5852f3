//! What holds of all bytes that were queued over a connection, which no half keeps, and of all that is sent.

ghost use Rattle.lard_send.specs.Send.{QueueingKeepsThePart, AckKeepsThePart, SendingKeepsThePart, PiecesAreParts, FirstsAreAllowed};

/// What `fill` writes is the part of all queued bytes that stands at the piece's place.
pub fn pieces_are_parts_of_the_queue()
    ensures queueing { QueueingKeepsThePart }
    ensures acknowledging { AckKeepsThePart }
    ensures sending { SendingKeepsThePart }
    ensures pieces { PiecesAreParts }
{}

/// What is sent for the first time lies below UNA plus the peer's window, and fits a segment of the peer (RFC 9293, 3.4
/// and 3.7.1).
pub fn firsts_stay_in_the_window()
    ensures { FirstsAreAllowed }
{}

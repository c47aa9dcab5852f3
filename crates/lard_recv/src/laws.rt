//! What holds of all bytes that came over a connection, which no half keeps, and of the windows that were offered.

ghost use Rattle.lard_recv.specs.Recv.{ArrivalKeepsThePart, ReadingKeepsThePart, ArrivalTakesNoWindowBack, ReadingTakesNoWindowBack};

/// What is unread is the part of the bytes that came, in order, which was not consumed.
pub fn unread_is_the_unused_part()
    ensures arrival { ArrivalKeepsThePart }
    ensures reading { ReadingKeepsThePart }
{}

/// The window's end, RCV.NXT and RCV.WND together, never moves back: bytes for which there was room find it
/// (RFC 9293, 3.8.6).
pub fn window_is_not_taken_back()
    ensures arrival { ArrivalTakesNoWindowBack }
    ensures reading { ReadingTakesNoWindowBack }
{}

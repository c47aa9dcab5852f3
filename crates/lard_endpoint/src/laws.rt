//! What holds of endpoints over all their calls, for those who compose them.

ghost use Rattle.lard_endpoint.specs.Laws.{LaterIsTheDifference, EarlierIsTheComplement, AheadIsInTheWindow, FreshIsThePart, FinComesLast, ListeningIsSound, ArrivingKeeps, LeavingKeeps, QueueingKeeps, FinishingKeeps, ReadingKeeps, AdoptionIsSound, TimerIsForTheRest, SilenceOwesNothing, PartsAreValid, AdoptionGoesOn, EmittedStaysInTheWindow, WindowIsNotTakenBack, SegmentsTellTheWindow};

/// Numbers of one direction of a connection differ as their offsets do (RFC 9293, 3.4).
pub fn numbers_differ_as_offsets()
    ensures later { LaterIsTheDifference }
    ensures earlier { EarlierIsTheComplement }
{}

/// What begins after RCV.NXT is seen by its first number, in the window.
pub fn ahead_is_in_the_window()
    ensures { AheadIsInTheWindow }
{}

/// Of a true segment exactly those bytes are taken that stand at the place that is awaited, and the FIN behind all
/// bytes (RFC 9293, 3.10.7.4, seventh and eighth).
pub fn what_is_taken_is_the_part()
    ensures bytes { FreshIsThePart }
    ensures fin { FinComesLast }
{}

/// Both directions of every connection stay within 2^30 bytes, whatever arrives.
pub fn both_directions_stay_bounded()
    ensures listening { ListeningIsSound }
    ensures arriving { ArrivingKeeps }
    ensures leaving { LeavingKeeps }
    ensures queueing { QueueingKeeps }
    ensures finishing { FinishingKeeps }
    ensures reading { ReadingKeeps }
    ensures adopting { AdoptionIsSound }
{}

/// What an endpoint says when it sends nothing: its timer sends exactly where some symbol is not acknowledged, and
/// where nothing is emitted no ACK is owed and nothing may be sent.
pub fn silence_means_something()
    ensures timer { TimerIsForTheRest }
    ensures emit { SilenceOwesNothing }
{}

/// What is emitted lies in the window of the peer, and no segment takes back the window that an earlier one told
/// (RFC 9293, 3.4 and 3.8.6).
pub fn windows_are_kept()
    ensures sending { EmittedStaysInTheWindow }
    ensures receiving { WindowIsNotTakenBack }
    ensures telling { SegmentsTellTheWindow }
{}

/// An endpoint that is adopted from the parts of a frozen one goes on where that stood.
pub fn adoption_goes_on()
    ensures valid { PartsAreValid }
    ensures same { AdoptionGoesOn }
{}

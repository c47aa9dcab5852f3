//! What holds of contents that are awaited.

ghost use Rattle.lard_lateral.specs.Laws.{AwaitsWhatIsWanted, AwaitsItOnce};

/// What is wanted of a node in an epoch is awaited from that node in that epoch, and from no other.
pub fn awaits_what_is_wanted()
    ensures { AwaitsWhatIsWanted }
{}

/// A content that came is awaited no more.
pub fn awaits_it_once()
    ensures { AwaitsItOnce }
{}

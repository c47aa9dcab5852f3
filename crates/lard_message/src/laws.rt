//! What holds of writing and reading together. A further version changes none of it.

ghost use Rattle.lard_message.specs.Laws.{ReadsAgain, ReadsWhatIsSpelled, NamesTheFirstFault, SpellsOneMessage, NoneBeginsAnother, FitsAPacket};

/// What was written is read again.
pub fn reads_again()
    ensures { ReadsAgain }
{}

/// What is read is spelled so, each byte of it.
pub fn reads_what_is_spelled()
    ensures { ReadsWhatIsSpelled }
{}

/// A fault is the first that applies.
pub fn names_the_first_fault()
    ensures { NamesTheFirstFault }
{}

/// Two messages have two spellings.
pub fn spells_one_message()
    ensures { SpellsOneMessage }
{}

/// No spelling is a proper prefix of another.
pub fn none_begins_another()
    ensures { NoneBeginsAnother }
{}

/// A spelling is no longer than a packet may be.
pub fn fits_a_packet()
    ensures { FitsAPacket }
{}

//! An agenda is what the journal says.

ghost use Rattle.lard_agenda.specs.Laws.{AgendasAreOfTheirJournals, AgendasBegin, AgendasGoOn, AgendasKeepNothingIdle, AgendasListHolders, AgendasListPackets, AgendasListTimers, AgendasRest, AgendasTellFewTimers, AgendasTellHolders, AgendasTellPackets, AgendasTellTimers};

/// The packets of a journal's agenda are those that were sent, and neither got nor lost since.
pub fn agendas_tell_packets()
    ensures { AgendasTellPackets }
{}

/// What is kept at a seat is which timers of its connection run at its place, where the records of timers name nodes up
/// to 64 and connections below 2^16; and nothing is kept where none runs. Where these seats are below 2^32, no more
/// than six times as many timers run.
pub fn agendas_tell_timers()
    ensures timers { AgendasTellTimers }
    ensures idle { AgendasKeepNothingIdle }
    ensures few { AgendasTellFewTimers }
{}

/// The clients of a journal's agenda are those whose last `hold` or `take` is `hold`.
pub fn agendas_tell_holders()
    ensures { AgendasTellHolders }
{}

/// What an agenda lists is what the journal tells: packets that are on their way, clients that hold, and places and connections of
/// which a timer runs that is not stalled; and there are none of these exactly where each timer that runs is stalled.
pub fn agendas_list_what_is_told()
    ensures packets { AgendasListPackets }
    ensures holders { AgendasListHolders }
    ensures timers { AgendasListTimers }
    ensures rest { AgendasRest }
{}

/// An agenda that has noted nothing is one of each journal, an agenda of a journal is one of each journal that goes on
/// from there, and one that has noted all records is of it.
pub fn agendas_go_on()
    ensures begin { AgendasBegin }
    ensures more { AgendasGoOn }
    ensures all { AgendasAreOfTheirJournals }
{}

//! What holds after any number of calls.

ghost use Rattle.lard_dispatch.specs.Laws.{AdmitsWithinTheRoom, WaitsForRoomAlone};
ghost use Rattle.lard_dispatch.specs.Loads.{FewAreHighWhileNoneIsLow, LoadsAddUp, LoadsAreCharges, NoLoadExceedsTheRoom, NoLoadExceedsTheThresholds, NoNodeHasTooMany, SharesAreWithinWholes};

/// At no moment are more connections admitted than there is room for.
pub fn admission_is_bounded()
    ensures { AdmitsWithinTheRoom }
{}

/// Somebody waits only while as many are admitted as there is room for; nobody waits who is admitted, and nobody twice.
pub fn the_line_waits_for_room()
    ensures { WaitsForRoomAlone }
{}

/// The loads are those of the calls of the loads that were made: each is what the charges add up to that are open there.
pub fn loads_are_those_of_the_calls()
    ensures { LoadsAreCharges }
{}

/// All loads together are 840 for each admitted connection and the units of the open shares, which are at most 840 for each.
pub fn loads_and_shares_add_up()
    ensures all { LoadsAddUp }
    ensures shares { SharesAreWithinWholes }
{}

/// The greatest load is at most 840 for each admitted connection, of which there are no more than there is room for. While
/// no node is closed, it is at most a connection above the greatest of twice `high`, `over` and `idle`.
pub fn the_greatest_load_is_bounded()
    ensures room { NoLoadExceedsTheRoom }
    ensures thresholds { NoLoadExceedsTheThresholds }
{}

/// Connections at their homes, without shares: while no node is closed, none has more than twice `high`; and while none has
/// fewer than `low`, at least two have fewer than `high`.
pub fn connections_keep_to_the_thresholds()
    ensures most { NoNodeHasTooMany }
    ensures few { FewAreHighWhileNoneIsLow }
{}

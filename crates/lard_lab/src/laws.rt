//! What holds of every lab.

ghost use Rattle.lard_lab.specs.Laws.{CachesAreApart, PathsKeepTheirNode, RoomIsKept, ServersAreKept, TellsTheReport, TotalsAddUp};

/// What the heading, the calls of a trace and the totals answer is the trace's report.
pub fn the_report_is_told()
    ensures { TellsTheReport }
{}

/// What is kept and counted of each node is that of its subtrace alone.
pub fn caches_are_apart()
    ensures { CachesAreApart }
{}

/// The requests are those that were assigned to nodes and the full ones, and no more hit than were assigned.
pub fn totals_add_up()
    ensures { TotalsAddUp }
{}

/// No more requests are open than there is room for.
pub fn room_is_kept()
    ensures { RoomIsKept }
{}

/// By hash all requests for a path that are not full go to one node.
pub fn a_path_keeps_its_node()
    ensures { PathsKeepTheirNode }
{}

/// In basic LARD the node of a target's last request is its server, and the next one goes there unless that is overloaded.
pub fn a_server_is_kept()
    ensures { ServersAreKept }
{}

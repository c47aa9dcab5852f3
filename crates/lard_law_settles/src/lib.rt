//! Laws of settles: why one may stop before its end, how much it leaves, and that they stand in order (`Settles`); which inner steps one
//! takes, in rounds (`Rounds`); what it leaves where nothing is left to do (`Done`); and that enough rounds settle.
//!
//! For the last the machine within a settle is one that goes on by rounds (`lard_rounds`): what is left to do, counted in units
//! (`lard_bound`), goes down within a few rounds, and while there is no unit that goes, what is on its way comes nearer to one
//! (`lard_law_progress`). What the rules rest on there is `Known` of each connection that the schedule did not touch, and what a step does to all
//! connections is their `Course`; both together are `Enough`. It has no code.
#![tactic(auto)]

ghost use Rattle.lard_law_settles.specs.CourseLaws.{ClusterComesToRest};
ghost use Rattle.lard_law_settles.specs.DoneLaws.{SettledRunsAreDone, WrittenOutTellsTheSame};
ghost use Rattle.lard_law_settles.specs.EnoughLaws.{RunsSettle, SettlesEndQuiet, SettlesRest};
ghost use Rattle.lard_law_settles.specs.KnownLaws.{EachConnectionIsKnown};
ghost use Rattle.lard_law_settles.specs.RoundsLaws.{RunsTakeRounds};
ghost use Rattle.lard_law_settles.specs.SettlesFew.{FewAreLeft};
ghost use Rattle.lard_law_settles.specs.SettlesOrder.{RunsSettleInOrder};
ghost use Rattle.lard_law_settles.specs.SettlesStops.{CompletionsStopAtLimits, DeliveriesStopAtLimits, FiringsStopAtLimits, SettlesStopAtLimits, TakesStopAtLimits};

/// Inner steps of each kind, as a settle takes them from any state that a run leads to, are all done, or stop at a limit: no packet
/// that is delivered is unknown or lost, no client that takes or fires is unknown, and no node and no job is missing.
pub fn inner_steps_stop_at_limits_alone()
    ensures takes { TakesStopAtLimits }
    ensures deliveries { DeliveriesStopAtLimits }
    ensures completions { CompletionsStopAtLimits }
    ensures firings { FiringsStopAtLimits }
{}

/// A settle that does not come to its end stopped at a limit of the run, whatever was lost, repeated or injected before.
pub fn settles_stop_at_limits_alone()
    ensures settles { SettlesStopAtLimits }
{}

/// In each state of a run fewer than 2^40 timers run and jobs wait: at each seat six timers at most, and at each node fewer than 2^31
/// jobs. So what a settle leaves is a number of 64 bits.
pub fn few_are_left()
    ensures few { FewAreLeft }
{}

/// In every journal each inner step stands between the event and the closing record of its settle, where no event of the schedule
/// stands; and a settle that left something did as many rounds as it was allowed.
pub fn runs_settle_in_order()
    ensures order { RunsSettleInOrder }
{}

/// In every journal, behind the event of a settle each client that holds takes, and rounds follow as long as anything is left, as many as
/// the event names at most: in each all is delivered that was on its way, each node completes its jobs, and where there was nothing of
/// either, the timers fire. The closing record tells how many rounds there were, and how many timers and jobs are left. The last settle
/// may be open: then what stands of it begins so.
pub fn settles_take_rounds()
    ensures rounds { RunsTakeRounds }
{}

/// The folds of a journal, as who owns a connection, who is admitted, the loads, which nodes are closed, and what was written, served and
/// accepted, say the same of it with its settles written out.
pub fn written_out_tells_the_same()
    ensures same { WrittenOutTellsTheSame }
{}

/// In every journal, where a settle tells that nothing is left, of each connection that opened no timer runs but those that are stalled,
/// and no job waits for it; and it is complete, or in the line at a full room, unless its client aborted it, the stream limit reset it, or
/// the schedule touched it.
pub fn settled_runs_are_done()
    ensures done { SettledRunsAreDone }
{}

/// In every run of the cluster's machine, of each connection that the schedule did not touch and whose client opened: no more is
/// acknowledged than was said and taken, no more requests were read than there are, each node decided of no later epoch than the front end
/// is in, whoever has the connection was offered it, an Offer that comes new is the one that is awaited, and an end that comes new is of a
/// stay that is over.
pub fn each_connection_is_known()
    ensures { EachConnectionIsKnown }
{}

/// Where each step of the cluster's machine owes what rounds ask for, it is quiet after nine rounds for each unit that is left to do,
/// and nine more.
pub fn the_cluster_comes_to_rest()
    ensures { ClusterComesToRest }
{}

/// A settle with as many rounds as the bound of its journal ends with nothing left to do, where no packet was put on the way in a client's
/// name and each client wrote fewer than 16,383 bytes: no job waits then, and no timer runs but those that are stalled. So a journal tells that something was left only where that is not so, or where the
/// settle did fewer rounds.
pub fn enough_rounds_settle()
    ensures settles { SettlesEndQuiet }
    ensures rests { SettlesRest }
    ensures runs { RunsSettle }
{}

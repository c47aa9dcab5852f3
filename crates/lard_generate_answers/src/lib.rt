//! What is counted of a generated run is all that its clients are answered. Definitions and a law, without code.
//!
//! It stands above the law of settles that leave nothing (`lard_law_settles`), the laws of a journal (`lard_laws`), and the events
//! of a generated schedule (`lard_generate_bound`). Each client is complete then, since the limit resets none and none is in the line; and
//! what a journal counts is what it says of its clients together.
#![tactic(auto)]

ghost use Rattle.lard_generate_answers.specs.Laws.{GeneratedRunsAnswerAll};

/// Where all events of a generated schedule were done and its settle ended with nothing left to do, the requests that are counted of the
/// journal are as many as there are responses to what the schedule has its clients write, and the accepted bytes that are counted are as
/// many as these have. So it is in each cluster that has room for more than the clients, and a stream limit of 2^28 bytes or more.
pub fn generated_runs_answer_all()
    ensures { GeneratedRunsAnswerAll }
{}

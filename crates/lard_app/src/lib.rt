//! The top call `run`: it reads a schedule, replays it through the core, and writes the report; or it replays a generated schedule
//! and writes four lines of what is counted; or it runs a trace through a policy of the lab; or it audits a report. `flush_report`
//! passes on what a sink of standard output still holds back behind it.
//!
//! It stands at the top of the path. `run` reads its words and the input, the reader of `lard_schedule` makes an item
//! of each line, the world of `lard_world` does the step of an event, or `lard_settle` the steps of a settle, and their
//! records go to the sink as lines. `lard_generate` makes the generated schedule, and `lard_summary` counts its journal.
#![tactic(auto)]

mod audits;
mod commands;
mod flush;
mod generating;
mod happening;
mod labs;
mod replay;
mod status;
mod words;

pub use commands::run;
pub use flush::flush_report;
pub use lard_audit::Rule;
pub use lard_files::FileFault;
pub use lard_rules::{Refusal, What};
pub use status::{Status, Why};

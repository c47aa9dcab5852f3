//! The policy lab over an input: it reads a trace line by line, as a replay reads a schedule, and writes the report of `lard_lab`.
//!
//! `lard_lines` cuts the input into lines, whose words are read with `lard_schedule`'s; what the lines do is `lard_lab`'s. The
//! program's command `lab` is `run_lab`, whose clause is one record, `LabRan`.
#![tactic(auto)]

mod command;
mod end;
mod item;
mod reading;
mod trial;

pub use command::run_lab;
pub use end::{LabEnd, LabLimit, LabWhy};
pub use item::Item;
pub use reading::feed_line;
pub use trial::Trial;

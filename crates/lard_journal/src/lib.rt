//! The journal of a run, the list of all its records, and the report, their one text.
//!
//! It stands in the middle of the path: each step of the world appends its records to the `Journal`, and
//! `lard_app::run` writes the line of each to its sink, by `push_line`, behind the heading and the lines of the files.
#![tactic(auto)]

mod event;
pub mod journal;
pub mod lines;
pub mod preface;
pub mod rec;
pub mod report;
mod text;

pub use journal::Journal;
pub use lines::{line, push_line};
pub use preface::{file_line, heading};
pub use rec::{Rec, Recs};
pub use report::{report_grows, report_tells_all};

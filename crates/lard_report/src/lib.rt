//! The reading of a report, line by line: what each of its lines stands for.
//!
//! It stands beside the main path, above `lard_journal`, whose lines it reads, and `lard_schedule`, whose events stand in
//! them. Whoever judges a report is to feed it here; nothing of what a record means is known here.
#![tactic(auto)]

mod forms;
mod kinds;
pub mod laws;
mod parts;
mod preface;
mod records;
mod widths;

pub use preface::{Heading, read_file, read_heading};
pub use records::read_record;
pub use widths::have_widths;

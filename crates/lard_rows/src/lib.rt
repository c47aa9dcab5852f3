//! Worked rows over `run`: an input, the status and the report that it must give.
//!
//! It stands above the whole path and calls `lard_app::run`, over the source and the sink in memory and over two that move
//! one byte at a time. Beside that it has the one test of two leaves together: the files and the sending halves.
#![tactic(auto)]

#[cfg(test)]
mod audit;
#[cfg(test)]
mod held_once;
#[cfg(test)]
mod hostile;
#[cfg(test)]
mod lab;
pub mod later;
pub mod limits;
pub mod moves;
pub mod report;
pub mod rows;
pub mod settles;
pub mod slow;
#[cfg(test)]
mod tests;

//! The lines of an input, found one at a time: what is held is one line and one piece.
//!
//! It stands above `lard_base`, whose sources it reads in pieces. The top call takes line after line from it, and it reads
//! on only where no whole line is at hand.
#![tactic(auto)]

mod lines;

pub use lines::Lines;

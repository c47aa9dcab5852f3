//! How one block is judged: which request it is, or which fault it is answered with (RFC 9112, 3 and 5).
//!
//! It stands between `lard_block`, which cuts the block, and `lard_response`, which writes the answer: `judge` reads the
//! block's head by `httparse`, keeps its fields by name in `http_header`'s map, and answers a `Verdict`.
#![tactic(auto)]

mod fields;
mod judgement;
pub mod laws;
mod lines;
mod target;
mod values;
mod verdict;

pub use judgement::judge;
pub use verdict::{Code, Verdict, Verdicts};

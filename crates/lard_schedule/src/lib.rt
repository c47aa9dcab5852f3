//! The reading of a schedule: what each of its lines stands for, with the whole grammar of lines.
//!
//! It stands above `lard_base`, whose events, keys and paths it makes of words, and calls `hex` for bytes. The top
//! feeds it the input line by line; nothing of what a line does is known here.
#![tactic(auto)]

pub mod events;
pub mod files;
mod item;
mod keys;
pub mod laws;
pub mod numbers;
mod reader;
mod verbs;
pub mod words;

pub use events::read_event;
pub use item::{Item, LineFault};
pub use keys::{Keys, key_word};
pub use reader::{Reader, Stage};
pub use words::first_word;

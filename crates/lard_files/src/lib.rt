//! The files of a run: what each path holds.
//!
//! It stands above `lard_base` and `lard_shared`: a schedule's `file` lines go through `Files::add`, and the front end and
//! the nodes ask `Files::get` for the bytes of a path, or `Files::share` for what is to be sent of them without a copy. It
//! never changes once the run goes.
#![tactic(auto)]

mod fault;
mod files;

pub use fault::FileFault;
pub use files::Files;

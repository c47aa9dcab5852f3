//! The requests of a stay at a node: how they are read, started where they are assigned, and served in their order.
//!
//! It stands above `lard_serving`, which answers one request, and follows the rules of `lard_rules`. A node calls it for
//! each connection that is here, with the endpoint in hand, and puts the endpoint and what is left of the stay back.
#![tactic(auto)]

mod coming;
mod paths;
mod starting;
mod turns;
mod work;

pub use coming::{come, complete, tag};
pub use paths::count_named;
pub use turns::{begin, go_on, is_to_read};
pub use work::{Env, Work};

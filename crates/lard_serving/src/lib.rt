//! What a place of the cluster does with an endpoint, whichever place it is: it answers requests, sends what it may,
//! and ends the connection at the stream limit.
//!
//! It stands above the endpoint and the answering of requests, and follows the rules of `lard_rules`. The front end
//! calls it for each connection that it holds, and a node for each that stays there. A file's bytes are not copied into
//! a response: `outgoing` queues them behind its head.
#![tactic(auto)]

pub mod answering;
pub mod ending;
pub mod outgoing;
pub mod speaking;
pub mod turns;

pub use answering::{Env, Service, answer, end_at_fin, may_read};
pub use ending::{Ends, is_armed, settled, spoken, told};
pub use speaking::{packet, ready_of, speak, speak_symbols, to_client};
pub use turns::{nothing, out_of, silent};

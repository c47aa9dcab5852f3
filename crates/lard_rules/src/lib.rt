//! The rules of the cluster as definitions over plain data: what a client, the front end and a node do for one connection and in a step,
//! and the machine that is made of them, one step of the whole as a function of its state and the event. The types of what a place keeps of
//! a connection, of what comes to it, and of its turn are declared here.
//!
//! It stands above the endpoint, the client, the tables, the dispatcher, the stores and the messages, whose definitions its rules are made
//! of. The code of each place and of the whole follows it, and the laws of every run speak of it; neither stands on the other.
#![tactic(auto)]

pub mod fault;
pub mod front;
pub mod limits;
pub mod machine;
pub mod node;
pub mod nodes;
pub mod places;
pub mod stay;

pub use fault::{Refusal, StepFault, What};
pub use front::{FrontIn, FrontRest, FrontState, FrontTurn};
pub use limits::first_limit;
pub use machine::Machine;
pub use node::{BackIn, NodeState, NodeTurn};
pub use nodes::NodeList;
pub use places::{Ending, Out, Station, Turn};
pub use stay::{Asked, Entry, Next, Progress, Stay, Want};

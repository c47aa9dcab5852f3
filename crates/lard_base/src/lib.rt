//! Plain types that every part of the cluster speaks of, and the traits through which it meets the outside.
//!
//! It stands at the bottom of the path: `lard_app::run` reads a `Source`, makes an `Event` of each line,
//! and writes to a `Sink`; all that lies between names connections, nodes and bytes by the types of this crate.
#![tactic(auto)]

pub mod bytes;
pub mod config;
pub mod errors;
pub mod event;
pub mod ids;
pub mod input;
pub mod items;
pub mod limits;
pub mod members;
pub mod memory;
pub mod outside;
pub mod parts;
pub mod place;
pub mod standard;
pub mod sure;

pub use bytes::{Bytes, Path};
pub use config::{Config, ConfigFault, Key};
pub use errors::{Failed, NoMemory};
pub use event::Event;
pub use ids::{ConnId, Epoch, Millis, NodeId};
pub use input::{InputFault, read_up_to};
pub use items::{Calls, Events, Items, Nodes, Paths, Sends};
pub use members::Members;
pub use memory::{MemSink, MemSource};
pub use outside::{Sink, Source, write_all};
pub use parts::EndpointParts;
pub use place::{Place, Reason, TimerKind, Via};
pub use standard::{StdSink, StdSource};
pub use sure::{SureSink, SureSource};

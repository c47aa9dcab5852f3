//! The steps of the whole cluster: the code that follows the machine of `lard_rules`, event by event.
//!
//! It stands above a client's place, the front end, a node, the network and the journal, and on no law. `lard_world` calls it
//! for each event, and promises the laws of what it did.
#![tactic(auto)]

mod acting;
mod disks;
mod nodes;
mod packets;
mod places;
pub mod settling;
mod stations;
pub mod steps;

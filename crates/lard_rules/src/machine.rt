//! The state of the whole.

use crate::front::FrontState;
use crate::nodes::NodeList;
use crate::places::Station;
use lard_base::Config;
use lard_files::Files;
use lard_journal::Journal;
use lard_net::Net;
use lard_table::Table;

/// The state of the whole. Connections are kept by their numbers.
pub struct Machine {
    /// The numbers of the run. They never change.
    pub config: Config,
    /// The files that requests are answered with. They never change.
    pub files: Files,
    /// The clients that opened.
    pub clients: Table<Station>,
    /// What the front end keeps.
    pub front: FrontState,
    /// What each node keeps; node n is the n-th.
    pub nodes: NodeList,
    /// Every packet that was ever sent, lost or not.
    pub net: Net,
    /// The time, in milliseconds.
    pub now: u64,
    /// The bytes of all responses that were queued.
    pub answered: u64,
    /// How many events were passed.
    pub events: u64,
    /// All records so far.
    pub journal: Journal,
}

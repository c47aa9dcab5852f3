//! What is in hand of a stay.

ghost use Rattle.std.specs.Prelude.{◌≡◌, []};
ghost use Rattle.lard_endpoint.specs.Control.{ControlBlock};
ghost use Rattle.lard_rules.specs.Node.{work_of};
ghost use Rattle.lard_stay.specs.Work.{IsInHandSound, IsStaySound, work_seen};

use lard_base::{Epoch, Items, NodeId};
use lard_cache::Cache;
use lard_disk::Job;
use lard_rules::{Asked, Entry, Stay, Want};
use lard_serving::Service;
use std::alloc::Global;

/// What a stay rests on.
#[derive(Clone, Copy)]
pub struct Env<'a> {
    /// What serving rests on; the place that serves is the node.
    pub serve: lard_serving::Env<'a>,
    pub node: NodeId,
    /// The epoch of the stay.
    pub epoch: Epoch,
    pub cache: &'a Cache,
    /// How many jobs the node's disk had before the turn.
    pub queue: u32,
    /// The node takes nothing new, and gives back what it has.
    pub leaving: bool,
}

/// What is in hand beside the endpoint.
#[derive(Debug, Drop)]
pub struct Work {
    /// What was served.
    pub service: Service,
    /// The requests that were read and are not served, in order; the first has the number of responses + 1.
    pub batch: Items<Entry>,
    /// How many Asks were sent in this stay.
    pub asks: u32,
    /// The jobs that the disk is given in this turn.
    pub jobs: Items<Job>,
    /// The contents that are to be fetched.
    pub wants: Items<Want>,
    /// The Ask that is to be sent.
    pub asked: Option<Asked>,
}

impl Work {
    /// What is in hand of a stay; nothing was done in the turn yet.
    pub fn new(alloc: Global, stay: Stay) -> Work
        ensures seen { (b : ControlBlock) → work_seen b result ≡ work_of b stay }
        ensures sound { (b : ControlBlock) → IsStaySound b stay → IsInHandSound b result }
        ensures batch { result.batch ≡ stay.batch }
        ensures none { (result.jobs ≡ []) × (result.wants ≡ []) }
    {
        let Stay {
            served,
            batch,
            asks,
        } = stay;
        Work {
            service: Service::new(alloc, served),
            batch,
            asks,
            jobs: Items::new(alloc),
            wants: Items::new(alloc),
            asked: None,
        }
    }
}

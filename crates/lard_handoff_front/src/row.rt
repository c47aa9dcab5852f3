//! A connection's row: its stage and its epochs.

ghost use Rattle.std.specs.Prelude.{◌≡◌, is_some, None, Some};
ghost use Rattle.lard_handoff_front.specs.Row.{held_in, offered_to, is_away, is_waiting};

use lard_base::{Epoch, NodeId};
use lard_endpoint::{Endpoint, Final};

/// Where the endpoint of a connection is.
pub enum FrontConn {
    /// Here.
    Held(Endpoint),
    /// Here, and its first good request waits for room.
    Waiting(Endpoint),
    /// Taken out for a while.
    Lent,
    /// On its way to the node, which has not answered yet.
    Offering { node: NodeId, epoch: Epoch },
    /// At the node.
    Moved { node: NodeId, epoch: Epoch },
    /// Nowhere: the connection ended with these numbers.
    Closed(Final),
}

/// What is kept of a connection.
pub struct FrontRow {
    pub stage: FrontConn,
    /// The epoch of its present owner.
    pub epoch: Epoch,
    /// The epoch in which it ended at a node, if it did.
    pub ended_by: Option<Epoch>,
}

impl FrontConn {
    /// The endpoint that is here; `None` for a stage without an endpoint, which is gone.
    pub fn into_endpoint(self) -> Option<Endpoint>
        ensures { result ≡ held_in self }
    {
        match self {
            FrontConn::Held(endpoint) => return Some(endpoint),
            FrontConn::Waiting(endpoint) => return Some(endpoint),
            FrontConn::Lent => return None,
            FrontConn::Offering { node: _, epoch: _ } => return None,
            FrontConn::Moved { node: _, epoch: _ } => return None,
            FrontConn::Closed(_) => return None,
        }
    }

    /// Whether an endpoint is here.
    pub fn has_endpoint(&self) -> bool
        ensures { result ≡ is_some (held_in self.now) }
    {
        match self {
            FrontConn::Held(_) => true,
            FrontConn::Waiting(_) => true,
            FrontConn::Lent => false,
            FrontConn::Offering { .. } => false,
            FrontConn::Moved { .. } => false,
            FrontConn::Closed(_) => false,
        }
    }

    /// The node that has not answered the Offer of this epoch; `None` where no such Offer awaits its answer.
    pub fn offered_to(&self, epoch: Epoch) -> Option<NodeId>
        ensures { result ≡ offered_to epoch.0 self.now }
    {
        match self {
            FrontConn::Offering { node, epoch: own } => {
                if own.0 == epoch.0 {
                    return Some(*node);
                }
                return None;
            }
            FrontConn::Held(_) => return None,
            FrontConn::Waiting(_) => return None,
            FrontConn::Lent => return None,
            FrontConn::Moved { .. } => return None,
            FrontConn::Closed(_) => return None,
        }
    }

    /// Whether its endpoint is here and waits for room.
    pub fn is_waiting(&self) -> bool
        ensures { result ≡ is_waiting self.now }
    {
        match self {
            FrontConn::Waiting(_) => true,
            FrontConn::Held(_) => false,
            FrontConn::Lent => false,
            FrontConn::Offering { .. } => false,
            FrontConn::Moved { .. } => false,
            FrontConn::Closed(_) => false,
        }
    }

    /// Whether it is on its way to a node or there, in this epoch.
    pub fn is_away(&self, epoch: Epoch) -> bool
        ensures { result ≡ is_away epoch.0 self.now }
    {
        match self {
            FrontConn::Offering { epoch: own, .. } => own.0 == epoch.0,
            FrontConn::Moved { epoch: own, .. } => own.0 == epoch.0,
            FrontConn::Held(_) => false,
            FrontConn::Waiting(_) => false,
            FrontConn::Lent => false,
            FrontConn::Closed(_) => false,
        }
    }

    /// Spends the endpoint that is here, if one is.
    pub fn spend(self) {
        if let Some(endpoint) = self.into_endpoint() {
            let _last = endpoint.kill();
        }
    }
}

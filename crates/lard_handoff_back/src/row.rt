//! A connection's row: the stage of its stay, and the epoch of it.

ghost use Rattle.std.specs.Prelude.{◌≡◌, is_some};
ghost use Rattle.lard_handoff_back.specs.Row.{back_held, is_gone, is_ended};

use lard_base::Epoch;
use lard_endpoint::Endpoint;

/// Where the endpoint of a connection is.
pub enum BackConn {
    /// Here.
    Here(Endpoint),
    /// Taken out for a while.
    Out,
    /// Nowhere: it ended here, and the front end has not answered what told it how.
    Ended,
    /// Nowhere, and the front end knows it.
    Gone,
}

/// What is kept of a connection.
pub struct BackRow {
    pub stage: BackConn,
    /// The highest epoch in which it was offered to the node and decided: that of its stay.
    pub epoch: Epoch,
}

impl BackConn {
    /// The endpoint that is here; `None` for a stage without an endpoint, which is gone.
    pub fn into_endpoint(self) -> Option<Endpoint>
        ensures { result ≡ back_held self }
    {
        match self {
            BackConn::Here(endpoint) => return Some(endpoint),
            BackConn::Out => return None,
            BackConn::Ended => return None,
            BackConn::Gone => return None,
        }
    }

    /// Whether an endpoint is here.
    pub fn has_endpoint(&self) -> bool
        ensures { result ≡ is_some (back_held self.now) }
    {
        match self {
            BackConn::Here(_) => true,
            BackConn::Out => false,
            BackConn::Ended => false,
            BackConn::Gone => false,
        }
    }

    /// Whether the front end has not answered what told it how the stay ended.
    pub fn is_ended(&self) -> bool
        ensures { result ≡ is_ended self.now }
    {
        match self {
            BackConn::Ended => true,
            BackConn::Here(_) => false,
            BackConn::Out => false,
            BackConn::Gone => false,
        }
    }

    /// Whether the stay is over, and the front end knows it.
    pub fn is_gone(&self) -> bool
        ensures { result ≡ is_gone self.now }
    {
        match self {
            BackConn::Gone => true,
            BackConn::Here(_) => false,
            BackConn::Out => false,
            BackConn::Ended => false,
        }
    }

    /// Spends the endpoint that is here, if one is.
    pub fn spend(self) {
        if let Some(endpoint) = self.into_endpoint() {
            let _last = endpoint.kill();
        }
    }
}

//! Numbers of connections and nodes, epochs, and times.

ghost use Rattle.std.specs.Prelude.{◌≡◌, ◌≤◌, SomeIff};

use std::marker::Model;

/// The number of a connection, and of the client that opens it: 1 to 16,384.
#[derive(Clone, Copy, Debug, PartialEq, Eq, PartialOrd, Ord, Hash)]
pub struct ConnId {
    number: u32,
}

impl Model for ConnId {
    ghost use Rattle.std.specs.Prelude.{ℕ, ◌≤◌};
    ghost use Rattle.lard_base.specs.declared.ids.TheConstants.ConnId.{MAX};

    ghost Value = { ℕ };

    ghost view = { λ c. c.number };

    ghost inverse = { λ n. record { number = n } };

    ghost invariant = { λ c. (1 ≤ c.number) × (c.number ≤ MAX) };
}

impl ConnId {
    /// The greatest number of a connection.
    pub const MAX: u32 = 16_384;

    /// The connection with this number, 1 to 16,384; `None` for any other number.
    pub fn new(n: u32) -> Option<ConnId>
        ensures { SomeIff result ((1 ≤ n) × (n ≤ Self.MAX)) n }
    {
        if n >= 1 && n <= ConnId::MAX {
            Some(ConnId { number: n })
        } else {
            None
        }
    }

    /// Its number, 1 to 16,384.
    pub fn number(self) -> u32
        ensures value { result ≡ self }
        ensures range { (1 ≤ result) × (result ≤ Self.MAX) }
    {
        self.number
    }
}

/// The number of a node: 1 to 64.
#[derive(Clone, Copy, Debug, PartialEq, Eq, PartialOrd, Ord, Hash)]
pub struct NodeId {
    number: u32,
}

impl Model for NodeId {
    ghost use Rattle.std.specs.Prelude.{ℕ, ◌≤◌};
    ghost use Rattle.lard_base.specs.declared.ids.TheConstants.NodeId.{MAX};

    ghost Value = { ℕ };

    ghost view = { λ n. n.number };

    ghost inverse = { λ n. record { number = n } };

    ghost invariant = { λ n. (1 ≤ n.number) × (n.number ≤ MAX) };
}

impl NodeId {
    /// The greatest number of a node.
    pub const MAX: u32 = 64;

    /// The node with this number, 1 to 64; `None` for any other number.
    pub fn new(n: u32) -> Option<NodeId>
        ensures { SomeIff result ((1 ≤ n) × (n ≤ Self.MAX)) n }
    {
        if n >= 1 && n <= NodeId::MAX {
            Some(NodeId { number: n })
        } else {
            None
        }
    }

    /// Its number, 1 to 64.
    pub fn number(self) -> u32
        ensures value { result ≡ self }
        ensures range { (1 ≤ result) × (result ≤ Self.MAX) }
    {
        self.number
    }
}

/// How often a connection has changed its owner. The front end's first ownership has epoch 1.
#[derive(Clone, Copy, Debug, PartialEq, Eq, PartialOrd, Ord, Hash)]
pub struct Epoch(pub u16);

/// A time of the schedule's clock, in milliseconds from the begin of the run.
#[derive(Clone, Copy, Debug, PartialEq, Eq, PartialOrd, Ord, Hash)]
pub struct Millis(pub u64);

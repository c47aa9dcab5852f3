//! A set of nodes.

ghost use Rattle.std.specs.Prelude.{◌≡◌, ℕ, ◌≤◌, ◌||◌, ◌&&◌, not, false, nat_eq, count_by};
ghost use Rattle.lard_base.specs.Members.{has, node_numbers};

use crate::ids::NodeId;
use std::marker::Model;

/// A set of nodes. Two sets with the same members are equal.
#[derive(Clone, Copy, Debug, PartialEq, Eq)]
pub struct Members {
    flags: u64,
}

impl Model for Members {
    ghost use Rattle.std.specs.Prelude.{ℕ, ◌^◌, ◌<◌};

    ghost Value = { ℕ };

    ghost view = { λ m. m.flags };

    ghost inverse = { λ n. record { flags = n } };

    ghost invariant = { λ m. m.flags < 2 ^ 64 };
}

impl Members {
    /// The empty set.
    pub fn none() -> Members
        ensures { (k : ℕ) → has result k ≡ false }
    {
        Members { flags: 0 }
    }

    /// Whether the node is a member.
    pub fn has(self, n: NodeId) -> bool
        ensures { result ≡ has self n }
    {
        self.flags >> (n.number() - 1) & 1 == 1
    }

    /// The set with the node as one of its members.
    pub fn with(self, n: NodeId) -> Members
        ensures { (k : ℕ) → 1 ≤ k → has result k ≡ (nat_eq k n || has self k) }
    {
        Members {
            flags: self.flags | 1 << (n.number() - 1),
        }
    }

    /// The set without the node.
    pub fn without(self, n: NodeId) -> Members
        ensures { (k : ℕ) → 1 ≤ k → has result k ≡ (not (nat_eq k n) && has self k) }
    {
        Members {
            flags: self.flags & !(1 << (n.number() - 1)),
        }
    }

    /// How many nodes are members, to 64.
    pub fn count(self) -> u32
        ensures count { result ≡ count_by (has self) node_numbers }
        ensures most { result ≤ 64 }
    {
        self.flags.count_ones()
    }
}

//! The states of all nodes.

ghost use Rattle.std.specs.Prelude.{◌≡◌, ◌<◌, [], ◌∷◌, ◌++◌, length, slice_get, Some, OnOk, OnErr, IfErr};
ghost use Rattle.std.specs.Borrow.{sem};
ghost use Rattle.lard_rules.specs.Nodes.{LendsNode, TakesLast};

use crate::node::NodeState;
use std::alloc::{AllocFailed, Global};
use std::marker::Model;

/// The states of the nodes, in the order of their numbers. Each holds endpoints, and so all have to be spent: by `pop`, and then
/// `destroy_empty`.
pub struct NodeList {
    all: Vec<NodeState>,
}

impl Model for NodeList {
    ghost use Rattle.std.specs.Prelude.{List};
    ghost use Rattle.std.specs.Coded.{coded_list};
    ghost use Rattle.lard_rules.specs.contracts.node.NodeState as node;
    ghost use Rattle.lard_rules.specs.declared.node.NodeState.{NodeState};

    ghost Value = { List NodeState };

    ghost coded = { coded_list node.the_row.coded };

    ghost view = { λ l. l.all.items };
}

impl NodeList {
    /// No node. It takes no memory yet.
    pub fn new(alloc: Global) -> NodeList
        ensures { result ≡ [] }
    {
        NodeList {
            all: Vec::new(alloc),
        }
    }

    /// Adds the next node. Without memory it is handed back in the error, and nothing changes.
    pub fn push(&mut self, node: NodeState) -> Result<(), AllocFailed<NodeState>>
        ensures ok { OnOk result (self.new ≡ self.old ++ node ∷ []) }
        ensures err { OnErr result (self.new ≡ self.old) }
        ensures back { IfErr result (λ failed. failed.value ≡ node) }
    {
        self.all.push(node)
    }

    /// How many nodes there are.
    pub fn len(&self) -> usize
        ensures { result ≡ length self.now }
    {
        self.all.len()
    }

    /// The node at a place, counted from 0 and below `len`.
    pub fn node(&self, i: usize) -> &NodeState
        requires { i < length self.now }
        ensures { slice_get self.now i ≡ Some result.now }
    {
        &self.all[i]
    }

    /// The same, to take its step.
    pub fn node_mut(&mut self, i: usize) -> &mut NodeState
        requires { i < length self.old }
        ensures value { slice_get self.old i ≡ Some result.now }
        ensures* writes_back { sem 𝓛 (LendsNode self.entry i result) }
    {
        &mut self.all[i]
    }

    /// Takes the last node out. `None` where there is none.
    pub fn pop(&mut self) -> Option<NodeState>
        ensures { TakesLast self.old self.new result }
    {
        self.all.pop()
    }

    /// Spends the list once it is empty.
    pub fn destroy_empty(self)
        requires { self ≡ [] }
    {
        let NodeList { all } = self;
        all.destroy_empty();
    }
}

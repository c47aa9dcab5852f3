//! What holds of every first choice.

ghost use Rattle.lard_policy.specs.Laws.{RelievesNodes, TheNodeServes};

/// The node that gets the request serves its target from then on.
pub fn the_node_serves()
    ensures { TheNodeServes }
{}

/// A request goes to a node whose load allows it, or else to the least loaded one.
pub fn nodes_are_relieved()
    ensures { RelievesNodes }
{}

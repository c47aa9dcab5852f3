//! What holds of every later choice.

ghost use Rattle.lard_costs.specs.Laws.{StaysAtHome, TakesTheCheapest};

/// A request stays at the connection's node where that serves the target, or has a short disk queue.
pub fn stays_at_home()
    ensures { StaysAtHome }
{}

/// Any other goes to the cheapest of the connection's node and the members: at a tie to the connection's node, then to
/// the lowest number.
pub fn takes_the_cheapest()
    ensures { TakesTheCheapest }
{}

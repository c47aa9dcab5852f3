//! What holds of loads after any calls whose conditions hold.

ghost use Rattle.lard_loads.specs.Charges.{AdmittedAreCharges, TallyAddsUp, TallyIsCharges};

/// The load of a node is 840 for each connection that was assigned to it first and not released, and the units of each
/// share that was opened there, by a batch that is not over, of a connection that was not released.
pub fn loads_are_charges()
    ensures { TallyIsCharges }
{}

/// As many connections are admitted as were connected and not released.
pub fn admitted_are_charges()
    ensures { AdmittedAreCharges }
{}

/// All loads together are 840 for each admitted connection, and the units of the open shares.
pub fn loads_add_up()
    ensures { TallyAddsUp }
{}

//! Laws of the definitions. These functions run nothing.

ghost use Rattle.td_join.specs.Joining.{AcceptedTogether, SameTime};

/// Where certificates are accepted of a netlist, so is what they are joined into.
pub fn accepted_together()
    ensures { AcceptedTogether }
{}

/// What certificates are joined into claims the same two moments in whatever order they come.
pub fn same_time()
    ensures { SameTime }
{}

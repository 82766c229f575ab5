//! Laws of the definitions. These functions run nothing.

ghost use Rattle.td_netlist.specs.Means.{MeansOne};

/// A text means at most one netlist.
pub fn means_one()
    ensures { MeansOne }
{}

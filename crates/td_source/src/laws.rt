//! Laws of the definitions. These functions run nothing.

ghost use Rattle.td_source.specs.Reads.{ReadsOne};

/// Of a text at most one netlist is read.
pub fn reads_one()
    ensures { ReadsOne }
{}

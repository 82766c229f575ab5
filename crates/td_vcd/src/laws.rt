//! Laws of dumps. These functions run nothing.

ghost use Rattle.td_vcd.specs.Laws.{SaysTheWaves, SaysTheNamed, SaysOneThing};

/// Read back, a dump of variables whose names stand on one line each says exactly their waves.
pub fn says_the_named()
    ensures { SaysTheNamed }
{}

/// Read back, a dump of a netlist whose names stand on one line each says exactly its waves.
pub fn says_the_waves()
    ensures { SaysTheWaves }
{}

/// Two lists of waves that a text says have the same length and the same levels.
pub fn says_one_thing()
    ensures { SaysOneThing }
{}

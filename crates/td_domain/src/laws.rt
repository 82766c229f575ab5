//! Laws of the definitions. These functions run nothing.

ghost use Rattle.td_domain.specs.Laws.{AllAdmitted, OneWorst};

/// Where nothing is pinned or held and all inputs may differ, each pair of vectors is admitted.
pub fn all_admitted()
    ensures { AllAdmitted }
{}

/// A netlist without a loop, with a moment for each input, has exactly one worst delay over the
/// admitted pairs, where there is one and the pins have two positions for each input.
pub fn one_worst()
    ensures { OneWorst }
{}

//! Laws of the definitions. These functions run nothing.

ghost use Rattle.td_refutation.specs.Whole.{RefutedIsBounded};
ghost use Rattle.td_refutation.specs.Emptied.{EmptiedHasNoPair, EmptiedHasOneVerdict};
ghost use Rattle.td_refutation.specs.Numberings.{OneVerdict, LeafHasOneVerdict};

/// Where lines are good in the refutation of a cube, and after them no output may change later than
/// a bound, no pair of the cube that is asked about has a greater delay.
pub fn refuted_is_bounded()
    ensures { RefutedIsBounded }
{}

/// Lines have one verdict, whatever the numbers of the circuit's nets.
pub fn one_verdict()
    ensures { OneVerdict }
{}

/// A leaf is refuted within its bound, or above it, or has one bad step, with one flaw, and no two
/// of these.
pub fn leaf_has_one_verdict()
    ensures { LeafHasOneVerdict }
{}

/// Where lines are good in the refutation of a cube, and the last clause after them is empty, no
/// pair of the cube is asked about.
pub fn emptied_has_no_pair()
    ensures { EmptiedHasNoPair }
{}

/// A leaf's last clause is empty, or it isn't, or the leaf has a bad step, and no two of these; its
/// steps are good, or it has a bad one, and not both.
pub fn emptied_has_one_verdict()
    ensures { EmptiedHasOneVerdict }
{}

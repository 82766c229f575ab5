//! Laws of the definitions. These functions run nothing.

ghost use Rattle.td_spans.specs.Laws.{EdgesGiveTimes, FirstTimesAreByEdges, FirstTimesRefute, StepsRefute, RefutedIsBounded, NetsAreQuiet, EmptyHasNone};

/// What covers a wave by edges gives times that are right for it.
pub fn edges_give_times()
    ensures { EdgesGiveTimes }
{}

/// The first times are those that the signals of edges give, net by net.
pub fn first_times_are_by_edges()
    ensures { FirstTimesAreByEdges }
{}

/// The first times refute nothing yet.
pub fn first_times_refute()
    ensures { FirstTimesRefute }
{}

/// Each step that is good keeps what is true of the runs.
pub fn steps_refute()
    ensures { StepsRefute }
{}

/// No admitted pair has a delay above the latest moment by the outputs' ends.
pub fn refuted_is_bounded()
    ensures { RefutedIsBounded }
{}

/// In no run of a pair that is asked about a net changes later than its ends say.
pub fn nets_are_quiet()
    ensures { NetsAreQuiet }
{}

/// Where the last clause is empty, no pair of the cube is asked about.
pub fn empty_has_none()
    ensures { EmptyHasNone }
{}

//! What the rule of a deque says, and what a delay that was found says of the worst one. These
//! functions run nothing.

ghost use Rattle.td_pool.specs.Fair.{TakenWasPut};
ghost use Rattle.td_pool.specs.Watched.{FoundIsAtMostWorst};

/// Under the rule each number taken was put, and each put is taken at most once.
pub fn taken_was_put()
    ensures { TakenWasPut }
{}

/// A delay that was found is no greater than the worst delay.
pub fn found_is_at_most_worst()
    ensures { FoundIsAtMostWorst }
{}

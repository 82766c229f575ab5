//! Who keeps the incumbent of a search: the best pair so far.

ghost use Rattle.std.specs.Prelude.{◌≡◌, ℕ, ◌*◌, ◌≤◌, length};
ghost use Rattle.td_circuit.specs.Numbering.{setting};
ghost use Rattle.td_lead.specs.Timed.{IsTimed};
ghost use Rattle.td_search.specs.Deciding.{IsMeasured};
ghost use Rattle.td_search.specs.Problems.{Problem, problem_of, has_delay};
ghost use Rattle.td_search.specs.Representatives.{representative};
ghost use Rattle.td_search.specs.Splitting.{IsReachedDelay};
ghost use Rattle.td_search.specs.declared.strategy.Strategy.TheVariants.{Lead};

use crate::best::Best;
use crate::problem::Problem;
use td_domain::Cube;
use td_lead::Timed;

/// Who keeps the incumbent of a search: one thread its best pair, or one of several workers its
/// own, beside the greatest delay that all of them have found.
pub trait Keeper {
    /// What is kept is true of what is asked.
    ghost keeps: { Problem → Self → Type 0 };

    /// The delay of the pair that is kept.
    ghost time_of: { Self → ℕ };

    /// The cut: the greatest delay that is known here, of whosever pair.
    ghost cut_of: { Self → ℕ };

    /// The pair that is kept, with its delay.
    fn best(&self, problem: &Problem<'_>) -> &Best
        requires { keeps (problem_of problem.now) self.now }
        ensures time { result.now.time ≡ time_of self.now }
        ensures delay { has_delay (problem_of problem.now) result.now.pair result.now.time };

    /// The cut, as it was last looked at.
    fn cut(&self) -> u64
        ensures { result ≡ cut_of self.now };

    /// Looks at the cut anew.
    fn look(&mut self, problem: &Problem<'_>)
        requires { keeps (problem_of problem.now) self.old }
        ensures keeps { keeps (problem_of problem.now) self.new }
        ensures kept { time_of self.new ≡ time_of self.old };

    /// Keeps the pair that stands for a cube, which has this delay, where that is greater than the
    /// cut. Takes no memory, so that a better pair is never lost.
    fn offer(&mut self, problem: &Problem<'_>, cube: &Cube, time: u64)
        requires keeps { keeps (problem_of problem.now) self.old }
        requires positions { length cube.now ≡ 2 * length problem.now.admit.now.held }
        requires measured { IsMeasured (problem_of problem.now) (representative problem.now.admit.now cube.now) time }
        ensures keeps { keeps (problem_of problem.now) self.new }
        ensures kept { time_of self.old ≤ time_of self.new }
        ensures within { time ≤ cut_of self.new };

    /// Keeps an admitted pair where its delay is greater than the cut. Takes no memory.
    fn offer_pair(&mut self, problem: &Problem<'_>, timed: &Timed)
        requires keeps { keeps (problem_of problem.now) self.old }
        requires timed { IsTimed (setting problem.now.circuit.now) problem.now.admit.now timed.now }
        ensures keeps { keeps (problem_of problem.now) self.new }
        ensures kept { time_of self.old ≤ time_of self.new };

    /// The cut is no less than the delay of the pair that is kept.
    ghost least: { (asked : Problem) (keeper : Self) → keeps asked keeper → time_of keeper ≤ cut_of keeper };

    /// With `lead` that delay is one that the search has reached.
    ghost reached: { (asked : Problem) (keeper : Self) → keeps asked keeper → asked.strategy ≡ Lead → IsReachedDelay asked (time_of keeper) };
}

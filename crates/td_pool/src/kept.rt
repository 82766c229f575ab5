//! What a worker keeps of the pairs that it measured, and offers to the others.

ghost use Rattle.std.specs.Prelude.{◌≡◌};

use td_domain::Cube;
use td_incumbent::{Incumbent, Seat};
use td_lead::Timed;
use td_search::{Best, Keeper, Problem};

/// A worker's best pair, and its seat at the incumbent of the search, by which it offers the pair's
/// delay and sees that of the others.
#[derive(Drop)]
pub struct Kept<'a> {
    pub incumbent: &'a Incumbent,
    pub seat: Seat,
    pub best: Best,
    /// The greatest delay that the worker has seen, of its own pair or of another's.
    pub seen: u64,
}

impl<'a> Keeper for Kept<'a> {
    ghost use Rattle.td_pool.specs.Truth.{IsKeeping};

    ghost keeps = { IsKeeping };

    ghost time_of = { λ kept. kept.best.time };

    ghost cut_of = { λ kept. kept.seen };

    fn best(&self, _problem: &Problem<'_>) -> &Best {
        &self.best
    }

    fn cut(&self) -> u64 {
        self.seen
    }

    fn look(&mut self, _problem: &Problem<'_>) {
        self.seen = self.incumbent.look(&mut self.seat);
    }

    fn offer(&mut self, problem: &Problem<'_>, cube: &Cube, time: u64) {
        // For the prover: pins have two positions for each input.
        let _pins = problem.admit.pins();
        self.seen = self.incumbent.look(&mut self.seat);
        if time > self.seen {
            self.best.replace(cube, problem.admit, time);
            self.seen = self.incumbent.raise(&mut self.seat, time);
        }
    }

    fn offer_pair(&mut self, problem: &Problem<'_>, timed: &Timed) {
        // For the prover: pins have two positions for each input.
        let _pins = problem.admit.pins();
        self.seen = self.incumbent.look(&mut self.seat);
        if timed.time > self.seen {
            self.best.put(timed);
            self.seen = self.incumbent.raise(&mut self.seat, timed.time);
        }
    }

    ghost least = { λ asked kept is. is.low };

    ghost reached = { λ asked kept is lead. is.kept.is.1 };
}

//! The best pair that a search has found.

ghost use Rattle.std.specs.Prelude.{◌≡◌, ◌*◌, length, IfOk};
ghost use Rattle.td_search.specs.Best.{IsBest};
ghost use Rattle.td_search.specs.Problems.{problem_of, has_delay};
ghost use Rattle.td_search.specs.Representatives.{representative};

use crate::keeper::Keeper;
use crate::problem::Problem;
use crate::representatives::write_representative;
use std::alloc::{AllocError, Global};
use std::marker::Model;
use td_domain::{Admit, Cube, Pair};
use td_lead::Timed;

/// A pair and its delay in steps. Its room was taken once, so that a better pair takes its place
/// without memory.
#[derive(Drop)]
pub struct Best {
    time: u64,
    first: Vec<bool>,
    second: Vec<bool>,
}

impl Model for Best {
    ghost use Rattle.td_search.specs.Best.{Found};

    ghost Value = { Found };

    ghost view = { λ best. record { time = best.time; pair = record { first = best.first.items; second = best.second.items } } };
}

impl Best {
    /// Room for pairs with that many bits in each vector, at time 0. The error is out of memory.
    pub fn new(alloc: Global, inputs: usize) -> Result<Self, AllocError>
        ensures time { IfOk result (λ best. best.time ≡ 0) }
        ensures first { IfOk result (λ best. length best.pair.first ≡ inputs) }
        ensures second { IfOk result (λ best. length best.pair.second ≡ inputs) }
    {
        Ok(Best {
            time: 0,
            first: vec![in alloc; false; inputs]?,
            second: vec![in alloc; false; inputs]?,
        })
    }

    /// Puts the pair that stands for the pins, which has this delay, in the place of the pair.
    /// Takes no memory.
    pub fn begin(&mut self, problem: &Problem<'_>, first: u64)
        requires first_fits { length self.old.pair.first ≡ length problem.now.admit.now.held }
        requires second_fits { length self.old.pair.second ≡ length problem.now.admit.now.held }
        requires first { has_delay (problem_of problem.now) (representative problem.now.admit.now problem.now.admit.now.pins) first }
        ensures time { self.new.time ≡ first }
        ensures best { IsBest (problem_of problem.now) self.new }
    {
        self.replace(problem.admit.pins(), problem.admit, first);
    }

    /// The delay of the pair.
    pub fn time(&self) -> u64
        ensures { result ≡ self.now.time }
    {
        self.time
    }

    /// Puts the representative of a cube and its delay in the place of the pair. Takes no memory.
    pub fn replace(&mut self, cube: &Cube, admit: &Admit, time: u64)
        requires positions { length cube.now ≡ 2 * length admit.now.held }
        requires first { length self.old.pair.first ≡ length admit.now.held }
        requires second { length self.old.pair.second ≡ length admit.now.held }
        ensures { self.new ≡ record { time = time; pair = representative admit.now cube.now } }
    {
        write_representative(cube, admit, &mut self.first, &mut self.second);
        self.time = time;
    }

    /// Puts this pair and its delay in the place of the pair. Takes no memory.
    pub fn put(&mut self, timed: &Timed)
        requires first { length self.old.pair.first ≡ length timed.now.pair.first }
        requires second { length self.old.pair.second ≡ length timed.now.pair.second }
        ensures { self.new ≡ record { time = timed.now.time; pair = timed.now.pair } }
    {
        self.first.copy_from_slice(timed.pair.first());
        self.second.copy_from_slice(timed.pair.second());
        self.time = timed.time;
    }

    /// A copy of the pair, with its delay. The error is out of memory.
    pub fn timed(&self, alloc: Global) -> Result<Timed, AllocError>
        ensures time { IfOk result (λ timed. timed.time ≡ self.now.time) }
        ensures pair { IfOk result (λ timed. timed.pair ≡ self.now.pair) }
    {
        let first = Vec::from_slice(alloc, &self.first)?;
        let second = Vec::from_slice(alloc, &self.second)?;
        Ok(Timed {
            pair: Pair::new(first, second),
            time: self.time,
        })
    }

    /// The pair.
    pub fn into_pair(self) -> Pair
        ensures { result ≡ self.pair }
    {
        Pair::new(self.first, self.second)
    }
}

/// One thread alone keeps its best pair.
impl Keeper for Best {
    ghost use Rattle.std.proofs.Common.{le_refl};
    ghost use Rattle.td_search.specs.Best.{IsKept};

    ghost keeps = { IsKept };

    ghost time_of = { λ best. best.time };

    ghost cut_of = { λ best. best.time };

    fn best(&self, _problem: &Problem<'_>) -> &Best {
        self
    }

    fn cut(&self) -> u64 {
        self.time
    }

    fn look(&mut self, _problem: &Problem<'_>) {}

    fn offer(&mut self, problem: &Problem<'_>, cube: &Cube, time: u64) {
        // For the prover: pins have two positions for each input.
        let _pins = problem.admit.pins();
        if time > self.time() {
            self.replace(cube, problem.admit, time);
        }
    }

    fn offer_pair(&mut self, problem: &Problem<'_>, timed: &Timed) {
        // For the prover: pins have two positions for each input.
        let _pins = problem.admit.pins();
        if timed.time > self.time() {
            self.put(timed);
        }
    }

    ghost least = { λ asked best is. le_refl best.time };

    ghost reached = { λ asked best is. is.1 };
}

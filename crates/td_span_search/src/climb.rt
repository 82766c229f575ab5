//! Simulations, and climbs from pair to pair.

use crate::network::Net;
use crate::pairs::{Move, PairBits};
use crate::search::{Found, Search};
use std::alloc::AllocError;
use td_cdcl::{read, small};

// So many times as many moves as there are inputs without a better pair, and a climb goes
// elsewhere.
const PATIENCE: u64 = 40;
// So many steps a net of a simulation takes, and a change of one.
const STEPS_OF_A_NET: u64 = 5;

const STEPS_OF_A_CHANGE: u64 = 12;

impl<'a> Search<'a> {
    /// Simulates a pair up to a net, and notes the last changes. The error is out of memory.
    pub(crate) fn simulate_up_to(&mut self, pair: &PairBits, last: Net) -> Result<(), AllocError> {
        let is_whole = self.waves.run(self.network, pair, last)?;
        let nets = self.nets_up_to(last).saturating_mul(STEPS_OF_A_NET);
        let changes = (self.waves.count() as u64).saturating_mul(STEPS_OF_A_CHANGE);
        self.counts.simulated = self
            .counts
            .simulated
            .saturating_add(nets)
            .saturating_add(changes);
        if is_whole {
            self.reach.note(self.network, &self.waves, last);
        } else {
            self.is_lost = true;
        }
        Ok(())
    }

    // How many nets a simulation up to a net has.
    fn nets_up_to(&self, last: Net) -> u64 {
        let first = self.network.first_gate();
        let gates = match last.checked_sub(first) {
            Some(place) => self.network.cone().partition_point(|gate| *gate <= place),
            None => 0,
        };
        u64::from(first).saturating_add(gates as u64)
    }

    /// The delay of a pair; the best pair is kept. The error is out of memory.
    pub(crate) fn simulate(&mut self, pair: &PairBits) -> Result<u64, AllocError> {
        self.counts.simulations = self.counts.simulations.saturating_add(1);
        let last = small(self.network.nets()).saturating_sub(1);
        self.simulate_up_to(pair, last)?;
        if self.is_lost {
            return Ok(0);
        }
        let delay = self.waves.delay(self.network);
        if delay > self.best.delay {
            self.best = Found {
                delay,
                pair: pair.copy(self.alloc)?,
            };
        }
        Ok(delay)
    }

    /// Tries pairs near one, with up to `bits` inputs moved; pairs that are as late are taken too,
    /// and none that breaks a condition. Answers where it stands in the end. The error is out of memory.
    pub(crate) fn climb(
        &mut self,
        tries: u64,
        from: Found,
        bits: usize,
    ) -> Result<Found, AllocError> {
        let inputs = self.moving.len();
        let patience = PATIENCE.saturating_mul(inputs as u64);
        let mut here = from;
        let mut idle = 0u64;
        for _ in 0..tries {
            if inputs == 0 || self.best_known() >= self.top() || self.is_over() {
                return Ok(here);
            }
            let mut pair = here.pair.copy(self.alloc)?;
            for _ in 0..self.draw(bits).saturating_add(1) {
                let step = self.draw_move(1);
                self.admitted.step(&mut pair, step);
            }
            idle = idle.saturating_add(1);
            if self.keeps(&pair) {
                let delay = self.simulate(&pair)?;
                if delay > here.delay {
                    idle = 0;
                }
                if delay >= here.delay {
                    here = Found { delay, pair };
                }
            }
            if idle > patience {
                idle = 0;
                here = self.elsewhere(here)?;
            }
        }
        Ok(here)
    }

    // A pair with moves at all inputs; where it isn't asked about, the same one again.
    fn elsewhere(&mut self, here: Found) -> Result<Found, AllocError> {
        let mut pair = here.pair.copy(self.alloc)?;
        for place in 0..self.moving.len() {
            let mut step = self.draw_move(0);
            step.input = self.moving_input(place);
            self.admitted.step(&mut pair, step);
        }
        if !self.keeps(&pair) {
            return Ok(here);
        }
        let delay = self.simulate(&pair)?;
        Ok(Found { delay, pair })
    }

    // A move at some input that matters: with `least` 1 one bit flips at least.
    fn draw_move(&mut self, least: usize) -> Move {
        let (inputs, moving) = (self.network.inputs(), self.moving.len());
        let place = self.draw(moving);
        let flips = least.saturating_add(self.draw(4usize.saturating_sub(least)));
        Move {
            input: self.moving_input(place),
            first: flips % 2 == 1,
            second: flips / 2 % 2 == 1,
            other: self.draw(inputs),
        }
    }

    fn moving_input(&self, place: usize) -> usize {
        read(&self.moving, place, 0) as usize
    }
}

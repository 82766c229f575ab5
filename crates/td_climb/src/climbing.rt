//! A climb from pair to pair, towards one with a great delay.

ghost use Rattle.std.specs.Prelude.{◌≡◌, ◌<◌, ◌≤◌, length, IfOk};
ghost use Rattle.td_domain.specs.Admits.{IsAdmitted};
ghost use Rattle.td_domain.specs.PairBits.{AreAdmitted};
ghost use Rattle.td_climb.specs.Tries.{tries_of};

use crate::draws::Draws;
use crate::lanes::Lanes;
use crate::moves::{Move, undo};
use crate::pairs::{LANES, Pairs};
use crate::taking::take;
use crate::walk::{Gait, WIDTH, Walk};
use std::alloc::{AllocError, Global};
use std::marker::Model;
use td_circuit::Circuit;
use td_domain::{Admit, Bits, Pair};
use td_stop::Stop;

/// How many inputs a move changes at most.
const PARTS: usize = 4;

/// Above how many inputs the second walk moves in single steps, of one input each.
const MANY: usize = 64;

/// After how many tries in a row without a better pair a climb ends.
const IDLE: u32 = 20_000;

/// A climb under way, and the best pair that it met, which is admitted.
#[derive(Drop)]
pub struct Climb {
    lanes: Lanes,
    pairs: Pairs,
    draws: Draws,
    walks: [Walk; 2],
    moves: Vec<Move>,
    best: Bits,
    /// The delay of the best pair by the lanes.
    time: u64,
    /// How many tries in a row met no better one.
    idle: u32,
}

impl Model for Climb {
    ghost use Rattle.td_domain.specs.declared.pair_bits.Bits.{Bits};

    ghost Value = { Bits };

    ghost view = { λ climb. climb.best };
}

/// How often a climb in this circuit tries: 40,000 times, and less where there are more than 1,000
/// gates.
pub fn tries_for(circuit: &Circuit) -> u32
    ensures { result ≡ tries_of (length circuit.now.gates) }
{
    let gates = circuit.gates().len() as u32;
    (40_000_000 / gates.max(1)).min(40_000)
}

/// Makes a drawn move in each lane, and keeps it in place of the moves that there are. The error is
/// out of memory.
fn draw_moves(
    walks: &[Walk],
    admit: &Admit,
    pairs: &mut Pairs,
    draws: &mut Draws,
    moves: &mut Vec<Move>,
) -> Result<(), AllocError> {
    moves.clear();
    if admit.held().is_empty() {
        return Ok(());
    }
    for walk in walks {
        walk.draw_moves(admit, pairs, draws, moves)?;
    }
    Ok(())
}

impl Climb {
    ghost use Rattle.std.specs.Prelude.{◌≡◌, ◌≤◌, length, IfOk};
    ghost use Rattle.td_domain.specs.Admits.{IsAdmitted};
    ghost use Rattle.td_domain.specs.PairBits.{AreAdmitted};

    /// A climb from an admitted pair, whose numbers follow from a seed. Nothing is tried yet. The
    /// error is out of memory.
    pub fn new(
        alloc: Global,
        circuit: &Circuit,
        admit: &Admit,
        start: Pair,
        seed: u64,
    ) -> Result<Self, AllocError>
        requires held { length admit.now.held ≡ length circuit.now.netlist.inputs }
        requires start { IsAdmitted admit.now start }
        ensures admitted { IfOk result (AreAdmitted admit.now) }
        ensures first { IfOk result (λ climb. climb.first.items ≡ start.first) }
        ensures second { IfOk result (λ climb. climb.second.items ≡ start.second) }
    {
        // For the prover: this call says that the gates are in order.
        let _numbering = circuit.gates();
        let mut pairs = Pairs::of(alloc, &start)?;
        let lanes = Lanes::new(alloc, circuit)?;
        let mut draws = Draws { state: seed };
        let best = Bits::of(admit, start);
        let inputs = circuit.input_count();
        let parts = if inputs > MANY { 1 } else { PARTS };
        let one = Walk::new(0, Gait::new(PARTS, inputs), best.flips);
        let mut other = Walk::new(WIDTH, Gait::new(parts, inputs), best.flips);
        other.restart(admit, &mut pairs, &mut draws);
        Ok(Climb {
            lanes,
            pairs,
            draws,
            walks: [one, other],
            moves: Vec::new(alloc),
            best,
            time: 0,
            idle: 0,
        })
    }

    /// Tries `tries` more pairs, rounded up to a multiple of 64. It ends early where the best has a
    /// delay that is enough, where it met nothing better for long, or once the stop is set. Answers
    /// whether it is of use to go on. The error is out of memory, and the climb may go on after it.
    pub fn go_on(
        &mut self,
        circuit: &Circuit,
        admit: &Admit,
        tries: u32,
        enough: u64,
        stop: &Stop,
    ) -> Result<bool, AllocError>
        requires { AreAdmitted admit.now self.old }
        ensures { AreAdmitted admit.now self.new }
    {
        for _ in 0..tries.div_ceil(LANES) {
            if self.is_over(enough, stop) || !self.try_batch(circuit, admit)? {
                return Ok(false);
            }
        }
        Ok(true)
    }

    /// Whether it is of no use to go on: the best has a delay that is enough, it met nothing better
    /// for long, or the stop is set.
    fn is_over(&self, enough: u64, stop: &Stop) -> bool {
        self.time >= enough || self.idle >= IDLE || stop.is_set()
    }

    /// The delay of the best pair as the lanes say it, 0 before the first try.
    pub fn time(&self) -> u64 {
        self.time
    }

    /// The best pair.
    pub fn into_pair(self) -> Pair
        ensures { result ≡ record { first = self.first.items; second = self.second.items } }
    {
        self.best.into_pair()
    }

    /// Tries the next 64 pairs. Answers whether the lanes came to the end. The error is out of
    /// memory.
    fn try_batch(&mut self, circuit: &Circuit, admit: &Admit) -> Result<bool, AllocError>
        requires { AreAdmitted admit.now self.old }
        ensures { AreAdmitted admit.now self.new }
    {
        let simulated = self.simulate_moves(circuit, admit);
        undo(&mut self.pairs, &self.moves);
        let is_whole = simulated?;
        if is_whole {
            self.idle = self.idle.saturating_add(LANES);
            self.settle(circuit, admit, 0);
            self.settle(circuit, admit, 1);
        }
        Ok(is_whole)
    }

    /// Makes a move in each lane and simulates the pairs. Answers whether the lanes came to the
    /// end. The error is out of memory.
    fn simulate_moves(&mut self, circuit: &Circuit, admit: &Admit) -> Result<bool, AllocError>
        ensures { self.new ≡ self.old }
    {
        draw_moves(
            &self.walks,
            admit,
            &mut self.pairs,
            &mut self.draws,
            &mut self.moves,
        )?;
        self.lanes.simulate(circuit, &self.pairs)
    }

    /// A walk goes on by what was tried, and the pair that it comes to is kept where it is the
    /// latest so far.
    fn settle(&mut self, circuit: &Circuit, admit: &Admit, place: usize)
        requires place { place < 2 }
        requires best { AreAdmitted admit.now self.old }
        ensures { AreAdmitted admit.now self.new }
    {
        let mut walk = self.walks[place];
        let tried = self.lanes.latest(circuit, walk.lanes);
        if walk.goes_on(&mut self.pairs, &mut self.draws, &self.moves, tried) {
            self.keep(admit, walk.first, tried.moment);
        }
        if walk.is_stuck() {
            walk.restart(admit, &mut self.pairs, &mut self.draws);
        }
        self.walks[place] = walk;
    }

    /// Keeps the pair in a lane, which has this delay by the lanes, where it is the latest so far.
    fn keep(&mut self, admit: &Admit, lane: u32, time: u64)
        requires { AreAdmitted admit.now self.old }
        ensures { AreAdmitted admit.now self.new }
    {
        if time > self.time {
            take(&mut self.best, admit, &self.pairs, lane);
            self.time = time;
            self.idle = 0;
        }
    }
}

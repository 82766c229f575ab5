//! A walk: in some lanes pairs are tried that are one move from where it stands, and it goes on to
//! one of the latest of them.

ghost use Rattle.std.specs.Prelude.{◌<◌, length};

use crate::draws::Draws;
use crate::lanes::Latest;
use crate::moves::{Move, draw_move, draw_pair, follow};
use crate::pairs::{LANES, Pairs};
use std::alloc::AllocError;
use td_domain::Admit;

/// How many lanes a walk has.
pub const WIDTH: u32 = LANES / 2;

/// How many batches in a row a walk may have nothing later before it goes on from a pair that is
/// drawn. A pair with many inputs needs many moves that gain nothing, so it is two for each input
/// where that is more.
const PATIENCE: usize = 20;

/// How a walk moves.
#[derive(Clone, Copy, Debug, Drop)]
pub struct Gait {
    /// How many inputs a move changes at most.
    pub parts: usize,
    /// How many batches in a row it may have nothing later.
    pub patience: usize,
}

impl Gait {
    /// The gait of a walk in a circuit with this number of inputs, whose moves change `parts` at
    /// most.
    pub fn new(parts: usize, inputs: usize) -> Self {
        Gait {
            parts,
            patience: PATIENCE.max(inputs.saturating_mul(2)),
        }
    }
}

/// Where a walk stands. Between two batches all of its lanes have its pair.
#[derive(Clone, Copy, Debug, Drop)]
pub struct Walk {
    /// The first of its lanes.
    pub first: u32,
    /// Its lanes.
    pub lanes: u64,
    /// The delay of its pair by the lanes, none where it is a new one that wasn't tried yet.
    here: Option<u64>,
    /// How many batches in a row met nothing later.
    stuck: usize,
    gait: Gait,
    /// At how many inputs the bits of its pair differ.
    flips: u32,
}

impl Walk {
    /// A walk from a pair that differs at `flips` inputs, in the lanes from a first one on.
    pub fn new(first: u32, gait: Gait, flips: u32) -> Self {
        let lanes = (u64::MAX >> WIDTH).rotate_left(first);
        Walk {
            first,
            lanes,
            here: None,
            stuck: 0,
            gait,
            flips,
        }
    }

    /// Goes on from a pair that is drawn.
    pub fn restart(&mut self, admit: &Admit, pairs: &mut Pairs, draws: &mut Draws) {
        self.flips = draw_pair(admit, pairs, draws, self.first, self.lanes, self.flips);
        self.here = None;
        self.stuck = 0;
    }

    /// Draws a move for each lane. Where the pair is a new one the first lane keeps it. The error
    /// is out of memory.
    pub fn draw_moves(
        &self,
        admit: &Admit,
        pairs: &mut Pairs,
        draws: &mut Draws,
        moves: &mut Vec<Move>,
    ) -> Result<(), AllocError>
        requires { 0 < length admit.now.held }
    {
        for place in 0..WIDTH {
            if place > 0 || self.here.is_some() {
                let lane = self.first.saturating_add(place);
                draw_move(
                    admit,
                    pairs,
                    draws,
                    moves,
                    lane,
                    self.gait.parts,
                    self.flips,
                )?;
            }
        }
        Ok(())
    }

    /// Goes on to the latest pair that was tried, or one of several, where it isn't earlier than
    /// its own. Answers whether it does.
    pub fn goes_on(
        &mut self,
        pairs: &mut Pairs,
        draws: &mut Draws,
        moves: &[Move],
        tried: Latest,
    ) -> bool {
        let (is_taken, is_gain) = match self.here {
            Some(here) => (here <= tried.moment, here < tried.moment),
            None => (true, true),
        };
        self.stuck = if is_gain {
            0
        } else {
            self.stuck.saturating_add(1)
        };
        if is_taken {
            let lane = one_of(tried.lanes, draws);
            self.flips = follow(pairs, moves, lane, self.lanes, self.flips);
            self.here = Some(tried.moment);
        }
        is_taken
    }

    /// Whether it met nothing later for long.
    pub fn is_stuck(&self) -> bool {
        self.stuck > self.gait.patience
    }
}

/// One of some lanes, which is drawn.
fn one_of(lanes: u64, draws: &mut Draws) -> u32 {
    let turn = draws.below(64) as u32;
    lanes
        .rotate_right(turn)
        .trailing_zeros()
        .saturating_add(turn)
        % LANES
}

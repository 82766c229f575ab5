//! Moves: how the pair in a lane differs from the pair of its walk.

ghost use Rattle.std.specs.Prelude.{◌<◌, length};

use crate::draws::Draws;
use crate::pairs::{Flip, Pairs};
use std::alloc::AllocError;
use td_domain::{Admit, fits, flip_of};

/// What is flipped in some lanes.
#[derive(Clone, Copy, Debug, Drop)]
pub struct Move {
    pub flip: Flip,
    pub lanes: u64,
}

/// A drawn input, of which the first bit, the second or both are to be flipped.
fn drawn(draws: &mut Draws, inputs: usize) -> Flip
    requires { 0 < inputs }
    ensures { result.input < inputs }
{
    let input = draws.below(inputs);
    let which = draws.below(3);
    Flip {
        input,
        first: which != 1,
        second: which != 0,
    }
}

/// How many inputs differ in a lane once a bit is flipped, where `flips` inputs differ now, if its
/// pair stays admitted.
fn flips_after(admit: &Admit, pairs: &Pairs, flip: Flip, lane: u32, flips: u32) -> Option<u32>
    requires { flip.input < length admit.now.held }
{
    let (before, after) = pairs.bits(flip.input, lane);
    let next_before = before != flip.first;
    let next_after = after != flip.second;
    let others = flips.saturating_sub(flip_of(before, after));
    let next = others.saturating_add(flip_of(next_before, next_after));
    if next <= admit.flips() && fits(admit, flip.input, next_before, next_after) {
        Some(next)
    } else {
        None
    }
}

/// Draws a move of one to `parts` parts for a lane whose pair differs at `flips` inputs, and makes
/// it: an input at which the pair wouldn't stay admitted keeps its bits. The error is out of
/// memory.
pub fn draw_move(
    admit: &Admit,
    pairs: &mut Pairs,
    draws: &mut Draws,
    moves: &mut Vec<Move>,
    lane: u32,
    parts: usize,
    flips: u32,
) -> Result<(), AllocError>
    requires { 0 < length admit.now.held }
{
    let mut flips = flips;
    for _ in 0..1 + draws.below(parts.max(1)) {
        let flip = drawn(draws, admit.held().len());
        if let Some(next) = flips_after(admit, pairs, flip, lane, flips) {
            let lanes = 1u64.rotate_left(lane);
            moves.push(Move { flip, lanes })?;
            pairs.flip(flip, lanes);
            flips = next;
        }
    }
    Ok(())
}

/// Makes moves that were made before undone.
pub fn undo(pairs: &mut Pairs, moves: &[Move]) {
    for step in moves {
        pairs.flip(step.flip, step.lanes);
    }
}

/// Makes the moves of a lane in other lanes too, where its pair was theirs, and answers at how many
/// inputs the pair differs then.
pub fn follow(pairs: &mut Pairs, moves: &[Move], lane: u32, lanes: u64, flips: u32) -> u32 {
    let mut flips = flips;
    for step in moves {
        if step.lanes.rotate_right(lane) & 1 == 1 {
            let (before, after) = pairs.bits(step.flip.input, lane);
            flips = flips.saturating_sub(flip_of(before, after));
            pairs.flip(step.flip, lanes);
            let (before, after) = pairs.bits(step.flip.input, lane);
            flips = flips.saturating_add(flip_of(before, after));
        }
    }
    flips
}

/// Draws another pair for lanes that have one, which differs at `flips` inputs. It draws for each
/// input in order whether its bits are flipped. An input at which the pair wouldn't stay admitted
/// keeps its own. Answers at how many inputs the new pair differs.
pub fn draw_pair(
    admit: &Admit,
    pairs: &mut Pairs,
    draws: &mut Draws,
    lane: u32,
    lanes: u64,
    flips: u32,
) -> u32 {
    let mut flips = flips;
    for input in 0..admit.held().len() {
        let flip = Flip {
            input,
            first: draws.below(2) == 1,
            second: draws.below(2) == 1,
        };
        if let Some(next) = flips_after(admit, pairs, flip, lane, flips) {
            pairs.flip(flip, lanes);
            flips = next;
        }
    }
    flips
}

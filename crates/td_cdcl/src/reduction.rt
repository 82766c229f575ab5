//! Which learned clauses are removed.
//!
//! They stand in three tiers by their glue, as in the solvers that are called Glucose and CaDiCaL:
//! a clause of little glue stays, one of middling glue stays where it was used lately.

use crate::arena::Clause;
use crate::board::Board;
use crate::literal::place_of;
use crate::table::{read, small};
use std::alloc::{AllocError, Global};

// A learned clause with no more glue stays.
const GLUE_THAT_STAYS: u32 = 2;
// One with no more glue stays where it was used since the last reduction.
const GLUE_THAT_STAYS_IN_USE: u32 = 6;

/// A learned clause that may be removed.
#[derive(Clone, Copy, Drop)]
struct Candidate {
    glue: u32,
    len: usize,
    clause: Clause,
}

impl Candidate {
    // In the order of these the clauses are removed: the one with most glue first, then the
    // longest, then the oldest.
    fn order(&self) -> (u32, usize, Clause) {
        let glue = u32::MAX.saturating_sub(self.glue);
        let len = usize::MAX.saturating_sub(self.len);
        (glue, len, self.clause)
    }
}

/// Removes half of the learned clauses that may be removed. The error is out of memory.
pub fn reduce(
    alloc: Global,
    board: &mut Board,
    learned: &mut Vec<Clause>,
) -> Result<(), AllocError> {
    let mut candidates = candidates_among(alloc, board, learned)?;
    candidates.sort_unstable_by_key(|candidate| candidate.order());
    candidates.truncate(candidates.len() / 2);
    for candidate in &candidates {
        board.arena.remove(candidate.clause);
    }
    for clause in learned.iter() {
        board.arena.forget_use(*clause);
    }
    board.collect(learned)
}

fn candidates_among(
    alloc: Global,
    board: &Board,
    learned: &[Clause],
) -> Result<Vec<Candidate>, AllocError> {
    let mut candidates = Vec::new(alloc);
    for clause in learned {
        let glue = board.arena.glue(*clause);
        let stays = glue <= GLUE_THAT_STAYS
            || glue <= GLUE_THAT_STAYS_IN_USE && board.arena.is_used(*clause);
        if !stays && !board.is_reason(*clause) {
            candidates.push(Candidate {
                glue,
                len: board.arena.literals(*clause).len(),
                clause: *clause,
            })?;
        }
    }
    Ok(candidates)
}

/// Removes each clause with a variable that is dead. The error is out of memory.
pub fn forget(
    board: &mut Board,
    learned: &mut Vec<Clause>,
    is_dead: &[bool],
) -> Result<(), AllocError> {
    let mut place = 0;
    for _ in 0..board.arena.end() {
        if place >= board.arena.end() {
            break;
        }
        let clause = small(place);
        if has_dead(board, clause, is_dead) {
            board.arena.remove(clause);
        }
        place = board.arena.after(clause);
    }
    board.collect(learned)
}

fn has_dead(board: &Board, clause: Clause, is_dead: &[bool]) -> bool {
    for literal in board.arena.literals(clause) {
        if read(is_dead, place_of(*literal), false) {
            return true;
        }
    }
    false
}

//! The hints of a lemma: clauses by which unit propagation leads from the negations of its literals
//! to a conflict.

use crate::arena::Clause;
use crate::board::Board;
use crate::literal::{Literal, place_of};
use crate::marks::{Mark, Marks};
use crate::proof::ClauseNumber;
use std::alloc::{AllocError, Global};

/// Hints, which are collected from the conflict back.
#[derive(Clone, Drop)]
pub struct Hints {
    hints: Vec<ClauseNumber>,
    // Those of one literal, which come first.
    units: Vec<ClauseNumber>,
}

impl Hints {
    /// None yet.
    pub fn new(alloc: Global) -> Hints {
        Hints {
            hints: Vec::new(alloc),
            units: Vec::new(alloc),
        }
    }

    /// The hints, in the order of propagation.
    pub fn as_slice(&self) -> &[ClauseNumber] {
        &self.hints
    }

    /// Finds the hints of a clause whose variables are marked as chosen, from one whose literals
    /// are all false. The error is out of memory.
    pub fn from_conflict(
        &mut self,
        board: &Board,
        marks: &mut Marks,
        conflict: Clause,
    ) -> Result<(), AllocError> {
        self.clear();
        let left = self.explain(board, marks, conflict)?;
        self.follow(board, marks, left)
    }

    /// Finds the hints of a clause whose variables but one are marked as chosen, from the value of
    /// that one. The error is out of memory.
    pub fn from_variable(
        &mut self,
        board: &Board,
        marks: &mut Marks,
        variable: usize,
    ) -> Result<(), AllocError> {
        self.clear();
        let left = self.need(board, marks, variable)?;
        self.follow(board, marks, usize::from(left))
    }

    /// Finds the hints of the literals of a clause that aren't false at level 0, at most one, from
    /// the others. The error is out of memory.
    pub fn from_units(
        &mut self,
        board: &Board,
        literals: &[Literal],
        but: Option<Literal>,
        number: ClauseNumber,
    ) -> Result<(), AllocError> {
        self.clear();
        for literal in literals {
            if Some(*literal) != but {
                self.name(board, *literal)?;
            }
        }
        self.hints.push(number)?;
        Ok(())
    }

    fn clear(&mut self) {
        self.hints.clear();
        self.units.clear();
    }

    // Adds the clause of one literal by which a literal is false.
    fn name(&mut self, board: &Board, literal: Literal) -> Result<(), AllocError> {
        match board.trail.unit_of(place_of(literal)) {
            Some(unit) => {
                self.hints.push(unit)?;
                Ok(())
            }
            None => Ok(()),
        }
    }

    // Adds a clause all of whose literals are false, but for one that follows. Answers how many
    // variables more have to be explained.
    fn explain(
        &mut self,
        board: &Board,
        marks: &mut Marks,
        clause: Clause,
    ) -> Result<usize, AllocError> {
        self.hints.push(board.arena.number(clause))?;
        let mut left = 0usize;
        for literal in board.arena.literals(clause) {
            if self.need(board, marks, place_of(*literal))? {
                left = left.saturating_add(1);
            }
        }
        Ok(left)
    }

    // Sees to it that a variable is explained. Answers whether it has to be, and isn't yet.
    fn need(
        &mut self,
        board: &Board,
        marks: &mut Marks,
        variable: usize,
    ) -> Result<bool, AllocError> {
        if !marks.set(variable, Mark::Met) {
            return Ok(false);
        }
        if board.trail.level_of(variable) > 0 {
            return Ok(true);
        }
        if let Some(unit) = board.trail.unit_of(variable) {
            self.units.push(unit)?;
        }
        Ok(false)
    }

    // Explains the variables that were met, the last one first, until none is left. Then puts all
    // in the order of propagation.
    fn follow(&mut self, board: &Board, marks: &mut Marks, first: usize) -> Result<(), AllocError> {
        let mut left = first;
        for position in (0..board.trail.len()).rev() {
            if left == 0 {
                break;
            }
            let variable = place_of(board.trail.at(position));
            if marks.of(variable) == Mark::Met {
                let more = self.explain_variable(board, marks, variable)?;
                left = left.saturating_sub(1).saturating_add(more);
            }
        }
        self.hints.extend_from_slice(&self.units)?;
        self.hints.reverse();
        Ok(())
    }

    fn explain_variable(
        &mut self,
        board: &Board,
        marks: &mut Marks,
        variable: usize,
    ) -> Result<usize, AllocError> {
        match board.trail.reason_of(variable) {
            Some(reason) => self.explain(board, marks, reason),
            None => Ok(0),
        }
    }
}

//! What follows from a conflict, or from an assumption that is false: a clause to be learned, and
//! the hints that show it.

use crate::activity::Activity;
use crate::arena::Clause;
use crate::board::Board;
use crate::hints::Hints;
use crate::literal::{Literal, opposite, place_of, variable_of};
use crate::marks::{Levels, Mark, Marks};
use crate::proof::ClauseNumber;
use crate::redundancy::Redundancy;
use crate::table::{read, write_at};
use crate::trail::Value;
use std::alloc::{AllocError, Global};

// A learned clause with no more glue stays in any case.
const GLUE_THAT_STAYS: u32 = 2;

/// Of a clause to be learned the level to go back to, and its glue: at how many levels its literals
/// are false.
#[derive(Clone, Copy, Debug, Drop)]
pub struct Lesson {
    pub level: u32,
    pub glue: u32,
}

/// A clause to be learned, its hints, and room for finding them.
#[derive(Clone, Drop)]
pub struct Analysis {
    marks: Marks,
    levels: Levels,
    redundancy: Redundancy,
    hints: Hints,
    clause: Vec<Literal>,
}

impl Analysis {
    /// Of no variables yet.
    pub fn new(alloc: Global) -> Analysis {
        Analysis {
            marks: Marks::new(alloc),
            levels: Levels::new(alloc),
            redundancy: Redundancy::new(alloc),
            hints: Hints::new(alloc),
            clause: Vec::new(alloc),
        }
    }

    /// Makes room for this number of variables and levels. The error is out of memory.
    pub fn grow(&mut self, variables: usize, levels: usize) -> Result<(), AllocError> {
        self.marks.grow(variables)?;
        self.levels.grow(levels)
    }

    /// The literals of the clause that was found last.
    pub fn clause(&self) -> &[Literal] {
        &self.clause
    }

    /// The hints that were found last, in the order of propagation.
    pub fn hints(&self) -> &[ClauseNumber] {
        self.hints.as_slice()
    }

    /// Finds the clause to be learned from one whose literals are all false at a level above 0: of
    /// the last level it has one literal, the first, and the second is of the level to go back to.
    /// It is the clause of the first unique implication point. The error is out of memory.
    pub fn analyze(
        &mut self,
        board: &mut Board,
        activity: &mut Activity,
        conflict: Clause,
    ) -> Result<Lesson, AllocError> {
        self.marks.clear();
        self.clause.clear();
        self.resolve(board, activity, conflict)?;
        self.choose_all();
        self.minimize(board)?;
        self.choose_all();
        self.hints.from_conflict(board, &mut self.marks, conflict)?;
        Ok(self.lesson(board))
    }

    /// Finds which assumptions make the one at this place false. It makes the clause of their
    /// negations, that one's own first. Where two assumptions are each other's negation, these two
    /// are the clause, and no hint is needed. The error is out of memory.
    pub fn blame(
        &mut self,
        board: &Board,
        assumptions: &[Literal],
        place: usize,
    ) -> Result<(), AllocError> {
        self.marks.clear();
        self.clause.clear();
        let Some(failed) = assumptions.get(place) else {
            return Err(AllocError);
        };
        let variable = place_of(*failed);
        self.meet_causes(board, variable);
        self.clause.push(opposite(*failed))?;
        for assumption in assumptions {
            if self.is_met(board, *assumption) {
                self.clause.push(opposite(*assumption))?;
            }
        }
        self.marks.clear();
        for place in 1..self.clause.len() {
            let literal = read(&self.clause, place, 0);
            self.marks.set(place_of(literal), Mark::Chosen);
        }
        self.hints.from_variable(board, &mut self.marks, variable)
    }

    /// Finds the hints of what is left at level 0 of a clause: of one literal of it, or of none.
    /// The error is out of memory.
    pub fn hint_units(
        &mut self,
        board: &Board,
        literals: &[Literal],
        but: Option<Literal>,
        number: ClauseNumber,
    ) -> Result<(), AllocError> {
        self.hints.from_units(board, literals, but, number)
    }

    // Resolves the conflict with reasons, the last one first, until one literal of the last level
    // is left.
    fn resolve(
        &mut self,
        board: &mut Board,
        activity: &mut Activity,
        conflict: Clause,
    ) -> Result<(), AllocError> {
        self.clause.push(0)?;
        self.note_use(board, conflict);
        let mut left = self.take_in(board, activity, conflict)?;
        for position in (0..board.trail.len()).rev() {
            let literal = board.trail.at(position);
            let variable = place_of(literal);
            if self.marks.of(variable) == Mark::Met {
                if left <= 1 {
                    write_at(&mut self.clause, 0, opposite(literal));
                    return Ok(());
                }
                let more = match board.trail.reason_of(variable) {
                    Some(reason) => {
                        self.note_use(board, reason);
                        self.take_in(board, activity, reason)?
                    }
                    None => 0,
                };
                left = left.saturating_sub(1).saturating_add(more);
            }
        }
        Ok(())
    }

    // Notes that a learned clause was used, with the number of levels at which its literals have
    // their values now.
    fn note_use(&mut self, board: &mut Board, clause: Clause) {
        if !board.arena.is_learned(clause) || board.arena.glue(clause) <= GLUE_THAT_STAYS {
            return;
        }
        self.levels.clear();
        let mut glue = 0u32;
        for literal in board.arena.literals(clause) {
            if self.levels.add(board.trail.level_of(place_of(*literal))) {
                glue = glue.saturating_add(1);
            }
        }
        board.arena.note_use(clause, glue);
    }

    // Takes in the literals of a clause that are new: those of lower levels are of the clause to be
    // learned. Answers how many are of the last level.
    fn take_in(
        &mut self,
        board: &Board,
        activity: &mut Activity,
        clause: Clause,
    ) -> Result<usize, AllocError> {
        let mut last = 0usize;
        for literal in board.arena.literals(clause) {
            if self.take_literal(board, activity, *literal)? {
                last = last.saturating_add(1);
            }
        }
        Ok(last)
    }

    // Answers whether a literal is new and of the last level.
    fn take_literal(
        &mut self,
        board: &Board,
        activity: &mut Activity,
        literal: Literal,
    ) -> Result<bool, AllocError> {
        let variable = place_of(literal);
        let level = board.trail.level_of(variable);
        if level == 0 {
            return Ok(false);
        }
        let is_last = level == board.trail.level();
        let mark = if is_last { Mark::Met } else { Mark::Chosen };
        if !self.marks.set(variable, mark) {
            return Ok(false);
        }
        activity.bump(variable_of(literal));
        if !is_last {
            self.clause.push(literal)?;
        }
        Ok(is_last)
    }

    // Marks the variables of the clause, and no others.
    fn choose_all(&mut self) {
        self.marks.clear();
        for literal in &self.clause {
            self.marks.set(place_of(*literal), Mark::Chosen);
        }
    }

    // Leaves out the literals that the clause doesn't need.
    fn minimize(&mut self, board: &Board) -> Result<(), AllocError> {
        self.levels.clear();
        for literal in &self.clause {
            self.levels.add(board.trail.level_of(place_of(*literal)));
        }
        let mut kept = 1usize;
        for place in 1..self.clause.len() {
            let literal = read(&self.clause, place, 0);
            if !self
                .redundancy
                .is_redundant(board, &mut self.marks, &self.levels, literal)?
            {
                write_at(&mut self.clause, kept, literal);
                kept = kept.saturating_add(1);
            }
        }
        self.clause.truncate(kept);
        Ok(())
    }

    // Puts a literal of the highest level but the last into the second place.
    fn lesson(&mut self, board: &Board) -> Lesson {
        self.levels.clear();
        let mut lesson = Lesson { level: 0, glue: 0 };
        for place in 0..self.clause.len() {
            lesson = self.with_literal(board, lesson, place);
        }
        lesson
    }

    fn with_literal(&mut self, board: &Board, lesson: Lesson, place: usize) -> Lesson {
        let literal = read(&self.clause, place, 0);
        let level = board.trail.level_of(place_of(literal));
        let glue = if self.levels.add(level) {
            lesson.glue.saturating_add(1)
        } else {
            lesson.glue
        };
        if place == 0 || level <= lesson.level {
            return Lesson {
                level: lesson.level,
                glue,
            };
        }
        let second = read(&self.clause, 1, 0);
        write_at(&mut self.clause, 1, literal);
        write_at(&mut self.clause, place, second);
        Lesson { level, glue }
    }

    // Marks the variables by which one has its value at a level above 0, and that one.
    fn meet_causes(&mut self, board: &Board, variable: usize) {
        if board.trail.level_of(variable) == 0 {
            return;
        }
        self.marks.set(variable, Mark::Met);
        for position in (0..board.trail.len()).rev() {
            let cause = place_of(board.trail.at(position));
            if self.marks.of(cause) == Mark::Met {
                self.meet_clause(board.reason_clause(cause));
            }
        }
    }

    fn meet_clause(&mut self, literals: &[Literal]) {
        for literal in literals {
            self.marks.set(place_of(*literal), Mark::Met);
        }
    }

    // Whether an assumption was decided, and its variable is marked.
    fn is_met(&self, board: &Board, assumption: Literal) -> bool {
        let variable = place_of(assumption);
        self.marks.of(variable) == Mark::Met
            && board.trail.value(assumption) == Value::True
            && board.trail.level_of(variable) > 0
            && board.trail.reason_of(variable).is_none()
    }
}

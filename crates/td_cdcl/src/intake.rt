//! Clauses that a solver takes in, and what follows from them at level 0.

use crate::arena::Clause;
use crate::literal::{Literal, opposite, place_of};
use crate::proof::ClauseNumber;
use crate::solver::Solver;
use crate::table::read;
use crate::trail::Value;
use std::alloc::AllocError;

impl Solver {
    // Takes a clause of the proof in, one with glue as learned.
    pub(crate) fn take_in(
        &mut self,
        number: ClauseNumber,
        glue: Option<u32>,
    ) -> Result<(), AllocError> {
        if self.empty.is_some() {
            return Ok(());
        }
        self.copy_literals(number)?;
        if self.is_tautology() {
            return Ok(());
        }
        if self.board.trail.level() > 0 && self.literals.len() > 1 {
            self.put_latest_first();
            let second = read(&self.literals, 1, 0);
            if !self.is_false_for_good(second) {
                return self.attach_live(number, glue);
            }
        }
        self.back(0);
        self.take_in_at_root(number, glue)
    }

    // Attaches the copied clause.
    fn attach(&mut self, number: ClauseNumber, glue: Option<u32>) -> Result<Clause, AllocError> {
        let clause = self.board.attach(number, &self.literals, glue)?;
        if glue.is_some() {
            self.learned.push(clause)?;
        }
        Ok(clause)
    }

    // Copies the literals of a clause, each once.
    fn copy_literals(&mut self, number: ClauseNumber) -> Result<(), AllocError> {
        self.literals.clear();
        self.literals
            .extend_from_slice(self.proof.literals(number))?;
        self.literals.sort_unstable();
        self.literals.dedup();
        Ok(())
    }

    // Whether two of the copied literals are each other's negation.
    fn is_tautology(&self) -> bool {
        let mut before = None;
        for literal in &self.literals {
            if before == Some(opposite(*literal)) {
                return true;
            }
            before = Some(*literal);
        }
        false
    }

    pub(crate) fn is_false_for_good(&self, literal: Literal) -> bool {
        self.board.trail.value(literal) == Value::False
            && self.board.trail.level_of(place_of(literal)) == 0
    }

    // How late a literal has become false, one that isn't false being the latest.
    fn lateness(&self, literal: Literal) -> u64 {
        match self.board.trail.value(literal) {
            Value::False => self.board.trail.level_of(place_of(literal)) as u64,
            _ => u64::MAX,
        }
    }

    // Moves the two of the copied literals that are not false, or became so latest, to the front.
    fn put_latest_first(&mut self) {
        for front in 0..2usize {
            let mut best = front;
            for place in front..self.literals.len() {
                let here = self.lateness(read(&self.literals, place, 0));
                if here > self.lateness(read(&self.literals, best, 0)) {
                    best = place;
                }
            }
            if front < self.literals.len() && best < self.literals.len() {
                self.literals.swap(front, best);
            }
        }
    }

    // Attaches the copied clause, of which the second literal isn't false for good, and goes back
    // as far as it wants that.
    fn attach_live(&mut self, number: ClauseNumber, glue: Option<u32>) -> Result<(), AllocError> {
        let first = read(&self.literals, 0, 0);
        let second = read(&self.literals, 1, 0);
        if self.board.trail.value(second) != Value::False {
            self.attach(number, glue)?;
            return Ok(());
        }
        let level = self.board.trail.level_of(place_of(second));
        match self.board.trail.value(first) {
            Value::Open => {
                self.back(level);
                let clause = self.attach(number, glue)?;
                self.board.trail.assign(first, Some(clause));
                return Ok(());
            }
            Value::True => {
                if self.board.trail.level_of(place_of(first)) > level {
                    self.back(level.saturating_sub(1));
                }
            }
            Value::False => self.back(level.saturating_sub(1)),
        }
        self.attach(number, glue)?;
        Ok(())
    }

    // Takes in the copied clause at level 0.
    fn take_in_at_root(
        &mut self,
        number: ClauseNumber,
        glue: Option<u32>,
    ) -> Result<(), AllocError> {
        match self.front_open() {
            0 => self.conclude(number),
            1 => self.take_in_unit(number),
            _ => {
                self.attach(number, glue)?;
                Ok(())
            }
        }
    }

    // Moves literals that aren't false to the front, two at most. Answers how many.
    fn front_open(&mut self) -> usize {
        let mut open = 0usize;
        for place in 0..self.literals.len() {
            if open < 2 && self.bring_forward(place, open) {
                open = open.saturating_add(1);
            }
        }
        open
    }

    // Moves a literal that isn't false to the front. Answers whether it isn't.
    fn bring_forward(&mut self, from: usize, to: usize) -> bool {
        let literal = read(&self.literals, from, 0);
        if from >= self.literals.len() || to >= self.literals.len() {
            return false;
        }
        if self.board.trail.value(literal) == Value::False {
            return false;
        }
        self.literals.swap(to, from);
        true
    }

    // Takes in a clause whose copied literals are false at level 0 but for the first.
    fn take_in_unit(&mut self, number: ClauseNumber) -> Result<(), AllocError> {
        let first = read(&self.literals, 0, 0);
        if self.board.trail.value(first) == Value::True {
            return Ok(());
        }
        let unit = if self.literals.len() == 1 {
            number
        } else {
            self.analysis
                .hint_units(&self.board, &self.literals, Some(first), number)?;
            self.proof.learn(&[first], self.analysis.hints())?
        };
        self.board.trail.assign_unit(first, unit);
        self.settle()?;
        Ok(())
    }

    // Learns the clause without literals from one whose copied literals are all false at level 0.
    fn conclude(&mut self, number: ClauseNumber) -> Result<(), AllocError> {
        self.analysis
            .hint_units(&self.board, &self.literals, None, number)?;
        let empty = self.proof.learn(&[], self.analysis.hints())?;
        self.empty = Some(empty);
        Ok(())
    }

    // Propagates at level 0, and names what has become true. Answers whether no clause is false.
    pub(crate) fn settle(&mut self) -> Result<bool, AllocError> {
        let conflict = self.board.propagate()?;
        self.name_all()?;
        match conflict {
            None => Ok(true),
            Some(conflict) => {
                self.refute(conflict)?;
                Ok(false)
            }
        }
    }

    // Learns the clause without literals from a clause that is false at level 0.
    pub(crate) fn refute(&mut self, conflict: Clause) -> Result<(), AllocError> {
        self.copy_clause(conflict)?;
        let number = self.board.arena.number(conflict);
        self.conclude(number)
    }

    fn copy_clause(&mut self, clause: Clause) -> Result<(), AllocError> {
        self.literals.clear();
        self.literals
            .extend_from_slice(self.board.arena.literals(clause))
    }

    // Learns the clause of one literal for each literal of level 0 that has none.
    pub(crate) fn name_all(&mut self) -> Result<(), AllocError> {
        let end = self.board.trail.len();
        for position in self.named..end {
            self.name(position)?;
        }
        self.named = end;
        Ok(())
    }

    fn name(&mut self, position: usize) -> Result<(), AllocError> {
        let literal = self.board.trail.at(position);
        let Some(reason) = self.board.trail.reason_of(place_of(literal)) else {
            return Ok(());
        };
        self.copy_clause(reason)?;
        let number = self.board.arena.number(reason);
        self.analysis
            .hint_units(&self.board, &self.literals, Some(literal), number)?;
        let unit = self.proof.learn(&[literal], self.analysis.hints())?;
        self.board.trail.name(place_of(literal), unit);
        Ok(())
    }
}

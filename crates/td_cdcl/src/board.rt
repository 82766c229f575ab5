//! The clauses that the search uses and the literals that are true, with propagation: where all
//! literals of a clause but one are false, that one is true.

use crate::arena::{Arena, Clause, Visit};
use crate::literal::{Literal, opposite, place_of};
use crate::proof::ClauseNumber;
use crate::trail::{Trail, Value};
use crate::watches::{Watch, Watches};
use std::alloc::{AllocError, Global};

/// Clauses, what watches them, and the literals that are true.
#[derive(Clone, Drop)]
pub struct Board {
    pub arena: Arena,
    pub watches: Watches,
    pub trail: Trail,
    /// How many literals were propagated.
    pub propagations: u64,
    /// How many watches were looked at.
    pub looks: u64,
}

// What becomes of a watch: it is kept, with this other literal; all literals of its clause are
// false; or another literal is watched.
#[derive(Clone, Copy, Drop)]
enum Look {
    Kept(Literal),
    Conflict,
    Dropped,
}

// The watches of a literal that have been visited: how many of them are kept, and a clause whose
// literals are all false.
#[derive(Clone, Copy, Drop)]
struct Progress {
    kept: usize,
    conflict: Option<Clause>,
}

impl Progress {
    // Keeps a watch.
    #[inline(always)]
    fn with(self, watches: &mut [Watch], watch: Watch) -> Progress {
        if self.kept < watches.len() {
            watches[self.kept] = watch;
        }
        Progress {
            kept: self.kept.saturating_add(1),
            conflict: self.conflict,
        }
    }

    // Keeps a watch whose clause is false.
    fn with_conflict(self, watches: &mut [Watch], watch: Watch) -> Progress {
        let kept = self.with(watches, watch);
        Progress {
            kept: kept.kept,
            conflict: Some(watch.clause()),
        }
    }
}

impl Board {
    /// No clauses and no variables.
    pub fn new(alloc: Global) -> Board {
        Board {
            arena: Arena::new(alloc),
            watches: Watches::new(alloc),
            trail: Trail::new(alloc),
            propagations: 0,
            looks: 0,
        }
    }

    /// Makes room for this number of variables. The error is out of memory.
    pub fn grow(&mut self, variables: u32) -> Result<(), AllocError> {
        self.trail.grow(variables as usize)?;
        self.watches.grow((variables as usize).saturating_mul(2))
    }

    /// Adds a clause of two literals or more, whose first two are watched: if they aren't both
    /// false, neither is, or the first one is to be made true. The error is out of memory, or that
    /// there are too few literals.
    pub fn attach(
        &mut self,
        number: ClauseNumber,
        literals: &[Literal],
        glue: Option<u32>,
    ) -> Result<Clause, AllocError> {
        if literals.len() < 2 {
            return Err(AllocError);
        }
        let first = literals[0];
        let second = literals[1];
        let is_binary = literals.len() == 2;
        let clause = self.arena.add(number, literals, glue)?;
        self.watches
            .add(first, Watch::new(clause, second, is_binary))?;
        self.watches
            .add(second, Watch::new(clause, first, is_binary))?;
        Ok(clause)
    }

    /// Propagates what has become true. Answers a clause whose literals are all false, if it comes
    /// to that. The error is out of memory.
    pub fn propagate(&mut self) -> Result<Option<Clause>, AllocError> {
        for _ in 0..self.trail.variables() {
            let Some(literal) = self.trail.next() else {
                return Ok(None);
            };
            self.propagations = self.propagations.saturating_add(1);
            let conflict = self.visit(opposite(literal))?;
            if conflict.is_some() {
                return Ok(conflict);
            }
        }
        Ok(None)
    }

    // Visits the clauses that watch a literal that has become false.
    #[inline(always)]
    fn visit(&mut self, falsified: Literal) -> Result<Option<Clause>, AllocError> {
        let mut watches = self.watches.take(falsified);
        self.looks = self.looks.saturating_add(watches.len() as u64);
        let progress = self.look_at_all(&mut watches, falsified)?;
        watches.truncate(progress.kept);
        self.watches.put_back(falsified, watches);
        Ok(progress.conflict)
    }

    #[inline(always)]
    fn look_at_all(
        &mut self,
        watches: &mut [Watch],
        falsified: Literal,
    ) -> Result<Progress, AllocError> {
        let mut progress = Progress {
            kept: 0,
            conflict: None,
        };
        for place in 0..watches.len() {
            let watch = watches[place];
            progress = self.look(watches, watch, falsified, progress)?;
        }
        Ok(progress)
    }

    // Looks at a watch, and keeps it where it is still one.
    #[inline(always)]
    fn look(
        &mut self,
        watches: &mut [Watch],
        watch: Watch,
        falsified: Literal,
        progress: Progress,
    ) -> Result<Progress, AllocError> {
        if progress.conflict.is_some() {
            return Ok(progress.with(watches, watch));
        }
        match self.visit_clause(watch, falsified)? {
            Look::Kept(blocker) => Ok(progress.with(watches, watch.with_blocker(blocker))),
            Look::Conflict => Ok(progress.with_conflict(watches, watch)),
            Look::Dropped => Ok(progress),
        }
    }

    #[inline(always)]
    fn visit_clause(&mut self, watch: Watch, falsified: Literal) -> Result<Look, AllocError> {
        match self.trail.value(watch.blocker) {
            Value::True => Ok(Look::Kept(watch.blocker)),
            _ => {
                if watch.is_binary() {
                    Ok(self.propagate_to(watch.blocker, watch.clause()))
                } else {
                    self.visit_long(watch.clause(), falsified)
                }
            }
        }
    }

    // Makes the only literal of a clause that isn't false true, if it isn't false itself.
    #[inline(always)]
    fn propagate_to(&mut self, literal: Literal, clause: Clause) -> Look {
        match self.trail.value(literal) {
            Value::False => Look::Conflict,
            _ => {
                self.trail.assign(literal, Some(clause));
                Look::Kept(literal)
            }
        }
    }

    #[inline(always)]
    fn visit_long(&mut self, clause: Clause, falsified: Literal) -> Result<Look, AllocError> {
        match self.arena.visit(clause, falsified, self.trail.values()) {
            Visit::Gone => Ok(Look::Dropped),
            Visit::Satisfied(first) => Ok(Look::Kept(first)),
            Visit::Single(first) => Ok(self.propagate_to(first, clause)),
            Visit::Moved(first, other) => {
                self.watches.add(other, Watch::new(clause, first, false))?;
                Ok(Look::Dropped)
            }
        }
    }

    /// The literals of the clause by which a variable has its value, none where it was decided or
    /// is named at level 0.
    #[inline(always)]
    pub fn reason_clause(&self, variable: usize) -> &[Literal] {
        match self.trail.reason_of(variable) {
            Some(reason) => self.arena.literals(reason),
            None => &[],
        }
    }

    /// Whether a clause is the reason of one of its first two literals.
    pub fn is_reason(&self, clause: Clause) -> bool {
        for literal in self.arena.literals(clause).iter().take(2) {
            if self.trail.value(*literal) == Value::True
                && self.trail.reason_of(place_of(*literal)) == Some(clause)
            {
                return true;
            }
        }
        false
    }

    /// Drops the clauses that were removed, and moves the others together. The error is out of
    /// memory.
    pub fn collect(&mut self, learned: &mut Vec<Clause>) -> Result<(), AllocError> {
        learned.retain(|clause| !self.arena.is_removed(*clause));
        self.watches.forget(&self.arena);
        let Some(moves) = self.arena.collect()? else {
            return Ok(());
        };
        self.watches.follow(&moves);
        self.trail.follow(&moves);
        for clause in learned.iter_mut() {
            *clause = moves.place(*clause);
        }
        Ok(())
    }
}

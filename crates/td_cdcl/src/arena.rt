//! The clauses that the search uses, in one vector.

use crate::literal::Literal;
use crate::proof::ClauseNumber;
use crate::table::{read, small, write_at};
use crate::trail::Value;
use std::alloc::{AllocError, Global};

/// Where a clause begins in the arena.
pub type Clause = u32;

// Before its literals a clause has three words: how many literals it has, its number in the proof,
// and its marks, with its glue.
const HEAD: usize = 3;

const NUMBER: usize = 1;

const MARKS: usize = 2;

const GLUE: u32 = 0xffff;
// The clause was used since the last reduction.
const USED: u32 = 1 << 16;

const REMOVED: u32 = 1 << 30;

const LEARNED: u32 = 1 << 31;
// A watch has one bit of a place for itself.
const MOST_WORDS: usize = 1 << 31;

/// Clauses of two literals and more. The first two of each are watched.
#[derive(Clone, Drop)]
pub struct Arena {
    alloc: Global,
    words: Vec<u32>,
    // How many of these words are of clauses that were removed.
    wasted: usize,
}

/// What becomes of a clause when one of its watched literals is false: the other one is true;
/// another literal is watched now, beside the first one; only the first one may be true; or the
/// clause isn't there.
#[derive(Clone, Copy, Drop)]
pub enum Visit {
    Satisfied(Literal),
    Moved(Literal, Literal),
    Single(Literal),
    Gone,
}

/// Where clauses stood before they were moved together.
#[derive(Drop)]
pub struct Moves {
    words: Vec<u32>,
}

impl Moves {
    /// The new place of a clause that wasn't removed.
    pub fn place(&self, clause: Clause) -> Clause {
        read(&self.words, (clause as usize).saturating_add(NUMBER), 0)
    }
}

// Visits a clause whose first or second literal is false now.
#[inline(always)]
fn visited(literals: &mut [Literal], falsified: Literal, values: &[Value]) -> Visit {
    if literals.len() < 2 {
        return Visit::Gone;
    }
    if literals[0] == falsified {
        literals.swap(0, 1);
    }
    let first = literals[0];
    match read(values, first as usize, Value::Open) {
        Value::True => Visit::Satisfied(first),
        _ => watched_anew(literals, first, values),
    }
}

// Looks for another literal to be watched in place of the second.
#[inline(always)]
fn watched_anew(literals: &mut [Literal], first: Literal, values: &[Value]) -> Visit {
    for place in 2..literals.len() {
        let other = literals[place];
        match read(values, other as usize, Value::Open) {
            Value::False => {}
            _ => {
                literals.swap(1, place);
                return Visit::Moved(first, other);
            }
        }
    }
    Visit::Single(first)
}

impl Arena {
    /// No clauses.
    pub fn new(alloc: Global) -> Arena {
        Arena {
            alloc,
            words: Vec::new(alloc),
            wasted: 0,
        }
    }

    #[inline(always)]
    fn word(&self, clause: Clause, which: usize) -> u32 {
        read(&self.words, (clause as usize).saturating_add(which), 0)
    }

    fn mark(&mut self, clause: Clause, marks: u32) {
        write_at(
            &mut self.words,
            (clause as usize).saturating_add(MARKS),
            marks,
        );
    }

    /// The place after the last clause.
    pub fn end(&self) -> usize {
        self.words.len()
    }

    /// The place after a clause.
    pub fn after(&self, clause: Clause) -> usize {
        (clause as usize)
            .saturating_add(HEAD)
            .saturating_add(self.word(clause, 0) as usize)
    }

    /// The literals of a clause.
    #[inline(always)]
    pub fn literals(&self, clause: Clause) -> &[Literal] {
        let start = (clause as usize).saturating_add(HEAD);
        let end = start.saturating_add(self.word(clause, 0) as usize);
        match self.words.get(start..end) {
            Some(own) => own,
            None => &[],
        }
    }

    /// The number of a clause in the proof.
    #[inline(always)]
    pub fn number(&self, clause: Clause) -> ClauseNumber {
        self.word(clause, NUMBER)
    }

    /// Whether the clause was removed.
    #[inline(always)]
    pub fn is_removed(&self, clause: Clause) -> bool {
        self.word(clause, MARKS) & REMOVED != 0
    }

    /// At how many levels the literals of a learned clause were false, the fewest that were seen.
    pub fn glue(&self, clause: Clause) -> u32 {
        self.word(clause, MARKS) & GLUE
    }

    /// Whether a clause was learned.
    pub fn is_learned(&self, clause: Clause) -> bool {
        self.word(clause, MARKS) & LEARNED != 0
    }

    /// Whether a learned clause was used since the last reduction.
    pub fn is_used(&self, clause: Clause) -> bool {
        self.word(clause, MARKS) & USED != 0
    }

    /// Notes that a learned clause was used, with its glue now.
    pub fn note_use(&mut self, clause: Clause, glue: u32) {
        let marks = self.word(clause, MARKS);
        let least = glue.min(marks & GLUE);
        self.mark(clause, (marks & !GLUE) | least | USED);
    }

    /// Forgets that a learned clause was used.
    pub fn forget_use(&mut self, clause: Clause) {
        let marks = self.word(clause, MARKS);
        self.mark(clause, marks & !USED);
    }

    /// Adds a clause that was given, or learned with this glue. The error is out of memory, or that
    /// there are too many.
    pub fn add(
        &mut self,
        number: ClauseNumber,
        literals: &[Literal],
        glue: Option<u32>,
    ) -> Result<Clause, AllocError> {
        let Ok(len) = u32::try_from(literals.len()) else {
            return Err(AllocError);
        };
        let start = self.words.len();
        if start >= MOST_WORDS {
            return Err(AllocError);
        }
        let marks = match glue {
            Some(glue) => LEARNED | glue.min(GLUE),
            None => 0,
        };
        self.words.push(len)?;
        self.words.push(number)?;
        self.words.push(marks)?;
        self.words.extend_from_slice(literals)?;
        Ok(small(start))
    }

    /// Removes a clause. Its room is free once `collect` was called.
    pub fn remove(&mut self, clause: Clause) {
        let marks = self.word(clause, MARKS);
        if marks & REMOVED == 0 {
            self.mark(clause, marks | REMOVED);
            let words = HEAD.saturating_add(self.word(clause, 0) as usize);
            self.wasted = self.wasted.saturating_add(words);
        }
    }

    /// Visits a clause of which a watched literal has become false.
    #[inline(always)]
    pub fn visit(&mut self, clause: Clause, falsified: Literal, values: &[Value]) -> Visit {
        if self.is_removed(clause) {
            return Visit::Gone;
        }
        let start = (clause as usize).saturating_add(HEAD);
        let end = start.saturating_add(self.word(clause, 0) as usize);
        if end > self.words.len() {
            return Visit::Gone;
        }
        visited(&mut self.words[start..end], falsified, values)
    }

    /// Moves the clauses together, where a quarter of the words are free. Answers where they stood.
    /// The error is out of memory.
    pub fn collect(&mut self) -> Result<Option<Moves>, AllocError> {
        if self.wasted <= self.words.len() / 4 {
            return Ok(None);
        }
        let space = self.words.len().saturating_sub(self.wasted);
        let mut kept = Vec::with_capacity(self.alloc, space)?;
        let mut place = 0;
        for _ in 0..self.words.len() {
            if place >= self.words.len() {
                break;
            }
            place = self.move_clause(small(place), &mut kept)?;
        }
        let words = std::mem::replace(&mut self.words, kept);
        self.wasted = 0;
        Ok(Some(Moves { words }))
    }

    // Copies a clause that wasn't removed, and writes its new place in place of its number. Answers
    // where the next one stands.
    fn move_clause(&mut self, clause: Clause, kept: &mut Vec<u32>) -> Result<usize, AllocError> {
        let end = self.after(clause);
        if !self.is_removed(clause) {
            let to = small(kept.len());
            if let Some(own) = self.words.get(clause as usize..end) {
                kept.extend_from_slice(own)?;
            }
            write_at(
                &mut self.words,
                (clause as usize).saturating_add(NUMBER),
                to,
            );
        }
        Ok(end)
    }
}

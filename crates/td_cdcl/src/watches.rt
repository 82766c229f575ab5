//! Which clauses watch a literal.

use crate::arena::{Arena, Clause, Moves};
use crate::literal::Literal;
use std::alloc::{AllocError, Global};
use std::mem;

// The bit of a clause of two literals.
const BINARY: u32 = 1 << 31;

/// A clause that watches a literal, with another literal of it: where that is true, the clause
/// needs no visit. Of a clause of two literals it is the other one.
#[derive(Clone, Copy, Drop)]
pub struct Watch {
    tagged: u32,
    pub blocker: Literal,
}

/// By literal the clauses that watch it.
#[derive(Clone, Drop)]
pub struct Watches {
    alloc: Global,
    lists: Vec<Vec<Watch>>,
}

impl Watch {
    /// A watch of a clause.
    pub fn new(clause: Clause, blocker: Literal, is_binary: bool) -> Watch {
        let tagged = if is_binary { clause | BINARY } else { clause };
        Watch { tagged, blocker }
    }

    /// The clause.
    #[inline(always)]
    pub fn clause(self) -> Clause {
        self.tagged & !BINARY
    }

    /// Whether the clause has two literals.
    #[inline(always)]
    pub fn is_binary(self) -> bool {
        self.tagged & BINARY != 0
    }

    /// The same watch with another literal of the clause.
    #[inline(always)]
    pub fn with_blocker(self, blocker: Literal) -> Watch {
        Watch {
            tagged: self.tagged,
            blocker,
        }
    }
}

// Drops the clauses that were removed.
fn forget_in(list: &mut Vec<Watch>, arena: &Arena) {
    list.retain(|watch| !arena.is_removed(watch.clause()));
}

fn move_in(list: &mut [Watch], moves: &Moves) {
    for watch in list.iter_mut() {
        *watch = Watch::new(
            moves.place(watch.clause()),
            watch.blocker,
            watch.is_binary(),
        );
    }
}

impl Watches {
    /// Of no literals yet.
    pub fn new(alloc: Global) -> Watches {
        Watches {
            alloc,
            lists: Vec::new(alloc),
        }
    }

    /// Makes room for this number of literals. The error is out of memory.
    pub fn grow(&mut self, literals: usize) -> Result<(), AllocError> {
        for _ in self.lists.len()..literals {
            self.lists.push(Vec::new(self.alloc))?;
        }
        Ok(())
    }

    /// Adds a clause that watches a literal. The error is out of memory.
    #[inline(always)]
    pub fn add(&mut self, literal: Literal, watch: Watch) -> Result<(), AllocError> {
        match self.lists.get_mut(literal as usize) {
            Some(list) => {
                list.push(watch)?;
                Ok(())
            }
            None => Ok(()),
        }
    }

    /// Takes out the clauses that watch a literal.
    #[inline(always)]
    pub fn take(&mut self, literal: Literal) -> Vec<Watch> {
        let none = Vec::new(self.alloc);
        match self.lists.get_mut(literal as usize) {
            Some(list) => mem::replace(list, none),
            None => none,
        }
    }

    /// Puts back those that still watch it.
    #[inline(always)]
    pub fn put_back(&mut self, literal: Literal, watches: Vec<Watch>) {
        if let Some(list) = self.lists.get_mut(literal as usize) {
            *list = watches;
        }
    }

    /// Drops the clauses that were removed.
    pub fn forget(&mut self, arena: &Arena) {
        for list in self.lists.iter_mut() {
            forget_in(list, arena);
        }
    }

    /// Follows the clauses to their new places.
    pub fn follow(&mut self, moves: &Moves) {
        for list in self.lists.iter_mut() {
            move_in(list, moves);
        }
    }
}

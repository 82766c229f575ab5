//! Marks of variables and of levels while a conflict is analysed.

use crate::table::{read, write_at};
use std::alloc::{AllocError, Global};

/// What is known of a variable: nothing, that its literal is in the clause, that it was met, that
/// the clause needs no literal of it, or that this couldn't be shown.
#[derive(Clone, Copy, Debug, PartialEq, Eq, Drop)]
pub enum Mark {
    Clear,
    Chosen,
    Met,
    Redundant,
    Needed,
}

/// A mark for each variable.
#[derive(Clone, Drop)]
pub struct Marks {
    marks: Vec<Mark>,
    // As many as there are variables; the first `count` of them have marks.
    marked: Vec<usize>,
    count: usize,
}

/// A set of levels, which is emptied at once.
#[derive(Clone, Drop)]
pub struct Levels {
    // By level the last turn in which it was in the set.
    turns: Vec<u64>,
    turn: u64,
}

impl Marks {
    /// Of no variables yet.
    pub fn new(alloc: Global) -> Marks {
        Marks {
            marks: Vec::new(alloc),
            marked: Vec::new(alloc),
            count: 0,
        }
    }

    /// Makes room for this number of variables. The error is out of memory.
    pub fn grow(&mut self, variables: usize) -> Result<(), AllocError> {
        self.marks.resize(variables, Mark::Clear)?;
        self.marked.resize(variables, 0)
    }

    /// The mark of a variable.
    #[inline(always)]
    pub fn of(&self, variable: usize) -> Mark {
        read(&self.marks, variable, Mark::Clear)
    }

    /// Marks a variable that has no mark. Answers whether it had none.
    #[inline(always)]
    pub fn set(&mut self, variable: usize, mark: Mark) -> bool {
        if self.of(variable) != Mark::Clear {
            return false;
        }
        write_at(&mut self.marks, variable, mark);
        write_at(&mut self.marked, self.count, variable);
        self.count = self.count.saturating_add(1);
        true
    }

    /// Takes all marks away.
    pub fn clear(&mut self) {
        for place in 0..self.count {
            let variable = read(&self.marked, place, 0);
            write_at(&mut self.marks, variable, Mark::Clear);
        }
        self.count = 0;
    }
}

impl Levels {
    /// No levels.
    pub fn new(alloc: Global) -> Levels {
        Levels {
            turns: Vec::new(alloc),
            turn: 0,
        }
    }

    /// Makes room for this number of levels. The error is out of memory.
    pub fn grow(&mut self, levels: usize) -> Result<(), AllocError> {
        if self.turns.len() < levels {
            self.turns.resize(levels, 0)?;
        }
        Ok(())
    }

    /// Empties the set.
    pub fn clear(&mut self) {
        self.turn = self.turn.saturating_add(1);
    }

    /// Adds a level. Answers whether it is new.
    #[inline(always)]
    pub fn add(&mut self, level: u32) -> bool {
        let is_new = !self.has(level);
        write_at(&mut self.turns, level as usize, self.turn);
        is_new
    }

    /// Whether the level is in the set.
    #[inline(always)]
    pub fn has(&self, level: u32) -> bool {
        read(&self.turns, level as usize, 0) == self.turn
    }
}

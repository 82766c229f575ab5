//! Which literals a learned clause doesn't need: those that are false by its others.

use crate::board::Board;
use crate::literal::{Literal, place_of};
use crate::marks::{Levels, Mark, Marks};
use std::alloc::{AllocError, Global};

// How deep the search for one literal goes, and how many steps it takes at most.
const MOST_DEPTH: usize = 512;

const MOST_STEPS: u32 = 65536;

/// A variable, and which literal of its reason is looked at next.
#[derive(Clone, Copy, Drop)]
struct Frame {
    variable: usize,
    next: usize,
}

// Whether a literal of a reason is false by literals of the clause, isn't, or has to be looked
// into.
#[derive(Clone, Copy, Drop)]
enum Verdict {
    Redundant,
    Needed,
    Unknown,
}

/// A search for literals that a clause doesn't need.
#[derive(Clone, Drop)]
pub struct Redundancy {
    stack: Vec<Frame>,
}

impl Redundancy {
    /// Room for such a search.
    pub fn new(alloc: Global) -> Redundancy {
        Redundancy {
            stack: Vec::new(alloc),
        }
    }

    /// Whether a literal of the clause is false by the others, which are marked as chosen, and
    /// whose levels these are. The variables that were looked into get marks. The error is out of
    /// memory.
    pub fn is_redundant(
        &mut self,
        board: &Board,
        marks: &mut Marks,
        levels: &Levels,
        literal: Literal,
    ) -> Result<bool, AllocError> {
        let variable = place_of(literal);
        if board.trail.reason_of(variable).is_none() {
            return Ok(false);
        }
        self.stack.clear();
        self.stack.push(Frame { variable, next: 0 })?;
        for _ in 0..MOST_STEPS {
            let Some(frame) = self.stack.pop() else {
                return Ok(true);
            };
            if !self.step(board, marks, levels, frame)? {
                self.give_up(marks);
                return Ok(false);
            }
        }
        Ok(false)
    }

    // Looks at the next literal of a reason. Answers whether the search goes on.
    fn step(
        &mut self,
        board: &Board,
        marks: &mut Marks,
        levels: &Levels,
        frame: Frame,
    ) -> Result<bool, AllocError> {
        let reason = board.reason_clause(frame.variable);
        let Some(literal) = reason.get(frame.next) else {
            marks.set(frame.variable, Mark::Redundant);
            return Ok(true);
        };
        let variable = place_of(*literal);
        self.stack.push(Frame {
            variable: frame.variable,
            next: frame.next.saturating_add(1),
        })?;
        if variable == frame.variable {
            return Ok(true);
        }
        match judged(board, marks, levels, variable) {
            Verdict::Redundant => Ok(true),
            Verdict::Needed => Ok(false),
            Verdict::Unknown => self.look_into(variable),
        }
    }

    // Goes into the reason of a variable, where the depth allows it.
    fn look_into(&mut self, variable: usize) -> Result<bool, AllocError> {
        if self.stack.len() >= MOST_DEPTH {
            return Ok(false);
        }
        self.stack.push(Frame { variable, next: 0 })?;
        Ok(true)
    }

    // None of the variables that are looked into is redundant, as far as is known.
    fn give_up(&self, marks: &mut Marks) {
        for frame in &self.stack {
            marks.set(frame.variable, Mark::Needed);
        }
    }
}

fn judged(board: &Board, marks: &Marks, levels: &Levels, variable: usize) -> Verdict {
    let level = board.trail.level_of(variable);
    if level == 0 {
        return Verdict::Redundant;
    }
    match marks.of(variable) {
        Mark::Chosen | Mark::Redundant => Verdict::Redundant,
        Mark::Needed => Verdict::Needed,
        _ => {
            if board.trail.reason_of(variable).is_none() || !levels.has(level) {
                Verdict::Needed
            } else {
                Verdict::Unknown
            }
        }
    }
}

//! Which literals are true, in the order in which they came to be so.

use crate::activity::Activity;
use crate::arena::{Clause, Moves};
use crate::literal::{Literal, literal_at, opposite, place_of, variable_of};
use crate::proof::ClauseNumber;
use crate::table::{read, write_at};
use std::alloc::{AllocError, Global};

/// What is known of a literal.
#[derive(Clone, Copy, Debug, PartialEq, Eq, Drop)]
pub enum Value {
    Open,
    True,
    False,
}

/// How a variable got its value: at which level, and by which clause, none for a decision. At level
/// 0, once it is named, it has a clause of that one literal in the proof instead.
#[derive(Clone, Copy, Drop)]
struct Cause {
    level: u32,
    reason: Option<Clause>,
    unit: Option<ClauseNumber>,
}

/// The literals that are true. A level begins with a decision, and level 0 has what needs none.
#[derive(Clone, Drop)]
pub struct Trail {
    // By literal.
    values: Vec<Value>,
    // By variable; of one that is open the last one.
    causes: Vec<Cause>,
    // By variable: the value that it had last.
    phases: Vec<bool>,
    // As many as there are variables; the first `count` of them are true.
    literals: Vec<Literal>,
    count: usize,
    // Where each level but 0 begins among them.
    starts: Vec<usize>,
    level: u32,
    // How many of them have been propagated.
    head: usize,
}

impl Cause {
    fn none() -> Cause {
        Cause {
            level: 0,
            reason: None,
            unit: None,
        }
    }
}

impl Trail {
    /// No variables yet.
    pub fn new(alloc: Global) -> Trail {
        Trail {
            values: Vec::new(alloc),
            causes: Vec::new(alloc),
            phases: Vec::new(alloc),
            literals: Vec::new(alloc),
            count: 0,
            starts: Vec::new(alloc),
            level: 0,
            head: 0,
        }
    }

    /// Makes room for this number of variables. The error is out of memory.
    pub fn grow(&mut self, variables: usize) -> Result<(), AllocError> {
        self.values
            .resize(variables.saturating_mul(2), Value::Open)?;
        self.causes.resize(variables, Cause::none())?;
        self.phases.resize(variables, false)?;
        self.literals.resize(variables, 0)
    }

    /// How many variables there are.
    pub fn variables(&self) -> usize {
        self.literals.len()
    }

    /// How many literals are true.
    pub fn len(&self) -> usize {
        self.count
    }

    /// The last level.
    pub fn level(&self) -> u32 {
        self.level
    }

    /// What is known of the literals, by literal.
    #[inline(always)]
    pub fn values(&self) -> &[Value] {
        &self.values
    }

    /// What is known of a literal.
    #[inline(always)]
    pub fn value(&self, literal: Literal) -> Value {
        read(&self.values, literal as usize, Value::Open)
    }

    /// The literal that came to be true after `position` others.
    #[inline(always)]
    pub fn at(&self, position: usize) -> Literal {
        read(&self.literals, position, 0)
    }

    /// The decision of a level above 0.
    pub fn decision(&self, level: u32) -> Literal {
        self.at(read(&self.starts, level as usize, 0))
    }

    /// The level of a variable that has a value.
    #[inline(always)]
    pub fn level_of(&self, variable: usize) -> u32 {
        match self.causes.get(variable) {
            Some(cause) => cause.level,
            None => 0,
        }
    }

    /// The clause by which a variable has its value, none for a decision or one that is named.
    #[inline(always)]
    pub fn reason_of(&self, variable: usize) -> Option<Clause> {
        match self.causes.get(variable) {
            Some(cause) => cause.reason,
            None => None,
        }
    }

    /// The clause of one literal of a variable that is named at level 0.
    #[inline(always)]
    pub fn unit_of(&self, variable: usize) -> Option<ClauseNumber> {
        match self.causes.get(variable) {
            Some(cause) => cause.unit,
            None => None,
        }
    }

    /// The literal of an open variable that is decided: the value that it had last.
    pub fn kept_literal(&self, variable: u32) -> Literal {
        literal_at(variable, read(&self.phases, variable as usize, false))
    }

    /// Sets the value with which a variable is decided next.
    pub fn set_phase(&mut self, variable: u32, value: bool) {
        write_at(&mut self.phases, variable as usize, value);
    }

    /// Makes an open literal true, by a clause or as a decision.
    #[inline(always)]
    pub fn assign(&mut self, literal: Literal, reason: Option<Clause>) {
        let cause = Cause {
            level: self.level,
            reason,
            unit: None,
        };
        self.put(literal, cause);
    }

    /// Makes an open literal true at level 0, by a clause of the proof that has it alone.
    pub fn assign_unit(&mut self, literal: Literal, unit: ClauseNumber) {
        let cause = Cause {
            level: 0,
            reason: None,
            unit: Some(unit),
        };
        self.put(literal, cause);
    }

    #[inline(always)]
    fn put(&mut self, literal: Literal, cause: Cause) {
        write_at(&mut self.values, literal as usize, Value::True);
        write_at(&mut self.values, opposite(literal) as usize, Value::False);
        write_at(&mut self.causes, place_of(literal), cause);
        write_at(&mut self.literals, self.count, literal);
        self.count = self.count.saturating_add(1);
    }

    /// Names the clause of one literal by which a variable has its value at level 0.
    pub fn name(&mut self, variable: usize, unit: ClauseNumber) {
        let cause = Cause {
            level: 0,
            reason: None,
            unit: Some(unit),
        };
        write_at(&mut self.causes, variable, cause);
    }

    /// The next literal whose watches are to be visited, if there is one.
    #[inline(always)]
    pub fn next(&mut self) -> Option<Literal> {
        if self.head >= self.count {
            return None;
        }
        let literal = self.at(self.head);
        self.head = self.head.saturating_add(1);
        Some(literal)
    }

    /// Begins a level. The error is out of memory.
    pub fn begin_level(&mut self) -> Result<(), AllocError> {
        self.starts.push(self.count)?;
        self.level = self.level.saturating_add(1);
        Ok(())
    }

    /// Goes back to the end of a level: what came later is open again.
    pub fn back(&mut self, level: u32, activity: &mut Activity) {
        if self.level <= level {
            return;
        }
        let start = read(&self.starts, level as usize, 0);
        for position in (start..self.count).rev() {
            self.undo(position, activity);
        }
        self.starts.truncate(level as usize);
        self.level = level;
        self.count = start;
        self.head = start;
    }

    fn undo(&mut self, position: usize, activity: &mut Activity) {
        let literal = self.at(position);
        write_at(&mut self.values, literal as usize, Value::Open);
        write_at(&mut self.values, opposite(literal) as usize, Value::Open);
        write_at(&mut self.phases, place_of(literal), literal % 2 == 0);
        activity.insert(variable_of(literal));
    }

    /// Follows the clauses to their new places.
    pub fn follow(&mut self, moves: &Moves) {
        for position in 0..self.count {
            let variable = place_of(self.at(position));
            if let Some(cause) = self.causes.get_mut(variable) {
                cause.reason = match cause.reason {
                    Some(clause) => Some(moves.place(clause)),
                    None => None,
                };
            }
        }
    }
}

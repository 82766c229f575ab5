//! Literals that are taken to be false.

ghost use Rattle.std.specs.Prelude.{◌≡◌, ◌↔◌, IsTrue, ℕ, ◌<◌, ◌++◌, ◌∷◌, [], length, map, get_or, IfOk, OnOk, OnErr, replicate};
ghost use Rattle.std.specs.List.{All, Contains};
ghost use Rattle.td_propagation.specs.Literals.{literal_at};
ghost use Rattle.td_propagation.specs.Marks.{no_mark, with_mark, mark_of, is_denied, denied, all_denied};
ghost use Rattle.td_propagation.specs.Propagating.{left_of};

use crate::left::Left;
use crate::literal::Literal;
use std::alloc::{AllocError, Global};

/// Which literals of a variable are taken to be false.
#[derive(Clone, Copy, Debug, PartialEq, Eq, Drop)]
pub enum Mark {
    Neither,
    Negative,
    Positive,
    Both,
}

/// A set of literals that are taken to be false, and a trail of their variables.
#[derive(Drop)]
pub struct Denied {
    marks: Vec<Mark>,
    trail: Vec<u32>,
    ghost listed: { (variable : ℕ) → (Contains trail.items variable → ⊥) → get_or marks.items variable no_mark ≡ no_mark },
    ghost inside: { All (λ variable. variable < length marks.items) trail.items },
}

impl Mark {
    /// A variable of which nothing is taken.
    fn none() -> Mark
        ensures { result ≡ no_mark }
    {
        Mark::Neither
    }

    /// Whether nothing is taken.
    fn is_none(self) -> bool
        ensures { IsTrue result ↔ (self ≡ no_mark) }
    {
        match self {
            Mark::Neither => true,
            Mark::Negative => false,
            Mark::Positive => false,
            Mark::Both => false,
        }
    }

    /// Whether the literal with this sign is taken to be false.
    fn of(self, positive: bool) -> bool
        ensures { result ≡ mark_of self positive }
    {
        match self {
            Mark::Neither => false,
            Mark::Negative => !positive,
            Mark::Positive => positive,
            Mark::Both => true,
        }
    }

    /// With the literal of this sign too.
    fn with(self, positive: bool) -> Mark
        ensures { result ≡ with_mark self positive }
    {
        match self {
            Mark::Neither => {
                if positive {
                    Mark::Positive
                } else {
                    Mark::Negative
                }
            }
            Mark::Negative => { if positive { Mark::Both } else { Mark::Negative } }
            Mark::Positive => { if positive { Mark::Positive } else { Mark::Both } }
            Mark::Both => Mark::Both,
        }
    }
}

// Marks for this number of variables, where nothing is taken.
fn no_marks(alloc: Global, variables: usize) -> Result<Vec<Mark>, AllocError>
    ensures { IfOk result (λ marks. marks.items ≡ replicate variables no_mark) }
{
    vec![in alloc; Mark::none(); variables]
}

impl Denied {
    /// No literals, of this number of variables. The error is out of memory.
    pub fn new(alloc: Global, variables: usize) -> Result<Denied, AllocError>
        ensures { IfOk result (λ denied. denied.marks.items ≡ replicate variables no_mark) }
    {
        let marks = no_marks(alloc, variables)?;
        Ok(Denied {
            marks,
            trail: Vec::new(alloc),
        })
    }

    /// Adds a variable, of which nothing is taken. The error is out of memory, and then all is as
    /// before.
    pub fn add_variable(&mut self) -> Result<(), AllocError>
        ensures ok { OnOk result (self.new.marks.items ≡ self.old.marks.items ++ no_mark ∷ []) }
        ensures err { OnErr result (self.new.marks.items ≡ self.old.marks.items) }
    {
        self.marks.reserve(1)?;
        self.marks.push_reserved(Mark::none());
        Ok(())
    }

    /// Whether the literal is taken to be false.
    pub fn has(&self, literal: Literal) -> bool
        ensures { result ≡ is_denied self.now.marks.items literal }
    {
        match self.marks.get(literal.variable as usize) {
            Some(mark) => mark.of(literal.positive),
            None => false,
        }
    }

    /// What is left of the clause whose literals have these numbers.
    pub fn left(&self, clause: &[u32]) -> Left
        ensures { result ≡ left_of self.now.marks.items (map literal_at clause.now) }
    {
        let mut left = Left::Nothing;
        for number in clause {
            let literal = Literal::numbered(*number);
            if !self.has(literal) {
                left = left.with(literal);
            }
        }
        left
    }

    /// Forgets all, in time of how many there are.
    pub fn clear(&mut self)
        ensures { self.new.marks.items ≡ replicate (length self.old.marks.items) no_mark }
    {
        while let Some(variable) = self.trail.pop() {
            self.marks[variable as usize] = Mark::none();
        }
    }

    /// Takes a literal to be false. One whose variable there isn't is left out. The error is out of
    /// memory.
    pub fn deny(&mut self, literal: Literal) -> Result<(), AllocError>
        ensures marks { OnOk result (self.new.marks.items ≡ denied self.old.marks.items literal) }
        ensures len { length self.new.marks.items ≡ length self.old.marks.items }
    {
        let place = literal.variable as usize;
        if place < self.marks.len() {
            if self.marks[place].is_none() {
                self.trail.push(literal.variable)?;
            }
            self.marks[place] = self.marks[place].with(literal.positive);
        }
        Ok(())
    }

    /// Takes all literals of a clause to be false. The error is out of memory.
    pub fn deny_all(&mut self, clause: &[Literal]) -> Result<(), AllocError>
        ensures marks { OnOk result (self.new.marks.items ≡ all_denied self.old.marks.items clause.now) }
        ensures len { length self.new.marks.items ≡ length self.old.marks.items }
    {
        for literal in clause {
            self.deny(*literal)?;
        }
        Ok(())
    }
}

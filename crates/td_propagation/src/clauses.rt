//! Clauses by number.

ghost use Rattle.std.specs.Prelude.{◌≡◌, length, IfOk};
ghost use Rattle.td_propagation.specs.Following.{follow};

use crate::arena::Arena;
use crate::denied::Denied;
use crate::left::Left;
use crate::literal::Literal;
use std::alloc::{AllocError, Global};

/// What hints lead to: a clause that is false, a hint that is no clause's, one that leaves several
/// literals, or no clause that is false.
#[derive(Clone, Copy, Debug, PartialEq, Eq, Drop)]
pub enum Outcome {
    Shown,
    NoSuchHint,
    HintOpen,
    NotShown,
}

/// Clauses by number, from 0 on in the order in which they came, and room for showing others.
#[derive(Drop)]
pub struct Clauses {
    clauses: Arena,
    denied: Denied,
}

// Follows the hints, which are numbers of clauses. The error is out of memory.
fn follow(clauses: &Arena, denied: &mut Denied, hints: &[u64]) -> Result<Outcome, AllocError>
    ensures outcome { IfOk result (λ outcome. outcome ≡ follow clauses.now denied.old.marks.items hints.now) }
    ensures len { length denied.new.marks.items ≡ length denied.old.marks.items }
{
    for hint in hints {
        let Some(clause) = clauses.get(*hint as usize) else {
            return Ok(Outcome::NoSuchHint);
        };
        match denied.left(clause) {
            Left::Nothing => return Ok(Outcome::Shown),
            Left::One(literal) => denied.deny(literal.negation())?,
            Left::Several => return Ok(Outcome::HintOpen),
        }
    }
    Ok(Outcome::NotShown)
}

impl Clauses {
    ghost use Rattle.std.specs.Prelude.{◌≡◌, ◌+◌, ◌++◌, ◌∷◌, [], ℕ, Bool, IfOk, OnOk, OnErr};
    ghost use Rattle.td_propagation.specs.Literals.{IsTrueUnder};
    ghost use Rattle.td_propagation.specs.Following.{shown_by, AreTrue};
    ghost use Rattle.td_propagation.specs.Lists.{list_of, variables_of};

    /// No clauses, over this number of variables. The error is out of memory.
    pub fn new(alloc: Global, variables: usize) -> Result<Clauses, AllocError>
        ensures none { IfOk result (λ clauses. list_of clauses ≡ []) }
        ensures variables { IfOk result (λ clauses. variables_of clauses ≡ variables) }
    {
        Ok(Clauses {
            clauses: Arena::new(alloc),
            denied: Denied::new(alloc, variables)?,
        })
    }

    /// Adds a variable. The error is out of memory, and then all is as before.
    pub fn add_variable(&mut self) -> Result<(), AllocError>
        ensures ok { OnOk result (variables_of self.new ≡ variables_of self.old + 1) }
        ensures err { OnErr result (variables_of self.new ≡ variables_of self.old) }
        ensures list { list_of self.new ≡ list_of self.old }
    {
        self.denied.add_variable()
    }

    /// Where the hints, which are numbers of clauses, lead when the literals are taken to be false.
    /// The error is out of memory.
    pub fn show(&mut self, literals: &[Literal], hints: &[u64]) -> Result<Outcome, AllocError>
        ensures outcome { IfOk result (λ outcome. outcome ≡ shown_by (list_of self.old) (variables_of self.old) literals.now hints.now) }
        ensures list { list_of self.new ≡ list_of self.old }
        ensures variables { variables_of self.new ≡ variables_of self.old }
    {
        self.denied.clear();
        self.denied.deny_all(literals)?;
        follow(&self.clauses, &mut self.denied, hints)
    }

    /// Adds a clause. The error is out of memory, and then all is as before.
    pub fn add(&mut self, clause: &[Literal]) -> Result<(), AllocError>
        ensures ok { OnOk result (list_of self.new ≡ list_of self.old ++ clause.now ∷ []) }
        ensures err { OnErr result (list_of self.new ≡ list_of self.old) }
        ensures variables { variables_of self.new ≡ variables_of self.old }
    {
        self.clauses.push(clause)
    }
}

//! Clauses by number, and hints that name them.

ghost use Rattle.std.specs.Prelude.{◌≡◌};
ghost use Rattle.td_propagation.specs.Lists.{list_of};
ghost use Rattle.td_spans.specs.Endings.{is_nil, ends_empty};

use crate::fault::Fault;
use std::alloc::{AllocError, Global};
use td_propagation::{Clauses, Literal, Outcome};

/// Clauses by number, from 0 on in the order in which they came, and whether the last is empty.
#[derive(Drop)]
pub struct Lemmas {
    clauses: Clauses,
    empty: bool,
    ghost ended: { empty ≡ ends_empty (list_of clauses) },
}

// Whether a clause has no literal.
fn is_nil(clause: &[Literal]) -> bool
    ensures { result ≡ is_nil clause.now }
{
    clause.is_empty()
}

impl Lemmas {
    ghost use Rattle.std.specs.Prelude.{◌≡◌, ◌+◌, ◌++◌, ◌∷◌, [], IfOk, IfErr, OnOk, OnErr};
    ghost use Rattle.td_spans.specs.declared.fault.Fault.TheVariants.{NotGood as IsNotGood};
    ghost use Rattle.td_propagation.specs.declared.clauses.Outcome.TheVariants.{Shown as IsShown};
    ghost use Rattle.td_spans.specs.Hints.{shown_at, clauses_of, variables_of};

    /// No clauses, and no variables. The error is out of memory.
    pub fn new(alloc: Global) -> Result<Lemmas, AllocError>
        ensures none { IfOk result (λ lemmas. clauses_of lemmas ≡ []) }
        ensures variables { IfOk result (λ lemmas. variables_of lemmas ≡ 0) }
    {
        let clauses = Clauses::new(alloc, 0)?;
        Ok(Lemmas {
            clauses,
            empty: false,
        })
    }

    /// Adds a variable. The error is out of memory, and then all is as before.
    pub fn add_variable(&mut self) -> Result<(), AllocError>
        ensures ok { OnOk result (variables_of self.new ≡ variables_of self.old + 1) }
        ensures err { OnErr result (variables_of self.new ≡ variables_of self.old) }
        ensures clauses { clauses_of self.new ≡ clauses_of self.old }
    {
        self.clauses.add_variable()
    }

    /// Whether hints show a clause.
    pub fn show(&mut self, clause: &[Literal], hints: &[u64]) -> Result<(), Fault>
        ensures shown { OnOk result (shown_at (clauses_of self.old) (variables_of self.old) clause.now hints.now ≡ IsShown) }
        ensures unshown { IfErr result (λ fault. fault ≡ IsNotGood → shown_at (clauses_of self.old) (variables_of self.old) clause.now hints.now ≡ IsShown → ⊥) }
        ensures clauses { clauses_of self.new ≡ clauses_of self.old }
        ensures variables { variables_of self.new ≡ variables_of self.old }
    {
        let outcome = self.clauses.show(clause, hints)?;
        match outcome {
            Outcome::Shown => Ok(()),
            Outcome::NoSuchHint => Err(Fault::NotGood),
            Outcome::HintOpen => Err(Fault::NotGood),
            Outcome::NotShown => Err(Fault::NotGood),
        }
    }

    /// Adds a clause. The error is out of memory, and then all is as before.
    pub fn add(&mut self, clause: &[Literal]) -> Result<(), AllocError>
        ensures added { OnOk result (clauses_of self.new ≡ clauses_of self.old ++ clause.now ∷ []) }
        ensures same { OnErr result (clauses_of self.new ≡ clauses_of self.old) }
        ensures variables { variables_of self.new ≡ variables_of self.old }
    {
        self.clauses.add(clause)?;
        self.empty = is_nil(clause);
        Ok(())
    }

    /// Whether there is a clause, and the last one is empty.
    pub fn end_empty(&self) -> bool
        ensures { result ≡ ends_empty (clauses_of self.now) }
    {
        self.empty
    }
}

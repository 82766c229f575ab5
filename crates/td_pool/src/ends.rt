//! The two sides of a deque.

ghost use Rattle.std.specs.Prelude.{◌≡◌, IfOk, MatchResult, MatchOption};
ghost use Rattle.td_pool.specs.Fair.{fresh, puts, takes, TookItsOwn};

use crate::history::{Fair, History, Pops, Puts, Takes};
use crossbeam_deque::{Pass, Steal, Stealer, Worker};
use std::alloc::{AllocError, Global};
use std::marker::Model;

type Owner = Worker<u32, Global, History, Fair>;

type Thief = Stealer<u32, Global, History, Fair>;

/// The side of a deque that its owner uses.
#[derive(Drop)]
pub struct Own {
    owner: Owner,
}

impl Model for Own {
    ghost use Rattle.std.specs.Prelude.{◌≡◌};
    ghost use Rattle.crossbeam_deque.specs.Handles.{worker_deque, worker_port, worker_view};
    ghost use Rattle.td_pool.specs.Fair.{Port};

    ghost Value = { Port };

    ghost view = { λ own. record { deque = (worker_deque own.owner).0; history = worker_view own.owner } };

    ghost invariant = { λ own. worker_port own.owner ≡ 0 };
}

/// The side of a deque from which another worker steals.
#[derive(Drop)]
pub struct Other {
    thief: Thief,
    pass: Pass<u32, History>,
}

impl Model for Other {
    ghost use Rattle.crossbeam_deque.specs.Handles.{IsPassOf, stealer_deque};
    ghost use Rattle.crossbeam_deque.specs.Handles.{view as known};
    ghost use Rattle.td_pool.specs.Fair.{Port};

    ghost Value = { Port };

    ghost view = { λ other. record { deque = (stealer_deque other.thief).0; history = known other.pass } };

    ghost invariant = { λ other. IsPassOf (stealer_deque other.thief) other.pass };
}

impl Own {
    /// A new deque, whose owner takes first what it put last.
    pub fn new(alloc: Global) -> Result<Own, AllocError>
        ensures { IfOk result (λ own. own ≡ fresh own.deque) }
    {
        let owner = Owner::lifo_as(alloc, 64)?;
        Ok(Own { owner })
    }

    /// A side from which to steal.
    pub fn other(&self) -> Result<Other, AllocError>
        ensures { IfOk result (λ other. other ≡ fresh self.now.deque) }
    {
        let thief = self.owner.stealer()?;
        let pass = thief.pass();
        Ok(Other { thief, pass })
    }

    /// Puts a number in. One that is refused comes back.
    pub fn push(&mut self, number: u32) -> Result<(), u32>
        ensures { MatchResult result (λ _. self.new ≡ puts self.old number) (λ back. (back ≡ number) × (self.new ≡ self.old)) }
    {
        self.owner.push_as::<Puts>(number)
    }

    /// Takes the number that was put in last, if one is left.
    pub fn pop(&mut self) -> Option<u32>
        ensures { MatchOption result (self.new ≡ self.old) (λ number. (self.new ≡ takes self.old number) × TookItsOwn self.new.history) }
    {
        self.owner.pop_as::<Pops>()
    }
}

impl Other {
    /// Takes the number that was put in first, if one is left and nobody else takes it meanwhile.
    pub fn steal(&mut self) -> Option<u32>
        ensures { MatchOption result (self.new ≡ self.old) (λ number. self.new ≡ takes self.old number) }
    {
        let Other { thief, pass } = self;
        match thief.steal_as::<Takes>(pass) {
            Steal::Success(number) => Some(number),
            Steal::Empty | Steal::Retry => None,
        }
    }
}

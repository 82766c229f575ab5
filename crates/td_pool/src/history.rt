//! What the users of a deque have put and taken.

use crossbeam_deque::protocol::{Outcome, Protocol};
use std::collections::LinkedList;

/// The numbers that one user of a deque has put and taken. No value of it is made.
pub struct History {
    pub put: LinkedList<u32>,
    pub taken: LinkedList<u32>,
}

/// The rule of a deque.
pub struct Fair;

impl Protocol<u32, History> for Fair {
    ghost use Rattle.td_pool.specs.Fair.{empty_history, IsFair};

    ghost holds = { IsFair };

    ghost first = { empty_history };

    ghost guest = { empty_history };
}

/// A number was put.
pub struct Puts;

impl Outcome<u32, History> for Puts {
    ghost use Rattle.std.specs.Prelude.{◌≡◌, ◌++◌};
    ghost use Rattle.td_pool.specs.Fair.{history};

    ghost then = { λ v xs w. w ≡ history (v.put ++ xs) v.taken };
}

/// The owner took a number.
pub struct Pops;

impl Outcome<u32, History> for Pops {
    ghost use Rattle.std.specs.Prelude.{◌≡◌, ◌++◌};
    ghost use Rattle.td_pool.specs.Fair.{history, TookItsOwn};

    ghost then = { λ v xs w. (w ≡ history v.put (v.taken ++ xs)) × TookItsOwn w };
}

/// Another took a number.
pub struct Takes;

impl Outcome<u32, History> for Takes {
    ghost use Rattle.std.specs.Prelude.{◌≡◌, ◌++◌};
    ghost use Rattle.td_pool.specs.Fair.{history};

    ghost then = { λ v xs w. w ≡ history v.put (v.taken ++ xs) };
}

//! The literals of clauses, in one vector.

ghost use Rattle.std.specs.Prelude.{◌≡◌, ◌++◌, ◌∷◌, ◌≤◌, [], length, map, take, slice_get, slice_range, Some, None as Nothing, MatchOption, IfOk, OnOk, OnErr};
ghost use Rattle.td_propagation.specs.Literals.{literal_at};
ghost use Rattle.td_propagation.specs.Arenas.{start_at};

use crate::literal::Literal;
use std::alloc::{AllocError, Global};
use std::marker::Model;

/// Clauses by number, from 0 on. Their literals stand one after another, each as its number, so
/// that a clause takes four bytes for each literal and four more.
#[derive(Drop)]
pub struct Arena {
    numbers: Vec<u32>,
    ends: Vec<u32>,
}

impl Model for Arena {
    ghost use Rattle.std.specs.Prelude.{List, length, map};
    ghost use Rattle.td_propagation.specs.declared.literal.Literal.{Literal};
    ghost use Rattle.td_propagation.specs.Literals.{literal_at};
    ghost use Rattle.td_propagation.specs.Arenas.{parted, AreEnds};

    ghost Value = { List (List Literal) };

    ghost view = { λ arena. parted (map literal_at arena.numbers.items) 0 arena.ends.items };

    ghost invariant = { λ arena. AreEnds 0 arena.ends.items (length arena.numbers.items) };
}

/// Where the clause with a number begins, which is one of these or the next one.
fn start_at(ends: &[u32], number: usize) -> usize
    requires { number ≤ length ends.now }
    ensures { result ≡ start_at 0 ends.now number }
{
    if number == 0 {
        0
    } else {
        ends[number - 1] as usize
    }
}

/// The numbers from one place on and before another.
fn part(numbers: &[u32], start: usize, end: usize) -> &[u32]
    requires ordered { start ≤ end }
    requires within { end ≤ length numbers.now }
    ensures { result.now ≡ slice_range numbers.now start end }
{
    &numbers[start..end]
}

/// Puts the numbers of literals at the end, and answers how many there are then. The error is out
/// of memory, also where a number isn't less than 2^32.
fn put(numbers: &mut Vec<u32>, clause: &[Literal]) -> Result<u32, AllocError>
    ensures end { IfOk result (λ end. end ≡ length numbers.new.items) }
    ensures ok { OnOk result (map literal_at numbers.new.items ≡ map literal_at numbers.old.items ++ clause.now) }
    ensures kept { take (length numbers.old.items) numbers.new.items ≡ numbers.old.items }
{
    for literal in clause {
        match literal.number() {
            None => return Err(AllocError),
            Some(number) => numbers.push(number)?,
        }
    }
    match u32::try_from(numbers.len()) {
        Ok(end) => Ok(end),
        Err(_large) => Err(AllocError),
    }
}

impl Arena {
    /// No clauses.
    pub fn new(alloc: Global) -> Arena
        ensures { result ≡ [] }
    {
        Arena {
            numbers: Vec::new(alloc),
            ends: Vec::new(alloc),
        }
    }

    /// How many clauses there are.
    pub fn len(&self) -> usize
        ensures { result ≡ length self.now }
    {
        self.ends.len()
    }

    /// The numbers of the literals of the clause with a number, if there is one.
    pub fn get(&self, number: usize) -> Option<&[u32]>
        ensures { MatchOption result (slice_get self.now number ≡ Nothing) (λ clause. slice_get self.now number ≡ Some (map literal_at clause.now)) }
    {
        if number < self.ends.len() {
            let start = start_at(&self.ends, number);
            Some(part(&self.numbers, start, self.ends[number] as usize))
        } else {
            None
        }
    }

    /// Adds a clause. The error is out of memory, also where there are 2^32 literals, or a literal
    /// of a variable from 2^31 on, and then all is as before.
    pub fn push(&mut self, clause: &[Literal]) -> Result<(), AllocError>
        ensures ok { OnOk result (self.new ≡ self.old ++ clause.now ∷ []) }
        ensures err { OnErr result (self.new ≡ self.old) }
    {
        self.ends.reserve(1)?;
        let start = self.numbers.len();
        match put(&mut self.numbers, clause) {
            Ok(end) => {
                self.ends.push_reserved(end);
                Ok(())
            }
            Err(error) => {
                self.numbers.truncate(start);
                Err(error)
            }
        }
    }
}

//! A worker's own deque of node numbers, and those of the others.

ghost use Rattle.std.specs.Prelude.{◌≡◌, ◌<◌, ◌++◌, length, map, IfOk, OnOk, MatchResult, MatchOption};
ghost use Rattle.td_pool.specs.Fair.{fresh_other, ring, puts, takes, AreDealt, Steals, StealsAt, TookItsOwn};

use crate::ends::{Other, Own};
use crate::hints::Hints;
use std::alloc::{AllocError, Global};
use std::marker::Model;

/// A worker's own deque of node numbers, and the deques of the others, from which it steals.
#[derive(Drop)]
pub struct Deck {
    own: Own,
    others: Vec<Other>,
}

impl Model for Deck {
    ghost use Rattle.td_pool.specs.Fair.{DequePorts};

    ghost Value = { DequePorts };

    ghost view = { λ deck. record { own = deck.own; others = deck.others.items } };
}

// Adds a side of each of these decks' own deques.
fn add_others(others: &mut Vec<Other>, decks: &[Deck]) -> Result<(), AllocError>
    ensures { OnOk result (others.new.items ≡ others.old.items ++ map fresh_other decks.now) }
{
    for deck in decks {
        others.push(deck.own.other()?)?;
    }
    Ok(())
}

// A side of each other deck: first those after this one, then those before it.
fn others_of(alloc: Global, decks: &[Deck], but: usize) -> Result<Vec<Other>, AllocError>
    requires { but < length decks.now }
    ensures { IfOk result (λ others. others.items ≡ ring decks.now but) }
{
    let mut others = Vec::new(alloc);
    add_others(&mut others, &decks[but + 1..])?;
    add_others(&mut others, &decks[..but])?;
    Ok(others)
}

impl Deck {
    /// A deck for each worker. Each steals from the deques of all others, first from those after
    /// it.
    pub fn deal(alloc: Global, workers: usize) -> Result<Vec<Deck>, AllocError>
        ensures workers { IfOk result (λ decks. length decks.items ≡ workers) }
        ensures dealt { IfOk result (λ decks. AreDealt decks.items) }
    {
        let mut decks = Vec::new(alloc);
        for _ in 0..workers {
            let own = Own::new(alloc)?;
            decks.push(Deck {
                own,
                others: Vec::new(alloc),
            })?;
        }
        for k in 0..workers {
            let others = others_of(alloc, &decks, k)?;
            decks[k].steal_from(others);
        }
        Ok(decks)
    }

    // Steals from these from now on.
    fn steal_from(&mut self, others: Vec<Other>)
        ensures { self.new ≡ record self.old { others = others.items } }
    {
        self.others = others;
    }

    /// Puts a number into the own deque, or hands it back.
    pub fn push(&mut self, number: u32) -> Result<(), u32>
        ensures { MatchResult result (λ _. self.new ≡ record self.old { own = puts self.old.own number }) (λ back. (back ≡ number) × (self.new ≡ self.old)) }
    {
        self.own.push(number)
    }

    /// Takes a number from the own deque.
    pub fn pop(&mut self) -> Option<u32>
        ensures { MatchOption result (self.new ≡ self.old) (λ number. (self.new ≡ record self.old { own = takes self.old.own number }) × TookItsOwn self.new.own.history) }
    {
        self.own.pop()
    }

    /// Takes a number from the deque of another.
    pub fn steal(&mut self) -> Option<u32>
        ensures { MatchOption result (self.new ≡ self.old) (λ number. Steals self.old number self.new) }
    {
        steal_any(&mut self.others)
    }
}

// Takes a number from the first of these that gives one.
fn steal_any(others: &mut [Other]) -> Option<u32>
    ensures { MatchOption result (others.new ≡ others.old) (λ number. StealsAt others.old number others.new) }
{
    for other in others.iter_mut() {
        if let Some(number) = other.steal() {
            return Some(number);
        }
    }
    None
}

impl Hints for Deck {
    fn push(&mut self, number: u32) -> Result<(), u32> {
        self.push(number)
    }

    fn pop(&mut self) -> Option<u32> {
        self.pop()
    }

    fn steal(&mut self) -> Option<u32> {
        self.steal()
    }
}

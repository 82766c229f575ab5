//! Decks for the tests.

use std::sync::atomic::{AtomicU64, Ordering};
use td_pool::{Deck, Hints};

/// Refuses every number.
#[derive(Drop)]
pub struct Refusing;

impl Hints for Refusing {
    fn push(&mut self, number: u32) -> Result<(), u32> {
        Err(number)
    }

    fn pop(&mut self) -> Option<u32> {
        None
    }

    fn steal(&mut self) -> Option<u32> {
        None
    }
}

/// Passes all on to a deck, and counts the numbers that it gives.
#[derive(Drop)]
pub struct Passing<'a> {
    pub deck: Deck,
    pub given: &'a AtomicU64,
}

impl<'a> Passing<'a> {
    fn counted(&self, number: Option<u32>) -> Option<u32> {
        if number.is_some() {
            self.given.fetch_add(1, Ordering::SeqCst);
        }
        number
    }
}

impl<'a> Hints for Passing<'a> {
    fn push(&mut self, number: u32) -> Result<(), u32> {
        self.deck.push(number)
    }

    fn pop(&mut self) -> Option<u32> {
        let number = self.deck.pop();
        self.counted(number)
    }

    fn steal(&mut self) -> Option<u32> {
        let number = self.deck.steal();
        self.counted(number)
    }
}

//! Decks that are lent to a search.

ghost use Rattle.std.specs.Prelude.{◌≡◌, length, IfOk};

use crate::hints::Hints;
use std::alloc::{AllocError, Global};

/// A deck that is lent to a worker.
#[derive(Drop)]
pub struct Lent<'d, D> {
    pub deck: &'d mut D,
}

impl<'d, D: Hints> Hints for Lent<'d, D> {
    fn push(&mut self, number: u32) -> Result<(), u32> {
        self.deck.push(number)
    }

    fn pop(&mut self) -> Option<u32> {
        self.deck.pop()
    }

    fn steal(&mut self) -> Option<u32> {
        self.deck.steal()
    }
}

/// All of these decks, lent. The error is out of memory.
pub fn lend<D: Hints>(alloc: Global, decks: &mut [D]) -> Result<Vec<Lent<'_, D>>, AllocError>
    ensures { IfOk result (λ lent. length lent.items ≡ length decks.old) }
{
    let mut all = Vec::with_capacity(alloc, decks.len())?;
    for deck in decks.iter_mut() {
        all.push(Lent { deck })?;
    }
    Ok(all)
}

//! The order in which parts are halved.

ghost use Rattle.std.specs.Prelude.{◌≡◌, [], ◌∷◌, OnOk, MatchOption, IsPermutation};
ghost use Rattle.td_parts.specs.Queues.{places_of};

use std::alloc::{AllocError, Global};
use std::cmp::Reverse;
use std::collections::BinaryHeap;

/// The places of parts: the part with the greatest bound comes first, and of several the first one.
#[derive(Drop)]
pub struct Queue {
    pub heap: BinaryHeap<(u64, Reverse<usize>)>,
}

impl Queue {
    /// The queue of no part.
    pub fn new(alloc: Global) -> Queue
        ensures { places_of result ≡ [] }
    {
        Queue {
            heap: BinaryHeap::new(alloc),
        }
    }

    /// Puts the place of a part with this bound into the queue. The error is out of memory.
    pub fn push(&mut self, bound: u64, place: usize) -> Result<(), AllocError>
        ensures { OnOk result (IsPermutation (place ∷ places_of self.old) (places_of self.new)) }
    {
        self.heap.push((bound, Reverse(place)))?;
        Ok(())
    }

    /// Takes the place that comes first out of the queue, if there is one.
    pub fn pop(&mut self) -> Option<usize>
        ensures { MatchOption result ((places_of self.old ≡ []) × (places_of self.new ≡ [])) (λ place. IsPermutation (places_of self.old) (place ∷ places_of self.new)) }
    {
        match self.heap.pop() {
            Some((_, Reverse(place))) => Some(place),
            None => None,
        }
    }
}

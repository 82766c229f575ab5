//! Room that gates use again.

ghost use Rattle.std.specs.Prelude.{◌≡◌, []};

use std::alloc::{AllocError, Global};
use std::mem;
use td_gates::Change;
use td_run::Turn;

/// Room that is used again from gate to gate.
#[derive(Drop)]
pub struct Scratch {
    pub alloc: Global,
    // Of signals that were released.
    spare: Vec<Vec<Change>>,
    /// For the changes of the inputs of a gate with many.
    pub turns: Vec<Turn>,
    // For the changes of its target.
    target: Vec<Change>,
}

impl Scratch {
    /// No room yet.
    pub fn new(alloc: Global) -> Self {
        Scratch {
            alloc,
            spare: Vec::new(alloc),
            turns: Vec::new(alloc),
            target: Vec::new(alloc),
        }
    }

    /// Room for the changes of a signal: that of one that was released, or none yet.
    pub fn space(&mut self) -> Vec<Change>
        ensures { result.items ≡ [] }
    {
        match self.spare.pop() {
            Some(space) => emptied(space),
            None => Vec::new(self.alloc),
        }
    }

    /// Keeps the room of a signal, where there is a place for it.
    pub fn keep(&mut self, space: Vec<Change>) {
        if self.spare.len() < self.spare.capacity() {
            self.spare.push_reserved(space);
        }
    }

    /// Makes places for the room of `signals` more signals. Fails where memory runs out.
    pub fn reserve(&mut self, signals: usize) -> Result<(), AllocError> {
        self.spare.reserve(signals)
    }

    /// Room for the changes of a target, which `keep_target` takes back.
    pub fn target_space(&mut self) -> Vec<Change>
        ensures { result.items ≡ [] }
    {
        emptied(mem::replace(&mut self.target, Vec::new(self.alloc)))
    }

    /// Keeps the room of a target.
    pub fn keep_target(&mut self, space: Vec<Change>) {
        self.target = space;
    }
}

/// The same room without what stood in it.
fn emptied(mut space: Vec<Change>) -> Vec<Change>
    ensures { result.items ≡ [] }
{
    space.clear();
    space
}

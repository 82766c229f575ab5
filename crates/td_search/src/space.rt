//! Room for the tree of an answer, taken while a search goes on, so that its end needs no memory.

ghost use Rattle.std.specs.Prelude.{ℕ, IfOk, OnOk};
ghost use Rattle.td_search.specs.Rooms.{HasSpace};

use std::alloc::{AllocError, Global};
use td_book::Node;
use td_certificate::Node as Line;

/// Empty vectors for the nodes of a tree and for their lines.
#[derive(Drop)]
pub struct Space {
    pub nodes: Vec<Node>,
    pub lines: Vec<Line>,
}

impl Space {
    /// Room for one node. The error is out of memory.
    pub fn new(alloc: Global) -> Result<Space, AllocError>
        ensures { IfOk result (λ space. HasSpace space 1) }
    {
        Ok(Space {
            nodes: Vec::with_capacity(alloc, 1)?,
            lines: Vec::with_capacity(alloc, 1)?,
        })
    }

    /// Takes room for that many nodes. The error is out of memory, and then the old room stays.
    pub fn reserve(&mut self, count: usize) -> Result<(), AllocError>
        ensures kept { (held : ℕ) → HasSpace self.old held → HasSpace self.new held }
        ensures ok { (held : ℕ) → HasSpace self.old held → OnOk result (HasSpace self.new count) }
    {
        self.nodes.reserve(count)?;
        self.lines.reserve(count)
    }
}

//! A walk over a tree, from the cube of each node to that of the next.

ghost use Rattle.std.specs.Prelude.{◌≡◌, ◌<◌, [], ◌∷◌, reverse, length, set, slice_get, Some, IfOk, OnOk};
ghost use Rattle.td_domain.specs.declared.cubes.Trit.{Trit as TritModel};
ghost use Rattle.td_certificate.specs.Accepts.{SplitsFree};
ghost use Rattle.td_certificate.specs.Cubes.{cubes_past};
ghost use Rattle.td_certificate.specs.Walks.{position_of};
ghost use Rattle.td_checker.specs.Paths.{cubes_ahead, StandsAt, AreInside};

use std::alloc::{AllocError, Global};
use td_certificate::Node;
use td_domain::{Cube, Trit};

/// A place in a tree: the cube of a node, and the positions of the splits above it, the lowest one
/// last. Which side of a split this is can be read off the cube, so no other cube is kept.
#[derive(Drop)]
pub struct Walk {
    pub cube: Cube,
    pub path: Vec<usize>,
}

impl Walk {
    /// The root of a tree, with this cube.
    pub fn new(alloc: Global, root: &Cube) -> Result<Walk, AllocError>
        ensures cube { IfOk result (λ walk. walk.cube ≡ root.now) }
        ensures path { IfOk result (λ walk. walk.path.items ≡ []) }
    {
        Ok(Walk {
            cube: root.copy(alloc)?,
            path: Vec::new(alloc),
        })
    }

    /// Goes on from this node, whose position, where it is a split, is free.
    pub fn pass(&mut self, node: &Node) -> Result<(), AllocError>
        requires free { SplitsFree self.old.cube node.now }
        requires inside { AreInside (length self.old.cube) (reverse self.old.path.items) }
        ensures next { OnOk result (StandsAt
            (cubes_past self.old.cube (position_of node.now) (cubes_ahead self.old.cube (reverse self.old.path.items)))
            self.new.cube (reverse self.new.path.items)) }
        ensures inside { OnOk result (AreInside (length self.new.cube) (reverse self.new.path.items)) }
        ensures length { OnOk result (length self.new.cube ≡ length self.old.cube) }
    {
        match node {
            Node::Split(position) => self.split(*position as usize),
            Node::Bound(_, _) | Node::Point(_) | Node::Empty | Node::Refuted(_) => {
                self.leave();
                Ok(())
            }
        }
    }

    /// Goes to the zero side of a split at a free position.
    #[tactic(auto, using(crate::proofs::Turning::descended, crate::proofs::Turning::inside_below, crate::proofs::Turning::reversed))]
    fn split(&mut self, position: usize) -> Result<(), AllocError>
        requires free { slice_get self.old.cube position ≡ Some TritModel.Free }
        requires inside { AreInside (length self.old.cube) (reverse self.old.path.items) }
        ensures next { OnOk result (StandsAt
            (set self.old.cube position TritModel.Zero ∷ set self.old.cube position TritModel.One
            ∷ cubes_ahead self.old.cube (reverse self.old.path.items))
            self.new.cube (reverse self.new.path.items)) }
        ensures inside { OnOk result (AreInside (length self.new.cube) (reverse self.new.path.items)) }
        ensures length { OnOk result (length self.new.cube ≡ length self.old.cube) }
    {
        self.path.push(position)?;
        self.cube.set(position, Trit::Zero);
        Ok(())
    }

    /// Goes from a leaf to the one side of the lowest split at whose zero side it stands, if there
    /// is one.
    #[tactic(auto, using(crate::proofs::Turning::turned, crate::proofs::Turning::freed, crate::proofs::Turning::emptied, crate::proofs::Turning::inside_turned, crate::proofs::Turning::inside_freed, crate::proofs::Turning::below))]
    fn leave(&mut self)
        requires inside { AreInside (length self.old.cube) (reverse self.old.path.items) }
        ensures next { StandsAt (cubes_ahead self.old.cube (reverse self.old.path.items)) self.new.cube (reverse self.new.path.items) }
        ensures inside { AreInside (length self.new.cube) (reverse self.new.path.items) }
        ensures length { length self.new.cube ≡ length self.old.cube }
    {
        while let Some(position) = self.path.pop() {
            match self.cube.trit(position) {
                Trit::Zero => {
                    self.cube.set(position, Trit::One);
                    self.path.push_reserved(position);
                    return;
                }
                _ => self.cube.set(position, Trit::Free),
            }
        }
    }
}

//! The certificate's tree of a refutation.

ghost use Rattle.std.specs.Prelude.{◌≤◌, ◌^◌, map, IfOk, IfSome};
ghost use Rattle.td_certificate.specs.Steps.{IsBoundText};
ghost use Rattle.td_refutation.specs.Whole.{step_of};
ghost use Rattle.td_worst.specs.Leaves.{IsLeaf, IsLeafOf};

use std::alloc::{AllocError, Global};
use td_certificate::{Node, Refuted as Leaf, Tree};
use td_refutation::Step;
use td_refute::Refuted;

/// The most bytes of the lines of a certificate's steps.
pub const MOST_BYTES: usize = 268_000_000;

/// The tree of one leaf, which the steps of a refutation show; none where a certificate can't spell
/// them within its limit. The error is out of memory.
pub fn tree_of_leaf(alloc: Global, refuted: &Refuted) -> Result<Option<Tree>, AllocError>
    requires { refuted.now.bound ≤ 10 ^ 18 }
    ensures { IfOk result (λ answer. IfSome answer (IsLeafOf refuted.now)) }
{
    tree_of_steps(alloc, &refuted.steps, Some(refuted.bound))
}

/// The tree of one leaf, whose steps show a bound, or that no pair is asked about. None and the
/// error are as of `tree_of_leaf`.
pub fn tree_of_steps(
    alloc: Global,
    steps: &[Step],
    bound: Option<u64>,
) -> Result<Option<Tree>, AllocError>
    requires { IsBoundText bound }
    ensures { IfOk result (λ answer. IfSome answer (IsLeaf (record { steps = map step_of steps.now; bound = bound }))) }
{
    let Some(leaf) = Leaf::of_steps(alloc, steps, bound)? else {
        return Ok(None);
    };
    if leaf.byte_count() > MOST_BYTES {
        return Ok(None);
    }
    let mut nodes = Vec::new(alloc);
    nodes.push(Node::Refuted(leaf))?;
    Ok(Some(Tree::from_nodes(nodes)))
}

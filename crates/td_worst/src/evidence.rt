//! The certificate's tree of an upper figure.

ghost use Rattle.std.specs.Prelude.{◌≡◌, ◌+◌, ◌*◌, ◌^◌, ◌<◌, ◌≤◌, ◌∷◌, [], ℕ, true, length, Some, IfSome};
ghost use Rattle.td_circuit.specs.Settings.{Setting};
ghost use Rattle.td_circuit.specs.Numbering.{setting};
ghost use Rattle.td_domain.specs.Admits.{Admitted};
ghost use Rattle.td_certificate.specs.Accepts.{are_fit, IsBoundBy};
ghost use Rattle.td_certificate.specs.declared.tree.BoundedBy.TheVariants as domain;
ghost use Rattle.td_certificate.specs.declared.tree.Node.TheVariants as node;
ghost use Rattle.td_refute.specs.Kept.{IsTimedAmong};
ghost use Rattle.td_refute.specs.declared.refuting.Refuted.{Refuted as Steps};
ghost use Rattle.td_search.specs.Opened.{ShowsHigh};
ghost use Rattle.td_worst.specs.Kept.{asking_in, claim_to, IsCertifiedAmong};
ghost use Rattle.td_worst.specs.Known.{IsToldLeaf};
ghost use Rattle.td_worst.specs.Leaves.{leaf_of};
ghost use Rattle.td_worst.specs.Supports.{IsSupportAmong, IsSupportOf};

use crate::edge_bound::tree_of_bound;
use crate::kept_answer::{are_told, tree_of};
use crate::question::KeptQuestion;
use crate::support::{HighTree, Support};
use std::alloc::Global;
use td_certificate::Tree;
use td_circuit::Circuit;
use td_domain::{Cube, bound};
use td_edges::Edges;
use td_lead::Timed;
use td_refutation::NamedCondition;
use td_refute::Refuted;

/// One more than the greatest moment of a certificate's claim.
const MOMENTS: u64 = 1_000_000_000_000_000;

// The tree of one leaf that edges bound by a moment, or by an earlier one; none where they don't,
// or memory runs out.
fn tree_by_edges(alloc: Global, circuit: &Circuit, cube: &Cube, high: u64) -> Option<Tree>
    requires { length cube.now ≡ 2 * length circuit.now.netlist.inputs }
    ensures { IfSome result (λ tree. (bound : ℕ) × (tree ≡ node.Bound domain.Edges bound ∷ []) × IsBoundBy domain.Edges (setting circuit.now) cube.now (Some bound) × (bound ≤ high)) }
{
    match bound::<Edges>(alloc, circuit, cube) {
        Ok(Some(bound)) => {
            if bound > high {
                return None;
            }
            match tree_of_bound(alloc, bound) {
                Ok(tree) => Some(tree),
                Err(_) => None,
            }
        }
        Ok(None) => None,
        Err(_) => None,
    }
}

// The tree of a search, where there is one that shows that no admitted pair is later than this.
fn tree_within(tree: Option<HighTree>, high: u64) -> Option<Tree>
    ensures { (given : Setting) (admit : Admitted) → IsSupportOf given admit tree → IfSome result (ShowsHigh given admit high) }
{
    match tree {
        Some(tree) => tree.within(high),
        None => None,
    }
}

// The tree of one leaf, which steps show, where there are some with a bound that is at most this;
// none where a text can't tell them, or memory runs out.
fn tree_by_steps(
    alloc: Global,
    keep: &[NamedCondition],
    steps: &Option<Refuted>,
    high: u64,
) -> Option<Tree>
    requires { high < 10 ^ 15 }
    ensures { IfSome result (λ tree. (refuted : Steps) × (steps.now ≡ Some refuted) × (refuted.bound ≤ high) × IsToldLeaf keep.now (leaf_of refuted) tree) }
{
    let Some(refuted) = steps else {
        return None;
    };
    if refuted.bound > high {
        return None;
    }
    tree_of(alloc, keep, &refuted.steps, Some(refuted.bound))
}

/// The tree of the certificate that no pair that is asked about is later than an upper figure: that
/// of a search, or one leaf, which edges show, or steps. None where none of them shows it, where a
/// text can't tell it or the conditions, or where memory runs out.
pub fn tree_of_high(
    alloc: Global,
    question: KeptQuestion<'_>,
    best: &Timed,
    high: u64,
    support: Support,
) -> Option<Tree>
    requires held { length question.admit.now.held ≡ length question.circuit.now.netlist.inputs }
    requires fit { are_fit (2 + length question.circuit.now.netlist.inputs + length question.circuit.now.netlist.gates) question.keep.now ≡ true }
    requires timed { IsTimedAmong (setting question.circuit.now) (asking_in question) best.now }
    requires ordered { best.now.time ≤ high }
    requires shown { IsSupportAmong (setting question.circuit.now) (asking_in question) support }
    ensures { IfSome result (IsCertifiedAmong (setting question.entry.circuit.now) (asking_in question.entry) (Some (claim_to best.now high))) }
{
    let KeptQuestion {
        circuit,
        admit,
        keep,
        ..
    } = question;
    // For the prover: the circuit's and the pins' sizes.
    let _gates = circuit.gates();
    let _moments = circuit.moments();
    let pins = admit.pins();
    if high >= MOMENTS || !are_told(keep) {
        return None;
    }
    let Support { steps, tree } = support;
    if let Some(tree) = tree_within(tree, high) {
        return Some(tree);
    }
    if let Some(tree) = tree_by_edges(alloc, circuit, pins, high) {
        return Some(tree);
    }
    tree_by_steps(alloc, keep, &steps, high)
}

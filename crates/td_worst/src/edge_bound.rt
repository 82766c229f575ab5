//! What the bound by edges makes of an answer.

ghost use Rattle.std.specs.Prelude.{◌≡◌, Bool, true, ◌<◌, ◌≤◌, ◌^◌, ℕ, ◌∷◌, [], Some, IfOk};
ghost use Rattle.td_domain.specs.Bounds.{IsUpperBoundIn};
ghost use Rattle.td_certificate.specs.Accepts.{IsBoundBy};
ghost use Rattle.td_certificate.specs.declared.tree.BoundedBy.TheVariants as domain;
ghost use Rattle.td_certificate.specs.declared.tree.Node.TheVariants as node;
ghost use Rattle.td_search.specs.declared.answers.Cause.TheVariants as cause;
ghost use Rattle.td_search.specs.Answers.{TimeNeedsStop, low_of};
ghost use Rattle.td_search.specs.Problems.{Problem as Asked, problem_of};
ghost use Rattle.td_search.specs.Written.{CanBeWritten};
ghost use Rattle.td_worst.specs.Leaves.{IsSpellable};
ghost use Rattle.td_worst.specs.Methods.{high_of, IsNarrower, IsSoundAnswer, IsWithinEdges};
ghost use Rattle.td_worst.specs.OpenAnswer.{IsOpenAnswer};

use crate::refuting::OpenAnswer;
use std::alloc::{AllocError, Global};
use td_certificate::{BoundedBy, Node, Tree};
use td_domain::bound;
use td_edges::Edges;
use td_lead::Timed;
use td_search::{Answer, Cause, Problem};

// The tree of one leaf that edges bound so. The error is out of memory.
pub(crate) fn tree_of_bound(alloc: Global, bound: u64) -> Result<Tree, AllocError>
    ensures { IfOk result (λ tree. tree ≡ node.Bound domain.Edges bound ∷ []) }
{
    let mut nodes = Vec::new(alloc);
    nodes.push(Node::Bound(BoundedBy::Edges, bound))?;
    Ok(Tree::from_nodes(nodes))
}

impl OpenAnswer {
    // The answer where edges bound the pins so. Where the pair is as late as that, it is exact, and
    // its tree is one leaf. Where memory ran out for that, the figures are told.
    fn bounded(self, alloc: Global, bound: u64, why: Cause) -> Answer
        requires small { self.best.time < 10 ^ 15 }
        ensures answer { (asked : Asked) (budget : ℕ) → 0 < budget → IsSpellable asked → IsOpenAnswer asked budget self
            → IsBoundBy domain.Edges asked.setting asked.admit.pins (Some bound) → IsUpperBoundIn asked.setting asked.admit.pins bound
            → IsSoundAnswer asked budget result × CanBeWritten asked result }
        ensures low { low_of result ≡ self.best.time }
        ensures high { self.best.time ≤ self.high → high_of result ≤ self.high }
        ensures edges { self.best.time ≤ bound → high_of result ≤ bound }
        ensures time { (can_be_set : Bool) → (why ≡ cause.Time → can_be_set ≡ true) → TimeNeedsStop can_be_set result }
    {
        let OpenAnswer { best, high, nodes } = self;
        let Timed { pair, time } = best;
        if bound > time {
            let best = Timed { pair, time };
            let high = high.min(bound);
            return OpenAnswer { best, high, nodes }.between(why);
        }
        if let Ok(tree) = tree_of_bound(alloc, bound) {
            return Answer::Exact { time, pair, tree };
        }
        let best = Timed { pair, time };
        OpenAnswer {
            best,
            high: time,
            nodes,
        }
        .between(Cause::Memory)
    }
}

/// What the bound of the pins by edges makes of an answer: its upper figure is at most that bound,
/// and where the pair is as late, the answer is exact. Where memory runs out, what was known
/// stands, and that is the cause.
pub fn bounded_by_edges(alloc: Global, problem: &Problem<'_>, known: Answer, budget: u64) -> Answer
    requires some { 0 < budget }
    requires known { IsSoundAnswer (problem_of problem.now) budget known }
    requires text { CanBeWritten (problem_of problem.now) known }
    ensures answer { IsSoundAnswer (problem_of problem.now) budget result }
    ensures text { CanBeWritten (problem_of problem.now) result }
    ensures narrower { IsNarrower known result }
    ensures edges { IsWithinEdges (problem_of problem.now) result }
    ensures time { (can_be_set : Bool) → TimeNeedsStop can_be_set known → TimeNeedsStop can_be_set result }
{
    // For the prover: the circuit's and the pins' sizes.
    let _gates = problem.circuit.gates();
    let _moments = problem.circuit.moments();
    let pins = problem.admit.pins();
    match known {
        Answer::Exact { time, pair, tree } => Answer::Exact { time, pair, tree },
        Answer::Between {
            low,
            high,
            pair,
            nodes,
            cause,
        } => {
            let best = Timed { pair, time: low };
            let open = OpenAnswer { best, high, nodes };
            match bound::<Edges>(alloc, problem.circuit, pins) {
                Ok(Some(bound)) => open.bounded(alloc, bound, cause),
                Ok(None) => open.between(cause),
                Err(_) => open.between(Cause::Memory),
            }
        }
    }
}

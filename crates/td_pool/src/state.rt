//! What is under the lock of a search.

ghost use Rattle.std.specs.Prelude.{◌≡◌, ◌<◌, ◌≤◌, length, IfSome};
ghost use Rattle.td_search.specs.Problems.{problem_of};
ghost use Rattle.td_pool.specs.Watched.{IsTrueProgress};
ghost use Rattle.td_pool.specs.Working.{IsTrueWork};

use crate::frontier::Frontier;
use crate::subject::Subject;
use crate::watch::Progress;
use std::sync::ledger::Share;
use td_book::{Counted, GraftFault, Lease, Subtree};
use td_search::{Evidence, Problem};

/// What a worker has done below a leaf: what was split and closed there, the evidence of it, and
/// the delay of the worker's best pair.
#[derive(Drop)]
pub struct Work<'e> {
    pub lease: Lease,
    pub subtree: Subtree,
    pub evidence: &'e Evidence,
    pub best: u64,
}

/// The book of the search beside its ledger, and what is left and known of the delays.
#[derive(Drop)]
pub struct State<L: Subject> {
    pub book: Counted<L>,
    pub frontier: Frontier<L>,
}

impl<L: Subject> State<L> {
    /// How far the search has come, where it has handled that many nodes.
    pub fn progress(&mut self, milestone: u64) -> Option<Progress>
        ensures { IfSome result (IsTrueProgress L.asked) }
    {
        let nodes = self.book.book.handled();
        if nodes < milestone {
            return None;
        }
        Some(Progress {
            nodes,
            low: self.frontier.low(),
            high: self.frontier.high(),
            open: self.frontier.open(),
        })
    }

    /// Tells the book what was split and closed below a leaf, and keeps account of what that leaves
    /// and of a delay of an admitted pair that was found. Where nothing was, or memory runs out,
    /// the leaf is opened again. Answers the numbers of the leaves that are left open there, in the
    /// tree's order, and none where the worker is to end.
    pub fn graft(
        &mut self,
        problem: &Problem<'_>,
        work: Work<'_>,
        mine: &mut Share<L>,
    ) -> Option<Vec<u32>>
        requires asked { L.asked ≡ problem_of problem.now }
        requires work { IsTrueWork (problem_of problem.now) work }
        requires part { 0 < mine.old.parts }
        ensures { mine.new.parts ≡ mine.old.parts }
    {
        self.frontier.reach(work.best);
        let left = graft_in(&mut self.book, work.lease, work.subtree, mine);
        if left.is_some() {
            let _reported = self.frontier.settle(problem, work.evidence);
        }
        left
    }
}

// Tells the book what was split and closed below a leaf. Where nothing was, or memory runs out, the
// leaf is opened again, and the worker is to end.
fn graft_in<L: Subject>(
    book: &mut Counted<L>,
    lease: Lease,
    subtree: Subtree,
    mine: &mut Share<L>,
) -> Option<Vec<u32>>
    requires cube { subtree.cube ≡ lease.cube }
    requires few { length subtree.states ≤ lease.allowance }
    requires part { 0 < mine.old.parts }
    ensures { mine.new.parts ≡ mine.old.parts }
{
    if subtree.states().is_empty() {
        let _opened = book.release(lease);
        return None;
    }
    match book.graft(lease, subtree, mine) {
        Ok(left) => Some(left),
        Err(GraftFault::OutOfMemory(lease, _subtree)) => {
            let _opened = book.release(lease);
            None
        }
        Err(GraftFault::Stranger(_lease, _subtree)) => None,
    }
}

//! What is split and closed below a leaf before a book knows of it.

ghost use Rattle.std.specs.Prelude.{◌≡◌, ◌↔◌, false, List, IsTrue, IfOk, MatchOption};
ghost use Rattle.td_domain.specs.declared.cubes.Trit.{Trit};
ghost use Rattle.td_search.specs.Below.{IsBelow, IsComing, IsDone, IsSettledBy, IsWithin};
ghost use Rattle.td_search.specs.Findings.{IsTrueFinding, IsUsable};
ghost use Rattle.td_search.specs.Problems.{problem_of};

use crate::findings::Finding;
use crate::problem::Problem;
use crate::replaying::dig_by;
use std::alloc::{AllocError, Global};
use td_book::{Lease, Subtree};
use td_domain::Cube;

/// A private tree below a leaf, and what was found of each node that is split or closed in it.
#[derive(Drop)]
pub struct Below {
    pub subtree: Subtree,
    pub findings: Vec<Finding>,
}

impl Below {
    /// The root alone, open. Takes all room that the lease's allowance needs. The error is out of
    /// memory.
    pub fn new(alloc: Global, problem: &Problem<'_>, lease: &Lease) -> Result<Below, AllocError>
        requires { IsWithin (problem_of problem.now) lease.now.cube }
        ensures { IfOk result (IsBelow (problem_of problem.now) lease.now) }
    {
        Ok(Below {
            subtree: Subtree::new(alloc, lease)?,
            findings: Vec::with_capacity(alloc, lease.allowance as usize)?,
        })
    }

    /// The cube of the leaf that comes next, until nothing is left or the allowance is used up.
    pub fn next(&self, problem: &Problem<'_>, lease: &Lease) -> Option<&Cube>
        requires { IsBelow (problem_of problem.now) lease.now self.now }
        ensures { MatchOption result (IsDone lease.now self.now) (λ cube. IsComing (problem_of problem.now) lease.now self.now cube.now) }
    {
        if self.subtree.is_full() {
            return None;
        }
        self.subtree.next()
    }

    /// Splits or closes the leaf that comes next as it was found of its cube, if that is usable
    /// under this cut. Answers whether it is.
    pub fn settle(
        &mut self,
        problem: &Problem<'_>,
        lease: &Lease,
        finding: Finding,
        cut: u64,
    ) -> bool
        requires below { IsBelow (problem_of problem.now) lease.now self.old }
        requires next { (cube : List Trit) × IsComing (problem_of problem.now) lease.now self.old cube × IsTrueFinding (problem_of problem.now) cube finding }
        ensures below { IsBelow (problem_of problem.now) lease.now self.new }
        ensures usable { IsTrue result ↔ IsUsable cut finding }
        ensures done { IsTrue result → IsSettledBy finding cut self.old self.new }
        ensures same { result ≡ false → self.new ≡ self.old }
    {
        if !dig_by(problem, &mut self.subtree, finding, cut) {
            return false;
        }
        self.findings.push_reserved(finding);
        true
    }
}

//! What a search does with the leaf that comes next: it splits and closes below it in a private
//! tree, and then tells its book.

ghost use Rattle.std.specs.Prelude.{◌≡◌, ◌≤◌, IfOk};
ghost use Rattle.td_search.specs.Below.{IsBelow, IsWithin};
ghost use Rattle.td_search.specs.Findings.{IsTrueFinding, IsUsable};
ghost use Rattle.td_search.specs.Problems.{problem_of};
ghost use Rattle.td_search.specs.Progress.{IsUnderWay};
ghost use Rattle.td_search.specs.Redone.{IsLater};

use crate::below::Below;
use crate::finding::find;
use crate::findings::Finding;
use crate::progress::Search;
use crate::rule::Rule;
use crate::task::Task;
use td_book::{Claim, Lease};
use td_domain::Cube;
use td_event_sim::Interruption;

impl Search {
    /// Handles nodes until none is left, the budget is used up, memory runs out, or the stop is
    /// set.
    pub fn run<R: Rule>(&mut self, task: &Task<'_, R>, scratch: &mut R::Scratch, budget: u64)
        requires search { IsUnderWay (problem_of task.now.problem.now) budget self.old }
        requires scratch { R.is_for scratch.old task.now.problem.now.circuit.now }
        ensures search { IsUnderWay (problem_of task.now.problem.now) budget self.new }
        ensures kept { self.old.best.time ≤ self.new.best.time }
        ensures later { IsLater self.old.book self.new.book }
    {
        for _ in 0..budget {
            if task.stop.is_set() {
                break;
            }
            let Ok(true) = self.handle_next(task, scratch) else {
                break;
            };
        }
    }

    // Handles the first leaf that is open, if the book gives one, and as much below it as its lease
    // allows.
    fn handle_next<R: Rule>(
        &mut self,
        task: &Task<'_, R>,
        scratch: &mut R::Scratch,
    ) -> Result<bool, Interruption>
        requires search { IsUnderWay (problem_of task.now.problem.now) self.old.book.budget self.old }
        requires scratch { R.is_for scratch.old task.now.problem.now.circuit.now }
        ensures search { IsUnderWay (problem_of task.now.problem.now) self.old.book.budget self.new }
        ensures kept { self.old.best.time ≤ self.new.best.time }
        ensures later { IsLater self.old.book self.new.book }
        ensures scratch { R.is_for scratch.new task.now.problem.now.circuit.now }
    {
        let Claim::Lease(lease) = self.book.claim(0)? else {
            return Ok(false);
        };
        self.handle(task, scratch, lease)?;
        Ok(true)
    }

    // Splits and closes below a leaf in a private tree, and then in the book what is found to be
    // usable there.
    fn handle<R: Rule>(
        &mut self,
        task: &Task<'_, R>,
        scratch: &mut R::Scratch,
        lease: Lease,
    ) -> Result<(), Interruption>
        requires search { IsUnderWay (problem_of task.now.problem.now) self.old.book.budget self.old }
        requires scratch { R.is_for scratch.old task.now.problem.now.circuit.now }
        requires within { IsWithin (problem_of task.now.problem.now) lease.cube }
        ensures search { IsUnderWay (problem_of task.now.problem.now) self.old.book.budget self.new }
        ensures kept { self.old.best.time ≤ self.new.best.time }
        ensures later { IsLater self.old.book self.new.book }
        ensures scratch { R.is_for scratch.new task.now.problem.now.circuit.now }
    {
        let mut below = Below::new(task.alloc, task.problem, &lease)?;
        let worked = self.work_below(task, scratch, &lease, &mut below);
        self.graft_found(task.alloc, task.problem, lease, &below.findings)?;
        worked
    }

    // Splits and closes below a leaf, depth first, zero side first, until nothing is left there,
    // the allowance is used up, or the stop is set. The book learns nothing of it.
    fn work_below<R: Rule>(
        &mut self,
        task: &Task<'_, R>,
        scratch: &mut R::Scratch,
        lease: &Lease,
        below: &mut Below,
    ) -> Result<(), Interruption>
        requires search { IsUnderWay (problem_of task.now.problem.now) self.old.book.budget self.old }
        requires scratch { R.is_for scratch.old task.now.problem.now.circuit.now }
        requires below { IsBelow (problem_of task.now.problem.now) lease.now below.old }
        ensures search { IsUnderWay (problem_of task.now.problem.now) self.old.book.budget self.new }
        ensures kept { self.old.best.time ≤ self.new.best.time }
        ensures book { self.new.book ≡ self.old.book }
        ensures scratch { R.is_for scratch.new task.now.problem.now.circuit.now }
        ensures below { IsBelow (problem_of task.now.problem.now) lease.now below.new }
    {
        for _ in 0..lease.allowance {
            if task.stop.is_set() {
                break;
            }
            let Some(cube) = below.next(task.problem, lease) else {
                break;
            };
            let finding = self.find(task, scratch, cube)?;
            if !below.settle(task.problem, lease, finding, self.best.time()) {
                break;
            }
        }
        Ok(())
    }

    /// What is found of a cube under the best, or under the delay of the pair that stands for it
    /// where that is measured and is greater: then that is the best.
    pub fn find<R: Rule>(
        &mut self,
        task: &Task<'_, R>,
        scratch: &mut R::Scratch,
        cube: &Cube,
    ) -> Result<Finding, Interruption>
        requires search { IsUnderWay (problem_of task.now.problem.now) self.old.book.budget self.old }
        requires scratch { R.is_for scratch.old task.now.problem.now.circuit.now }
        requires within { IsWithin (problem_of task.now.problem.now) cube.now }
        ensures search { IsUnderWay (problem_of task.now.problem.now) self.old.book.budget self.new }
        ensures kept { self.old.best.time ≤ self.new.best.time }
        ensures book { self.new.book ≡ self.old.book }
        ensures scratch { R.is_for scratch.new task.now.problem.now.circuit.now }
        ensures finding { IfOk result (IsTrueFinding (problem_of task.now.problem.now) cube.now) }
        ensures usable { IfOk result (IsUsable self.new.best.time) }
    {
        find(task, scratch, &mut self.best, cube)
    }
}

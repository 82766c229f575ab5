//! Does again in a search what workers did in a shared one, as far as their evidence shows it.

ghost use Rattle.std.specs.Prelude.{◌≡◌, ℕ, ◌<◌, ◌≤◌, ◌^◌, false, List, [], ◌∷◌, ◌++◌, length, map, take, slice_get, Some, true, ◌↔◌, IsTrue, IfOk, IfSome, OnOk};
ghost use Rattle.std.specs.List.{All};
ghost use Rattle.td_domain.specs.declared.cubes.Trit.{Trit};
ghost use Rattle.td_domain.specs.declared.cubes.Trit.TheVariants.{Free};
ghost use Rattle.td_book.specs.declared.node.Node.{Node};
ghost use Rattle.td_book.specs.Board.{is_handled};
ghost use Rattle.td_book.specs.Claimed.{ClaimedAt};
ghost use Rattle.td_book.specs.Grafting.{cubes_left};
ghost use Rattle.td_search.specs.Findings.{IsTrueFinding, IsUsable, AreTrueFindings, IsTrueEvidence, IsTrueTrail, state_of};
ghost use Rattle.td_search.specs.Below.{IsWithin};
ghost use Rattle.td_search.specs.Problems.{problem_of, has_bound};
ghost use Rattle.td_search.specs.Progress.{IsUnderWay, MustSplit};
ghost use Rattle.td_search.specs.Redone.{AreRedone, AreUsable, IsLater, RedoesRoot};

use crate::findings::{Evidence, Finding, Trail};
use crate::problem::Problem;
use crate::progress::Search;
use crate::rule::Rule;
use crate::task::Task;
use std::alloc::{AllocError, Global};
use td_book::{Lease, Node, State, Subtree};
use td_domain::{Cube, Trit};
use td_event_sim::Interruption;

// Whether a position is free.
fn is_free_at(cube: &Cube, position: usize) -> bool
    ensures { IsTrue result → slice_get cube.now position ≡ Some Free }
{
    position < cube.len() && cube.trit(position) == Trit::Free
}

/// Whether a node was split or closed.
pub fn is_done(state: State) -> bool
    ensures { result ≡ is_handled state }
{
    matches!(state, State::Split(_) | State::Closed(_, _, _))
}

/// Splits or closes the next node of a private tree as it was found of its cube, if that is usable
/// under this best time: a bound is at most the best, and so is the delay above which a cube was
/// split. Answers whether it is.
pub fn dig_by(problem: &Problem<'_>, subtree: &mut Subtree, finding: Finding, best: u64) -> bool
    requires next { (cube : List Trit) × (rest : List (List Trit)) × (cubes_left subtree.old.states (subtree.old.cube ∷ []) ≡ cube ∷ rest) × IsTrueFinding (problem_of problem.now) cube finding }
    requires space { length subtree.old.states < subtree.old.allowance }
    ensures usable { IsTrue result ↔ IsUsable best finding }
    ensures done { IsTrue result → subtree.new ≡ record subtree.old { states = subtree.old.states ++ state_of best finding ∷ [] } }
    ensures same { result ≡ false → subtree.new ≡ subtree.old }
{
    match finding {
        Finding::Closed(mark, bound) if bound <= best => subtree.close(mark, bound, best),
        Finding::Split(position, _, delay) if delay <= best => subtree.split(position as usize),
        _ => return false,
    }
    true
}

// Splits and closes as many nodes of a private tree as were found and are usable under this best
// time. Answers how many.
fn dig_again(problem: &Problem<'_>, subtree: &mut Subtree, findings: &[Finding], best: u64) -> usize
    requires states { subtree.old.states ≡ [] }
    requires found { AreTrueFindings (problem_of problem.now) (subtree.old.cube ∷ []) findings.now }
    ensures within { result ≤ length findings.now }
    ensures subtree { subtree.new ≡ record subtree.old { states = map (state_of best) (take result findings.now) } }
    ensures usable { All (IsUsable best) (take result findings.now) }
    ensures few { result ≤ subtree.old.allowance }
    ensures whole { (n : ℕ) → AreUsable best n findings.now → n ≤ subtree.old.allowance → n ≤ result }
{
    let mut count = 0;
    for finding in findings {
        if subtree.is_full() {
            return count;
        }
        if !dig_by(problem, subtree, *finding, best) {
            return count;
        }
        count += 1;
    }
    count
}

// Puts the trees that come next before the others.
fn put_before(coming: &mut Vec<Option<u32>>, numbers: &[u32]) -> Result<(), AllocError> {
    for number in numbers.iter().rev() {
        coming.push(Some(*number))?;
    }
    Ok(())
}

// Passes a node, and if it was split the trees below it. Answers how many nodes that were done.
fn pass(coming: &mut Vec<Option<u32>>, state: State) -> Result<usize, AllocError> {
    if let State::Split(_) = state {
        coming.push(None)?;
        coming.push(None)?;
    }
    Ok(1)
}

/// A node of a tree that is done again: its number in this search, if it is there, and what was
/// done with it.
#[derive(Clone, Copy, Drop)]
struct Again {
    number: Option<u32>,
    state: State,
}

impl Search {
    /// Splits and closes again the nodes of a tree, in its order, where there is evidence of them
    /// for this search. A split without is done again where its cube is found anew to have a bound
    /// above the best, unless the stop is set. Other nodes stay open, and what is below them is
    /// passed. The error is out of memory, and then the nodes that are left stay open.
    pub fn replay<R: Rule>(
        &mut self,
        task: &Task<'_, R>,
        scratch: &mut R::Scratch,
        nodes: &[Node],
        trail: &Trail,
    ) -> Result<(), AllocError>
        requires search { IsUnderWay (problem_of task.now.problem.now) self.old.book.budget self.old }
        requires scratch { R.is_for scratch.old task.now.problem.now.circuit.now }
        requires trail { IsTrueTrail (problem_of task.now.problem.now) trail.now }
        ensures search { IsUnderWay (problem_of task.now.problem.now) self.old.book.budget self.new }
        ensures kept { self.old.best.time ≤ self.new.best.time }
        ensures later { IsLater self.old.book self.new.book }
        ensures root { (first : Node) → slice_get nodes.now 0 ≡ Some first → OnOk result (RedoesRoot trail.now self.old.best.time first.number first.state self.old.book self.new.book) }
        ensures scratch { R.is_for scratch.new task.now.problem.now.circuit.now }
    {
        if nodes.is_empty() {
            return Ok(());
        }
        let mut coming = Vec::with_capacity(task.alloc, 1)?;
        let count = self.replay_node(task, scratch, Some(0), nodes[0], trail, &mut coming)?;
        self.replay_all(
            task,
            scratch,
            &nodes[1..],
            trail,
            coming,
            count.saturating_sub(1),
        )
    }

    // As `replay`, of the nodes after the root, of which that many are done. By their numbers in
    // this search the trees that come next are there, the first of them last. Those that are passed
    // have none.
    fn replay_all<R: Rule>(
        &mut self,
        task: &Task<'_, R>,
        scratch: &mut R::Scratch,
        nodes: &[Node],
        trail: &Trail,
        coming: Vec<Option<u32>>,
        done: usize,
    ) -> Result<(), AllocError>
        requires search { IsUnderWay (problem_of task.now.problem.now) self.old.book.budget self.old }
        requires scratch { R.is_for scratch.old task.now.problem.now.circuit.now }
        requires trail { IsTrueTrail (problem_of task.now.problem.now) trail.now }
        ensures search { IsUnderWay (problem_of task.now.problem.now) self.old.book.budget self.new }
        ensures kept { self.old.best.time ≤ self.new.best.time }
        ensures later { IsLater self.old.book self.new.book }
        ensures scratch { R.is_for scratch.new task.now.problem.now.circuit.now }
    {
        let mut coming = coming;
        let mut done = done;
        for node in nodes {
            if done > 0 {
                done -= 1;
                continue;
            }
            let Some(number) = coming.pop() else {
                break;
            };
            let count = self.replay_node(task, scratch, number, *node, trail, &mut coming)?;
            done = count.saturating_sub(1);
        }
        Ok(())
    }

    // Does a node again, and with evidence also what comes below it, and puts what is left below
    // before the trees that come. Answers how many nodes of the tree were done or passed.
    fn replay_node<R: Rule>(
        &mut self,
        task: &Task<'_, R>,
        scratch: &mut R::Scratch,
        number: Option<u32>,
        node: Node,
        trail: &Trail,
        coming: &mut Vec<Option<u32>>,
    ) -> Result<usize, AllocError>
        requires search { IsUnderWay (problem_of task.now.problem.now) self.old.book.budget self.old }
        requires scratch { R.is_for scratch.old task.now.problem.now.circuit.now }
        requires trail { IsTrueTrail (problem_of task.now.problem.now) trail.now }
        ensures search { IsUnderWay (problem_of task.now.problem.now) self.old.book.budget self.new }
        ensures kept { self.old.best.time ≤ self.new.best.time }
        ensures later { IsLater self.old.book self.new.book }
        ensures root { number ≡ Some 0 → OnOk result (RedoesRoot trail.now self.old.best.time node.number node.state self.old.book self.new.book) }
        ensures scratch { R.is_for scratch.new task.now.problem.now.circuit.now }
    {
        let again = Again {
            number,
            state: node.state,
        };
        let Some(lease) = self.lease_again(task.problem, again)? else {
            return pass(coming, node.state);
        };
        if let Some(evidence) = trail.evidence_for(task.problem, node.number, &lease.cube) {
            return self.replay_with(task, scratch, again, lease, evidence, coming);
        }
        self.replay_split(task, scratch, lease, node.state, coming)
    }

    // As `replay_node`, of a node with evidence.
    fn replay_with<R: Rule>(
        &mut self,
        task: &Task<'_, R>,
        scratch: &mut R::Scratch,
        again: Again,
        lease: Lease,
        evidence: &Evidence,
        coming: &mut Vec<Option<u32>>,
    ) -> Result<usize, AllocError>
        requires search { IsUnderWay (problem_of task.now.problem.now) self.old.book.budget self.old }
        requires scratch { R.is_for scratch.old task.now.problem.now.circuit.now }
        requires cube { evidence.now.cube ≡ lease.cube }
        requires evidence { IsTrueEvidence (problem_of task.now.problem.now) evidence.now }
        ensures search { IsUnderWay (problem_of task.now.problem.now) self.old.book.budget self.new }
        ensures kept { self.old.best.time ≤ self.new.best.time }
        ensures later { IsLater self.old.book self.new.book }
        ensures redone { OnOk result (AreRedone self.old.best.time lease.allowance evidence.now.findings.items self.old.book self.new.book) }
        ensures scratch { R.is_for scratch.new task.now.problem.now.circuit.now }
    {
        let done = self.graft_again(task.alloc, task.problem, lease, evidence, coming)?;
        if let Some(count) = done {
            return Ok(count);
        }
        self.replay_anew(task, scratch, again, coming)
    }

    // As `replay_node`, of a node whose evidence isn't usable: it is leased once more, and done
    // again as one without evidence.
    fn replay_anew<R: Rule>(
        &mut self,
        task: &Task<'_, R>,
        scratch: &mut R::Scratch,
        again: Again,
        coming: &mut Vec<Option<u32>>,
    ) -> Result<usize, AllocError>
        requires search { IsUnderWay (problem_of task.now.problem.now) self.old.book.budget self.old }
        requires scratch { R.is_for scratch.old task.now.problem.now.circuit.now }
        ensures search { IsUnderWay (problem_of task.now.problem.now) self.old.book.budget self.new }
        ensures kept { self.old.best.time ≤ self.new.best.time }
        ensures later { IsLater self.old.book self.new.book }
        ensures scratch { R.is_for scratch.new task.now.problem.now.circuit.now }
    {
        let Some(lease) = self.lease_again(task.problem, again)? else {
            return pass(coming, again.state);
        };
        self.replay_split(task, scratch, lease, again.state, coming)
    }

    // As `replay_node`, of a leaf without evidence.
    fn replay_split<R: Rule>(
        &mut self,
        task: &Task<'_, R>,
        scratch: &mut R::Scratch,
        lease: Lease,
        state: State,
        coming: &mut Vec<Option<u32>>,
    ) -> Result<usize, AllocError>
        requires search { IsUnderWay (problem_of task.now.problem.now) self.old.book.budget self.old }
        requires scratch { R.is_for scratch.old task.now.problem.now.circuit.now }
        requires within { IsWithin (problem_of task.now.problem.now) lease.cube }
        ensures search { IsUnderWay (problem_of task.now.problem.now) self.old.book.budget self.new }
        ensures kept { self.old.best.time ≤ self.new.best.time }
        ensures later { IsLater self.old.book self.new.book }
        ensures scratch { R.is_for scratch.new task.now.problem.now.circuit.now }
    {
        let State::Split(position) = state else {
            self.give_back(task.problem, lease);
            return Ok(1);
        };
        let sides = self.split_again(task, scratch, lease, position);
        let Some((zero, one)) = sides else {
            return pass(coming, state);
        };
        put_before(coming, &[zero, one])?;
        Ok(1)
    }

    // The leaf of this number, where one is given, for a node that was split or closed.
    fn lease_again(
        &mut self,
        problem: &Problem<'_>,
        again: Again,
    ) -> Result<Option<Lease>, AllocError>
        requires search { IsUnderWay (problem_of problem.now) self.old.book.budget self.old }
        ensures search { IsUnderWay (problem_of problem.now) self.old.book.budget self.new }
        ensures kept { self.old.best.time ≤ self.new.best.time }
        ensures later { IsLater self.old.book self.new.book }
        ensures best { self.new.best ≡ self.old.best }
        ensures claimed { (n : ℕ) → again.number ≡ Some n → is_handled again.state ≡ true → IfOk result (λ answer. ClaimedAt self.old.book 0 n answer self.new.book) }
        ensures worker { IfOk result (λ answer. IfSome answer (λ lease. lease.worker ≡ 0)) }
        ensures within { IfOk result (λ answer. IfSome answer (λ lease. IsWithin (problem_of problem.now) lease.cube)) }
    {
        let Some(number) = again.number else {
            return Ok(None);
        };
        if !is_done(again.state) {
            return Ok(None);
        }
        self.lease(problem, number)
    }

    // Splits and closes below a leaf what there is evidence of, and answers how many nodes that
    // were; none where nothing of it is usable.
    fn graft_again(
        &mut self,
        alloc: Global,
        problem: &Problem<'_>,
        lease: Lease,
        evidence: &Evidence,
        coming: &mut Vec<Option<u32>>,
    ) -> Result<Option<usize>, AllocError>
        requires search { IsUnderWay (problem_of problem.now) self.old.book.budget self.old }
        requires cube { evidence.now.cube ≡ lease.cube }
        requires evidence { IsTrueEvidence (problem_of problem.now) evidence.now }
        ensures search { IsUnderWay (problem_of problem.now) self.old.book.budget self.new }
        ensures kept { self.old.best.time ≤ self.new.best.time }
        ensures later { IsLater self.old.book self.new.book }
        ensures redone { OnOk result (AreRedone self.old.best.time lease.allowance evidence.now.findings.items self.old.book self.new.book) }
    {
        let grafted = self.graft_found(alloc, problem, lease, &evidence.findings)?;
        let Some((count, left)) = grafted else {
            return Ok(None);
        };
        put_before(coming, &left)?;
        Ok(Some(count))
    }

    /// Splits and closes below a held leaf what was found there, as far as it is usable under the
    /// best. Answers how many nodes that are, and the numbers of the leaves that stay open. Where
    /// none is, or memory runs out, the leaf is open again.
    pub fn graft_found(
        &mut self,
        alloc: Global,
        problem: &Problem<'_>,
        lease: Lease,
        findings: &[Finding],
    ) -> Result<Option<(usize, Vec<u32>)>, AllocError>
        requires search { IsUnderWay (problem_of problem.now) self.old.book.budget self.old }
        requires found { AreTrueFindings (problem_of problem.now) (lease.cube ∷ []) findings.now }
        ensures search { IsUnderWay (problem_of problem.now) self.old.book.budget self.new }
        ensures kept { self.old.best.time ≤ self.new.best.time }
        ensures later { IsLater self.old.book self.new.book }
        // All that is usable is done again, as far as the lease allows.
        ensures redone { OnOk result (AreRedone self.old.best.time lease.allowance findings.now self.old.book self.new.book) }
    {
        let mut subtree = match Subtree::new(alloc, &lease) {
            Ok(subtree) => subtree,
            Err(error) => {
                self.give_back(problem, lease);
                return Err(error);
            }
        };
        let best = self.best.time();
        let count = dig_again(problem, &mut subtree, findings, best);
        if count == 0 {
            self.give_back(problem, lease);
            return Ok(None);
        }
        let usable = &findings[..count];
        match self.graft(problem, lease, subtree, usable) {
            Ok(left) => Ok(Some((count, left))),
            Err(lease) => {
                self.give_back(problem, lease);
                Err(AllocError)
            }
        }
    }

    // Splits a leaf where its cube is found to have a bound above the best, and answers the numbers
    // of its sides. Where it hasn't, or memory runs out, or the stop is set, the leaf stays open.
    fn split_again<R: Rule>(
        &mut self,
        task: &Task<'_, R>,
        scratch: &mut R::Scratch,
        lease: Lease,
        position: u32,
    ) -> Option<(u32, u32)>
        requires search { IsUnderWay (problem_of task.now.problem.now) self.old.book.budget self.old }
        requires scratch { R.is_for scratch.old task.now.problem.now.circuit.now }
        requires within { IsWithin (problem_of task.now.problem.now) lease.cube }
        ensures search { IsUnderWay (problem_of task.now.problem.now) self.old.book.budget self.new }
        ensures kept { self.old.best.time ≤ self.new.best.time }
        ensures later { IsLater self.old.book self.new.book }
        ensures scratch { R.is_for scratch.new task.now.problem.now.circuit.now }
    {
        let position = position as usize;
        if !is_free_at(&lease.cube, position) {
            self.give_back(task.problem, lease);
            return None;
        }
        let Ok(Some(bound)) = self.bound_above(task, scratch, &lease.cube) else {
            self.give_back(task.problem, lease);
            return None;
        };
        match self.split(task.problem, lease, position, bound) {
            Ok(sides) => Some(sides),
            Err(lease) => {
                self.give_back(task.problem, lease);
                None
            }
        }
    }

    // The strongest domain's bound of a cube, where the cube is found to be split; none where the
    // stop is set.
    fn bound_above<R: Rule>(
        &mut self,
        task: &Task<'_, R>,
        scratch: &mut R::Scratch,
        cube: &Cube,
    ) -> Result<Option<u64>, Interruption>
        requires search { IsUnderWay (problem_of task.now.problem.now) self.old.book.budget self.old }
        requires scratch { R.is_for scratch.old task.now.problem.now.circuit.now }
        requires within { IsWithin (problem_of task.now.problem.now) cube.now }
        ensures search { IsUnderWay (problem_of task.now.problem.now) self.old.book.budget self.new }
        ensures kept { self.old.best.time ≤ self.new.best.time }
        ensures scratch { R.is_for scratch.new task.now.problem.now.circuit.now }
        ensures book { self.new.book ≡ self.old.book }
        ensures bound { IfOk result (λ answer. IfSome answer (has_bound (problem_of task.now.problem.now) cube.now)) }
        ensures small { IfOk result (λ answer. IfSome answer (λ bound. bound < 10 ^ 15)) }
        ensures wide { IfOk result (λ answer. IfSome answer (λ bound. MustSplit (problem_of task.now.problem.now) self.new.best.time cube.now)) }
    {
        if task.stop.is_set() {
            return Ok(None);
        }
        match self.find(task, scratch, cube)? {
            Finding::Split(_, bound, _) => Ok(Some(bound)),
            Finding::Closed(_, _) => Ok(None),
        }
    }
}

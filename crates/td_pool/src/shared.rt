//! What workers share.

ghost use Rattle.std.specs.Prelude.{◌≡◌, ◌<◌, IsTrue, IfSome};
ghost use Rattle.td_search.specs.Below.{IsWithin};
ghost use Rattle.td_search.specs.Problems.{problem_of};
ghost use Rattle.td_pool.specs.Turning.{IsPinned, IsTurn};
ghost use Rattle.td_pool.specs.Watched.{IsTrueProgress};
ghost use Rattle.td_pool.specs.Working.{IsTrueWork};

use crate::hints::Hints;
use crate::state::{State, Work};
use crate::subject::Subject;
use crate::watch::Progress;
use std::sync::ledger::Share;
use std::sync::{Condvar, Mutex, Wait as MayWait};
use td_book::{Claim, Counted, Lease};
use td_domain::{Cube, Trit};
use td_incumbent::Incumbent;
use td_search::Problem;

/// The book of the search and what is left of it, what wakes those that wait for an open leaf, and
/// the best time.
#[derive(Drop)]
pub struct Shared<L: Subject> {
    pub state: Mutex<State<L>>,
    pub moved: Condvar,
    pub incumbent: Incumbent,
}

/// What a worker is to do next.
#[derive(Drop)]
pub enum Turn {
    /// To handle this leaf.
    Work(Lease),
    /// To look for another leaf.
    Seek,
    /// To wait until the book has changed.
    Wait,
    /// To end.
    End,
}

// Whether a cube is one of the circuit's vectors, and a part of the pins.
fn is_within(problem: &Problem<'_>, cube: &Cube) -> bool
    ensures { IsTrue result → IsWithin (problem_of problem.now) cube.now }
{
    let pins = problem.admit.pins();
    if cube.len() != pins.len() {
        return false;
    }
    for position in 0..pins.len() {
        if !is_pinned(pins.trit(position), cube.trit(position)) {
            return false;
        }
    }
    true
}

// Whether a pin allows all bits that a trit allows.
fn is_pinned(pin: Trit, trit: Trit) -> bool
    ensures { IsTrue result → IsPinned pin trit }
{
    match (pin, trit) {
        (Trit::Free, _) | (Trit::Zero, Trit::Zero) | (Trit::One, Trit::One) => true,
        (Trit::Zero | Trit::One, _) => false,
    }
}

// To handle this leaf, which the book just gave, if it is one of this search.
fn turn_with<L: Subject>(book: &mut Counted<L>, problem: &Problem<'_>, lease: Lease) -> Turn
    ensures { IsTurn (problem_of problem.now) result }
{
    if is_within(problem, &lease.cube) {
        return Turn::Work(lease);
    }
    let _opened = book.release(lease);
    Turn::End
}

// What a worker of this search is to do next, by the book alone. Of the book under the lock nothing
// is known.
fn next_turn<L: Subject>(book: &mut Counted<L>, problem: &Problem<'_>, worker: u32) -> Turn
    ensures { IsTurn (problem_of problem.now) result }
{
    if worker >= book.workers() {
        return Turn::End;
    }
    match book.claim(worker) {
        Ok(Claim::Lease(lease)) => turn_with(book, problem, lease),
        Ok(Claim::Idle) => Turn::Wait,
        Ok(Claim::Done | Claim::Spent) | Err(_) => Turn::End,
    }
}

// As `next_turn`, where a leaf of this number may be open.
fn hinted_turn<L: Subject>(
    book: &mut Counted<L>,
    problem: &Problem<'_>,
    worker: u32,
    number: u32,
) -> Turn
    ensures { IsTurn (problem_of problem.now) result }
{
    if worker >= book.workers() {
        return Turn::End;
    }
    match book.claim_id(worker, number) {
        Ok(Some(lease)) => turn_with(book, problem, lease),
        Ok(None) => Turn::Seek,
        Err(_) => Turn::End,
    }
}

// What a worker of this search is to do next, with or without such a number.
fn turn_of<L: Subject>(
    book: &mut Counted<L>,
    problem: &Problem<'_>,
    worker: u32,
    hint: Option<u32>,
) -> Turn
    ensures { IsTurn (problem_of problem.now) result }
{
    match hint {
        Some(number) => hinted_turn(book, problem, worker, number),
        None => next_turn(book, problem, worker),
    }
}

// A number from the worker's own place, else from another's.
fn hint_from<D: Hints>(deck: &mut D) -> Option<u32> {
    if let Some(number) = deck.pop() {
        return Some(number);
    }
    deck.steal()
}

impl<L: Subject> Shared<L> {
    /// The next leaf for this worker, and none where it is to end. A number from its deck comes
    /// first, then the first open leaf.
    pub fn lease<D: Hints, R: MayWait>(
        &self,
        rt: &R,
        problem: &Problem<'_>,
        worker: u32,
        deck: &mut D,
    ) -> Option<Lease>
        ensures { IfSome result (λ lease. IsWithin (problem_of problem.now) lease.cube) }
    {
        for _ in rt.forever() {
            let hint = hint_from(deck);
            let mut state = self.state.lock(rt);
            match turn_of(&mut state.book, problem, worker, hint) {
                Turn::Work(lease) => return Some(lease),
                Turn::Seek => drop(state),
                Turn::Wait => {
                    let state = self.moved.wait(rt, state);
                    drop(state);
                }
                Turn::End => return None,
            }
        }
        None
    }

    /// Tells the book what was split and closed below a leaf, under one hold, with the evidence of
    /// it and a delay of an admitted pair that was found, and wakes those that wait. Where nothing
    /// was, or memory runs out, the leaf is opened again. Answers the numbers of the leaves that
    /// are left open there, in the tree's order, and none where the worker is to end.
    pub fn graft<R: MayWait>(
        &self,
        rt: &R,
        problem: &Problem<'_>,
        work: Work<'_>,
        mine: &mut Share<L>,
    ) -> Option<Vec<u32>>
        requires asked { L.asked ≡ problem_of problem.now }
        requires work { IsTrueWork (problem_of problem.now) work }
        requires part { 0 < mine.old.parts }
        ensures { mine.new.parts ≡ mine.old.parts }
    {
        let mut state = self.state.lock(rt);
        let left = state.graft(problem, work, mine);
        drop(state);
        self.moved.notify_all();
        left
    }

    /// How far the search has come, where it has handled that many nodes.
    pub fn progress<R: MayWait>(&self, rt: &R, milestone: u64) -> Option<Progress>
        ensures { IfSome result (IsTrueProgress L.asked) }
    {
        let mut state = self.state.lock(rt);
        state.progress(milestone)
    }

    /// Opens a leaf again, inside the lock, and wakes those that wait.
    pub fn release<R: MayWait>(&self, rt: &R, lease: Lease) {
        let mut state = self.state.lock(rt);
        let _opened = state.book.release(lease);
        drop(state);
        self.moved.notify_all();
    }
}

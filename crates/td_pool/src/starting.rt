//! What each worker begins with.

ghost use Rattle.std.specs.Prelude.{◌≡◌, ◌<◌, length, IfOk};
ghost use Rattle.std.specs.List.{AllByRecursion};
ghost use Rattle.td_search.specs.Best.{IsBest};
ghost use Rattle.td_search.specs.Problems.{problem_of, has_delay};
ghost use Rattle.td_search.specs.Representatives.{representative};
ghost use Rattle.td_search.specs.Roots.{IsRoot};
ghost use Rattle.td_pool.specs.Truth.{IsFresh, IsStarting};

use crate::effort::Effort;
use crate::found::Found;
use crate::frontier::Frontier;
use crate::shared::Shared;
use crate::state::State;
use crate::subject::Subject;
use crate::watch::Watch;
use std::alloc::{AllocError, Global};
use std::sync::{Condvar, Mutex, ledger};
use td_book::{Book, Counted};
use td_incumbent::{Incumbent, Seat};
use td_search::{Best, Problem, Root};

// The incumbent at 0, and a seat for each worker. The error is out of memory.
fn seats_of(alloc: Global, workers: usize) -> Result<(Incumbent, Vec<Seat>), AllocError>
    requires { 0 < workers }
    ensures seats { IfOk result (λ answer. AllByRecursion (IsFresh answer.0) answer.1.items) }
    ensures count { IfOk result (λ answer. length answer.1.items ≡ workers) }
{
    let (incumbent, seats) = Incumbent::new(alloc, workers)?;
    Ok((incumbent, seats))
}

/// The pair that stands for the pins, which has this delay. The error is out of memory.
pub fn first_best(alloc: Global, problem: &Problem<'_>, first: u64) -> Result<Best, AllocError>
    requires first { has_delay (problem_of problem.now) (representative problem.now.admit.now problem.now.admit.now.pins) first }
    ensures time { IfOk result (λ best. best.time ≡ first) }
    ensures best { IfOk result (IsBest (problem_of problem.now)) }
{
    let mut best = Best::new(alloc, problem.circuit.input_count())?;
    best.begin(problem, first);
    Ok(best)
}

/// The incumbent, and `workers` workers that know the pair that stands for the pins. That pair has
/// this delay. The error is out of memory.
pub fn starting_of(
    alloc: Global,
    problem: &Problem<'_>,
    workers: u32,
    first: u64,
) -> Result<(Incumbent, Vec<Found>), AllocError>
    requires some { 0 < workers }
    requires first { has_delay (problem_of problem.now) (representative problem.now.admit.now problem.now.admit.now.pins) first }
    ensures found { IfOk result (λ answer. AllByRecursion (IsStarting (problem_of problem.now) answer.0) answer.1.items) }
    ensures count { IfOk result (λ answer. length answer.1.items ≡ workers) }
{
    let (incumbent, seats) = seats_of(alloc, workers as usize)?;
    let found = fresh_of(alloc, problem, &incumbent, seats, first)?;
    Ok((incumbent, found))
}

// For each seat a worker that knows the pair that stands for the pins, which has this delay. The
// error is out of memory.
fn fresh_of(
    alloc: Global,
    problem: &Problem<'_>,
    incumbent: &Incumbent,
    seats: Vec<Seat>,
    first: u64,
) -> Result<Vec<Found>, AllocError>
    requires seats { AllByRecursion (IsFresh incumbent.now) seats.items }
    requires first { has_delay (problem_of problem.now) (representative problem.now.admit.now problem.now.admit.now.pins) first }
    ensures found { IfOk result (λ found. AllByRecursion (IsStarting (problem_of problem.now) incumbent.now) found.items) }
    ensures count { IfOk result (λ found. length found.items ≡ length seats.items) }
{
    let mut all = Vec::with_capacity(alloc, seats.len())?;
    for seat in seats {
        all.push(fresh(alloc, problem, incumbent, seat, first)?)?;
    }
    Ok(all)
}

// A worker that knows the pair that stands for the pins, which has this delay, and offers it. The
// error is out of memory.
fn fresh(
    alloc: Global,
    problem: &Problem<'_>,
    incumbent: &Incumbent,
    seat: Seat,
    first: u64,
) -> Result<Found, AllocError>
    requires seat { IsFresh incumbent.now seat }
    requires first { has_delay (problem_of problem.now) (representative problem.now.admit.now problem.now.admit.now.pins) first }
    ensures { IfOk result (IsStarting (problem_of problem.now) incumbent.now) }
{
    // For the prover: pins have two positions for each input.
    let _pins = problem.admit.pins();
    let best = first_best(alloc, problem, first)?;
    let mut seat = seat;
    let _seen = incumbent.raise(&mut seat, first);
    Ok(Found {
        evidence: Vec::new(alloc),
        best,
        seat,
    })
}

/// What the workers share at the beginning: the book of one open root, with a ledger of nothing,
/// and what is left for a watch that looks. The error is out of memory.
pub fn shared_of<L: Subject, W: Watch>(
    alloc: Global,
    problem: &Problem<'_>,
    effort: Effort,
    incumbent: Incumbent,
    ledger: ledger::Book<L>,
    root: Root,
    watch: &W,
) -> Result<Shared<L>, AllocError>
    requires asked { L.asked ≡ problem_of problem.now }
    requires root { IsRoot (problem_of problem.now) root }
    requires ledger { ledger.total ≡ 0 }
    ensures { IfOk result (λ shared. shared.incumbent ≡ incumbent) }
{
    // For the prover: gates are in order.
    let _numbering = problem.circuit.gates();
    let pins = problem.admit.pins().copy(alloc)?;
    let Ok(book) = Book::new(alloc, pins, effort.workers, effort.budget) else {
        return Err(AllocError);
    };
    let frontier = frontier_of::<L, W>(alloc, problem, root, watch)?;
    Ok(Shared {
        state: Mutex::new(State {
            book: Counted::new(book, ledger),
            frontier,
        }),
        moved: Condvar::new(),
        incumbent,
    })
}

// What is left at the beginning, for a watch that looks. The error is out of memory.
fn frontier_of<L: Subject, W: Watch>(
    alloc: Global,
    problem: &Problem<'_>,
    root: Root,
    watch: &W,
) -> Result<Frontier<L>, AllocError>
    requires asked { L.asked ≡ problem_of problem.now }
    requires root { IsRoot (problem_of problem.now) root }
{
    if watch.is_looking() {
        return Frontier::new(alloc, problem, root);
    }
    Ok(Frontier::unkept(alloc, problem, root))
}

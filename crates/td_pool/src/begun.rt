//! A shared search that has begun: its pins are measured and bounded, and all that its workers
//! share is made.

ghost use Rattle.std.specs.Prelude.{◌≡◌, ◌<◌, ◌≤◌, [], vec_capacity, IfOk};
ghost use Rattle.td_search.specs.Best.{IsBest};
ghost use Rattle.td_search.specs.Problems.{problem_of};
ghost use Rattle.td_search.specs.Roots.{IsRoot};
ghost use Rattle.td_pool.specs.Working.{IsCrew};

use crate::effort::Effort;
use crate::found::{Found, Report};
use crate::reports::Truthful;
use crate::shared::Shared;
use crate::starting::{first_best, shared_of, starting_of};
use crate::subject::Subject;
use crate::watch::Watch;
use std::alloc::{AllocError, Global};
use std::sync::ledger::{Blank, Share};
use std::thread::PromisedHandle;
use td_search::{Best, Problem, Root};

/// What all workers begin with: how many there are, what each has found so far, their share of the
/// ledger, and room for their handles and for what they hand back.
#[derive(Drop)]
pub struct Crew<L: Subject> {
    pub workers: u32,
    pub found: Vec<Found>,
    pub share: Share<L>,
    pub handles: Vec<PromisedHandle<Report<L>, Truthful>>,
    pub all: Vec<Report<L>>,
}

/// What the workers share and begin with, the pair that stands for the pins, and what is known of
/// the pins. What goes on from here has no error.
#[derive(Drop)]
pub struct Begun<L: Subject> {
    pub shared: Shared<L>,
    pub first: Best,
    pub root: Root,
    pub crew: Crew<L>,
}

/// Makes what a search needs to begin, from what is known of the pins. The error is out of memory.
pub fn begin<L: Subject, W: Watch>(
    alloc: Global,
    problem: &Problem<'_>,
    effort: Effort,
    root: Root,
    blank: Blank,
    watch: &W,
) -> Result<Begun<L>, AllocError>
    requires asked { L.asked ≡ problem_of problem.now }
    requires root { IsRoot (problem_of problem.now) root }
    requires name { blank.name ≡ L.name }
    requires blank { blank.parts ≡ L.parts }
    requires parts { blank.parts ≡ effort.workers }
    ensures root { IfOk result (λ begun. begun.root ≡ root) }
    ensures first { IfOk result (λ begun. IsBest (problem_of problem.now) begun.first) }
    ensures crew { IfOk result (λ begun. IsCrew (problem_of problem.now) begun.shared.incumbent begun.crew.workers begun.crew.found.items begun.crew.share.parts begun.crew.share.amount) }
    ensures handles { IfOk result (λ begun. begun.crew.handles.items ≡ []) }
    ensures all { IfOk result (λ begun. begun.crew.all.items ≡ []) }
    ensures handles_space { IfOk result (λ begun. begun.crew.workers ≤ vec_capacity begun.crew.handles) }
    ensures all_space { IfOk result (λ begun. begun.crew.workers ≤ vec_capacity begun.crew.all) }
{
    let first = first_best(alloc, problem, root.first)?;
    let (incumbent, found) = starting_of(alloc, problem, effort.workers, root.first)?;
    let (ledger, share) = blank.open::<L>();
    let shared = shared_of::<L, W>(alloc, problem, effort, incumbent, ledger, root, watch)?;
    let handles = Vec::with_capacity(alloc, found.len())?;
    let all = Vec::with_capacity(alloc, found.len())?;
    let crew = Crew {
        workers: effort.workers,
        found,
        share,
        handles,
        all,
    };
    Ok(Begun {
        shared,
        first,
        root,
        crew,
    })
}

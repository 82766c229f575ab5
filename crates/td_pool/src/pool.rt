//! The search by several workers.

ghost use Rattle.std.specs.Prelude.{◌≡◌, ◌<◌, ◌≤◌, false, [], length, vec_capacity, IfOk, IfErr, IfSome};
ghost use Rattle.std.specs.List.{AllByRecursion};
ghost use Rattle.td_domain.specs.Admits.{HasAdmitted};
ghost use Rattle.td_search.specs.Answers.{IsAnswer, IsSearchFault, TimeNeedsStop};
ghost use Rattle.td_search.specs.Best.{IsBest};
ghost use Rattle.td_search.specs.Opened.{ShowsAnswer};
ghost use Rattle.td_search.specs.Problems.{problem_of, problem};
ghost use Rattle.td_search.specs.Roots.{IsRoot};
ghost use Rattle.td_search.specs.Shared.{IsShared};
ghost use Rattle.td_search.specs.Written.{CanBeWritten};
ghost use Rattle.td_pool.specs.Truth.{IsTrueFound, IsStarting};
ghost use Rattle.td_pool.specs.Working.{IsCrew};

use crate::begun::{Begun, Crew, begin};
use crate::borrowed::{Borrowed, take_back};
use crate::deck::Deck;
use crate::effort::Effort;
use crate::found::{Found, Report, Start};
use crate::hints::Hints;
use crate::lent::lend;
use crate::limits::Limits;
use crate::reports::{Truthful, handed_over, join_all};
use crate::shared::Shared;
use crate::subject::Subject;
use crate::watch::{Unwatched, Watch};
use crate::working::{work, worker_of};
use std::alloc::{AllocError, Global};
use std::marker::Brand;
use std::snapshot::Snapshot;
use std::sync::Wait;
use std::sync::ledger::Blank;
use std::thread;
use std::thread::Threads;
use td_circuit::Circuit;
use td_domain::Admit;
use td_event_sim::Interruption;
use td_search::{
    Answer, Ended, Lead, Least, Own, Prober, Problem, Root, Rule, SearchFault, SharedWork,
    Strategy, Task, alone_shown, finish_shown, root_of,
};
use td_stop::Stop;

/// Searches by `least` for the worst delay of the admitted pairs of a circuit. There are 1 to 64
/// workers, this thread is one of them, and they handle at most `budget` nodes. The budget is at
/// most 10,000,000, and the pairs are of the circuit's inputs. With one worker and `Own` the
/// figures and the number of nodes are those of `alone`; a test compares them. A thread that can't
/// be started only lowers the number of workers.
///
/// # Errors
///
/// `NoPair` where no pair is admitted. `OutOfMemory` where a growth was refused before the first
/// pair was measured and the cube of the pins bounded, or for what the workers share.
pub fn worst<P: Prober + Sync, R: Threads + Wait + Sync>(
    rt: &R,
    alloc: Global,
    circuit: &Circuit,
    admit: &Admit,
    prober: &P,
    workers: u32,
    budget: u64,
) -> Result<Answer, SearchFault>
    requires some { 0 < workers }
    requires few { workers ≤ 64 }
    requires modest { budget ≤ 10000000 }
    requires held { length admit.now.held ≡ length circuit.now.netlist.inputs }
    ensures answer { IfOk result (IsAnswer (problem circuit.now admit.now) budget) }
    // The certificate of an exact answer has a text within the limit.
    ensures text { IfOk result (CanBeWritten (problem circuit.now admit.now)) }
    ensures time { IfOk result (TimeNeedsStop false) }
    ensures fault { IfErr result (IsSearchFault (problem circuit.now admit.now)) }
{
    let mut decks = Deck::deal(alloc, workers as usize)?;
    worst_by(
        rt, alloc, circuit, admit, prober, &mut decks, workers, budget,
    )
}

/// As `worst`, where the workers tell each other by these, one for each worker, which leaves may be
/// open. Nothing is asked of the numbers that come out: the book decides which leaf a worker
/// handles.
///
/// # Errors
///
/// As `worst`.
pub fn worst_by<P: Prober + Sync, D: Hints + Send, R: Threads + Wait + Sync>(
    rt: &R,
    alloc: Global,
    circuit: &Circuit,
    admit: &Admit,
    prober: &P,
    decks: &mut [D],
    workers: u32,
    budget: u64,
) -> Result<Answer, SearchFault>
    requires some { 0 < workers }
    requires few { workers ≤ 64 }
    requires modest { budget ≤ 10000000 }
    requires held { length admit.now.held ≡ length circuit.now.netlist.inputs }
    requires decks { length decks.old ≡ workers }
    ensures answer { IfOk result (IsAnswer (problem circuit.now admit.now) budget) }
    ensures text { IfOk result (CanBeWritten (problem circuit.now admit.now)) }
    ensures time { IfOk result (TimeNeedsStop false) }
    ensures fault { IfErr result (IsSearchFault (problem circuit.now admit.now)) }
{
    let problem = Problem {
        circuit,
        admit,
        strategy: Strategy::Least,
    };
    let never = Stop::never();
    let limits = Limits::until(Effort { workers, budget }, &never);
    let lent = lend(alloc, decks)?;
    let mut nobody = Unwatched;
    let Ended { answer, .. } = search_by(rt, alloc, &problem, prober, lent, limits, &mut nobody)?;
    Ok(answer)
}

/// Searches for the worst delay that is asked for. This thread is one of the workers. It reports
/// the progress of the search to a watch each time that the nodes handled have passed 1, 2 or 5
/// thousand, ten thousand and so on. It does so only once it has handled what it was leased, so the
/// report may come after the milestone, with the nodes that are handled by then. Where several
/// milestones were passed meanwhile, it reports only the last. With one worker that nobody watches
/// the answer is that of `alone_by`, which asks no prober. A thread that can't be started only
/// lowers the number of workers. Once the stop is set, no worker begins a further node, and the
/// answer says what is known by then. Beside an answer that stays open a tree shows its upper
/// figure, where there was memory for it.
///
/// # Errors
///
/// As `worst`.
pub fn search<P: Prober + Sync, W: Watch, R: Threads + Wait + Sync>(
    rt: &R,
    alloc: Global,
    problem: &Problem<'_>,
    prober: &P,
    limits: Limits<'_>,
    watch: &mut W,
) -> Result<Ended, SearchFault>
    ensures answer { IfOk result (λ ended. IsAnswer (problem_of problem.now) limits.entry.effort.budget ended.answer) }
    // The certificate of an exact answer has a text within the limit.
    ensures text { IfOk result (λ ended. CanBeWritten (problem_of problem.now) ended.answer) }
    // A certificate of both figures is accepted with the tree.
    ensures shown { IfOk result (ShowsAnswer (problem_of problem.now)) }
    // Time is a cause only where the stop can be set.
    ensures time { IfOk result (λ ended. TimeNeedsStop limits.entry.stop.now.can_be_set ended.answer) }
    ensures fault { IfErr result (IsSearchFault (problem_of problem.now)) }
    // All progress that the watch got is true of what is asked.
    ensures reported { W.reported (problem_of problem.now) watch.old watch.new }
{
    let Limits { effort, stop, .. } = limits;
    if effort.workers == 1 && !watch.is_looking() {
        return alone_shown(alloc, problem, effort.budget, stop);
    }
    let decks = Deck::deal(alloc, effort.workers as usize)?;
    search_by(rt, alloc, problem, prober, decks, limits, watch)
}

// As `search`, where the workers tell each other by these, one for each worker, which leaves may be
// open.
fn search_by<P: Prober + Sync, D: Hints + Drop + Send, W: Watch, R: Threads + Wait + Sync>(
    rt: &R,
    alloc: Global,
    problem: &Problem<'_>,
    prober: &P,
    decks: Vec<D>,
    limits: Limits<'_>,
    watch: &mut W,
) -> Result<Ended, SearchFault>
    ensures answer { IfOk result (λ ended. IsAnswer (problem_of problem.now) limits.entry.effort.budget ended.answer) }
    ensures text { IfOk result (λ ended. CanBeWritten (problem_of problem.now) ended.answer) }
    ensures shown { IfOk result (ShowsAnswer (problem_of problem.now)) }
    ensures time { IfOk result (λ ended. TimeNeedsStop limits.entry.stop.now.can_be_set ended.answer) }
    ensures fault { IfErr result (IsSearchFault (problem_of problem.now)) }
    ensures reported { W.reported (problem_of problem.now) watch.old watch.new }
{
    if !problem.admit.any(problem.admit.pins()) {
        return Err(SearchFault::NoPair);
    }
    let Limits { effort, stop, .. } = limits;
    match shared_work(rt, alloc, problem, prober, decks, limits, watch) {
        Ok(work) => Ok(finish_shown(alloc, problem, work, effort.budget, stop)),
        // No pair was measured yet, and one thread answers what is known.
        Err(Interruption::Stopped) => alone_shown(alloc, problem, effort.budget, stop),
        Err(Interruption::OutOfMemory) => Err(SearchFault::OutOfMemory),
    }
}

// What the workers find by the rule of the strategy. The error comes before they begin.
fn shared_work<P: Prober + Sync, D: Hints + Drop + Send, W: Watch, R: Threads + Wait + Sync>(
    rt: &R,
    alloc: Global,
    problem: &Problem<'_>,
    prober: &P,
    decks: Vec<D>,
    limits: Limits<'_>,
    watch: &mut W,
) -> Result<SharedWork, Interruption>
    requires any { HasAdmitted problem.now.admit.now problem.now.admit.now.pins }
    ensures work { IfOk result (IsShared (problem_of problem.now)) }
    ensures reported { W.reported (problem_of problem.now) watch.old watch.new }
{
    let Limits { effort, stop, .. } = limits;
    match problem.strategy {
        Strategy::Least => {
            let rule = Least { prober };
            let task = Task {
                alloc,
                problem,
                rule: &rule,
                stop,
            };
            search_with(rt, &task, decks, effort, watch)
        }
        Strategy::Lead => {
            let task = Task {
                alloc,
                problem,
                rule: &Lead,
                stop,
            };
            search_with(rt, &task, decks, effort, watch)
        }
    }
}

// What the workers find by one rule. This thread is one of them. The error comes before they begin.
fn search_with<Q: Rule + Sync, D: Hints + Drop + Send, W: Watch, R: Threads + Wait + Sync>(
    rt: &R,
    task: &Task<'_, Q>,
    decks: Vec<D>,
    effort: Effort,
    watch: &mut W,
) -> Result<SharedWork, Interruption>
    requires any { HasAdmitted task.now.problem.now.admit.now task.now.problem.now.admit.now.pins }
    ensures work { IfOk result (IsShared (problem_of task.now.problem.now)) }
    ensures reported { W.reported (problem_of task.now.problem.now) watch.old watch.new }
{
    let root = first_root(task)?;
    let blank = Blank::new(u64::from(effort.workers));
    let work = search_all::<Brand, _, _, _, _>(rt, task, decks, effort, root, blank, watch)?;
    Ok(work)
}

// What is known of the pins.
fn first_root<Q: Rule>(task: &Task<'_, Q>) -> Result<Root, Interruption>
    requires any { HasAdmitted task.now.problem.now.admit.now task.now.problem.now.admit.now.pins }
    ensures { IfOk result (IsRoot (problem_of task.now.problem.now)) }
{
    let mut scratch = task.rule.scratch(task.alloc, task.problem)?;
    root_of(task, &mut scratch)
}

// As `search_with`, with a ledger that has a part for each worker.
fn search_all<
    L: Subject + Send + Sync,
    Q: Rule + Sync,
    D: Hints + Drop + Send,
    W: Watch,
    R: Threads + Wait + Sync,
>(
    rt: &R,
    task: &Task<'_, Q>,
    decks: Vec<D>,
    effort: Effort,
    root: Root,
    blank: Blank,
    watch: &mut W,
) -> Result<SharedWork, AllocError>
    requires asked { L.asked ≡ problem_of task.now.problem.now }
    requires root { IsRoot (problem_of task.now.problem.now) root }
    requires name { blank.name ≡ L.name }
    requires blank { blank.parts ≡ L.parts }
    requires parts { blank.parts ≡ effort.workers }
    ensures work { IfOk result (IsShared (problem_of task.now.problem.now)) }
    ensures reported { W.reported (problem_of task.now.problem.now) watch.old watch.new }
{
    let begun = begin::<L, W>(task.alloc, task.problem, effort, root, blank, watch)?;
    Ok(go_on(rt, task, begun, decks, watch))
}

// What the workers find from there. Nothing is in the way of an answer any more.
fn go_on<
    L: Subject + Send + Sync,
    Q: Rule + Sync,
    D: Hints + Drop + Send,
    W: Watch,
    R: Threads + Wait + Sync,
>(rt: &R, task: &Task<'_, Q>, begun: Begun<L>, decks: Vec<D>, watch: &mut W) -> SharedWork
    requires asked { L.asked ≡ problem_of task.now.problem.now }
    requires root { IsRoot (problem_of task.now.problem.now) begun.root }
    requires first { IsBest (problem_of task.now.problem.now) begun.first }
    requires crew { IsCrew (problem_of task.now.problem.now) begun.shared.incumbent begun.crew.workers begun.crew.found.items begun.crew.share.parts begun.crew.share.amount }
    requires handles { begun.crew.handles.items ≡ [] }
    requires all { begun.crew.all.items ≡ [] }
    requires handles_space { begun.crew.workers ≤ vec_capacity begun.crew.handles }
    requires all_space { begun.crew.workers ≤ vec_capacity begun.crew.all }
    ensures work { IsShared (problem_of task.now.problem.now) result }
    ensures reported { W.reported (problem_of task.now.problem.now) watch.old watch.new }
{
    let Begun {
        shared,
        first,
        root,
        crew,
    } = begun;
    let all = found_watched(rt, task, &shared, crew, decks, watch);
    handed_over(task.alloc, task.problem, shared, all, first, root)
}

// What all workers find. The watch gets the progress meanwhile.
fn found_watched<
    L: Subject + Send + Sync,
    Q: Rule + Sync,
    D: Hints + Drop + Send,
    W: Watch,
    R: Threads + Wait + Sync,
>(
    rt: &R,
    task: &Task<'_, Q>,
    shared: &Shared<L>,
    crew: Crew<L>,
    decks: Vec<D>,
    watch: &mut W,
) -> Vec<Report<L>>
    requires asked { L.asked ≡ problem_of task.now.problem.now }
    requires crew { IsCrew (problem_of task.now.problem.now) shared.now.incumbent crew.workers crew.found.items crew.share.parts crew.share.amount }
    requires handles { crew.handles.items ≡ [] }
    requires all { crew.all.items ≡ [] }
    requires handles_space { crew.workers ≤ vec_capacity crew.handles }
    requires all_space { crew.workers ≤ vec_capacity crew.all }
    ensures reports { AllByRecursion (λ report. IsTrueFound (problem_of task.now.problem.now) report.found) result.items }
    ensures reported { W.reported (problem_of task.now.problem.now) watch.old watch.new }
{
    let (all, borrowed) = found_by_all(rt, task, shared, crew, decks, Borrowed { watch });
    let Borrowed { watch } = borrowed;
    take_back(watch);
    all
}

// What all workers found: this thread, and another one for each further worker, where a thread can
// be made. The watch, which this thread tells how far the search has come, comes back.
fn found_by_all<
    L: Subject + Send + Sync,
    Q: Rule + Sync,
    D: Hints + Drop + Send,
    W: Watch,
    R: Threads + Wait + Sync,
>(
    rt: &R,
    task: &Task<'_, Q>,
    shared: &Shared<L>,
    crew: Crew<L>,
    decks: Vec<D>,
    watch: W,
) -> (Vec<Report<L>>, W)
    requires asked { L.asked ≡ problem_of task.now.problem.now }
    requires crew { IsCrew (problem_of task.now.problem.now) shared.now.incumbent crew.workers crew.found.items crew.share.parts crew.share.amount }
    requires handles { crew.handles.items ≡ [] }
    requires all { crew.all.items ≡ [] }
    requires handles_space { crew.workers ≤ vec_capacity crew.handles }
    requires all_space { crew.workers ≤ vec_capacity crew.all }
    ensures reports { AllByRecursion (λ report. IsTrueFound (problem_of task.now.problem.now) report.found) result.0.items }
    ensures reported { W.reported (problem_of task.now.problem.now) watch result.1 }
{
    let Crew {
        workers,
        found,
        share,
        handles,
        all,
    } = crew;
    thread::scope(
        thread::scope_env(),
        rt,
        |scope| -> (Vec<Report<L>>, W)
            requires asked { L.asked ≡ problem_of task.now.problem.now }
            requires some { 0 < workers }
            requires parts { share.parts ≡ workers }
            requires amount { share.amount ≡ 0 }
            requires count { length found.items ≡ workers }
            requires found { AllByRecursion (IsStarting (problem_of task.now.problem.now) shared.now.incumbent) found.items }
            requires handles { handles.items ≡ [] }
            requires all { all.items ≡ [] }
            requires handles_space { workers ≤ vec_capacity handles }
            requires all_space { workers ≤ vec_capacity all }
            ensures reports { AllByRecursion (λ report. IsTrueFound (problem_of task.entry.now.problem.now) report.found) result.0.items }
            ensures reported { W.reported (problem_of task.entry.now.problem.now) watch result.1 }
        {
            let mut watch = watch;
            let mut handles = handles;
            let mut own = share;
            let mut waiting = found;
            let mut decks = decks;
            for worker in 1..workers {
                let Some(found) = next_found(task.problem, shared, &mut waiting) else {
                    break;
                };
                let Some(deck) = decks.pop() else {
                    break;
                };
                let share = own.split_off(1, 0);
                let job = move || -> Report<L>
                    requires asked { L.asked ≡ problem_of task.now.problem.now }
                    requires found { IsStarting (problem_of task.now.problem.now) shared.now.incumbent found }
                    requires part { 0 < share.parts }
                    ensures { IsTrueFound (problem_of task.entry.now.problem.now) result.found }
                {
                    let worker = worker_of(task.problem, shared, worker, deck, found, share);
                    let mut nobody = Unwatched;
                    work(rt, task, shared, worker, &mut nobody)
                };
                let truthful = Truthful {
                    circuit: Snapshot::of(task.problem.circuit),
                    admit: Snapshot::of(task.problem.admit),
                    strategy: task.problem.strategy,
                };
                if let Ok(handle) = scope.spawn_with(truthful, job) {
                    handles.push_reserved(handle);
                }
            }
            let start = Start {
                found: next_found(task.problem, shared, &mut waiting),
                deck: decks.pop(),
                share: own,
            };
            let all = with_first(rt, task, shared, start, all, &mut watch);
            let all = join_all(rt, task.problem, handles, all);
            (all, watch)
        },
    )
}

// The last of these.
fn next_found<L: Subject>(
    problem: &Problem<'_>,
    _shared: &Shared<L>,
    waiting: &mut Vec<Found>,
) -> Option<Found>
    requires { AllByRecursion (IsStarting (problem_of problem.now) _shared.now.incumbent) waiting.old.items }
    ensures found { IfSome result (IsStarting (problem_of problem.now) _shared.now.incumbent) }
    ensures waiting { AllByRecursion (IsStarting (problem_of problem.now) _shared.now.incumbent) waiting.new.items }
{
    let Some(found) = waiting.pop() else {
        return None;
    };
    Some(found)
}

// What this thread finds as the first worker, in a vector that has room for it and more. Nothing
// where it has nothing to begin with.
fn with_first<L: Subject, Q: Rule, D: Hints + Drop, W: Watch, R: Wait>(
    rt: &R,
    task: &Task<'_, Q>,
    shared: &Shared<L>,
    start: Start<D, L>,
    all: Vec<Report<L>>,
    watch: &mut W,
) -> Vec<Report<L>>
    requires asked { L.asked ≡ problem_of task.now.problem.now }
    requires found { IfSome start.found (IsStarting (problem_of task.now.problem.now) shared.now.incumbent) }
    requires part { 0 < start.share.parts }
    requires all { all.items ≡ [] }
    requires space { 0 < vec_capacity all }
    ensures reports { AllByRecursion (λ report. IsTrueFound (problem_of task.now.problem.now) report.found) result.items }
    ensures few { length result.items ≤ 1 }
    ensures space { vec_capacity result ≡ vec_capacity all }
    ensures reported { W.reported (problem_of task.now.problem.now) watch.old watch.new }
{
    let mut all = all;
    let Start { deck, found, share } = start;
    let Some(found) = found else {
        return all;
    };
    let Some(deck) = deck else {
        return all;
    };
    let worker = worker_of(task.problem, shared, 0, deck, found, share);
    let report = work(rt, task, shared, worker, watch);
    all.push_reserved(report);
    all
}

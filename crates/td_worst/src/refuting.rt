//! What a refutation makes of an answer.

ghost use Rattle.std.specs.Prelude.{◌≡◌, Bool, true, false, ◌<◌, ◌≤◌, ◌^◌, ◌/◌, ℕ, None as Nothing, IfOk, IfSome};
ghost use Rattle.td_circuit.specs.Numbering.{setting};
ghost use Rattle.td_lead.specs.Timed.{IsTimed};
ghost use Rattle.td_refute.specs.Answers.{IsShown};
ghost use Rattle.td_search.specs.declared.answers.Answer.TheVariants.{Between};
ghost use Rattle.td_search.specs.declared.answers.Cause.TheVariants as cause;
ghost use Rattle.td_search.specs.Answers.{TimeNeedsStop, low_of};
ghost use Rattle.td_search.specs.Problems.{Problem as Asked, problem_of};
ghost use Rattle.td_search.specs.Written.{CanBeWritten};
ghost use Rattle.td_worst.specs.Causes.{cause_in};
ghost use Rattle.td_worst.specs.Leaves.{IsSpellable};
ghost use Rattle.td_worst.specs.Methods.{high_of, IsNarrower, IsSoundAnswer};
ghost use Rattle.td_worst.specs.OpenAnswer.{IsOpenAnswer};
ghost use Rattle.td_worst.specs.Supports.{IsWithinSteps};

use crate::leaf::tree_of_leaf;
use std::alloc::{AllocError, Global};
use std::thread::Threads;
use td_event_sim::Scratch;
use td_lead::Timed;
use td_refute::{Effort, Ending, Refuted, refute};
use td_search::{Answer, Cause, Problem};
use td_stop::Stop;

// How many bytes a search takes for each word of 4 bytes that it counts: its lines are spelled once
// more where they show a bound.
const BYTES_OF_A_WORD: u64 = 12;

/// How many words a search by spans may count that is to take no more than so many bytes.
pub(crate) fn words_of(memory: u64) -> u64
    ensures { result ≡ memory / 12 }
{
    memory / BYTES_OF_A_WORD
}

/// Why a search ends that shows no more: the time where the stop is set; the memory that it would
/// need, also where all is known and lines that show it find no room; else the budget, also where
/// there is nothing more to try before that is used up.
pub(crate) fn cause_of(ending: Ending, stop: &Stop) -> Cause
    ensures time { result ≡ cause.Time → stop.now.can_be_set ≡ true }
    ensures unstopped { stop.now.can_be_set ≡ false → result ≡ cause_in ending }
{
    if stop.is_set() {
        return Cause::Time;
    }
    match ending {
        Ending::Memory | Ending::Closed | Ending::NoPair => Cause::Memory,
        Ending::Work | Ending::Stop | Ending::Enough | Ending::Lost => Cause::Budget,
    }
}

/// What is known where no answer is exact: the best pair, a bound of all delays in steps, and how
/// many nodes trees had.
#[derive(Drop)]
pub struct OpenAnswer {
    pub best: Timed,
    pub high: u64,
    pub nodes: u64,
}

impl OpenAnswer {
    /// The answer that says what is known.
    pub fn between(self, cause: Cause) -> Answer
        ensures { result ≡ Between self.best.time self.high self.best.pair self.nodes cause }
    {
        let OpenAnswer { best, high, nodes } = self;
        let Timed { pair, time } = best;
        Answer::Between {
            low: time,
            high,
            pair,
            nodes,
            cause,
        }
    }

    // The answer where steps show a bound, and no more for this cause.
    fn refuted(self, alloc: Global, refuted: &Refuted, why: Cause) -> Answer
        requires small { self.best.time < 10 ^ 15 }
        ensures answer { (asked : Asked) (budget : ℕ) → 0 < budget → IsSpellable asked → IsOpenAnswer asked budget self
            → IsShown asked.setting asked.admit refuted.now → IsSoundAnswer asked budget result × CanBeWritten asked result }
        ensures low { low_of result ≡ self.best.time }
        ensures high { self.best.time ≤ self.high → high_of result ≤ self.high }
        ensures within { (asked : Asked) → IsTimed asked.setting asked.admit self.best → IsShown asked.setting asked.admit refuted.now
            → IsWithinSteps (high_of result) refuted.now }
        ensures time { (can_be_set : Bool) → (why ≡ cause.Time → can_be_set ≡ true) → TimeNeedsStop can_be_set result }
    {
        let OpenAnswer { best, high, nodes } = self;
        let Timed { pair, time } = best;
        if refuted.bound > time {
            let best = Timed { pair, time };
            let high = high.min(refuted.bound);
            return OpenAnswer { best, high, nodes }.between(why);
        }
        let cause = match tree_of_leaf(alloc, refuted) {
            Ok(Some(tree)) => return Answer::Exact { time, pair, tree },
            Ok(None) => Cause::Memory,
            Err(_) => Cause::Memory,
        };
        let best = Timed { pair, time };
        OpenAnswer {
            best,
            high: time,
            nodes,
        }
        .between(cause)
    }
}

/// What a refutation makes of an answer, and, where that stays open, steps that show a bound, if
/// there are some, and how many units of work it took. The bound may be above the answer's upper
/// figure.
#[derive(Drop)]
pub struct Stepped {
    pub answer: Answer,
    pub refuted: Option<Refuted>,
    pub work: u64,
}

impl Stepped {
    // An answer without steps.
    fn of(answer: Answer, work: u64) -> Stepped
        ensures answer { result.answer ≡ answer }
        ensures refuted { result.refuted ≡ Nothing }
    {
        Stepped {
            answer,
            refuted: None,
            work,
        }
    }
}

/// What a refutation makes of an answer, with the steps that show a bound where it stays open. An
/// exact answer stays as it is. The search ends after as many units of work as its effort says, or
/// once its stop is set. Where memory runs out, what was known stands.
pub fn refuted_further<R: Threads + Sync>(
    rt: &R,
    alloc: Global,
    problem: &Problem<'_>,
    known: Answer,
    budget: u64,
    effort: Effort<'_>,
) -> Stepped
    requires some { 0 < budget }
    requires known { IsSoundAnswer (problem_of problem.now) budget known }
    requires text { CanBeWritten (problem_of problem.now) known }
    ensures answer { IsSoundAnswer (problem_of problem.now) budget result.answer }
    ensures text { CanBeWritten (problem_of problem.now) result.answer }
    ensures narrower { IsNarrower known result.answer }
    ensures time { TimeNeedsStop effort.entry.stop.now.can_be_set result.answer }
    ensures shown { IfSome result.refuted (IsShown (setting problem.now.circuit.now) problem.now.admit.now) }
    ensures within { IfSome result.refuted (IsWithinSteps (high_of result.answer)) }
{
    match known {
        Answer::Exact { time, pair, tree } => Stepped::of(Answer::Exact { time, pair, tree }, 0),
        Answer::Between {
            low,
            high,
            pair,
            nodes,
            ..
        } => {
            let best = Timed { pair, time: low };
            let open = OpenAnswer { best, high, nodes };
            refute_open_answer(rt, alloc, problem, open, budget, effort)
        }
    }
}

// What a refutation makes of what is known.
fn refute_open_answer<R: Threads + Sync>(
    rt: &R,
    alloc: Global,
    problem: &Problem<'_>,
    known: OpenAnswer,
    budget: u64,
    effort: Effort<'_>,
) -> Stepped
    requires some { 0 < budget }
    requires known { IsOpenAnswer (problem_of problem.now) budget known }
    ensures answer { IsSoundAnswer (problem_of problem.now) budget result.answer }
    ensures text { CanBeWritten (problem_of problem.now) result.answer }
    ensures low { known.best.time ≤ low_of result.answer }
    ensures high { high_of result.answer ≤ known.high }
    ensures time { TimeNeedsStop effort.entry.stop.now.can_be_set result.answer }
    ensures shown { IfSome result.refuted (IsShown (setting problem.now.circuit.now) problem.now.admit.now) }
    ensures within { IfSome result.refuted (IsWithinSteps (high_of result.answer)) }
{
    // For the prover: the circuit's and the pins' sizes.
    let _gates = problem.circuit.gates();
    let _moments = problem.circuit.moments();
    let _pins = problem.admit.pins();
    let mut known = known;
    let Ended { found, why, work } = search(rt, alloc, problem, &mut known.best, effort);
    match found {
        Ok(Some(refuted)) => {
            let answer = known.refuted(alloc, &refuted, why);
            with_steps(answer, refuted, work)
        }
        Ok(None) => Stepped::of(known.between(why), work),
        Err(_) => Stepped::of(known.between(Cause::Memory), work),
    }
}

// An answer with the steps, which an exact one has in its tree.
fn with_steps(answer: Answer, refuted: Refuted, work: u64) -> Stepped
    ensures answer { result.answer ≡ answer }
    ensures steps { IfSome result.refuted (λ steps. steps ≡ refuted) }
{
    match answer {
        Answer::Exact { time, pair, tree } => {
            Stepped::of(Answer::Exact { time, pair, tree }, work)
        }
        Answer::Between {
            low,
            high,
            pair,
            nodes,
            cause,
        } => Stepped {
            answer: Answer::Between {
                low,
                high,
                pair,
                nodes,
                cause,
            },
            refuted: Some(refuted),
            work,
        },
    }
}

// What a search for a refutation came to: steps that show a bound, if there are some, unless memory
// ran out; why it shows no more; and how many units of work it took.
#[derive(Drop)]
struct Ended {
    found: Result<Option<Refuted>, AllocError>,
    why: Cause,
    work: u64,
}

// Searches for a refutation, from the best pair on.
fn search<R: Threads + Sync>(
    rt: &R,
    alloc: Global,
    problem: &Problem<'_>,
    best: &mut Timed,
    effort: Effort<'_>,
) -> Ended
    requires best { IsTimed (setting problem.now.circuit.now) problem.now.admit.now best.old }
    ensures best { IsTimed (setting problem.now.circuit.now) problem.now.admit.now best.new }
    ensures no_less { best.old.time ≤ best.new.time }
    ensures shown { IfOk result.found (λ found. IfSome found (IsShown (setting problem.now.circuit.now) problem.now.admit.now)) }
    ensures cause { result.why ≡ cause.Time → effort.entry.stop.now.can_be_set ≡ true }
{
    let Ok(mut scratch) = Scratch::new(alloc, problem.circuit) else {
        return Ended {
            found: Err(AllocError),
            why: Cause::Memory,
            work: 0,
        };
    };
    let stop = effort.stop;
    match refute(
        rt,
        alloc,
        &mut scratch,
        problem.circuit,
        problem.admit,
        best,
        effort,
    ) {
        Ok(sought) => Ended {
            found: Ok(sought.refuted),
            why: cause_of(sought.ending, stop),
            work: sought.work,
        },
        Err(error) => Ended {
            found: Err(error),
            why: Cause::Memory,
            work: 0,
        },
    }
}

//! What two searches of one question know together.

ghost use Rattle.std.specs.Prelude.{◌≡◌, ◌⊎◌, ◌+◌, ◌≤◌, ℕ, Bool, true, IfSome};
ghost use Rattle.td_circuit.specs.Settings.{Setting};
ghost use Rattle.td_domain.specs.Admits.{Admitted};
ghost use Rattle.td_search.specs.declared.answers.Cause.TheVariants as cause;
ghost use Rattle.td_search.specs.Problems.{Problem as Asked};
ghost use Rattle.td_search.specs.Written.{CanBeWritten};
ghost use Rattle.td_search.specs.Answers.{TimeNeedsStop, low_of};
ghost use Rattle.td_worst.specs.Methods.{high_of, IsNarrower, IsSoundAnswer};
ghost use Rattle.td_worst.specs.OpenAnswer.{IsOpenAnswer};
ghost use Rattle.td_worst.specs.Supports.{IsSupportOf, IsWithinTree, earlier_tree};

use crate::refuting::OpenAnswer;
use crate::support::{Treed, earlier_tree, high_of};
use td_lead::Timed;
use td_search::{Answer, Cause};

// What two searches of one question know together: an answer that is exact, or else the better
// pair and the lesser bound.
fn combined(first: Answer, second: Answer) -> Answer
    ensures answer { (asked : Asked) (budget more : ℕ) → IsSoundAnswer asked budget first → CanBeWritten asked first → IsSoundAnswer asked more second
        → CanBeWritten asked second → IsSoundAnswer asked (budget + more) result × CanBeWritten asked result }
    ensures narrower { (asked : Asked) (budget more : ℕ) → IsSoundAnswer asked budget first → IsSoundAnswer asked more second
        → IsNarrower first result × IsNarrower second result }
    ensures time { (can_be_set : Bool) → TimeNeedsStop can_be_set first → TimeNeedsStop can_be_set second → TimeNeedsStop can_be_set result }
{
    match first {
        Answer::Exact { time, pair, tree } => Answer::Exact { time, pair, tree },
        Answer::Between {
            low,
            high,
            pair,
            nodes,
            cause,
        } => {
            let best = Timed { pair, time: low };
            with_second(OpenAnswer { best, high, nodes }, cause, second)
        }
    }
}

/// What two searches know together, with the tree of the one with the lesser upper figure, of the
/// first where they are equal.
pub fn with_tree(first: Treed, second: Treed) -> Treed
    ensures answer { (asked : Asked) (budget more : ℕ) → IsSoundAnswer asked budget first.answer → CanBeWritten asked first.answer → IsSoundAnswer asked more second.answer
        → CanBeWritten asked second.answer → IsSoundAnswer asked (budget + more) result.answer × CanBeWritten asked result.answer }
    ensures narrower { (asked : Asked) (budget more : ℕ) → IsSoundAnswer asked budget first.answer → IsSoundAnswer asked more second.answer
        → IsNarrower first.answer result.answer × IsNarrower second.answer result.answer }
    ensures time { (can_be_set : Bool) → TimeNeedsStop can_be_set first.answer → TimeNeedsStop can_be_set second.answer → TimeNeedsStop can_be_set result.answer }
    ensures tree { result.tree ≡ earlier_tree (high_of first.answer) first.tree second.tree }
    ensures shown { (given : Setting) (admit : Admitted) → IsSupportOf given admit first.tree → IsSupportOf given admit second.tree → IsSupportOf given admit result.tree }
    ensures within { (asked : Asked) (budget more : ℕ) → IsSoundAnswer asked budget first.answer → IsSoundAnswer asked more second.answer
        → IfSome first.tree (IsWithinTree (high_of first.answer)) → IfSome second.tree (IsWithinTree (high_of second.answer))
        → IfSome result.tree (IsWithinTree (high_of result.answer)) }
{
    let known = high_of(&first.answer);
    let Treed { answer, tree } = first;
    let Treed {
        answer: other,
        tree: second,
    } = second;
    Treed {
        answer: combined(answer, other),
        tree: earlier_tree(known, tree, second),
    }
}

// As `combined`, where this is known of a first search, and why it ended.
fn with_second(first: OpenAnswer, why: Cause, second: Answer) -> Answer
    ensures answer { (asked : Asked) (budget more : ℕ) → IsOpenAnswer asked budget first → IsSoundAnswer asked more second → CanBeWritten asked second
        → IsSoundAnswer asked (budget + more) result × CanBeWritten asked result }
    ensures narrower { (asked : Asked) (budget more : ℕ) → IsOpenAnswer asked budget first → IsSoundAnswer asked more second
        → (first.best.time ≤ low_of result) × (high_of result ≤ first.high) × IsNarrower second result }
    ensures time { (can_be_set : Bool) → (why ≡ cause.Time → can_be_set ≡ true) → TimeNeedsStop can_be_set second → TimeNeedsStop can_be_set result }
{
    match second {
        Answer::Exact { time, pair, tree } => Answer::Exact { time, pair, tree },
        Answer::Between {
            low,
            high,
            pair,
            nodes,
            cause,
        } => {
            let OpenAnswer {
                best,
                high: first_high,
                nodes: first_nodes,
            } = first;
            let best = later(best, Timed { pair, time: low });
            OpenAnswer {
                best,
                high: high.min(first_high),
                nodes: nodes.saturating_add(first_nodes),
            }
            .between(cause_of_both(why, cause))
        }
    }
}

// The budget only where it is the cause of both, else the other cause, the second's of two.
fn cause_of_both(first: Cause, second: Cause) -> Cause
    ensures { (result ≡ first) ⊎ (result ≡ second) }
{
    if second == Cause::Budget {
        first
    } else {
        second
    }
}

// The later one of two pairs, the first where they are as late.
fn later(first: Timed, second: Timed) -> Timed
    ensures one { (result ≡ first) ⊎ (result ≡ second) }
    ensures first { first.time ≤ result.time }
    ensures second { second.time ≤ result.time }
{
    if second.time > first.time {
        second
    } else {
        first
    }
}

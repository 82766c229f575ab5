//! What may show the upper figure of an answer that stays open.

ghost use Rattle.std.specs.Prelude.{◌≡◌, ◌≤◌, ℕ, None, IfSome};
ghost use Rattle.td_circuit.specs.Settings.{Setting};
ghost use Rattle.td_domain.specs.Admits.{Admitted};
ghost use Rattle.td_refutation.specs.Asking.{Asking};
ghost use Rattle.td_refute.specs.Answers.{IsShown};
ghost use Rattle.td_refute.specs.Kept.{IsShownAmong};
ghost use Rattle.td_search.specs.Opened.{high_of, ShowsAnswer, ShowsHigh};
ghost use Rattle.td_search.specs.Problems.{Problem as Asked};
ghost use Rattle.td_worst.specs.Supports.{IsHighTree, IsSupportAmong, IsSupportOf, IsWithinSteps, IsWithinTree, earlier_tree};

use td_certificate::Tree;
use td_refute::Refuted;
use td_search::{Answer, Ended};

/// A tree that shows that no admitted pair is later than a moment, in steps.
#[derive(Drop)]
pub struct HighTree {
    pub high: u64,
    pub tree: Tree,
}

impl HighTree {
    /// The tree, where it shows that none is later than this moment.
    pub(crate) fn within(self, high: u64) -> Option<Tree>
        ensures { (given : Setting) (admit : Admitted) → IsHighTree given admit self → IfSome result (ShowsHigh given admit high) }
    {
        let HighTree { high: most, tree } = self;
        if most > high {
            return None;
        }
        Some(tree)
    }
}

/// What a search leaves to show the upper figure of an answer that stays open: steps that show a
/// bound, and a tree that shows a moment, if there are some. Either may be above the figure.
#[derive(Drop)]
pub struct Support {
    pub steps: Option<Refuted>,
    pub tree: Option<HighTree>,
}

impl Support {
    /// Steps, if there are some, without a tree.
    pub fn by_steps(steps: Option<Refuted>) -> Support
        ensures steps { result.steps ≡ steps }
        ensures tree { result.tree ≡ None }
        ensures among { (given : Setting) (asking : Asking) → IfSome steps (IsShownAmong given asking) → IsSupportAmong given asking result }
    {
        Support { steps, tree: None }
    }
}

/// An answer, and a tree that shows a moment that no admitted pair passes, if there is one.
#[derive(Drop)]
pub struct Treed {
    pub answer: Answer,
    pub tree: Option<HighTree>,
}

// The upper figure, or the time of an exact answer.
pub(crate) fn high_of(answer: &Answer) -> u64
    ensures { result ≡ high_of answer.now }
{
    match answer {
        Answer::Exact { time, .. } => *time,
        Answer::Between { high, .. } => *high,
    }
}

impl Treed {
    /// What a search of a tree found.
    pub(crate) fn of(ended: Ended) -> Treed
        ensures answer { result.answer ≡ ended.answer }
        ensures tree { (asked : Asked) → ShowsAnswer asked ended → IsSupportOf asked.setting asked.admit result.tree }
        ensures within { IfSome result.tree (IsWithinTree (high_of ended.answer)) }
    {
        let Ended { answer, tree } = ended;
        let high = high_of(&answer);
        match tree {
            Some(tree) => {
                let tree = Some(HighTree { high, tree });
                Treed { answer, tree }
            }
            None => Treed { answer, tree: None },
        }
    }
}

/// Of the trees of two searches that of the later one where its moment is below this figure, which
/// was known before it, else that of the earlier one.
pub(crate) fn earlier_tree(
    known: u64,
    first: Option<HighTree>,
    second: Option<HighTree>,
) -> Option<HighTree>
    ensures is { result ≡ earlier_tree known first second }
    ensures tree { (given : Setting) (admit : Admitted) → IsSupportOf given admit first → IsSupportOf given admit second → IsSupportOf given admit result }
    ensures within { (high : ℕ) → IfSome first (IsWithinTree high) → IfSome second (IsWithinTree high) → IfSome result (IsWithinTree high) }
{
    let Some(tree) = second else {
        return first;
    };
    if tree.high < known {
        return Some(tree);
    }
    first
}

/// The steps of two searches that show the lower bound.
pub(crate) fn lower_steps(first: Option<Refuted>, second: Option<Refuted>) -> Option<Refuted>
    ensures shown { (given : Setting) (admit : Admitted) → IfSome first (IsShown given admit) → IfSome second (IsShown given admit) → IfSome result (IsShown given admit) }
    ensures within { (high : ℕ) → IfSome first (IsWithinSteps high) → IfSome second (IsWithinSteps high) → IfSome result (IsWithinSteps high) }
{
    let Some(one) = first else {
        return second;
    };
    let Some(other) = second else {
        return Some(one);
    };
    if one.bound < other.bound {
        return Some(one);
    }
    Some(other)
}

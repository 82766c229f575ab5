//! What a search for the worst delay of the pairs that keep conditions comes to.

ghost use Rattle.std.specs.Prelude.{◌≡◌, ◌<◌, ◌≤◌, ◌^◌, ◌∷◌, [], Bool, true, ℕ, length, map, IfSome, IsTrue};
ghost use Rattle.td_circuit.specs.Settings.{Setting};
ghost use Rattle.td_domain.specs.Admits.{Admitted};
ghost use Rattle.td_certificate.specs.Spelling.{AreConditions};
ghost use Rattle.td_certificate.specs.Steps.{IsBoundText};
ghost use Rattle.td_search.specs.declared.answers.Cause.TheVariants as cause;
ghost use Rattle.td_refutation.specs.Asking.{Asking};
ghost use Rattle.td_refutation.specs.Whole.{step_of};
ghost use Rattle.td_refute.specs.Kept.{IsShownAmong, AreEmpty, IsEvidence};
ghost use Rattle.td_worst.specs.Kept.{IsKeptAnswer, IsKeptWithin, KeptTimeNeedsStop};
ghost use Rattle.td_worst.specs.Known.{IsKnown, IsToldLeaf, IsFitted};

use crate::leaf::tree_of_steps;
use std::alloc::Global;
use td_certificate::Tree;
use td_gates::Level;
use td_lead::Timed;
use td_refutation::{NamedCondition, Step};
use td_refute::{Evidence, Refuted};
use td_search::Cause;
use td_spans::Form;

/// The most conditions of a certificate's text.
const MOST_CONDITIONS: usize = 5_000;

/// The greatest number of a certificate's text.
const MOST: u64 = 1_000_000_000_000_000_000;

/// What a search for the worst delay of the pairs that keep conditions comes to. Figures are in
/// steps.
#[derive(Drop)]
pub enum KeptAnswer {
    /// The pair has the worst delay; the tree of the certificate.
    Exact {
        best: Timed,
        tree: Tree,
    },
    /// The latest pair that was found; none is later than the upper figure. Steps that show a
    /// bound, which may be above that figure, if there are some.
    Between {
        best: Timed,
        high: u64,
        cause: Cause,
        refuted: Option<Refuted>,
    },
    /// No pair was found; none is later than the upper figure.
    Open {
        high: u64,
        cause: Cause,
    },
    /// No pair keeps the conditions; the tree of the certificate.
    NoPair {
        tree: Tree,
    },
}

/// The answer, and how many units of work the search took.
#[derive(Drop)]
pub struct KeptFound {
    pub answer: KeptAnswer,
    pub work: u64,
}

/// What is known of the pairs before lines show more: the latest one that was found, if any was, a
/// bound of all, and why no more is known.
#[derive(Drop)]
pub struct Known {
    pub best: Option<Timed>,
    pub high: u64,
    pub cause: Cause,
}

// Whether a condition asks for something, on a net whose number a text can tell.
fn is_told(condition: NamedCondition) -> bool
    ensures { IsTrue result → AreConditions (condition ∷ []) }
{
    match condition.form {
        Form::Levels(Level::X, Level::X) => false,
        Form::Levels(_, _) | Form::Equal => condition.net <= MOST,
    }
}

// Whether a certificate's text can tell conditions.
pub(crate) fn are_told(keep: &[NamedCondition]) -> bool
    ensures told { IsTrue result → AreConditions keep.now }
    ensures few { IsTrue result → length keep.now ≤ 5000 }
{
    keep.len() <= MOST_CONDITIONS && keep.iter().all(|condition| is_told(*condition))
}

// The certificate's tree of lines that show a bound, or that no pair is asked about; none where a
// text can't tell them or the conditions, or memory runs out.
pub(crate) fn tree_of(
    alloc: Global,
    keep: &[NamedCondition],
    steps: &[Step],
    bound: Option<u64>,
) -> Option<Tree>
    requires { IsBoundText bound }
    ensures { IfSome result (IsToldLeaf keep.now (record { steps = map step_of steps.now; bound = bound })) }
{
    if !are_told(keep) {
        return None;
    }
    match tree_of_steps(alloc, steps, bound) {
        Ok(tree) => tree,
        Err(_) => None,
    }
}

impl Known {
    /// The answer that says what is known.
    pub fn open(self) -> KeptAnswer
        ensures answer { (given : Setting) (asking : Asking) → IsKnown given asking self → IsKeptAnswer given asking result }
        ensures within { (most : ℕ) → self.high ≤ most → IsKeptWithin most result }
        ensures time { (can_be_set : Bool) → (self.cause ≡ cause.Time → can_be_set ≡ true) → KeptTimeNeedsStop can_be_set result }
    {
        let Known { best, high, cause } = self;
        match best {
            Some(best) => KeptAnswer::Between {
                best,
                high,
                cause,
                refuted: None,
            },
            None => KeptAnswer::Open { high, cause },
        }
    }

    /// The answer where lines show something too, if a text can tell them.
    pub fn shown(self, alloc: Global, keep: &[NamedCondition], evidence: Evidence) -> KeptAnswer
        requires small { IfSome self.best (λ best. best.time < 10 ^ 15) }
        ensures answer { (given : Setting) (admit : Admitted) → IsFitted given admit keep.now → IsKnown given (record { admit = admit; keep = keep.now }) self
            → IsEvidence given (record { admit = admit; keep = keep.now }) evidence → IsKeptAnswer given (record { admit = admit; keep = keep.now }) result }
        ensures within { (most : ℕ) → self.high ≤ most → IsKeptWithin most result }
        ensures time { (can_be_set : Bool) → (self.cause ≡ cause.Time → can_be_set ≡ true) → KeptTimeNeedsStop can_be_set result }
    {
        match evidence {
            Evidence::Nothing => self.open(),
            Evidence::Bound(refuted) => self.bounded(alloc, keep, refuted),
            Evidence::NoPair(steps) => self.emptied(alloc, keep, &steps),
        }
    }

    // Lines show a bound.
    fn bounded(self, alloc: Global, keep: &[NamedCondition], refuted: Refuted) -> KeptAnswer
        requires small { IfSome self.best (λ best. best.time < 10 ^ 15) }
        ensures answer { (given : Setting) (admit : Admitted) → IsFitted given admit keep.now → IsKnown given (record { admit = admit; keep = keep.now }) self
            → IsShownAmong given (record { admit = admit; keep = keep.now }) refuted → IsKeptAnswer given (record { admit = admit; keep = keep.now }) result }
        ensures within { (most : ℕ) → self.high ≤ most → IsKeptWithin most result }
        ensures time { (can_be_set : Bool) → (self.cause ≡ cause.Time → can_be_set ≡ true) → KeptTimeNeedsStop can_be_set result }
    {
        let Known { best, high, cause } = self;
        let high = high.min(refuted.bound);
        let Some(best) = best else {
            return KeptAnswer::Open { high, cause };
        };
        if refuted.bound > best.time {
            return KeptAnswer::Between {
                best,
                high,
                cause,
                refuted: Some(refuted),
            };
        }
        match tree_of(alloc, keep, &refuted.steps, Some(refuted.bound)) {
            Some(tree) => KeptAnswer::Exact { best, tree },
            None => KeptAnswer::Between {
                best,
                high,
                cause: Cause::Memory,
                refuted: None,
            },
        }
    }

    // Lines show that there is no such pair.
    fn emptied(self, alloc: Global, keep: &[NamedCondition], steps: &[Step]) -> KeptAnswer
        ensures answer { (given : Setting) (admit : Admitted) → IsFitted given admit keep.now → IsKnown given (record { admit = admit; keep = keep.now }) self
            → AreEmpty given (record { admit = admit; keep = keep.now }) steps.now → IsKeptAnswer given (record { admit = admit; keep = keep.now }) result }
        ensures within { (most : ℕ) → self.high ≤ most → IsKeptWithin most result }
        ensures time { (can_be_set : Bool) → (self.cause ≡ cause.Time → can_be_set ≡ true) → KeptTimeNeedsStop can_be_set result }
    {
        match tree_of(alloc, keep, steps, None) {
            Some(tree) => KeptAnswer::NoPair { tree },
            None => {
                let Known { best, high, .. } = self;
                Known {
                    best,
                    high,
                    cause: Cause::Memory,
                }
                .open()
            }
        }
    }
}

//! What a search found.

ghost use Rattle.std.specs.Prelude.{◌≡◌, ℕ, None, IfSome};
ghost use Rattle.td_circuit.specs.Settings.{Setting};
ghost use Rattle.td_domain.specs.Admits.{Admitted};
ghost use Rattle.td_worst.specs.Methods.{is_answered};
ghost use Rattle.td_worst.specs.Supports.{IsSupport, IsSupportOf, IsWithinSupport, IsWithinTree};

use crate::support::{HighTree, Support};
use td_search::Answer;

/// What a search found: its answer, where that is open what may show its upper figure, and how many
/// units of work its searches for a refutation took.
#[derive(Drop)]
pub struct Found {
    pub answer: Answer,
    pub support: Support,
    pub work: u64,
}

impl Found {
    /// An answer without steps or work, with a tree, if there is one.
    pub(crate) fn of(answer: Answer, tree: Option<HighTree>) -> Found
        ensures answer { result.answer ≡ answer }
        ensures steps { result.support.steps ≡ None }
        ensures support { (given : Setting) (admit : Admitted) → IsSupportOf given admit tree → IsSupport given admit result.support }
        ensures supported { (high : ℕ) → IfSome tree (IsWithinTree high) → IsWithinSupport high result.support }
    {
        let support = Support { steps: None, tree };
        Found {
            answer,
            support,
            work: 0,
        }
    }
}

/// Whether an answer says if a pair is later than a required moment, where there is one.
pub(crate) fn is_answered(required: Option<u64>, answer: &Answer) -> bool
    ensures { result ≡ is_answered required answer.now }
{
    let Some(required) = required else {
        return false;
    };
    match answer {
        Answer::Exact { .. } => true,
        Answer::Between { low, high, .. } => *low > required || *high <= required,
    }
}

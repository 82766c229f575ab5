//! What a search that has ended hands over.

ghost use Rattle.std.specs.Prelude.{◌≡◌, None};

use crate::answers::Answer;
use td_certificate::Tree;

/// The answer of a search. Where it stays open, a tree that shows its upper figure: that of the
/// search, where what is open is folded into the nearest node above with a bound that is at most
/// the figure. None where there was no memory for it. Beside an exact answer none.
#[derive(Debug, Drop)]
pub struct Ended {
    pub answer: Answer,
    pub tree: Option<Tree>,
}

impl Ended {
    /// An answer without a tree beside it.
    pub(crate) fn of(answer: Answer) -> Ended
        ensures answer { result.answer ≡ answer }
        ensures none { result.tree ≡ None }
    {
        Ended { answer, tree: None }
    }
}

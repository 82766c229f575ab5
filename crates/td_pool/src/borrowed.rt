//! A watch that is lent to a search.

ghost use Rattle.std.specs.Prelude.{◌≡◌};

use crate::watch::{Progress, Watch};
use td_search::Problem;

/// A watch that comes back. A scope of threads says nothing of a `&mut` that its closure captures,
/// but of a value that goes in and comes out.
#[derive(Drop)]
pub struct Borrowed<'w, W> {
    pub watch: &'w mut W,
}

impl<'w, W: Watch> Watch for Borrowed<'w, W> {
    ghost use Rattle.std.proofs.Common.{◌≡◌, refl, ◌∙◌};

    ghost reported = { λ asked first last. W.reported asked first.watch.now last.watch.now × (first.watch.ghost_name ≡ last.watch.ghost_name) };

    fn is_looking(&self) -> bool {
        self.watch.is_looking()
    }

    fn is_due(&self) -> bool {
        self.watch.is_due()
    }

    fn passed(&mut self, problem: &Problem<'_>, progress: Progress) {
        self.watch.passed(problem, progress);
    }

    ghost reported_nothing = { λ asked borrowed. (W.reported_nothing asked borrowed.watch.now, refl) };

    ghost reported_both = { λ asked first then last one two. (W.reported_both asked first.watch.now then.watch.now last.watch.now one.0 two.0, one.1 ∙ two.1) };

    ghost reported_alike = { λ asked strategy first last one. (W.reported_alike asked strategy first.watch.now last.watch.now one.0, one.1) };
}

/// Does nothing, but this use of a reference that came back ties it to the one that was lent.
pub fn take_back<W>(watch: &mut W)
    ensures { watch.new ≡ watch.old }
{}

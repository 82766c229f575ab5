//! Who watches a table.

use td_lines::Row;
use td_pool::{Unwatched, Watch};

/// A row of a table that is begun: its output, as reports print it, and how many rows of how many
/// are done.
#[derive(Clone, Copy, Debug, Drop)]
pub struct Begun<'a> {
    pub output: &'a str,
    pub done: u64,
    pub rows: u64,
}

/// Who watches a search, or a table of searches, of which it hears each row that is begun, and each
/// that is found.
pub trait TableWatch: Watch {
    ghost use Rattle.std.specs.Prelude.{List, [], ◌∷◌, ◌++◌};
    ghost use Rattle.td_search.specs.Problems.{Problem};
    ghost use Rattle.td_lines.specs.declared.line.Row.{Row};

    /// Between the two moments the watch heard that these rows are found, in order.
    ghost heard: { List Row → Self → Self → Type 0 };

    /// Tells that a row is begun, which is no progress of any search.
    fn begun(&mut self, row: Begun<'_>)
        ensures reported { (asked : Problem) → Self.reported asked self.old self.new }
        ensures heard { heard [] self.old self.new };

    /// Tells that a row is found, which is none either.
    fn found(&mut self, row: &Row)
        ensures reported { (asked : Problem) → Self.reported asked self.old self.new }
        ensures heard { heard (row.now ∷ []) self.old self.new };

    /// It may hear of none.
    ghost heard_nothing: { (watch : Self) → heard [] watch watch };

    /// And of one after another.
    ghost heard_more: { (rows more : List Row) (first then last : Self) → heard rows first then → heard more then last → heard (rows ++ more) first last };
}

impl TableWatch for Unwatched {
    ghost use Rattle.std.specs.Prelude.{⊤};

    ghost heard = { λ _ _ _. ⊤ };

    fn begun(&mut self, _row: Begun<'_>) {}

    fn found(&mut self, _row: &Row) {}

    ghost heard_nothing = { λ _. tt };

    ghost heard_more = { λ _ _ _ _ _ _ _. tt };
}

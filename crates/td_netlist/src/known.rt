//! The names of a module with their ranges.

ghost use Rattle.std.specs.Prelude.{◌≡◌, [], IfSome};
ghost use Rattle.td_syntax.specs.Views.{name_view};
ghost use Rattle.td_netlist.specs.Faults.{Gives};
ghost use Rattle.td_netlist.specs.Checks.{known, know};
ghost use Rattle.td_netlist.specs.KnownViews.{known_as};
ghost use Rattle.td_netlist.specs.Ranges.{IsLimited};

use crate::fault::{Fault, FaultKind};
use crate::ranges::{Range, width_of};
use indexmap::IndexMap;
use std::alloc::Global;
use std::marker::Model;
use td_nets::SeededState;
use td_syntax::Name as Placed;

/// The greatest number of declared and implicit nets.
const MAX_NETS: usize = 1_000_000;

/// Names with their ranges, in first-seen order, and how many nets they have.
#[derive(Drop)]
pub struct Known<'a> {
    table: IndexMap<&'a [u8], Option<Range>, SeededState>,
    nets: usize,
}

impl<'a> Model for Known<'a> {
    ghost use Rattle.std.specs.Prelude.{◌≡◌, ◌≤◌, List, map};
    ghost use Rattle.td_netlist.specs.Checks as checks;
    ghost use Rattle.td_netlist.specs.KnownViews.{known_of, AreLimited};

    ghost Value = { List checks.Known };

    ghost view = { λ known. map known_of known.table.entries };

    ghost invariant = { λ known. (known.nets ≡ checks.nets_known (map known_of known.table.entries)) × (known.nets ≤ 1000000) × AreLimited (map known_of known.table.entries) };
}

impl<'a> Known<'a> {
    /// Nothing known.
    pub fn new(alloc: Global, hashing: SeededState) -> Known<'a>
        ensures { result ≡ [] }
    {
        Known {
            table: IndexMap::with_hasher(alloc, hashing),
            nets: 0,
        }
    }

    /// The range of a name, if the name is known.
    pub fn get(&self, name: Placed<'a>) -> Option<Option<Range>>
        ensures value { known_as name.entry.name.now result ≡ known self.now name.entry.name.now }
        ensures limited { IfSome result IsLimited }
    {
        self.table.get(&name.name).copied()
    }

    /// Counts the nets of a name, unless it is known.
    #[tactic(auto, unfolding(crate::specs::Checks::know))]
    pub fn know(&mut self, name: Placed<'a>, range: Option<Range>) -> Result<(), Fault<'a>>
        requires { IsLimited range }
        ensures { Gives (λ _. self.new) result (know self.old (name_view name.entry) range) }
    {
        if self.get(name).is_some() {
            Ok(())
        } else {
            self.learn(name, range)
        }
    }

    /// Counts the nets of a name that isn't known.
    #[tactic(auto, unfolding(crate::specs::Checks::know))]
    pub fn learn(&mut self, name: Placed<'a>, range: Option<Range>) -> Result<(), Fault<'a>>
        requires limited { IsLimited range }
        requires unknown { known self.old name.name.now ≡ None }
        ensures { Gives (λ _. self.new) result (know self.old (name_view name.entry) range) }
    {
        let width = width_of(range);
        if MAX_NETS < self.nets + width {
            return Err(Fault {
                kind: FaultKind::TooMany,
                line: name.line,
            });
        }
        self.table.insert(name.name, range)?;
        self.nets += width;
        Ok(())
    }
}

//! The directions of ports.

ghost use Rattle.std.specs.Prelude.{◌≡◌, [], ◌∷◌, ◌++◌, None, OnOk};
ghost use Rattle.td_syntax.specs.Views.{name_view};
ghost use Rattle.td_netlist.specs.NameViews.{found_of};
ghost use Rattle.td_netlist.specs.Checks.{direction_of};

use crate::name_ref::Direction;
use crate::ranges::Range;
use indexmap::IndexMap;
use std::alloc::{AllocFailed, Global};
use std::marker::Model;
use td_nets::SeededState;
use td_syntax::{Name as Placed, Role};

/// The names that have a direction, in the order of their declarations.
#[derive(Drop)]
pub struct Directions<'a> {
    table: IndexMap<&'a [u8], Direction, SeededState>,
}

impl<'a> Model for Directions<'a> {
    ghost use Rattle.std.specs.Prelude.{List, map};
    ghost use Rattle.td_netlist.specs.Module.{Declared};
    ghost use Rattle.td_netlist.specs.NameViews.{declared_of};

    ghost Value = { List Declared };

    ghost view = { λ directions. map declared_of directions.table.entries };
}

impl<'a> Directions<'a> {
    /// No directions.
    pub fn new(alloc: Global, hashing: SeededState) -> Directions<'a>
        ensures { result ≡ [] }
    {
        Directions {
            table: IndexMap::with_hasher(alloc, hashing),
        }
    }

    /// The direction of a name, if it has one.
    pub fn get(&self, name: Placed<'a>) -> Option<Direction>
        ensures { found_of name.entry.name.now result ≡ direction_of self.now (name_view name.entry) }
    {
        self.table.get(&name.name).copied()
    }

    /// Gives a name its direction.
    pub fn add(
        &mut self,
        role: Role,
        range: Option<Range>,
        name: Placed<'a>,
    ) -> Result<(), AllocFailed<(&'a [u8], Direction)>>
        requires { direction_of self.old (name_view name) ≡ None }
        ensures { OnOk result (self.new ≡ self.old ++ record { role = role; range = range; name = name_view name.entry } ∷ []) }
    {
        let direction = Direction {
            role,
            range,
            line: name.line,
        };
        self.table.insert(name.name, direction)?;
        Ok(())
    }
}

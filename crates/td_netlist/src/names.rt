//! Sets of names.

ghost use Rattle.std.specs.Prelude.{◌≡◌, [], IfOk, OnOk, not, length};
ghost use Rattle.td_netlist.specs.NameViews.{name_ref_of};
ghost use Rattle.td_nets.specs.Names.{is_in, with_name};

use crate::name_ref::NameRef;
use indexmap::IndexSet;
use std::alloc::{AllocFailed, Global};
use std::marker::Model;
use td_nets::SeededState;

/// Names in first-seen order, each of them once.
#[derive(Drop)]
pub struct Names<'a> {
    set: IndexSet<NameRef<'a>, SeededState>,
}

impl<'a> Model for Names<'a> {
    ghost use Rattle.std.specs.Prelude.{List, map};
    ghost use Rattle.td_nets.specs.Netlist as netlist;
    ghost use Rattle.td_netlist.specs.NameViews.{name_ref_of};

    ghost Value = { List netlist.Name };

    ghost view = { λ names. map name_ref_of names.set.keys };
}

impl<'a> Names<'a> {
    /// No names.
    pub fn new(alloc: Global, hashing: SeededState) -> Names<'a>
        ensures { result ≡ [] }
    {
        Names {
            set: IndexSet::with_hasher(alloc, hashing),
        }
    }

    /// Adds a name, and answers whether it is new.
    pub fn add(&mut self, name: NameRef<'a>) -> Result<bool, AllocFailed<NameRef<'a>>>
        ensures is_new { IfOk result (λ is_new. is_new ≡ not (is_in (name_ref_of name.entry) self.old)) }
        ensures added { OnOk result (self.new ≡ with_name self.old (name_ref_of name.entry)) }
    {
        self.set.insert(name)
    }

    /// How many names there are.
    pub fn len(&self) -> usize
        ensures { result ≡ length self.now }
    {
        self.set.len()
    }

    /// Whether a name is there.
    pub fn has(&self, name: NameRef<'a>) -> bool
        ensures { result ≡ is_in (name_ref_of name.entry) self.now }
    {
        self.set.contains(&name)
    }
}

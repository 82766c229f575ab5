//! The members of an object of JSON, as values.

use crate::label::Label;
use std::alloc::{AllocError, Global};

/// An option by name, and its word.
#[derive(Debug, Drop)]
pub struct Named {
    pub option: Label,
    pub word: Label,
}

/// What is said.
#[derive(Debug, Drop)]
pub enum Said {
    Word(Label),
    Number(u64),
    /// The delays of a rise and a fall.
    Delays { rise: u64, fall: u64 },
    Words(Vec<Label>),
    /// Options with their words.
    Options(Vec<Named>),
}

/// A member: its key, and what is said of it.
#[derive(Debug, Drop)]
pub(crate) struct Term {
    pub(crate) key: &'static str,
    pub(crate) said: Said,
}

/// The members of an object.
#[derive(Debug, Drop)]
pub struct Terms {
    terms: Vec<Term>,
}

impl Terms {
    ghost use Rattle.std.specs.Prelude.{◌≡◌, ◌++◌, ◌∷◌, [], map, OnOk};
    ghost use Rattle.td_lines.specs.Said.{entries_of, entry_of, said_value};

    /// No members.
    pub fn new(alloc: Global) -> Terms
        ensures { entries_of result ≡ [] }
    {
        Terms {
            terms: Vec::new(alloc),
        }
    }

    /// One member more.
    pub fn add(&mut self, key: &'static str, said: Said) -> Result<(), AllocError>
        ensures { OnOk result (entries_of self.new ≡ entries_of self.old ++ (key.now, said_value said) ∷ []) }
    {
        self.terms.push(Term { key, said })?;
        Ok(())
    }

    /// The members.
    pub(crate) fn all(&self) -> &[Term]
        ensures { map entry_of result.now ≡ entries_of self.now }
    {
        &self.terms
    }
}

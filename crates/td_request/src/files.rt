//! Names of files.

use std::marker::Model;

/// The names of files, in order. A contract sees their texts.
#[derive(Debug, Drop)]
pub struct Files<'a> {
    names: Vec<&'a str>,
}

impl<'a> Model for Files<'a> {
    ghost use Rattle.std.specs.Prelude.{ℕ, List, map};

    ghost Value = { List (List ℕ) };

    ghost view = { λ files. map (λ name. name.now) files.names.items };
}

impl<'a> Files<'a> {
    ghost use Rattle.std.specs.Prelude.{◌≡◌, map};

    /// The files of these names.
    pub fn new(names: Vec<&'a str>) -> Files<'a>
        ensures { result ≡ map (λ name. name.now) names.entry.items }
    {
        Files { names }
    }

    /// The names.
    pub fn names(&self) -> &[&'a str]
        ensures { map (λ name. name.now) result.now ≡ self.now }
    {
        self.names.as_slice()
    }
}

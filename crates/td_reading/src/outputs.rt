//! Names of outputs.

use std::marker::Model;

/// Names of outputs, as reports print them. A contract sees their texts.
#[derive(Debug, Drop)]
pub struct Outputs<'a> {
    names: Vec<&'a str>,
}

impl<'a> Model for Outputs<'a> {
    ghost use Rattle.std.specs.Prelude.{ℕ, List, map};

    ghost Value = { List (List ℕ) };

    ghost view = { λ outputs. map (λ name. name.now) outputs.names.items };
}

impl<'a> Outputs<'a> {
    ghost use Rattle.std.specs.Prelude.{◌≡◌, map};

    /// The outputs of these names.
    pub fn new(names: Vec<&'a str>) -> Outputs<'a>
        ensures { result ≡ map (λ name. name.now) names.entry.items }
    {
        Outputs { names }
    }

    /// The names.
    pub fn names(&self) -> &[&'a str]
        ensures { map (λ name. name.now) result.now ≡ self.now }
    {
        self.names.as_slice()
    }
}

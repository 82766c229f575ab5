//! What is left of a clause.

use crate::literal::Literal;

/// What is left of a clause whose literals are taken one by one, without those that are taken to be
/// false: nothing, one literal, which may have come more than once, or several.
#[derive(Clone, Copy, Debug, PartialEq, Eq, Drop)]
pub enum Left {
    Nothing,
    One(Literal),
    Several,
}

impl Left {
    ghost use Rattle.std.specs.Prelude.{◌≡◌};
    ghost use Rattle.td_propagation.specs.Propagating.{left_with};

    /// What is left with one literal more that isn't taken to be false.
    pub fn with(self, literal: Literal) -> Left
        ensures { result ≡ left_with self literal }
    {
        match self {
            Left::Nothing => Left::One(literal),
            Left::One(other) => {
                if other.is_same(literal) {
                    self
                } else {
                    Left::Several
                }
            }
            Left::Several => Left::Several,
        }
    }
}

//! Literals.

/// A variable, or its negation. A clause is a list of literals, true where one of them is.
#[derive(Clone, Copy, Debug, PartialEq, Eq, Drop)]
pub struct Literal {
    pub variable: u32,
    pub positive: bool,
}

impl Literal {
    ghost use Rattle.std.specs.Prelude.{◌≡◌, IfSome};
    ghost use Rattle.td_propagation.specs.Literals.{literal_at, negation, is_same};

    /// The literal with a number: twice that of its variable, and one more for a negation.
    pub fn numbered(number: u32) -> Literal
        ensures { result ≡ literal_at number }
    {
        Literal {
            variable: number / 2,
            positive: number % 2 == 0,
        }
    }

    /// The number of this literal, if it is less than 2^32.
    pub fn number(self) -> Option<u32>
        ensures { IfSome result (λ number. literal_at number ≡ self) }
    {
        if self.variable >= 2_147_483_648 {
            return None;
        }
        if self.positive {
            Some(2 * self.variable)
        } else {
            Some(2 * self.variable + 1)
        }
    }

    /// The literal that is true where this one is false.
    pub fn negation(self) -> Literal
        ensures { result ≡ negation self }
    {
        Literal {
            variable: self.variable,
            positive: !self.positive,
        }
    }

    /// Whether the other literal is this one.
    pub fn is_same(self, other: Literal) -> bool
        ensures { result ≡ is_same self other }
    {
        self.variable == other.variable
            && (if self.positive {
                other.positive
            } else {
                !other.positive
            })
    }
}

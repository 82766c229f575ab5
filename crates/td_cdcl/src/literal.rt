//! Literals.

ghost use Rattle.std.specs.Prelude.{◌≡◌, ◌/◌};

/// A literal as a number: twice its variable, and one more for the negation.
pub type Literal = u32;

/// How many variables there may be.
pub const MOST_VARIABLES: u32 = 2147483648;

/// The literal that is true where the variable, below `MOST_VARIABLES`, has this value.
#[inline(always)]
pub fn literal_at(variable: u32, value: bool) -> Literal {
    let even = variable.wrapping_mul(2);
    if value { even } else { even | 1 }
}

/// The literal that is true where this one is false.
#[inline(always)]
pub fn opposite(literal: Literal) -> Literal {
    literal ^ 1
}

/// The variable of a literal.
#[inline(always)]
pub fn variable_of(literal: Literal) -> u32
    ensures { result ≡ literal / 2 }
{
    literal / 2
}

/// The variable of a literal, as a place.
#[inline(always)]
pub fn place_of(literal: Literal) -> usize
    ensures { result ≡ literal / 2 }
{
    (literal / 2) as usize
}

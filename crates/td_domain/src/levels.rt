//! What gates make of levels: the table of those with two inputs, which most have, in straight
//! lines and without a list of levels, and the level of an input that settles the output by itself.

ghost use Rattle.std.specs.Prelude.{◌≡◌, [], ◌∷◌};
ghost use Rattle.td_gates.specs.Table.{table, and_of, or_of, xor_of, controlling, controls};

use td_gates::{Kind, Level};

/// The output level of a gate whose two inputs are at these levels; of a buf or a not, which have
/// one input, by the first.
#[inline(always)]
pub fn level_of_two(kind: Kind, first: Level, second: Level) -> Level
    ensures { result ≡ table kind (first ∷ second ∷ []) }
{
    match kind {
        Kind::And => and(first, second),
        Kind::Nand => and(first, second).inverse(),
        Kind::Or => or(first, second),
        Kind::Nor => or(first, second).inverse(),
        Kind::Xor => xor(first, second),
        Kind::Xnor => xor(first, second).inverse(),
        Kind::Buf => first,
        Kind::Not => first.inverse(),
    }
}

/// 0 where one is 0, else x where one is x.
#[inline(always)]
fn and(first: Level, second: Level) -> Level
    ensures { result ≡ and_of (first ∷ second ∷ []) }
{
    match (first, second) {
        (Level::Zero, _) => Level::Zero,
        (_, Level::Zero) => Level::Zero,
        (Level::One, Level::One) => Level::One,
        (_, _) => Level::X,
    }
}

/// 1 where one is 1, else x where one is x.
#[inline(always)]
fn or(first: Level, second: Level) -> Level
    ensures { result ≡ or_of (first ∷ second ∷ []) }
{
    match (first, second) {
        (Level::One, _) => Level::One,
        (_, Level::One) => Level::One,
        (Level::Zero, Level::Zero) => Level::Zero,
        (_, _) => Level::X,
    }
}

/// x where one is x, else whether they differ.
#[inline(always)]
fn xor(first: Level, second: Level) -> Level
    ensures { result ≡ xor_of (first ∷ second ∷ []) }
{
    match (first, second) {
        (Level::X, _) => Level::X,
        (_, Level::X) => Level::X,
        (Level::Zero, Level::Zero) => Level::Zero,
        (Level::One, Level::One) => Level::Zero,
        (_, _) => Level::One,
    }
}

/// The level of an input that settles the output by itself.
pub fn controlling_level(kind: Kind) -> Option<Level>
    ensures { result ≡ controlling kind }
{
    match kind {
        Kind::And | Kind::Nand => Some(Level::Zero),
        Kind::Or | Kind::Nor => Some(Level::One),
        Kind::Xor | Kind::Xnor | Kind::Buf | Kind::Not => None,
    }
}

/// Whether this is the controlling level.
pub fn is_control(control: Option<Level>, level: Level) -> bool
    ensures { result ≡ controls control level }
{
    match control {
        None => false,
        Some(control) => control == level,
    }
}

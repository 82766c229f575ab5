//! Reading conditions.

ghost use Rattle.std.specs.Prelude.{◌≡◌, ◌∷◌, [], true, false};
ghost use Rattle.td_certificate.specs.Fields.{Gives, written_as, char_at};
ghost use Rattle.td_certificate.specs.StepReading.{closing_byte};
ghost use Rattle.td_certificate.specs.Text.{level_byte};
ghost use Rattle.td_certificate.specs.ConditionReading.{sign_byte, signs, second_levels, behind_sign, form_at, condition_at, conditions_at, kept_at};
ghost use Rattle.td_gates.specs.declared.primitives.Level.TheVariants.{Zero, One, X};

use crate::characters::{Alphabet, character};
use crate::fields::{GREATEST, Stop, literal, number};
use std::alloc::Global;
use td_gates::Level;
use td_refutation::NamedCondition;
use td_spans::Form;

/// How a condition's form begins: with a level, or with an equal sign.
#[derive(Clone, Copy, Drop)]
pub enum Sign {
    Level(Level),
    Equal,
}

/// The characters with which a form begins.
struct Signs;

/// The characters of a level, `.` where any will do.
struct Levels;

/// The characters of a level that is known.
struct KnownLevels;

/// The byte after a condition, and whether it is the last one's.
struct Closings;

impl Alphabet for Signs {
    type Value = Sign;

    ghost value_of = { λ b. written_as sign_byte signs b };

    fn value(byte: u8) -> Option<Sign> {
        match byte {
            b'0' => Some(Sign::Level(Level::Zero)),
            b'1' => Some(Sign::Level(Level::One)),
            b'.' => Some(Sign::Level(Level::X)),
            b'=' => Some(Sign::Equal),
            _ => None,
        }
    }
}

impl Alphabet for Levels {
    type Value = Level;

    ghost value_of = { λ b. written_as level_byte (Zero ∷ One ∷ X ∷ []) b };

    fn value(byte: u8) -> Option<Level> {
        match byte {
            b'0' => Some(Level::Zero),
            b'1' => Some(Level::One),
            b'.' => Some(Level::X),
            _ => None,
        }
    }
}

impl Alphabet for KnownLevels {
    type Value = Level;

    ghost value_of = { λ b. written_as level_byte (Zero ∷ One ∷ []) b };

    fn value(byte: u8) -> Option<Level> {
        match byte {
            b'0' => Some(Level::Zero),
            b'1' => Some(Level::One),
            _ => None,
        }
    }
}

impl Alphabet for Closings {
    type Value = bool;

    ghost value_of = { λ b. written_as closing_byte (true ∷ false ∷ []) b };

    fn value(byte: u8) -> Option<bool> {
        match byte {
            b'\n' => Some(true),
            b' ' => Some(false),
            _ => None,
        }
    }
}

/// Takes the second level of a form, after the first: not both are free.
fn second(first: Level, text: &[u8]) -> Result<(Level, &[u8]), Stop<'_>>
    ensures { Gives (λ x. (x.0, x.1.now)) result (char_at (λ b. written_as level_byte (second_levels first) b) text.now) }
{
    match first {
        Level::X => character::<KnownLevels>(text),
        Level::Zero | Level::One => character::<Levels>(text),
    }
}

/// Takes what follows the first character of a form.
#[tactic(auto, unfolding(crate::specs::ConditionReading::behind_sign))]
fn behind_sign(sign: Sign, text: &[u8]) -> Result<(Form, &[u8]), Stop<'_>>
    ensures { Gives (λ x. (x.0, x.1.now)) result (behind_sign sign text.now) }
{
    match sign {
        Sign::Level(first) => {
            let (second, rest) = second(first, text)?;
            Ok((Form::Levels(first, second), rest))
        }
        Sign::Equal => {
            let rest = literal(b"=", text)?;
            Ok((Form::Equal, rest))
        }
    }
}

/// Takes the form of a condition.
#[tactic(auto, unfolding(crate::specs::ConditionReading::form_at))]
fn form(text: &[u8]) -> Result<(Form, &[u8]), Stop<'_>>
    ensures { Gives (λ x. (x.0, x.1.now)) result (form_at text.now) }
{
    let (sign, rest) = character::<Signs>(text)?;
    behind_sign(sign, rest)
}

/// Takes a condition and the byte that closes it. Answers whether that byte is the newline.
#[tactic(auto, unfolding(crate::specs::ConditionReading::condition_at))]
fn condition(text: &[u8]) -> Result<(NamedCondition, bool, &[u8]), Stop<'_>>
    ensures { Gives (λ x. ((x.0, x.1), x.2.now)) result (condition_at text.now) }
{
    let (net, rest) = number(GREATEST, b' ', text)?;
    let (form, rest) = form(rest)?;
    let (last, rest) = character::<Closings>(rest)?;
    Ok((NamedCondition { net, form }, last, rest))
}

/// Takes at least one condition, a space between each two, and the newline.
fn conditions(alloc: Global, text: &[u8]) -> Result<(Vec<NamedCondition>, &[u8]), Stop<'_>>
    ensures { Gives (λ x. (x.0.items, x.1.now)) result (conditions_at text.now) }
{
    let mut list = Vec::new(alloc);
    let mut rest = text;
    'conditions: loop {
        let (asked, last, after) = condition(rest)?;
        list.push(asked)?;
        if last {
            return Ok((list, after));
        }
        rest = after;
    }
}

/// Takes conditions, or `none`, and the newline.
#[tactic(auto, unfolding(crate::specs::ConditionReading::kept_at))]
pub fn kept(alloc: Global, text: &[u8]) -> Result<(Vec<NamedCondition>, &[u8]), Stop<'_>>
    ensures { Gives (λ x. (x.0.items, x.1.now)) result (kept_at text.now) }
{
    match text {
        [] => Err(Stop::Ends),
        [b'n', ..] => {
            let rest = literal(b"none\n", text)?;
            Ok((Vec::new(alloc), rest))
        }
        [_, ..] => conditions(alloc, text),
    }
}

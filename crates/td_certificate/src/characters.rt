//! Characters of a certificate's lines, one for each input.

ghost use Rattle.std.specs.Prelude.{◌≡◌, ℕ, Option, length, IfOk};
ghost use Rattle.td_certificate.specs.Reading.{Gives, char_at, chars_at, bit_of, trit_of, hold_of, chars_behind, row_behind};

use crate::fields::{Reason, Stop, literal};
use std::alloc::Global;
use td_domain::Trit;

/// Characters, each of which stands for a value.
pub trait Alphabet {
    /// What the characters stand for.
    type Value: Drop;

    /// The value that a byte stands for, if it is one of the characters.
    ghost value_of: { ℕ → Option Self.Value };

    fn value(byte: u8) -> Option<Self::Value>
        ensures { result ≡ Self.value_of byte };
}

/// `0` and `1`.
pub struct Bits;

/// `0` and `1` for bits that are pinned, `.` for a free one.
pub struct Trits;

/// `=` for an input that is held, `.` for another.
pub struct Holds;

impl Alphabet for Bits {
    type Value = bool;

    ghost value_of = { λ b. bit_of b };

    fn value(byte: u8) -> Option<bool> {
        match byte {
            b'0' => Some(false),
            b'1' => Some(true),
            _ => None,
        }
    }
}

impl Alphabet for Trits {
    type Value = Trit;

    ghost value_of = { λ b. trit_of b };

    fn value(byte: u8) -> Option<Trit> {
        match byte {
            b'0' => Some(Trit::Zero),
            b'1' => Some(Trit::One),
            b'.' => Some(Trit::Free),
            _ => None,
        }
    }
}

impl Alphabet for Holds {
    type Value = bool;

    ghost value_of = { λ b. hold_of b };

    fn value(byte: u8) -> Option<bool> {
        match byte {
            b'=' => Some(true),
            b'.' => Some(false),
            _ => None,
        }
    }
}

/// Takes a character.
pub fn character<A: Alphabet>(text: &[u8]) -> Result<(A::Value, &[u8]), Stop<'_>>
    ensures { Gives (λ x. (x.0, x.1.now)) result (char_at A.value_of text.now) }
{
    match text {
        [] => Err(Stop::Ends),
        [byte, rest @ ..] => match A::value(*byte) {
            Some(value) => Ok((value, rest)),
            None => Err(Stop::Wrong(Reason::Syntax, text)),
        },
    }
}

/// Takes `count` characters.
fn characters<A: Alphabet>(
    alloc: Global,
    count: u32,
    text: &[u8],
) -> Result<(Vec<A::Value>, &[u8]), Stop<'_>>
    ensures read { Gives (λ x. (x.0.items, x.1.now)) result (chars_at A.value_of count text.now) }
    ensures count { IfOk result (λ x. length x.0.items ≡ count) }
{
    let mut values = Vec::new(alloc);
    let mut rest = text;
    for _ in 0..count {
        let (value, after) = character::<A>(rest)?;
        values.push(value)?;
        rest = after;
    }
    Ok((values, rest))
}

/// Takes a word, `count` characters and the newline.
#[tactic(auto, unfolding(crate::specs::Reading::chars_behind))]
fn line<'a, A: Alphabet>(
    alloc: Global,
    word: &[u8],
    count: u32,
    text: &'a [u8],
) -> Result<(Vec<A::Value>, &'a [u8]), Stop<'a>>
    ensures read { Gives (λ x. (x.0.items, x.1.now)) result (chars_behind word.now A.value_of count text.now) }
    ensures count { IfOk result (λ x. length x.0.items ≡ count) }
{
    let rest = literal(word, text)?;
    let (values, rest) = characters::<A>(alloc, count, rest)?;
    let rest = literal(b"\n", rest)?;
    Ok((values, rest))
}

/// Takes a word, a character for each input, or `none` where there are no inputs, and the newline.
#[tactic(auto, unfolding(crate::specs::Reading::row_behind))]
pub fn row<'a, A: Alphabet>(
    alloc: Global,
    word: &[u8],
    inputs: u32,
    text: &'a [u8],
) -> Result<(Vec<A::Value>, &'a [u8]), Stop<'a>>
    ensures read { Gives (λ x. (x.0.items, x.1.now)) result (row_behind word.now A.value_of inputs text.now) }
    ensures count { IfOk result (λ x. length x.0.items ≡ inputs) }
{
    if inputs == 0 {
        let rest = literal(word, text)?;
        let rest = literal(b"none\n", rest)?;
        return Ok((Vec::new(alloc), rest));
    }
    line::<A>(alloc, word, inputs, text)
}

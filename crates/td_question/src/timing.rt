//! When inputs change, in words of the command line: a number of steps for each input.

ghost use Rattle.std.specs.Prelude.{◌≡◌, ◌∷◌, ◌<◌, ◌≤◌, ◌+◌, ◌*◌, ℕ, List, unwrap_or, Some, IfOk, IfSome, IfNone};
ghost use Rattle.std.specs.Option.{SomeIff};
ghost use Rattle.std.specs.Char.{digit_value};
ghost use Rattle.td_question.specs.Vectors.{SpellsMoments, AreMomentsOf};
ghost use Rattle.td_inputs.specs.Placings.{word_of};

use std::alloc::{AllocError, Global};
use td_circuit::LATEST;

/// The number whose digits are those of the number so far and this character, if that is a moment
/// at which an input may change.
fn next_number(number: Option<u64>, character: u8) -> Option<u64>
    requires { unwrap_or number 0 ≤ 1000000000 }
    ensures { SomeIff result ((digit_value character < 10) × (unwrap_or number 0 * 10 + digit_value character ≤ 1000000000))
        (unwrap_or number 0 * 10 + digit_value character) }
{
    let digit = char::from(character).to_digit(10)?;
    let number = number.unwrap_or(0) * 10 + u64::from(digit);
    if number <= LATEST { Some(number) } else { None }
}

/// The moments that a word spells, which isn't `none`.
fn spelled(alloc: Global, word: &[u8]) -> Result<Option<Vec<u64>>, AllocError>
    ensures some { IfOk result (λ found. IfSome found (λ moments. SpellsMoments word.now moments.items)) }
    ensures only { IfOk result (λ found. IfSome found (λ moments. (first : ℕ) (others : List ℕ)
        → SpellsMoments word.now (first ∷ others) → moments.items ≡ first ∷ others)) }
    ensures none { IfOk result (λ found. IfNone found ((first : ℕ) (others : List ℕ) → ¬ SpellsMoments word.now (first ∷ others))) }
{
    let mut moments = Vec::new(alloc);
    let mut number = None;
    for character in word {
        if *character == b',' {
            let Some(moment) = number else {
                return Ok(None);
            };
            moments.push(moment)?;
            number = None;
        } else {
            let Some(next) = next_number(number, *character) else {
                return Ok(None);
            };
            number = Some(next);
        }
    }
    let Some(moment) = number else {
        return Ok(None);
    };
    moments.push(moment)?;
    Ok(Some(moments))
}

/// The moments for that many inputs that a word spells.
fn moments_in(alloc: Global, word: &str, count: usize) -> Result<Option<Vec<u64>>, AllocError>
    ensures some { IfOk result (λ found. IfSome found (λ moments. AreMomentsOf count (Some word.now) moments.items)) }
    ensures none { IfOk result (λ found. IfNone found ((moments : List ℕ) → ¬ AreMomentsOf count (Some word.now) moments)) }
{
    if count == 0 {
        return if word == "none" {
            Ok(Some(Vec::new(alloc)))
        } else {
            Ok(None)
        };
    }
    let Some(moments) = spelled(alloc, word.as_bytes())? else {
        return Ok(None);
    };
    if moments.len() == count {
        Ok(Some(moments))
    } else {
        Ok(None)
    }
}

/// The moments for that many inputs that the word of an option spells. All are 0 where the option
/// is left out.
pub fn moments(
    alloc: Global,
    word: &Option<String>,
    count: usize,
) -> Result<Option<Vec<u64>>, AllocError>
    ensures some { IfOk result (λ found. IfSome found (λ moments. AreMomentsOf count (word_of word.now) moments.items)) }
    ensures none { IfOk result (λ found. IfNone found ((moments : List ℕ) → ¬ AreMomentsOf count (word_of word.now) moments)) }
{
    match word {
        None => Ok(Some(vec![in alloc; 0u64; count]?)),
        Some(word) => moments_in(alloc, word, count),
    }
}

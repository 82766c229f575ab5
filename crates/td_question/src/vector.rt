//! Vectors and masks in words of the command line: a character for each input.

ghost use Rattle.std.specs.Prelude.{◌≡◌, ℕ, List, length, map, replicate, IfOk, IfSome, IfNone};
ghost use Rattle.td_question.specs.Vectors.{level_character, trit_character, held_character, SpellsVector, AreGiven};
ghost use Rattle.td_inputs.specs.Placings.{word_of};

use std::alloc::{AllocError, Global};
use td_domain::Trit;
use td_gates::Level;
use td_inputs::Given;

/// A word of the command line that gives something for each input.
#[derive(Clone, Copy, Drop)]
pub enum VectorWord {
    From,
    To,
    First,
    Second,
    Hold,
    At,
}

/// What a vector has for each input.
pub trait Symbol: Sized + Drop {
    /// Its character in a word.
    ghost spelled_as: { Self → ℕ };

    /// The symbol that has this character, if one has it.
    fn of(character: u8) -> Option<Self>
        ensures some { IfSome result (λ symbol. character ≡ Self.spelled_as symbol) }
        ensures none { IfNone result ((symbol : Self) → ¬ (character ≡ Self.spelled_as symbol)) };
}

impl Symbol for Level {
    ghost spelled_as = { level_character };

    fn of(character: u8) -> Option<Self> {
        match character {
            b'0' => Some(Level::Zero),
            b'1' => Some(Level::One),
            b'x' => Some(Level::X),
            _ => None,
        }
    }
}

impl Symbol for bool {
    ghost spelled_as = { held_character };

    fn of(character: u8) -> Option<Self> {
        match character {
            b'=' => Some(true),
            b'.' => Some(false),
            _ => None,
        }
    }
}

impl Symbol for Trit {
    ghost spelled_as = { trit_character };

    fn of(character: u8) -> Option<Self> {
        match character {
            b'0' => Some(Trit::Zero),
            b'1' => Some(Trit::One),
            b'.' => Some(Trit::Free),
            _ => None,
        }
    }
}

/// The symbols that characters spell.
fn symbols<S: Symbol>(alloc: Global, word: &[u8]) -> Result<Option<Vec<S>>, AllocError>
    ensures some { IfOk result (λ found. IfSome found (λ symbols. word.now ≡ map S.spelled_as symbols.items)) }
    ensures none { IfOk result (λ found. IfNone found ((symbols : List S) → ¬ (word.now ≡ map S.spelled_as symbols))) }
{
    let mut symbols = Vec::new(alloc);
    for character in word {
        match S::of(*character) {
            Some(symbol) => symbols.push(symbol)?,
            None => return Ok(None),
        }
    }
    Ok(Some(symbols))
}

/// The vector for that many inputs that a word spells: a character for each input, or the word
/// `none` where there are none.
pub fn vector<S: Symbol>(
    alloc: Global,
    word: &str,
    count: usize,
) -> Result<Option<Vec<S>>, AllocError>
    ensures some { IfOk result (λ found. IfSome found (λ symbols. SpellsVector S.spelled_as count word.now symbols.items)) }
    ensures none { IfOk result (λ found. IfNone found ((symbols : List S) → ¬ SpellsVector S.spelled_as count word.now symbols)) }
{
    if count == 0 {
        if word == "none" {
            Ok(Some(Vec::new(alloc)))
        } else {
            Ok(None)
        }
    } else if word.len() != count {
        Ok(None)
    } else {
        symbols(alloc, word.as_bytes())
    }
}

/// That many symbols, each of them this one.
fn repeated<S: Symbol + Copy>(alloc: Global, symbol: S, count: usize) -> Result<Vec<S>, AllocError>
    ensures { IfOk result (λ symbols. symbols.items ≡ replicate count symbol) }
{
    let mut symbols = Vec::new(alloc);
    for _input in 0..count {
        symbols.push(symbol)?;
    }
    Ok(symbols)
}

/// The symbols for that many inputs that the word of an option spells. Each is this one where the
/// option is left out.
pub fn given<S: Symbol + Copy>(
    alloc: Global,
    word: &Option<String>,
    count: usize,
    left_out: S,
) -> Result<Option<Vec<S>>, AllocError>
    ensures some { IfOk result (λ found. IfSome found (λ symbols. AreGiven S.spelled_as left_out count (word_of word.now) symbols.items)) }
    ensures none { IfOk result (λ found. IfNone found ((symbols : List S) → ¬ AreGiven S.spelled_as left_out count (word_of word.now) symbols)) }
{
    match word {
        None => Ok(Some(repeated(alloc, left_out, count)?)),
        Some(word) => vector(alloc, word, count),
    }
}

/// Which of the given words gives no trits or no mask for that many inputs: the last that may,
/// where no other does.
pub(crate) fn unread(
    alloc: Global,
    words: Given<'_>,
    count: usize,
) -> Result<VectorWord, AllocError> {
    if is_unread::<Trit>(alloc, words.first, count)? {
        return Ok(VectorWord::First);
    }
    if is_unread::<Trit>(alloc, words.second, count)? {
        return Ok(VectorWord::Second);
    }
    Ok(VectorWord::Hold)
}

/// Whether a given word spells no vector of that many symbols.
fn is_unread<S: Symbol>(
    alloc: Global,
    word: Option<&str>,
    count: usize,
) -> Result<bool, AllocError> {
    match word {
        None => Ok(false),
        Some(word) => {
            let found = vector::<S>(alloc, word, count)?;
            Ok(found.is_none())
        }
    }
}

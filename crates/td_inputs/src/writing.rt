//! Words that say something of each input, by place.

ghost use Rattle.std.specs.Prelude.{◌≡◌, ◌∷◌, ◌++◌, [], ℕ, List, Option, decimal, map, string_bytes, OnOk, IfOk, IfSome, IfNone};
ghost use Rattle.td_inputs.specs.Patterns.{cell_of, letter_of, moments_at, moments_text, pattern_text, separator};

use std::alloc::{AllocError, Global};

/// What the characters of a word are.
#[derive(Clone, Copy, Debug, PartialEq, Eq)]
pub enum Letters {
    /// `0`, `1` or `.`, levels.
    Trits,
    /// `=` or `.`, inputs that keep their level.
    Holds,
}

/// The character of what is said of an input.
fn letter(letters: Letters, cell: Option<u64>) -> &'static str
    ensures { result.now ≡ letter_of letters cell ∷ [] }
{
    match (letters, cell) {
        (_, None) => ".",
        (Letters::Holds, Some(_)) => "=",
        (Letters::Trits, Some(0)) => "0",
        (Letters::Trits, Some(_)) => "1",
    }
}

/// What a character says of an input, if it is one of these letters.
fn cell_of(letters: Letters, letter: u8) -> Option<Option<u64>>
    ensures { result ≡ cell_of letters letter }
{
    match (letters, letter) {
        (_, b'.') => Some(None),
        (Letters::Holds, b'=') => Some(Some(1)),
        (Letters::Trits, b'0') => Some(Some(0)),
        (Letters::Trits, b'1') => Some(Some(1)),
        _ => None,
    }
}

/// The characters of what is said of each input.
fn characters(alloc: Global, letters: Letters, cells: &[Option<u64>]) -> Result<String, AllocError>
    ensures { IfOk result (λ word. string_bytes word ≡ map (letter_of letters) cells.now) }
{
    let mut word = String::new(alloc);
    for cell in cells {
        word.push_str(letter(letters, *cell))?;
    }
    Ok(word)
}

/// The word that says this of each input, `none` where there are none.
pub fn pattern(alloc: Global, letters: Letters, cells: &[Option<u64>]) -> Result<String, AllocError>
    ensures { IfOk result (λ word. string_bytes word ≡ pattern_text letters cells.now) }
{
    if cells.is_empty() {
        return String::from_str(alloc, "none");
    }
    characters(alloc, letters, cells)
}

/// What a word says of each input, if each of its characters says something.
pub fn cells_of(
    alloc: Global,
    letters: Letters,
    word: &[u8],
) -> Result<Option<Vec<Option<u64>>>, AllocError>
    ensures some { IfOk result (λ found. IfSome found (λ cells. word.now ≡ map (letter_of letters) cells.items)) }
    ensures none { IfOk result (λ found. IfNone found ((cells : List (Option ℕ)) → ¬ (word.now ≡ map (letter_of letters) cells))) }
{
    let mut cells = Vec::new(alloc);
    for letter in word {
        match cell_of(letters, *letter) {
            Some(cell) => cells.push(cell)?,
            None => return Ok(None),
        }
    }
    Ok(Some(cells))
}

/// What stands before the moment of the input at this place.
fn separator(place: usize) -> &'static str
    ensures { result.now ≡ separator place }
{
    if place == 0 { "" } else { "," }
}

/// Appends a number in decimal digits.
fn push_number(alloc: Global, word: &mut String, number: u64) -> Result<(), AllocError>
    ensures { OnOk result (string_bytes word.new ≡ string_bytes word.old ++ decimal number) }
{
    let digits = format!(in alloc; "{number}")?;
    word.push_str(digits.as_str())?;
    Ok(())
}

/// The word that gives each input its moment, 0 where nothing is said of it; `none` where there are
/// no inputs.
pub fn moments_word(alloc: Global, cells: &[Option<u64>]) -> Result<String, AllocError>
    ensures { IfOk result (λ word. string_bytes word ≡ moments_text cells.now) }
{
    if cells.is_empty() {
        return String::from_str(alloc, "none");
    }
    listed(alloc, cells)
}

/// The moments of inputs, with commas between them.
fn listed(alloc: Global, cells: &[Option<u64>]) -> Result<String, AllocError>
    ensures { IfOk result (λ word. string_bytes word ≡ moments_at 0 cells.now) }
{
    let mut word = String::new(alloc);
    for (place, cell) in cells.iter().enumerate() {
        word.push_str(separator(place))?;
        push_number(alloc, &mut word, cell.unwrap_or(0))?;
    }
    Ok(word)
}

//! What a word says of the inputs that it names.

ghost use Rattle.std.specs.Prelude.{◌≡◌, ◌≤◌, ◌<◌, ◌^◌, length, map, IfOk};
ghost use Rattle.td_inputs.specs.Labels.{label_in, is_named};
ghost use Rattle.td_inputs.specs.Cells.{bit, cell_at, fits, moment_of, named_count, next_cell, next_left, pin_value, said};

use crate::labels::Label;
use crate::numbers::{digits_number, number};
use std::alloc::{AllocError, Global};

/// The latest moment at which an input may change.
const LATEST: u64 = 1_000_000_000;

/// What a word says of the inputs that it names.
#[derive(Clone, Copy, Debug, PartialEq, Eq, Drop)]
pub enum Value {
    /// Nothing.
    Nothing,
    /// The bits of this number, the least significant one for the last input.
    Bits(u64),
    /// This number, for each.
    Each(u64),
}

/// A bit of a number, from the least significant one on.
fn bit(number: u64, place: usize) -> u64
    ensures { result ≡ bit number place }
{
    if place >= 64 {
        return 0;
    }
    (number >> place) % 2
}

/// What a value says of an input after which it names that many more.
fn cell_at(value: Value, place: usize) -> Option<u64>
    ensures { result ≡ cell_at value place }
{
    match value {
        Value::Nothing => None,
        Value::Bits(number) => Some(bit(number, place)),
        Value::Each(number) => Some(number),
    }
}

/// How many inputs a word names.
pub fn named_count(labels: &[Label], word: &[u8]) -> usize
    ensures count { result ≡ named_count word.now (map label_in labels.now) }
    ensures few { result ≤ length labels.now }
{
    let mut count: usize = 0;
    for label in labels {
        if label.is_named(word) {
            count += 1;
        }
    }
    count
}

/// How many inputs a word names after this one, where it names `left` of those from it on.
fn next_left(is_named: bool, left: usize) -> usize
    ensures { result ≡ next_left is_named left }
{
    if is_named {
        left.saturating_sub(1)
    } else {
        left
    }
}

/// What is said of an input.
fn next_cell(is_named: bool, value: Value, left: usize) -> Option<u64>
    ensures { result ≡ next_cell is_named value left }
{
    if is_named { cell_at(value, left) } else { None }
}

/// What a word with this value says of each input.
pub fn said(
    alloc: Global,
    labels: &[Label],
    word: &[u8],
    value: Value,
) -> Result<Vec<Option<u64>>, AllocError>
    ensures said { IfOk result (λ cells. cells.items ≡ said word.now value (map label_in labels.now)) }
    ensures each { IfOk result (λ cells. length cells.items ≡ length labels.now) }
{
    let mut left = named_count(labels, word);
    let mut cells = Vec::new(alloc);
    for label in labels {
        let is_named = label.is_named(word);
        left = next_left(is_named, left);
        cells.push(next_cell(is_named, value, left))?;
    }
    Ok(cells)
}

/// Whether a number has at most that many bits.
fn fits(width: usize, number: u64) -> bool
    ensures { result ≡ fits width number }
{
    if width >= 64 {
        return true;
    }
    number >> width == 0
}

/// What a text says of the inputs that a pin names, of which there are that many: `.` says nothing,
/// and a number gives each its bit. There is none where it doesn't fit.
pub fn pin_value(width: usize, text: &[u8]) -> Option<Value>
    ensures { result ≡ pin_value width text.now }
{
    if text == b".".as_slice() {
        return Some(Value::Nothing);
    }
    match number(width as u64, text) {
        Some(number) => {
            if fits(width, number) {
                Some(Value::Bits(number))
            } else {
                None
            }
        }
        None => None,
    }
}

/// The moment that a text spells, if it is one at which an input may change.
pub fn moment(text: &[u8]) -> Option<Value>
    ensures { result ≡ moment_of text.now }
{
    match digits_number(10, text) {
        Some(number) => {
            if number <= LATEST {
                Some(Value::Each(number))
            } else {
                None
            }
        }
        None => None,
    }
}

//! Numbers in words of the command line, as Verilog spells them.

ghost use Rattle.std.specs.Prelude.{◌≡◌, ◌≤◌};
ghost use Rattle.td_inputs.specs.Numbers.{based_number, digits_from, digits_number, is_size, number_of, radix_of, with_digit};

use crate::scanning::cut;

/// The number with one digit more, where that is below 2 to the power of 64. A `_` is no digit, and
/// changes nothing.
fn with_digit(radix: u32, number: u64, byte: u8) -> Option<u64>
    requires least { 2 ≤ radix }
    requires most { radix ≤ 16 }
    ensures { result ≡ with_digit radix number byte }
{
    if byte == b'_' {
        return Some(number);
    }
    let digit = char::from(byte).to_digit(radix)?;
    number
        .checked_mul(u64::from(radix))?
        .checked_add(u64::from(digit))
}

/// The number that digits spell, with `_` between them.
fn spelled(radix: u32, text: &[u8]) -> Option<u64>
    requires least { 2 ≤ radix }
    requires most { radix ≤ 16 }
    ensures { result ≡ digits_from radix 0 text.now }
{
    let mut number = 0;
    for byte in text {
        match with_digit(radix, number, *byte) {
            Some(next) => number = next,
            None => return None,
        }
    }
    Some(number)
}

/// The number that digits spell, of which there is one at least; it comes first.
pub fn digits_number(radix: u32, text: &[u8]) -> Option<u64>
    requires least { 2 ≤ radix }
    requires most { radix ≤ 16 }
    ensures { result ≡ digits_number radix text.now }
{
    match text {
        [] => None,
        [first, ..] => {
            if *first == b'_' {
                None
            } else {
                spelled(radix, text)
            }
        }
    }
}

/// How many digits a base has.
fn radix_of(letter: u8) -> Option<u32>
    ensures { result ≡ radix_of letter }
{
    match letter {
        b'b' | b'B' => Some(2),
        b'o' | b'O' => Some(8),
        b'd' | b'D' => Some(10),
        b'h' | b'H' => Some(16),
        _ => None,
    }
}

/// The number that a base and digits spell.
fn based_number(text: &[u8]) -> Option<u64>
    ensures { result ≡ based_number text.now }
{
    match text {
        [] => None,
        [letter, digits @ ..] => match radix_of(*letter) {
            Some(radix) => digits_number(radix, digits),
            None => None,
        },
    }
}

/// Whether a size is left out, or is this width.
fn is_size(width: u64, size: &[u8]) -> bool
    ensures { result ≡ is_size width size.now }
{
    if size.is_empty() {
        return true;
    }
    match digits_number(10, size) {
        Some(number) => number == width,
        None => false,
    }
}

/// The number below 2 to the power of 64 that a text spells for that many bits: decimal digits, or
/// a base (`'h`, `'d`, `'o` or `'b`) and its digits, with or without the number of bits before it.
/// There may be `_` after a digit.
pub fn number(width: u64, text: &[u8]) -> Option<u64>
    ensures { result ≡ number_of width text.now }
{
    match cut(b'\'', text) {
        None => digits_number(10, text),
        Some((size, based)) => {
            if is_size(width, size) {
                based_number(based)
            } else {
                None
            }
        }
    }
}

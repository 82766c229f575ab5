//! Pins, a character for each input.

ghost use Rattle.std.specs.Char.{encode_utf8};
ghost use Rattle.std.specs.Prelude.{◌≡◌, ◌++◌, ◌∷◌, [], if◌then◌else◌, string_bytes, IfOk, OnOk};
ghost use Rattle.td_certificate.specs.Text.{row, trit, hold, first_trits, second_trits};

use std::alloc::{AllocError, Global};
use td_domain::{Cube, Trit};
use td_lines::Text;

/// The character of a trit.
fn letter(bit: Trit) -> char
    ensures { encode_utf8 result ≡ trit bit ∷ [] }
{
    match bit {
        Trit::Zero => '0',
        Trit::One => '1',
        Trit::Free => '.',
    }
}

/// The byte of a trit.
fn character(bit: Trit) -> &'static [u8]
    ensures { result.now ≡ trit bit ∷ [] }
{
    match bit {
        Trit::Zero => b"0",
        Trit::One => b"1",
        Trit::Free => b".",
    }
}

/// The position of an input's second bit, or of its first, counted from its first.
fn side(second: bool) -> usize
    ensures { result ≡ (if second then 1 else 0) }
{
    usize::from(second)
}

/// Appends a byte for each first bit of the inputs, or for each second bit, or `none`.
#[tactic(auto, using(td_certificate::proofs::Batches::none_pushed))]
pub(crate) fn push_trits(text: &mut Text, pins: &Cube, second: bool) -> Result<(), AllocError>
    ensures { OnOk result (text.new ≡ text.old ++ row trit (if second then second_trits pins.now else first_trits pins.now)) }
{
    if pins.len() < 2 {
        return text.push(b"none");
    }
    for input in 0..pins.len() / 2 {
        text.push(character(pins.trit(2 * input + side(second))))?;
    }
    Ok(())
}

/// Appends a character for each first bit of the inputs, or for each second bit, or `none`.
#[tactic(auto, using(td_certificate::proofs::Batches::none_pushed))]
fn push_letters(text: &mut String, pins: &Cube, second: bool) -> Result<(), AllocError>
    ensures { OnOk result (string_bytes text.new ≡ string_bytes text.old ++ row trit (if second then second_trits pins.now else first_trits pins.now)) }
{
    if pins.len() < 2 {
        return text.push_str("none");
    }
    for input in 0..pins.len() / 2 {
        text.push(letter(pins.trit(2 * input + side(second))))?;
    }
    Ok(())
}

/// A character for each first bit of the inputs, or for each second bit, or `none`.
pub(crate) fn trits(alloc: Global, pins: &Cube, second: bool) -> Result<String, AllocError>
    ensures { IfOk result (λ text. string_bytes text ≡ row trit (if second then second_trits pins.now else first_trits pins.now)) }
{
    let mut text = String::new(alloc);
    push_letters(&mut text, pins, second)?;
    Ok(text)
}

/// Appends a character for each input, whether it is held, or `none`.
fn push_marks(text: &mut String, held: &[bool]) -> Result<(), AllocError>
    ensures { OnOk result (string_bytes text.new ≡ string_bytes text.old ++ row hold held.now) }
{
    if held.is_empty() {
        return text.push_str("none");
    }
    for held in held {
        text.push(if *held { '=' } else { '.' })?;
    }
    Ok(())
}

/// A character for each input, whether it is held, or `none`.
pub(crate) fn marks(alloc: Global, held: &[bool]) -> Result<String, AllocError>
    ensures { IfOk result (λ text. string_bytes text ≡ row hold held.now) }
{
    let mut text = String::new(alloc);
    push_marks(&mut text, held)?;
    Ok(text)
}

//! What of a question isn't plain.

ghost use Rattle.std.specs.Prelude.{◌≡◌, ◌++◌, ◌==◌, ◌&&◌, [], if◌then◌else◌, is_some, not, OnOk, string_bytes};
ghost use Rattle.td_certificate.specs.Questions.{holds_none, is_at_once, inputs_of};
ghost use Rattle.td_certificate.specs.Spelling.{DefaultField, OutputField, HoldField, FlipsField, AtField, KeepField, default_line, output_line, ended};
ghost use Rattle.td_certificate.specs.Plain.{has_level, told_line, reported_text};
ghost use Rattle.td_certificate.specs.Text.{row, trit, first_trits, second_trits};

use crate::question::{Question, Terms, Version, holds_none, is_at_once};
use crate::writing::{
    push_default, push_holds, push_keep, push_listed, push_outputs, push_question, push_trits,
};
use std::alloc::{AllocError, Global};

/// Whether a row of trits has a level.
fn has_level(row: &str) -> bool
    ensures { result ≡ has_level row.now }
{
    row.bytes().any(|byte| byte == b'0' || byte == b'1')
}

/// Puts the line `default` at the end, if it isn't plain.
fn tell_default(text: &mut String, terms: &Terms) -> Result<(), AllocError>
    ensures { OnOk result (string_bytes text.new ≡ string_bytes text.old ++
        (if not (terms.now.default.rise == 1 && terms.now.default.fall == 1) then ended (default_line terms.now) else [])) }
{
    if terms.rise == 1 && terms.fall == 1 {
        return Ok(());
    }
    push_default(text, terms)
}

/// Puts the line `output` at the end, if it isn't plain.
fn tell_outputs(text: &mut String, terms: &Terms) -> Result<(), AllocError>
    ensures { OnOk result (string_bytes text.new ≡ string_bytes text.old ++ (if is_some terms.now.outputs then ended (output_line terms.now) else [])) }
{
    if terms.outputs.is_none() {
        return Ok(());
    }
    push_outputs(text, terms)
}

/// Puts the lines `default` and `output` at the end, if they aren't plain.
fn tell_terms(text: &mut String, question: &Question) -> Result<(), AllocError>
    ensures { OnOk result (string_bytes text.new ≡ string_bytes text.old ++ (told_line question.now DefaultField ++ told_line question.now OutputField)) }
{
    match question.terms() {
        None => Ok(()),
        Some(terms) => {
            tell_default(text, terms)?;
            tell_outputs(text, terms)
        }
    }
}

/// Puts a line of pins at the end, if it has a level.
fn tell_pins(
    alloc: Global,
    text: &mut String,
    word: &str,
    question: &Question,
    second: bool,
) -> Result<(), AllocError>
    ensures { OnOk result (string_bytes text.new ≡ string_bytes text.old ++
        (if has_level (row trit (if second then second_trits question.now.admit.pins else first_trits question.now.admit.pins))
        then ended (word.now ++ row trit (if second then second_trits question.now.admit.pins else first_trits question.now.admit.pins)) else [])) }
{
    let mut row = String::new(alloc);
    push_trits(&mut row, question.admit().pins(), second)?;
    if !has_level(&row) {
        return Ok(());
    }
    text.push_str(word)?;
    text.push_str(&row)?;
    text.push_str("\n")
}

/// Puts the line `hold` at the end, if an input is held.
fn tell_held(text: &mut String, question: &Question) -> Result<(), AllocError>
    ensures { OnOk result (string_bytes text.new ≡ string_bytes text.old ++ told_line question.now HoldField) }
{
    let held = question.admit().held();
    if holds_none(held) {
        return Ok(());
    }
    text.push_str("hold ")?;
    push_holds(text, held)?;
    text.push_str("\n")
}

/// Puts the line `flips` at the end, if not all inputs may differ.
fn tell_flips(text: &mut String, question: &Question) -> Result<(), AllocError>
    ensures { OnOk result (string_bytes text.new ≡ string_bytes text.old ++ told_line question.now FlipsField) }
{
    let flips = question.admit().flips();
    if flips as usize == question.inputs() {
        return Ok(());
    }
    writeln!(text, "flips {flips}")
}

/// Puts the line `at` at the end, if an input changes later than at moment 0.
fn tell_moments(text: &mut String, question: &Question) -> Result<(), AllocError>
    ensures { OnOk result (string_bytes text.new ≡ string_bytes text.old ++ told_line question.now AtField) }
{
    if is_at_once(question.moments()) {
        return Ok(());
    }
    push_listed(text, "at", question.moments())
}

/// Puts the line `keep` at the end, if there is a condition.
fn tell_keep(text: &mut String, question: &Question) -> Result<(), AllocError>
    ensures { OnOk result (string_bytes text.new ≡ string_bytes text.old ++ told_line question.now KeepField) }
{
    if question.keep().is_empty() {
        return Ok(());
    }
    push_keep(text, question.keep())
}

/// Puts the lines of a question at the end that aren't plain.
fn tell_lines(alloc: Global, text: &mut String, question: &Question) -> Result<(), AllocError>
    ensures { OnOk result (string_bytes text.new ≡ string_bytes text.old ++ reported_text Version.Fourth question.now) }
{
    tell_terms(text, question)?;
    tell_pins(alloc, text, "first ", question, false)?;
    tell_pins(alloc, text, "second ", question, true)?;
    tell_held(text, question)?;
    tell_flips(text, question)?;
    tell_moments(text, question)?;
    tell_keep(text, question)?;
    Ok(())
}

/// Puts the lines of a question at the end that a report tells, as they stand in a certificate's
/// text of this version: in the fourth those that aren't plain. Plain are delays of 1 and 1, all
/// outputs, all pairs, moment 0 of each input, and no condition.
pub fn push_reported(
    alloc: Global,
    text: &mut String,
    version: Version,
    question: &Question,
) -> Result<(), AllocError>
    ensures { OnOk result (string_bytes text.new ≡ string_bytes text.old ++ reported_text version question.now) }
{
    match version {
        Version::First | Version::Second | Version::Third => {
            push_question(text, version, question)
        }
        Version::Fourth => tell_lines(alloc, text, question),
    }
}

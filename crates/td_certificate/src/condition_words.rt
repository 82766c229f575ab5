//! Conditions, as a certificate's text has them.

ghost use Rattle.std.specs.Prelude.{◌≡◌, ◌++◌, ◌∷◌, [], string_bytes, IfOk, OnOk};
ghost use Rattle.std.specs.Char.{encode_utf8};
ghost use Rattle.std.specs.List.{flat_map};
ghost use Rattle.td_certificate.specs.Text.{level_byte, form_text, condition, behind_condition, conditions};

use std::alloc::{AllocError, Global};
use td_gates::Level;
use td_refutation::NamedCondition;
use td_spans::Form;

/// The character of a level.
fn level_character(level: Level) -> char
    ensures { encode_utf8 result ≡ level_byte level ∷ [] }
{
    match level {
        Level::Zero => '0',
        Level::One => '1',
        Level::X => '.',
    }
}

/// Appends the form of a condition.
fn push_form(text: &mut String, form: Form) -> Result<(), AllocError>
    ensures { OnOk result (string_bytes text.new ≡ string_bytes text.old ++ form_text form) }
{
    match form {
        Form::Levels(first, second) => {
            text.push(level_character(first))?;
            text.push(level_character(second))
        }
        Form::Equal => text.push_str("=="),
    }
}

/// Appends a condition.
fn push_condition(text: &mut String, asked: NamedCondition) -> Result<(), AllocError>
    ensures { OnOk result (string_bytes text.new ≡ string_bytes text.old ++ condition asked) }
{
    let net = asked.net;
    write!(text, "{net} ")?;
    push_form(text, asked.form)
}

/// Appends a space and a condition.
fn push_behind(text: &mut String, asked: NamedCondition) -> Result<(), AllocError>
    ensures { OnOk result (string_bytes text.new ≡ string_bytes text.old ++ behind_condition asked) }
{
    text.push(' ')?;
    push_condition(text, asked)
}

/// Appends conditions, each behind a space.
fn push_others(text: &mut String, others: &[NamedCondition]) -> Result<(), AllocError>
    ensures { OnOk result (string_bytes text.new ≡ string_bytes text.old ++ flat_map behind_condition others.now) }
{
    for asked in others {
        push_behind(text, *asked)?;
    }
    Ok(())
}

/// Appends conditions, a space between each two.
fn push_some(
    text: &mut String,
    first: NamedCondition,
    others: &[NamedCondition],
) -> Result<(), AllocError>
    ensures { OnOk result (string_bytes text.new ≡ string_bytes text.old ++ conditions (first ∷ others.now)) }
{
    push_condition(text, first)?;
    push_others(text, others)
}

/// Appends conditions, a space between each two, or `none`.
pub(crate) fn push_conditions(text: &mut String, keep: &[NamedCondition]) -> Result<(), AllocError>
    ensures { OnOk result (string_bytes text.new ≡ string_bytes text.old ++ conditions keep.now) }
{
    match keep.split_first() {
        None => text.push_str("none"),
        Some((first, others)) => push_some(text, *first, others),
    }
}

/// The words of conditions, a space between each two, or `none`. The error is out of memory.
pub fn conditions_text(alloc: Global, keep: &[NamedCondition]) -> Result<String, AllocError>
    ensures { IfOk result (λ text. string_bytes text ≡ conditions keep.now) }
{
    let mut text = String::new(alloc);
    push_conditions(&mut text, keep)?;
    Ok(text)
}

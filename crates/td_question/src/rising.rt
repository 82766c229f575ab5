//! Conditions in the order of a certificate.

ghost use Rattle.std.specs.Prelude.{◌≡◌, length, OnOk, IfOk};
ghost use Rattle.std.specs.List.Sorted.{IsNonDecreasingBy};
ghost use Rattle.td_certificate.specs.Accepts.{form_order};
ghost use Rattle.td_certificate.specs.Text.{level_byte};
ghost use Rattle.td_question.specs.Found.{condition_order, AreInOrder, IsKeptTo, IsPushed};

use std::alloc::{AllocError, Global};
use td_gates::Level;
use td_refutation::NamedCondition;
use td_spans::Form;

fn level_byte(level: Level) -> u8
    ensures { result ≡ level_byte level }
{
    match level {
        Level::Zero => b'0',
        Level::One => b'1',
        Level::X => b'.',
    }
}

/// A condition's place among others on its net.
fn form_order(form: Form) -> u32
    ensures { result ≡ form_order form }
{
    match form {
        Form::Levels(first, second) => {
            256 * u32::from(level_byte(first)) + u32::from(level_byte(second))
        }
        Form::Equal => 256 * 61 + 61,
    }
}

/// A condition's place among others: by its net, then by its form.
fn order_of(condition: &NamedCondition) -> u128
    ensures { result ≡ condition_order condition.now }
{
    65536 * u128::from(condition.net) + u128::from(form_order(condition.form))
}

/// Adds a condition that stands behind the last one. The error is out of memory.
fn push_next(kept: &mut Vec<NamedCondition>, condition: NamedCondition) -> Result<(), AllocError>
    ensures { OnOk result (IsPushed kept.old.items condition kept.new.items) }
{
    if let Some(last) = kept.last() {
        if order_of(&condition) <= order_of(last) {
            return Ok(());
        }
    }
    kept.push(condition)?;
    Ok(())
}

/// Sorted conditions, each once. The error is out of memory.
fn once(alloc: Global, sorted: &[NamedCondition]) -> Result<Vec<NamedCondition>, AllocError>
    requires { IsNonDecreasingBy condition_order sorted.now }
    ensures { IfOk result (λ kept. IsKeptTo sorted.now (length sorted.now) kept.items) }
{
    let mut kept = Vec::new(alloc);
    for condition in sorted {
        push_next(&mut kept, *condition)?;
    }
    Ok(kept)
}

/// These conditions, each once, in the order of a certificate. The error is out of memory.
pub fn in_order(alloc: Global, said: Vec<NamedCondition>) -> Result<Vec<NamedCondition>, AllocError>
    ensures { IfOk result (λ kept. AreInOrder said.items kept.items) }
{
    let mut sorted = said;
    sorted.sort_unstable_by_key(|condition| order_of(condition));
    once(alloc, &sorted)
}

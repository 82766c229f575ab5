//! Writing the lines of steps.

ghost use Rattle.std.specs.Char.{encode_utf8};
ghost use Rattle.std.specs.List.{AllByRecursion};
ghost use Rattle.std.specs.Prelude.{◌≡◌, ◌↔◌, ◌++◌, ◌∷◌, [], map, IsTrue, IfOk, IfSome, OnOk, string_bytes};
ghost use Rattle.td_refutation.specs.Whole.{step_of};
ghost use Rattle.td_certificate.specs.Steps.{kind_byte, step_text, steps_text, IsStep};

use crate::fields::GREATEST;
use std::alloc::{AllocError, Global};
use td_refutation::{Step, StepKind};

/// The letter of a kind.
fn letter(kind: StepKind) -> char
    ensures { encode_utf8 result ≡ kind_byte kind ∷ [] }
{
    match kind {
        StepKind::First => 'i',
        StepKind::Last => 'f',
        StepKind::Span => 'w',
        StepKind::Flips => 'c',
        StepKind::Gate => 'g',
        StepKind::Table => 't',
        StepKind::Net => 'n',
        StepKind::Pairs => 'u',
        StepKind::Keep => 'k',
        StepKind::Lemma => 'l',
        StepKind::End => 'e',
        StepKind::Again => 'r',
    }
}

/// Puts the line of a step at the end.
fn push_step(text: &mut String, step: &Step) -> Result<(), AllocError>
    ensures { OnOk result (string_bytes text.new ≡ string_bytes text.old ++ step_text (step_of step.now)) }
{
    text.push(letter(step.kind))?;
    for number in &step.numbers {
        write!(text, " {number}")?;
    }
    text.push_str("\n")?;
    Ok(())
}

/// Whether the numbers of a step are at most the greatest of a certificate.
fn has_spelling(step: &Step) -> bool
    ensures { IsTrue result ↔ IsStep (step_of step.now) }
{
    step.numbers.iter().all(|number| *number <= GREATEST)
}

/// The lines of steps; none where a number is above the greatest of a certificate.
pub fn lines_of(alloc: Global, steps: &[Step]) -> Result<Option<Vec<u8>>, AllocError>
    ensures lines { IfOk result (λ answer. IfSome answer (λ lines. lines.items ≡ steps_text (map step_of steps.now))) }
    ensures spelled { IfOk result (λ answer. IfSome answer (λ lines. AllByRecursion IsStep (map step_of steps.now))) }
{
    let mut text = String::new(alloc);
    for step in steps {
        if !has_spelling(step) {
            return Ok(None);
        }
        push_step(&mut text, step)?;
    }
    Ok(Some(text.into_bytes()))
}

//! Leaves with a bound that steps show.

ghost use Rattle.std.specs.Prelude.{◌≡◌, ◌<◌, ◌≤◌, ◌^◌, length, map, IfOk, IfSome};
ghost use Rattle.td_certificate.specs.Fields.{Gives};
ghost use Rattle.td_certificate.specs.StepReading.{refuted_at};
ghost use Rattle.td_refutation.specs.Whole.{step_of};
ghost use Rattle.td_certificate.specs.Steps.{steps_text, IsBoundText, IsRefutedText};
ghost use Rattle.td_certificate.specs.Lines.{refuted_by, AreLines, IsNext};

use crate::fields::Stop;
use crate::lines::lines_of;
use crate::steps::{Line, line_at};
use std::alloc::{AllocError, Global};
use std::marker::Model;
use td_refutation::{Step, StepKind};

/// The lines of steps, and the bound.
#[derive(Debug, Drop)]
struct Inside {
    lines: Vec<u8>,
    bound: Option<u64>,
}

/// A bound that steps are to show, or that no admitted pair lies in the cube. The steps are kept as
/// the text of their lines, which is the smallest form.
#[derive(Debug, Drop)]
pub struct Refuted {
    inside: Box<Inside>,
}

impl Model for Refuted {
    ghost use Rattle.td_certificate.specs.Steps as steps;
    ghost use Rattle.td_certificate.specs.Lines as lines;

    ghost Value = { steps.Refuted };

    ghost view = { λ refuted. lines.refuted_by refuted.inside.value.lines.items refuted.inside.value.bound };

    ghost invariant = { λ refuted. lines.AreLines refuted.inside.value.lines.items };
}

impl Refuted {
    /// The bound that the steps of these lines are to show.
    fn new(alloc: Global, lines: &[u8], bound: Option<u64>) -> Result<Refuted, AllocError>
        requires { AreLines lines.now }
        ensures { IfOk result (λ refuted. refuted ≡ refuted_by lines.now bound) }
    {
        let lines = Vec::from_slice(alloc, lines)?;
        let inside = Box::new(alloc, Inside { lines, bound })?;
        Ok(Refuted { inside })
    }

    /// What these steps are to show, a bound, or that no admitted pair lies in the cube; none where
    /// a number of theirs is above 10^18. The error is out of memory.
    pub fn of_steps(
        alloc: Global,
        steps: &[Step],
        bound: Option<u64>,
    ) -> Result<Option<Refuted>, AllocError>
        requires { IsBoundText bound }
        ensures is { IfOk result (λ answer. IfSome answer (λ refuted. refuted ≡ record { steps = map step_of steps.now; bound = bound })) }
        ensures spelled { IfOk result (λ answer. IfSome answer IsRefutedText) }
    {
        let Some(lines) = lines_of(alloc, steps)? else {
            return Ok(None);
        };
        let inside = Box::new(alloc, Inside { lines, bound })?;
        Ok(Some(Refuted { inside }))
    }

    /// How many bytes the lines of its steps have.
    pub fn byte_count(&self) -> usize
        ensures { result ≡ length (steps_text self.now.steps) }
    {
        self.inside.lines.len()
    }

    /// The bound, in steps of time; none where the steps are to show that no admitted pair lies in
    /// the cube.
    pub fn bound(&self) -> Option<u64>
        ensures { result ≡ self.now.bound }
    {
        self.inside.bound
    }

    /// The steps that are to show it, in their order.
    pub fn steps(&self) -> Steps<'_>
        ensures steps { result ≡ self.now.steps }
        ensures few { length self.now.steps < 2 ^ 63 }
    {
        Steps {
            rest: &self.inside.lines,
        }
    }

    /// The lines of the steps.
    pub(crate) fn lines(&self) -> &[u8]
        ensures { result.now ≡ steps_text self.now.steps }
    {
        &self.inside.lines
    }
}

/// Steps, one after another.
#[derive(Drop)]
pub struct Steps<'a> {
    rest: &'a [u8],
}

impl<'a> Model for Steps<'a> {
    ghost use Rattle.std.specs.Prelude.{List};
    ghost use Rattle.td_refutation.specs.Whole.{Step};
    ghost use Rattle.td_certificate.specs.Lines as lines;

    ghost Value = { List Step };

    ghost view = { λ steps. lines.steps_in steps.rest.now };

    ghost invariant = { λ steps. lines.AreLines steps.rest.now };
}

impl<'a> Steps<'a> {
    /// Takes the next step: its kind, and its numbers in place of those that are there. The error
    /// is out of memory.
    pub fn next(&mut self, numbers: &mut Vec<u64>) -> Result<Option<StepKind>, AllocError>
        ensures { IfOk result (IsNext self.old self.new numbers.new.items) }
    {
        if self.rest.is_empty() {
            return Ok(None);
        }
        match line_at(self.rest, numbers) {
            Ok((Line::Step(kind), rest)) => {
                self.rest = rest;
                Ok(Some(kind))
            }
            Ok((Line::Bound(_), _)) | Err(_) => Err(AllocError),
        }
    }
}

/// Takes the steps of a leaf that is refuted, and the line of its bound.
pub fn refuted_lines(alloc: Global, text: &[u8]) -> Result<(Refuted, &[u8]), Stop<'_>>
    ensures { Gives (λ x. (x.0, x.1.now)) result (refuted_at text.now) }
{
    let mut numbers = Vec::new(alloc);
    let mut rest = text;
    'lines: loop {
        match line_at(rest, &mut numbers)? {
            (Line::Step(_), after) => rest = after,
            (Line::Bound(bound), after) => {
                let lines = &text[..text.len() - rest.len()];
                return Ok((Refuted::new(alloc, lines, bound)?, after));
            }
        }
    }
}

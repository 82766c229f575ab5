//! The lines of a refutation, in the numbering of certificates.

use crate::names::Names;
use std::alloc::{AllocError, Global};
use td_cdcl::{ClauseNumber, Literal};
use td_circuit::Circuit;
use td_refutation::{Step, StepKind};
use td_span_search as search;
use td_span_search::{Meaning, Refutation, Span};

/// The lines of a refutation: its variables, and then its steps. The error is out of memory.
pub fn steps_of(
    alloc: Global,
    circuit: &Circuit,
    refutation: Refutation,
) -> Result<Vec<Step>, AllocError> {
    let names = Names::new(alloc, circuit)?;
    let mut steps = Vec::new(alloc);
    let Refutation {
        variables,
        steps: found,
        ..
    } = refutation;
    for variable in &variables {
        steps.push(variable_line(alloc, &names, *variable)?)?;
    }
    for step in found {
        steps.push(step_line(alloc, &names, &step)?)?;
    }
    Ok(steps)
}

fn line(alloc: Global, kind: StepKind, numbers: &[u64]) -> Result<Step, AllocError> {
    Ok(Step {
        kind,
        numbers: Vec::from_slice(alloc, numbers)?,
    })
}

fn variable_line(alloc: Global, names: &Names, variable: Meaning) -> Result<Step, AllocError> {
    match variable {
        Meaning::First(net) => line(alloc, StepKind::First, &[names.of(net)]),
        Meaning::Last(net) => line(alloc, StepKind::Last, &[names.of(net)]),
        Meaning::Span(span) | Meaning::Forgotten(span) => span_line(alloc, names, span),
        Meaning::Differ { inputs, at_least } => {
            line(alloc, StepKind::Flips, &[inputs as u64, at_least as u64])
        }
    }
}

fn span_line(alloc: Global, names: &Names, span: Span) -> Result<Step, AllocError> {
    let net = names.of(span.net);
    let level = u64::from(span.level);
    if span.is_endless() {
        line(alloc, StepKind::Span, &[net, level, span.first])
    } else {
        line(alloc, StepKind::Span, &[net, level, span.first, span.last])
    }
}

fn step_line(alloc: Global, names: &Names, step: &search::Step) -> Result<Step, AllocError> {
    match step {
        search::Step::Gate(clause) => clause_line(alloc, StepKind::Gate, clause),
        search::Step::Table(clause) => clause_line(alloc, StepKind::Table, clause),
        search::Step::Net(clause) => clause_line(alloc, StepKind::Net, clause),
        search::Step::Pairs(clause) => clause_line(alloc, StepKind::Pairs, clause),
        search::Step::Keep(clause) => clause_line(alloc, StepKind::Keep, clause),
        search::Step::Lemma(clause, hints) => {
            let mut numbers = Vec::new(alloc);
            push_shown(clause, hints, &mut numbers)?;
            Ok(Step {
                kind: StepKind::Lemma,
                numbers,
            })
        }
        search::Step::End {
            net,
            level,
            place,
            clause,
            hints,
        } => {
            let mut numbers = vec![in alloc; names.of(*net), u64::from(*level), *place]?;
            push_shown(clause, hints, &mut numbers)?;
            Ok(Step {
                kind: StepKind::End,
                numbers,
            })
        }
        search::Step::Again(net) => line(alloc, StepKind::Again, &[names.of(*net)]),
    }
}

fn clause_line(alloc: Global, kind: StepKind, clause: &[Literal]) -> Result<Step, AllocError> {
    let mut numbers = Vec::with_capacity(alloc, clause.len())?;
    push_all(clause, &mut numbers)?;
    Ok(Step { kind, numbers })
}

// Adds a clause after the count of its literals, and then the hints that show it.
fn push_shown(
    clause: &[Literal],
    hints: &[ClauseNumber],
    numbers: &mut Vec<u64>,
) -> Result<(), AllocError> {
    numbers.push(clause.len() as u64)?;
    push_all(clause, numbers)?;
    push_all(hints, numbers)
}

fn push_all(items: &[u32], numbers: &mut Vec<u64>) -> Result<(), AllocError> {
    numbers.reserve(items.len())?;
    for item in items {
        numbers.push(*item as u64)?;
    }
    Ok(())
}

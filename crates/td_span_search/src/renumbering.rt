//! The variables of steps, numbered by how often they are used.

use crate::refutation::{Refutation, Step};
use crate::search::Meaning;
use std::alloc::{AllocError, Global};
use td_cdcl::{Literal, literal_at, read, small, variable_of, write_at};

/// How often a variable is used.
#[derive(Clone, Copy, Drop)]
struct Use {
    rank: u64,
    variable: u32,
}

/// Numbers the variables of steps anew, those first that are used most, and leaves out the others.
pub(crate) fn renumbered(
    alloc: Global,
    meanings: &[Meaning],
    mut steps: Vec<Step>,
    is_empty: bool,
) -> Result<Refutation, AllocError> {
    let mut counts = vec![in alloc; 0u64; meanings.len()]?;
    for step in &steps {
        for literal in literals_of(step) {
            let variable = variable_of(*literal) as usize;
            let count = read(&counts, variable, 0);
            write_at(&mut counts, variable, count.saturating_add(1));
        }
    }
    let mut uses = Vec::new(alloc);
    for (variable, count) in counts.iter().enumerate() {
        if *count > 0 {
            uses.push(Use {
                rank: u64::MAX.saturating_sub(*count),
                variable: small(variable),
            })?;
        }
    }
    uses.sort_unstable_by_key(|used| (used.rank, used.variable));
    let mut variables = Vec::new(alloc);
    let mut numbers = vec![in alloc; 0u32; meanings.len()]?;
    for (number, used) in uses.iter().enumerate() {
        write_at(&mut numbers, used.variable as usize, small(number));
        if let Some(meaning) = meanings.get(used.variable as usize) {
            variables.push(*meaning)?;
        }
    }
    for step in steps.iter_mut() {
        renumber(step, &numbers);
    }
    Ok(Refutation {
        variables,
        steps,
        is_empty,
    })
}

/// The literals of a step's clause.
fn literals_of(step: &Step) -> &[Literal] {
    match step {
        Step::Gate(clause)
        | Step::Table(clause)
        | Step::Net(clause)
        | Step::Pairs(clause)
        | Step::Keep(clause)
        | Step::Lemma(clause, _)
        | Step::End { clause, .. } => clause,
        Step::Again(_) => &[],
    }
}

fn renumber(step: &mut Step, numbers: &[u32]) {
    match step {
        Step::Gate(clause)
        | Step::Table(clause)
        | Step::Net(clause)
        | Step::Pairs(clause)
        | Step::Keep(clause)
        | Step::Lemma(clause, _)
        | Step::End { clause, .. } => renumber_all(clause, numbers),
        Step::Again(_) => {}
    }
}

fn renumber_all(clause: &mut [Literal], numbers: &[u32]) {
    for literal in clause.iter_mut() {
        let number = read(numbers, variable_of(*literal) as usize, 0);
        *literal = literal_at(number, *literal % 2 == 0);
    }
}

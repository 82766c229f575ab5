//! How a search that was cut short goes on.

use crate::lines::help;
use std::alloc::AllocError;
use td_answer::Outcome;
use td_lines::{Cause, Line, Text};
use td_request::{MOST_NODES, Search, Strategy};

/// Why a search ended, where its report says so: a table doesn't.
fn cause_in(report: &[Line]) -> Option<Cause> {
    for line in report {
        if let Line::Cause(cause) = line {
            return Some(*cause);
        }
    }
    None
}

/// Appends that a search was cut short, or one of those for each output, and how it goes on; and
/// that no certificate was written, where one was asked for.
pub(crate) fn cut_short(
    text: &mut Text,
    search: &Search<'_>,
    outcome: &Outcome,
) -> Result<(), AllocError> {
    let cause = cause_in(outcome.report.lines());
    push_cause(text, search, cause)?;
    if search.certificate.is_some() && outcome.certificate.is_none() {
        uncertified(text, search.between)?;
    }
    ways_on(text, search, cause)
}

/// Appends why the search was cut short.
fn push_cause(
    text: &mut Text,
    search: &Search<'_>,
    cause: Option<Cause>,
) -> Result<(), AllocError> {
    let budget = u64::from(search.effort.budget);
    match cause {
        Some(Cause::Stop) => {
            text.push(b"the file of --stop ended the search; both figures are true")
        }
        Some(Cause::Effort) => {
            text.push(b"the search has nothing more to try; both figures are true")
        }
        Some(Cause::Time) => text.push(b"the seconds are over; both figures are true"),
        Some(Cause::Memory) => text.push(memory_ended(search)),
        Some(Cause::Budget | Cause::Required) => text.number_between(
            b"the search used up its budget of ",
            budget,
            b" nodes and units of work; both figures are true",
        ),
        None => text.number_between(
            b"the search for some output ended before it was done: ",
            budget,
            b" nodes are the budget of each, unless memory, time or --stop ended it; all figures are true",
        ),
    }
}

/// That memory ended the search: what it was given, or all that there is.
fn memory_ended(search: &Search<'_>) -> &'static [u8] {
    if search.effort.memory.is_some() {
        b"the search wants more memory than --memory gives it; both figures are true"
    } else {
        b"the search wants more memory than there is; both figures are true"
    }
}

/// Appends that no certificate was written, and what to do.
fn uncertified(text: &mut Text, between: bool) -> Result<(), AllocError> {
    if between {
        return help(
            text,
            b"--strategy refute, for a certificate: no steps showed the upper figure",
        );
    }
    help(
        text,
        b"--cert-between, for a certificate of both figures: none was written",
    )
}

/// Appends which options let a search go on that ended for this cause, or for any in a table.
fn ways_on(text: &mut Text, search: &Search<'_>, cause: Option<Cause>) -> Result<(), AllocError> {
    match cause {
        Some(Cause::Stop) => return Ok(()),
        Some(Cause::Effort) => other_strategy(text, search.strategy)?,
        Some(Cause::Memory) => {
            further_strategy(text, search.strategy)?;
            more_memory(text, search)?;
        }
        Some(Cause::Budget | Cause::Required) => {
            further_strategy(text, search.strategy)?;
            more_budget(text, search.effort.budget)?;
        }
        Some(Cause::Time) => {
            further_strategy(text, search.strategy)?;
            more_time(text, search)?;
        }
        None => {
            further_strategy(text, search.strategy)?;
            more_budget(text, search.effort.budget)?;
            more_time(text, search)?;
            more_memory(text, search)?;
        }
    }
    help(
        text,
        b"or fewer pairs: --first, --second, --hold, --flips; or `tdelay parts`",
    )
}

fn further_strategy(text: &mut Text, strategy: Strategy) -> Result<(), AllocError> {
    if strategy == Strategy::Least {
        help(text, b"--strategy auto, which goes on by other ways")?;
    }
    Ok(())
}

fn other_strategy(text: &mut Text, strategy: Strategy) -> Result<(), AllocError> {
    if strategy != Strategy::Lead {
        help(
            text,
            b"--strategy lead, which goes on where pairs keep no conditions",
        )?;
    }
    Ok(())
}

fn more_budget(text: &mut Text, budget: u32) -> Result<(), AllocError> {
    if budget < MOST_NODES {
        help(text, b"a greater --budget, at most 10000000")?;
    }
    Ok(())
}

fn more_memory(text: &mut Text, search: &Search<'_>) -> Result<(), AllocError> {
    if search.effort.memory.is_some() {
        help(text, b"more --memory, or none")?;
    }
    Ok(())
}

fn more_time(text: &mut Text, search: &Search<'_>) -> Result<(), AllocError> {
    if search.effort.seconds.is_some() {
        help(text, b"more --seconds, or none")?;
    }
    if search.effort.workers == 1 {
        help(text, b"--workers N, as many as the machine has processors")?;
    }
    Ok(())
}

//! What is known of a required moment.

ghost use Rattle.std.specs.Prelude.{◌≡◌, ◌++◌, OnOk};
ghost use Rattle.td_answer.specs.Requirements.{standing_of, standing_by, requirement_of, bound_standing, is_decided, required_lines, met_lines, met_ending, cause_by, ending_of_standing, ending_by};

use crate::status::Status;
use std::alloc::AllocError;
use td_lines::{Cause, Found, Line, Report, Requirement, Standing};

/// How a required moment stands: a pair has the lower figure, and none is later than the upper one.
fn standing_of(moment: u64, low: u64, high: u64) -> Standing
    ensures { result ≡ standing_of moment low high }
{
    if high <= moment {
        return Standing::Met;
    }
    if moment < low {
        return Standing::Violated;
    }
    Standing::Open
}

/// How a required moment stands by what is found of an output.
fn standing_by(moment: u64, found: Found) -> Standing
    ensures { result ≡ standing_by moment found }
{
    match found {
        Found::Exact(time) => standing_of(moment, time, time),
        Found::Between { low, high } => standing_of(moment, low, high),
        Found::AtMost(high) => standing_of(moment, 0, high),
        Found::NoPair => Standing::Met,
    }
}

/// How the required moment stands, where there is one, by what is found of an output.
pub(crate) fn requirement_of(required: Option<u64>, found: Found) -> Option<Requirement>
    ensures { result ≡ requirement_of required found }
{
    match required {
        None => None,
        Some(moment) => Some(Requirement {
            moment,
            standing: standing_by(moment, found),
        }),
    }
}

/// Whether a moment is required, and two figures decide whether it is met.
pub(crate) fn is_decided(required: Option<u64>, low: u64, high: u64) -> bool
    ensures { result ≡ is_decided required low high }
{
    match required {
        None => false,
        Some(moment) => high <= moment || moment < low,
    }
}

/// Appends how the required moment stands, where there is one.
pub(crate) fn push_required(
    report: &mut Report,
    required: Option<u64>,
    low: u64,
    high: u64,
) -> Result<(), AllocError>
    ensures { OnOk result (report.new ≡ report.old ++ required_lines required low high) }
{
    match required {
        None => Ok(()),
        Some(moment) => report.add(Line::Required(moment, standing_of(moment, low, high))),
    }
}

/// Why figures are open.
pub(crate) fn cause_by(required: Option<u64>, low: u64, high: u64, cause: Cause) -> Cause
    ensures { result ≡ cause_by required low high cause }
{
    if is_decided(required, low, high) {
        return Cause::Required;
    }
    cause
}

/// How a required moment stands by a bound alone: no pair is later than that.
fn bound_standing(moment: u64, bound: Option<u64>) -> Standing
    ensures { result ≡ bound_standing moment bound }
{
    match bound {
        None => Standing::Open,
        Some(bound) => {
            if bound <= moment {
                Standing::Met
            } else {
                Standing::Open
            }
        }
    }
}

/// Appends how the required moment stands by a bound alone, where there is one.
pub(crate) fn push_met(
    report: &mut Report,
    required: Option<u64>,
    bound: Option<u64>,
) -> Result<(), AllocError>
    ensures { OnOk result (report.new ≡ report.old ++ met_lines required bound) }
{
    match required {
        None => Ok(()),
        Some(moment) => report.add(Line::Required(moment, bound_standing(moment, bound))),
    }
}

/// How bounds end: as the required moment stands by the least of them.
pub(crate) fn met_ending(required: Option<u64>, bound: Option<u64>) -> Status
    ensures { result ≡ met_ending required bound }
{
    match required {
        None => Status::Done,
        Some(moment) => ending_of(bound_standing(moment, bound)),
    }
}

fn ending_of(standing: Standing) -> Status
    ensures { result ≡ ending_of_standing standing }
{
    match standing {
        Standing::Met => Status::Done,
        Standing::Violated => Status::Violated,
        Standing::Open => Status::Between,
    }
}

/// How a search ends with two figures: as a required moment stands, or else so.
pub(crate) fn ending_by(required: Option<u64>, plain: Status, low: u64, high: u64) -> Status
    ensures { result ≡ ending_by required plain low high }
{
    match required {
        None => plain,
        Some(moment) => ending_of(standing_of(moment, low, high)),
    }
}

//! What the options of a command say, each by itself.

ghost use Rattle.std.specs.Prelude.{◌≡◌, ◌<◌, ◌^◌, ℕ, IfSome, IfNone, IfOk};
ghost use Rattle.clap.specs.Words.{found_of, rows_of};
ghost use Rattle.td_command.specs.CommandLine.{HasNumber, HasCount, HasFlag, LacksFlag, HasWord, HasWords, HasDefault, HasReading, HasWholeReading, HasWorkers, HasBudget, HasParts, IsAnswered, IsGiven, IsTold, is_told, words_of};

use clap::ArgMatches;
use clap::parser::ValueSource;
use std::alloc::{AllocError, Global};
use td_gates::Delay;
use td_reading::{Outputs, Reading, Told};
use td_request::{Files, MOST_NODES, MOST_PARTS, MOST_WORKERS};

/// The word of an option, if it is given.
pub(crate) fn word<'a>(matches: &ArgMatches<'a>, id: &str) -> Option<&'a str>
    ensures { HasWord id.now (rows_of (found_of matches.now)) result }
{
    matches.get_str(id)
}

/// The word of an argument that has to be given.
pub(crate) fn needed<'a>(matches: &ArgMatches<'a>, id: &str) -> Option<&'a str>
    ensures { IsAnswered (IsGiven id.now (rows_of (found_of matches.now))) result }
{
    matches.get_str(id)
}

/// The files that are given for an argument, all of them in order; none where there are none.
pub(crate) fn files<'a>(
    alloc: Global,
    matches: &ArgMatches<'a>,
    id: &str,
) -> Result<Option<Files<'a>>, AllocError>
    ensures { IfOk result (IsAnswered (HasWords id.now (rows_of (found_of matches.now)))) }
{
    let Some(given) = matches.get_raw(id) else {
        return Ok(None);
    };
    if given.is_empty() {
        return Ok(None);
    }
    let mut names = Vec::new(alloc);
    names.extend_from_slice(given)?;
    Ok(Some(Files::new(names)))
}

/// The number of an option.
fn number(matches: &ArgMatches<'_>, id: &str) -> Option<u32>
    ensures some { IfSome result (λ number. HasNumber id.now (rows_of (found_of matches.now)) number) }
    ensures none { IfNone result ((number : ℕ) → number < 4294967296 → ¬ HasNumber id.now (rows_of (found_of matches.now)) number) }
{
    matches.get_one::<u32>(id)
}

/// The number of 64 bits of an option.
fn count_given(matches: &ArgMatches<'_>, id: &str) -> Option<u64>
    ensures some { IfSome result (λ number. HasNumber id.now (rows_of (found_of matches.now)) number) }
    ensures none { IfNone result ((number : ℕ) → number < 2 ^ 64 → ¬ HasNumber id.now (rows_of (found_of matches.now)) number) }
{
    matches.get_one::<u64>(id)
}

/// The number of 64 bits of an option that may be left out.
pub(crate) fn count(matches: &ArgMatches<'_>, id: &str) -> Option<Option<u64>>
    ensures { IsAnswered (HasCount id.now (rows_of (found_of matches.now))) result }
{
    match matches.get_str(id) {
        None => Some(None),
        Some(_) => {
            let number = count_given(matches, id)?;
            Some(Some(number))
        }
    }
}

/// Whether a flag is given.
pub(crate) fn flag_given(matches: &ArgMatches<'_>, id: &str) -> Option<bool>
    ensures { IsAnswered (HasFlag id.now (rows_of (found_of matches.now))) result }
{
    matches.get_one::<bool>(id)
}

/// Whether a flag is left out.
pub(crate) fn flag_left_out(matches: &ArgMatches<'_>, id: &str) -> Option<bool>
    ensures { IsAnswered (LacksFlag id.now (rows_of (found_of matches.now))) result }
{
    let given = flag_given(matches, id)?;
    Some(!given)
}

/// The delay of gates that state none.
pub(crate) fn default(matches: &ArgMatches<'_>) -> Option<Delay>
    ensures { IsAnswered (HasDefault (rows_of (found_of matches.now))) result }
{
    let rise = number(matches, "default-rise")?;
    let fall = number(matches, "default-fall")?;
    Delay::new(rise, fall)
}

/// The words of an option that may be given any number of times, in order.
pub(crate) fn outputs<'a>(
    alloc: Global,
    matches: &ArgMatches<'a>,
    id: &str,
) -> Result<Outputs<'a>, AllocError>
    ensures { IfOk result (λ outputs. outputs ≡ words_of id.now (rows_of (found_of matches.now))) }
{
    let mut names = Vec::new(alloc);
    match matches.get_raw(id) {
        Some(given) => {
            names.extend_from_slice(given)?;
            Ok(Outputs::new(names))
        }
        None => Ok(Outputs::new(names)),
    }
}

/// How the netlist's text is read, of all outputs.
pub(crate) fn whole_reading<'a>(alloc: Global, matches: &ArgMatches<'a>) -> Option<Reading<'a>>
    ensures { IsAnswered (HasWholeReading (rows_of (found_of matches.now))) result }
{
    let default = default(matches)?;
    Some(Reading::whole(alloc, default))
}

/// How the netlist's text is read, of the outputs that are asked about.
pub(crate) fn reading<'a>(
    alloc: Global,
    matches: &ArgMatches<'a>,
) -> Result<Option<Reading<'a>>, AllocError>
    ensures { IfOk result (IsAnswered (HasReading (rows_of (found_of matches.now)))) }
{
    let Some(default) = default(matches) else {
        return Ok(None);
    };
    let outputs = outputs(alloc, matches, "output")?;
    Ok(Some(Reading { default, outputs }))
}

/// Whether the words give this option a value.
fn is_told(matches: &ArgMatches<'_>, id: &str) -> bool
    ensures { result ≡ is_told id.now (rows_of (found_of matches.now)) }
{
    match matches.value_source(id) {
        Some(ValueSource::CommandLine) => true,
        Some(ValueSource::DefaultValue) => false,
        None => false,
    }
}

/// What the words tell of how the netlist's text is read.
pub(crate) fn told(matches: &ArgMatches<'_>) -> Told
    ensures { IsTold (rows_of (found_of matches.now)) result }
{
    let rise = is_told(matches, "default-rise");
    let fall = is_told(matches, "default-fall");
    let outputs = is_told(matches, "output");
    Told {
        rise,
        fall,
        outputs,
    }
}

/// How many threads search.
pub(crate) fn workers(matches: &ArgMatches<'_>) -> Option<u32>
    ensures { IsAnswered (HasWorkers (rows_of (found_of matches.now))) result }
{
    let workers = number(matches, "workers")?;
    if 0 < workers && workers <= MOST_WORKERS {
        Some(workers)
    } else {
        None
    }
}

/// The most nodes that a search may handle.
pub(crate) fn budget(matches: &ArgMatches<'_>) -> Option<u32>
    ensures { IsAnswered (HasBudget (rows_of (found_of matches.now))) result }
{
    let budget = number(matches, "budget")?;
    if budget <= MOST_NODES {
        Some(budget)
    } else {
        None
    }
}

/// How many parts a question has.
pub(crate) fn parts(matches: &ArgMatches<'_>) -> Option<u32>
    ensures { IsAnswered (HasParts (rows_of (found_of matches.now))) result }
{
    let parts = number(matches, "parts")?;
    if 0 < parts && parts <= MOST_PARTS {
        Some(parts)
    } else {
        None
    }
}

//! How a required moment stands in a row of outputs, and its slacks, as text and as JSON.

ghost use Rattle.std.specs.Prelude.{◌≡◌, ◌++◌, codes, decimal, string_bytes, Some, IfOk, OnOk};
ghost use Rattle.json.specs.Json.{number};
ghost use Rattle.json.specs.Tree.{json_tokens, members_tokens};
ghost use Rattle.td_lines.specs.declared.line.Found.TheVariants as FoundAs;
ghost use Rattle.td_lines.specs.Texts.{slack_text, slacks_text, requirement_text};
ghost use Rattle.td_lines.specs.Values.{Adds, member_tokens, found_key, slack_value, slacks_value, slack_object, requirement_value};

use crate::figures::holds;
use crate::line::{Found, Requirement};
use crate::members::word;
use crate::texts::Text;
use json::Writer;
use std::alloc::{AllocError, Global};

// ---- text

/// A moment less a figure, with its sign.
fn slack(out: &mut Text, moment: u64, figure: u64) -> Result<(), AllocError>
    ensures { OnOk result (out.new ≡ out.old ++ slack_text moment figure) }
{
    if moment < figure {
        return out.number_behind(b"-", figure - moment);
    }
    out.number(moment - figure)
}

/// The slacks of two figures, the lower slack first.
fn slacks_between(out: &mut Text, moment: u64, low: u64, high: u64) -> Result<(), AllocError>
    ensures { OnOk result (out.new ≡ out.old ++ slacks_text moment (FoundAs.Between low high)) }
{
    slack(out, moment, high)?;
    out.push(b"..")?;
    slack(out, moment, low)
}

/// The slack of an upper figure alone.
fn slack_from(out: &mut Text, moment: u64, high: u64) -> Result<(), AllocError>
    ensures { OnOk result (out.new ≡ out.old ++ slacks_text moment (FoundAs.AtMost high)) }
{
    slack(out, moment, high)?;
    out.push(b"..none")
}

fn slacks(out: &mut Text, moment: u64, found: Found) -> Result<(), AllocError>
    ensures { OnOk result (out.new ≡ out.old ++ slacks_text moment found) }
{
    match found {
        Found::Exact(time) => slack(out, moment, time),
        Found::Between { low, high } => slacks_between(out, moment, low, high),
        Found::AtMost(high) => slack_from(out, moment, high),
        Found::NoPair => out.push(b"none"),
    }
}

fn required(out: &mut Text, required: Requirement, found: Found) -> Result<(), AllocError>
    ensures { OnOk result (out.new ≡ out.old ++ requirement_text (Some required) found) }
{
    out.word_between(b" required ", required.standing.word(), b" slack ")?;
    slacks(out, required.moment, found)
}

/// How a required moment stands, where there is one, and its slack by what is found.
pub(crate) fn requirement(
    out: &mut Text,
    required: Option<Requirement>,
    found: Found,
) -> Result<(), AllocError>
    ensures { OnOk result (out.new ≡ out.old ++ requirement_text required found) }
{
    match required {
        None => Ok(()),
        Some(required) => self::required(out, required, found),
    }
}

// ---- JSON

/// The digits of a number behind a minus.
fn below_zero(alloc: Global, number: u64) -> Result<String, AllocError>
    ensures { IfOk result (λ text. string_bytes text ≡ codes "-" ++ decimal number) }
{
    let text = format!(in alloc; "-{number}")?;
    Ok(text)
}

fn behind_minus(alloc: Global, writer: &mut Writer, count: u64) -> Result<(), AllocError>
    ensures { OnOk result (Adds writer.old writer.new (json_tokens (number (codes "-" ++ decimal count)))) }
{
    let text = below_zero(alloc, count)?;
    writer.number(&text)
}

/// A moment less a figure, with its sign.
fn slack_of(alloc: Global, writer: &mut Writer, moment: u64, figure: u64) -> Result<(), AllocError>
    ensures { OnOk result (Adds writer.old writer.new (json_tokens (slack_value moment figure))) }
{
    if moment < figure {
        return behind_minus(alloc, writer, figure - moment);
    }
    writer.u64(moment - figure)
}

fn exact_of(alloc: Global, writer: &mut Writer, moment: u64, time: u64) -> Result<(), AllocError>
    ensures { OnOk result (Adds writer.old writer.new (member_tokens (codes "exact") (slacks_value moment (FoundAs.Exact time)))) }
{
    writer.key("exact")?;
    slack_of(alloc, writer, moment, time)
}

/// The slacks of two figures, the lower slack first.
fn between_of(
    alloc: Global,
    writer: &mut Writer,
    moment: u64,
    low: u64,
    high: u64,
) -> Result<(), AllocError>
    ensures { OnOk result (Adds writer.old writer.new (member_tokens (codes "between") (slacks_value moment (FoundAs.Between low high)))) }
{
    writer.key("between")?;
    writer.begin_array()?;
    slack_of(alloc, writer, moment, high)?;
    slack_of(alloc, writer, moment, low)?;
    writer.end_array()
}

/// The slack of an upper figure alone.
fn from_of(alloc: Global, writer: &mut Writer, moment: u64, high: u64) -> Result<(), AllocError>
    ensures { OnOk result (Adds writer.old writer.new (member_tokens (codes "between") (slacks_value moment (FoundAs.AtMost high)))) }
{
    writer.key("between")?;
    writer.begin_array()?;
    slack_of(alloc, writer, moment, high)?;
    writer.null()?;
    writer.end_array()
}

/// The slacks under the key of what is found.
fn slacks_of(
    alloc: Global,
    writer: &mut Writer,
    moment: u64,
    found: Found,
) -> Result<(), AllocError>
    ensures { OnOk result (Adds writer.old writer.new (member_tokens (found_key found) (slacks_value moment found))) }
{
    match found {
        Found::Exact(time) => exact_of(alloc, writer, moment, time),
        Found::Between { low, high } => between_of(alloc, writer, moment, low, high),
        Found::AtMost(high) => from_of(alloc, writer, moment, high),
        Found::NoPair => holds(writer, "none"),
    }
}

fn object_of(
    alloc: Global,
    writer: &mut Writer,
    moment: u64,
    found: Found,
) -> Result<(), AllocError>
    ensures { OnOk result (Adds writer.old writer.new (json_tokens (slack_object moment found))) }
{
    writer.begin_object()?;
    slacks_of(alloc, writer, moment, found)?;
    writer.end_object()
}

fn required_of(
    alloc: Global,
    writer: &mut Writer,
    required: Requirement,
    found: Found,
) -> Result<(), AllocError>
    ensures { OnOk result (Adds writer.old writer.new (members_tokens (requirement_value (Some required) found))) }
{
    word(writer, "standing", required.standing.word())?;
    writer.key("slack")?;
    object_of(alloc, writer, required.moment, found)?;
    writer.end_object()
}

/// How a required moment stands, where there is one, and the end of the object.
pub(crate) fn requirement_of(
    alloc: Global,
    writer: &mut Writer,
    required: Option<Requirement>,
    found: Found,
) -> Result<(), AllocError>
    ensures { OnOk result (Adds writer.old writer.new (members_tokens (requirement_value required found))) }
{
    match required {
        None => writer.end_object(),
        Some(required) => required_of(alloc, writer, required, found),
    }
}

//! What is found of a delay, as JSON.

ghost use Rattle.std.specs.Prelude.{true, OnOk};
ghost use Rattle.json.specs.Json.{boolean};
ghost use Rattle.json.specs.Tree.{json_tokens};
ghost use Rattle.td_lines.specs.Values.{Adds, member_tokens, numbers_of, none_to, found_key, found_value, found_object};

use crate::line::Found;
use crate::members::{below, count_of, numbers};
use json::Writer;
use std::alloc::AllocError;

pub(crate) fn two(writer: &mut Writer, key: &str, low: u64, high: u64) -> Result<(), AllocError>
    ensures { OnOk result (Adds writer.old writer.new (member_tokens key.now (numbers_of low high))) }
{
    writer.key(key)?;
    numbers(writer, low, high)
}

pub(crate) fn at_most(writer: &mut Writer, key: &str, high: u64) -> Result<(), AllocError>
    ensures { OnOk result (Adds writer.old writer.new (member_tokens key.now (none_to high))) }
{
    writer.key(key)?;
    below(writer, high)
}

pub(crate) fn holds(writer: &mut Writer, key: &str) -> Result<(), AllocError>
    ensures { OnOk result (Adds writer.old writer.new (member_tokens key.now (boolean true))) }
{
    writer.key(key)?;
    writer.boolean(true)
}

/// The member that says it.
pub(crate) fn found(writer: &mut Writer, found: Found) -> Result<(), AllocError>
    ensures { OnOk result (Adds writer.old writer.new (member_tokens (found_key found) (found_value found))) }
{
    match found {
        Found::Exact(time) => count_of(writer, "exact", time),
        Found::Between { low, high } => two(writer, "between", low, high),
        Found::AtMost(high) => at_most(writer, "between", high),
        Found::NoPair => holds(writer, "none"),
    }
}

/// An object with this member alone.
fn object(writer: &mut Writer, found: Found) -> Result<(), AllocError>
    ensures { OnOk result (Adds writer.old writer.new (json_tokens (found_object found))) }
{
    writer.begin_object()?;
    self::found(writer, found)?;
    writer.end_object()
}

/// A member with such an object.
pub(crate) fn figure(writer: &mut Writer, key: &str, found: Found) -> Result<(), AllocError>
    ensures { OnOk result (Adds writer.old writer.new (member_tokens key.now (found_object found))) }
{
    writer.key(key)?;
    object(writer, found)
}

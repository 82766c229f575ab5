//! Members that tell what a certificate is about, or why it is refused.

ghost use Rattle.std.specs.Prelude.{codes, None, Some, OnOk};
ghost use Rattle.json.specs.Json.{string, member, no_members};
ghost use Rattle.json.specs.Tree.{json_tokens, items_tokens, members_tokens};
ghost use Rattle.td_lines.specs.Values.{Adds, items_by, rows_tokens, member_tokens, delays_value, index_value, output_value, named_line, refused_value};

use crate::members::{count_of, last_count, last_word, word};
use crate::moments::Moments;
use json::Writer;
use std::alloc::AllocError;

/// The delays of a rise and a fall.
pub(crate) fn delays(writer: &mut Writer, rise: u64, fall: u64) -> Result<(), AllocError>
    ensures { OnOk result (Adds writer.old writer.new (json_tokens (delays_value rise fall))) }
{
    writer.begin_object()?;
    count_of(writer, "rise", rise)?;
    count_of(writer, "fall", fall)?;
    writer.end_object()
}

/// The delays of gates that state none.
pub(crate) fn default(writer: &mut Writer, rise: u64, fall: u64) -> Result<(), AllocError>
    ensures { OnOk result (Adds writer.old writer.new (member_tokens (codes "default") (delays_value rise fall))) }
{
    writer.key("default")?;
    delays(writer, rise, fall)
}

/// A number of an output.
fn index(writer: &mut Writer, number: u64) -> Result<(), AllocError>
    ensures { OnOk result (Adds writer.old writer.new (json_tokens (index_value number))) }
{
    writer.begin_object()?;
    count_of(writer, "index", number)?;
    writer.end_object()
}

fn indexes(writer: &mut Writer, numbers: &[u64]) -> Result<(), AllocError>
    ensures { OnOk result (Adds writer.old writer.new (rows_tokens index_value numbers.now)) }
{
    for number in numbers {
        index(writer, *number)?;
    }
    Ok(())
}

/// The numbers, and the end of their array.
fn indexes_ended(writer: &mut Writer, numbers: &[u64]) -> Result<(), AllocError>
    ensures { OnOk result (Adds writer.old writer.new (items_tokens (items_by index_value numbers.now))) }
{
    indexes(writer, numbers)?;
    writer.end_array()
}

fn numbered(writer: &mut Writer, numbers: &[u64]) -> Result<(), AllocError>
    ensures { OnOk result (Adds writer.old writer.new (json_tokens (output_value (Some numbers.now)))) }
{
    writer.begin_array()?;
    indexes_ended(writer, numbers)
}

fn without_numbers(writer: &mut Writer) -> Result<(), AllocError>
    ensures { OnOk result (Adds writer.old writer.new (json_tokens (output_value None))) }
{
    writer.begin_array()?;
    writer.end_array()
}

fn numbers_of(writer: &mut Writer, numbers: &Option<Moments>) -> Result<(), AllocError>
    ensures { OnOk result (Adds writer.old writer.new (json_tokens (output_value numbers.now))) }
{
    match numbers {
        None => without_numbers(writer),
        Some(numbers) => numbered(writer, numbers.all()),
    }
}

/// The numbers of outputs; none where all are meant.
pub(crate) fn output_numbers(
    writer: &mut Writer,
    numbers: &Option<Moments>,
) -> Result<(), AllocError>
    ensures { OnOk result (Adds writer.old writer.new (member_tokens (codes "output") (output_value numbers.now))) }
{
    writer.key("output")?;
    numbers_of(writer, numbers)
}

/// The verdict's name, and the end of the object.
fn name_ended(writer: &mut Writer, name: &str) -> Result<(), AllocError>
    ensures { OnOk result (Adds writer.old writer.new (members_tokens (member (codes "verdict") (string name.now) no_members))) }
{
    last_word(writer, "verdict", name)
}

fn without_line(writer: &mut Writer, number: u8, name: &str) -> Result<(), AllocError>
    ensures { OnOk result (Adds writer.old writer.new (json_tokens (refused_value number name.now None))) }
{
    writer.begin_object()?;
    writer.key("number")?;
    writer.u64(u64::from(number))?;
    name_ended(writer, name)
}

/// The verdict's name and its line, and the end of the object.
fn line_ended(writer: &mut Writer, name: &str, line: u32) -> Result<(), AllocError>
    ensures { OnOk result (Adds writer.old writer.new (members_tokens (named_line name.now line))) }
{
    word(writer, "verdict", name)?;
    last_count(writer, "line", u64::from(line))
}

fn with_line(writer: &mut Writer, number: u8, name: &str, line: u32) -> Result<(), AllocError>
    ensures { OnOk result (Adds writer.old writer.new (json_tokens (refused_value number name.now (Some line)))) }
{
    writer.begin_object()?;
    writer.key("number")?;
    writer.u64(u64::from(number))?;
    line_ended(writer, name, line)
}

fn verdict(writer: &mut Writer, number: u8, name: &str, line: Option<u32>) -> Result<(), AllocError>
    ensures { OnOk result (Adds writer.old writer.new (json_tokens (refused_value number name.now line))) }
{
    match line {
        None => without_line(writer, number, name),
        Some(line) => with_line(writer, number, name, line),
    }
}

/// The verdict that refuses a certificate.
pub(crate) fn refused(
    writer: &mut Writer,
    number: u8,
    name: &str,
    line: Option<u32>,
) -> Result<(), AllocError>
    ensures { OnOk result (Adds writer.old writer.new (member_tokens (codes "refused") (refused_value number name.now line))) }
{
    writer.key("refused")?;
    verdict(writer, number, name, line)
}

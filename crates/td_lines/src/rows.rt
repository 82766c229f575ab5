//! Rows of outputs: what is found of each, as text and as JSON.

ghost use Rattle.std.specs.Prelude.{◌≡◌, ◌++◌, Some, OnOk};
ghost use Rattle.json.specs.Tree.{members_tokens};
ghost use Rattle.td_lines.specs.declared.line.Found.TheVariants as FoundAs;
ghost use Rattle.td_lines.specs.Texts.{found_text, edges_text, pair_text, late, column_text, changes_text, requirement_text, figures_text, columns_text, row_line};
ghost use Rattle.td_lines.specs.Values.{Adds, glitch_value, fall_value, changes_value, pair_value, edges_value, requirement_value, row_value};

use crate::figures::{figure, found as found_of};
use crate::line::{Changes, Found, Row, Vectors};
use crate::members::{Valued, bound, vector, word};
use crate::slacks::{requirement, requirement_of};
use crate::text::{Printed, bound_moment, characters, moment};
use crate::texts::Text;
use json::Writer;
use std::alloc::{AllocError, Global};

/// A moment after 0, if this is one.
fn late(time: u64) -> Option<u64>
    ensures { result ≡ late time }
{
    if time == 0 { None } else { Some(time) }
}

// ---- text

fn found_between(out: &mut Text, low: u64, high: u64) -> Result<(), AllocError>
    ensures { OnOk result (out.new ≡ out.old ++ found_text (FoundAs.Between low high)) }
{
    out.number_behind(b"between ", low)?;
    out.number_behind(b" ", high)
}

fn found(out: &mut Text, found: Found) -> Result<(), AllocError>
    ensures { OnOk result (out.new ≡ out.old ++ found_text found) }
{
    match found {
        Found::Exact(time) => out.number_behind(b"exact ", time),
        Found::Between { low, high } => found_between(out, low, high),
        Found::AtMost(high) => out.number_behind(b"between none ", high),
        Found::NoPair => out.push(b"none"),
    }
}

fn edges(out: &mut Text, edges: Option<u64>) -> Result<(), AllocError>
    ensures { OnOk result (out.new ≡ out.old ++ edges_text edges) }
{
    out.push(b" edges ")?;
    bound_moment(out, edges)
}

fn paired(out: &mut Text, pair: &Vectors) -> Result<(), AllocError>
    ensures { OnOk result (out.new ≡ out.old ++ pair_text (Some pair.now)) }
{
    out.push(b" from ")?;
    characters(out, pair.from.bits())?;
    out.push(b" to ")?;
    characters(out, pair.to.bits())
}

fn pair(out: &mut Text, pair: &Option<Vectors>) -> Result<(), AllocError>
    ensures { OnOk result (out.new ≡ out.old ++ pair_text pair.now) }
{
    match pair {
        None => Ok(()),
        Some(pair) => paired(out, pair),
    }
}

fn column_between(out: &mut Text, low: u64, high: u64) -> Result<(), AllocError>
    ensures { OnOk result (out.new ≡ out.old ++ column_text (FoundAs.Between low high)) }
{
    out.number(low)?;
    out.number_behind(b"..", high)
}

fn column(out: &mut Text, found: Found) -> Result<(), AllocError>
    ensures { OnOk result (out.new ≡ out.old ++ column_text found) }
{
    match found {
        Found::Exact(time) => moment(out, late(time)),
        Found::Between { low, high } => column_between(out, low, high),
        Found::AtMost(high) => out.number_behind(b"none..", high),
        Found::NoPair => out.push(b"none"),
    }
}

fn changed(out: &mut Text, changes: &Changes) -> Result<(), AllocError>
    ensures { OnOk result (out.new ≡ out.old ++ changes_text (Some changes.now)) }
{
    out.push(b" rise ")?;
    column(out, changes.rise)?;
    out.push(b" fall ")?;
    column(out, changes.fall)?;
    out.push(b" glitch ")?;
    column(out, changes.glitch)
}

fn changes(out: &mut Text, changes: &Option<Changes>) -> Result<(), AllocError>
    ensures { OnOk result (out.new ≡ out.old ++ changes_text changes.now) }
{
    match changes {
        None => Ok(()),
        Some(changes) => changed(out, changes),
    }
}

/// What is found of an output, and its bound by edges.
fn figures(out: &mut Text, row: &Row) -> Result<(), AllocError>
    ensures { OnOk result (out.new ≡ out.old ++ figures_text row.now) }
{
    out.word_between(b"each ", row.output.text(), b" ")?;
    found(out, row.found)?;
    edges(out, row.edges)
}

/// What else is asked for.
fn columns(out: &mut Text, row: &Row) -> Result<(), AllocError>
    ensures { OnOk result (out.new ≡ out.old ++ columns_text row.now) }
{
    pair(out, &row.pair)?;
    changes(out, &row.changes)?;
    requirement(out, row.required, row.found)
}

impl Printed for Row {
    ghost text = { row_line };

    fn print(&self, out: &mut Text) -> Result<(), AllocError> {
        figures(out, self)?;
        columns(out, self)?;
        out.push(b"\n")
    }
}

/// Prints the line of a row.
pub fn print_row(out: &mut Text, row: &Row) -> Result<(), AllocError>
    ensures { OnOk result (out.new ≡ out.old ++ row_line row.now) }
{
    row.print(out)
}

// ---- JSON

/// The column of glitches, and what follows it.
fn glitch_of(
    alloc: Global,
    writer: &mut Writer,
    changes: &Changes,
    row: &Row,
) -> Result<(), AllocError>
    ensures { OnOk result (Adds writer.old writer.new (members_tokens (glitch_value changes.now (requirement_value row.now.required row.now.found)))) }
{
    figure(writer, "glitch", changes.glitch)?;
    requirement_of(alloc, writer, row.required, row.found)
}

/// The column of falls, and what follows it.
fn fall_of(
    alloc: Global,
    writer: &mut Writer,
    changes: &Changes,
    row: &Row,
) -> Result<(), AllocError>
    ensures { OnOk result (Adds writer.old writer.new (members_tokens (fall_value changes.now (requirement_value row.now.required row.now.found)))) }
{
    figure(writer, "fall", changes.fall)?;
    glitch_of(alloc, writer, changes, row)
}

/// All columns of changes, and what follows them.
fn changed_of(
    alloc: Global,
    writer: &mut Writer,
    changes: &Changes,
    row: &Row,
) -> Result<(), AllocError>
    ensures { OnOk result (Adds writer.old writer.new (members_tokens (changes_value (Some changes.now) (requirement_value row.now.required row.now.found)))) }
{
    figure(writer, "rise", changes.rise)?;
    fall_of(alloc, writer, changes, row)
}

/// What is found by the levels, where that is asked for, and what follows it.
fn changes_of(alloc: Global, writer: &mut Writer, row: &Row) -> Result<(), AllocError>
    ensures { OnOk result (Adds writer.old writer.new (members_tokens (changes_value row.now.changes (requirement_value row.now.required row.now.found)))) }
{
    match &row.changes {
        None => requirement_of(alloc, writer, row.required, row.found),
        Some(changes) => changed_of(alloc, writer, changes, row),
    }
}

/// The pair, and what follows it.
fn vectors_of(
    alloc: Global,
    writer: &mut Writer,
    pair: &Vectors,
    row: &Row,
) -> Result<(), AllocError>
    ensures { OnOk result (Adds writer.old writer.new (members_tokens (pair_value (Some pair.now) (changes_value row.now.changes (requirement_value row.now.required row.now.found))))) }
{
    vector(alloc, writer, "from", &pair.from)?;
    vector(alloc, writer, "to", &pair.to)?;
    changes_of(alloc, writer, row)
}

/// The pair, where it is asked for and known, and what follows it.
fn pair_of(alloc: Global, writer: &mut Writer, row: &Row) -> Result<(), AllocError>
    ensures { OnOk result (Adds writer.old writer.new (members_tokens (pair_value row.now.pair (changes_value row.now.changes (requirement_value row.now.required row.now.found))))) }
{
    match &row.pair {
        None => changes_of(alloc, writer, row),
        Some(pair) => vectors_of(alloc, writer, pair, row),
    }
}

/// The bound by edges, and what follows it.
fn edges_of(alloc: Global, writer: &mut Writer, row: &Row) -> Result<(), AllocError>
    ensures { OnOk result (Adds writer.old writer.new (members_tokens (edges_value row.now))) }
{
    bound(writer, "edges", row.edges)?;
    pair_of(alloc, writer, row)
}

impl Valued for Row {
    ghost value = { row_value };

    fn value(&self, alloc: Global, writer: &mut Writer) -> Result<(), AllocError> {
        writer.begin_object()?;
        word(writer, "output", self.output.text())?;
        found_of(writer, self.found)?;
        edges_of(alloc, writer, self)
    }
}

//! The members of a report as JSON, one for each line.

ghost use Rattle.std.specs.Prelude.{◌≡◌, ◌∷◌, [], map, codes, decimal, string_bytes, Some, None, IfOk, OnOk};
ghost use Rattle.json.specs.Json.{number, string, array, member, no_members, Json};
ghost use Rattle.json.specs.Tree.{json_tokens, items_tokens, members_tokens};
ghost use Rattle.td_nets.specs.Scales.{scale_text};
ghost use Rattle.td_lines.specs.declared.line.Found.TheVariants as FoundAs;
ghost use Rattle.td_lines.specs.Texts.{bit, bits, level_text, kind_text, standing_text};
ghost use Rattle.td_lines.specs.Values.{Adds, items_by, rows_tokens, count_value, unit_text, cause_text, required_value, moment_of, numbers_of, none_to, span_value, spanned_value, place_value, last_value, driven_value, new_value, change_value, found_object, part_value, member_tokens, line_tokens, members_of, named, at_value};

use crate::claims;
use crate::figures::{at_most, figure, holds, two};
use crate::label::Label;
use crate::line::{Cause, Change, Driver, Found, Last, Line, Part, Place, Span, Standing};
use crate::moments::Moments;
use crate::vector::Vector;
use json::Writer;
use std::alloc::{AllocError, Global};
use td_gates::{Kind, Level};
use td_nets::{Scale, Unit};

/// What has a value in JSON.
pub(crate) trait Valued {
    /// Its value.
    ghost value: { Self → Json };

    /// Writes it.
    fn value(&self, alloc: Global, writer: &mut Writer) -> Result<(), AllocError>
        ensures { OnOk result (Adds writer.old writer.new (json_tokens (Self.value self.now))) };
}

/// The values of what follows one another.
fn values<V: Valued>(alloc: Global, writer: &mut Writer, items: &[V]) -> Result<(), AllocError>
    ensures { OnOk result (Adds writer.old writer.new (rows_tokens V.value items.now)) }
{
    for item in items {
        item.value(alloc, writer)?;
    }
    Ok(())
}

/// The values, and the end of their array.
fn values_ended<V: Valued>(
    alloc: Global,
    writer: &mut Writer,
    items: &[V],
) -> Result<(), AllocError>
    ensures { OnOk result (Adds writer.old writer.new (items_tokens (items_by V.value items.now))) }
{
    values(alloc, writer, items)?;
    writer.end_array()
}

/// An array of the values.
pub(crate) fn list<V: Valued>(
    alloc: Global,
    writer: &mut Writer,
    items: &[V],
) -> Result<(), AllocError>
    ensures { OnOk result (Adds writer.old writer.new (json_tokens (array (items_by V.value items.now)))) }
{
    writer.begin_array()?;
    values_ended(alloc, writer, items)
}

/// A member with an array of the values.
fn lists<V: Valued>(
    alloc: Global,
    writer: &mut Writer,
    key: &str,
    items: &[V],
) -> Result<(), AllocError>
    ensures { OnOk result (Adds writer.old writer.new (member_tokens key.now (array (items_by V.value items.now)))) }
{
    writer.key(key)?;
    list(alloc, writer, items)
}

/// The members, and the end of the object.
#[tactic(auto, using(crate::proofs::Steps::lines_end))]
pub(crate) fn object(alloc: Global, writer: &mut Writer, report: &[Line]) -> Result<(), AllocError>
    ensures { OnOk result (Adds writer.old writer.new (members_tokens (members_of report.now))) }
{
    for line in report {
        member(alloc, writer, line)?;
    }
    writer.end_object()
}

/// The member of a line.
fn member(alloc: Global, writer: &mut Writer, line: &Line) -> Result<(), AllocError>
    ensures { OnOk result (Adds writer.old writer.new (line_tokens line.now)) }
{
    match line {
        Line::Module(name) => word(writer, "module", name.text()),
        Line::Unit(step) => unit(alloc, writer, *step),
        Line::Inputs(count) => count_of(writer, "inputs", *count),
        Line::Outputs(count) => count_of(writer, "outputs", *count),
        Line::Gates(count) => count_of(writer, "gates", *count),
        Line::Defaulted(count) => count_of(writer, "defaulted", *count),
        Line::Depth(count) => count_of(writer, "depth", *count),
        Line::Delay(delays) => delay(writer, *delays),
        Line::InputPlaces(rows) => lists(alloc, writer, "input", rows),
        Line::OutputPlaces(rows) => lists(alloc, writer, "output", rows),
        Line::Lasts(rows) => lists(alloc, writer, "last", rows),
        Line::Time(time) => count_of(writer, "time", *time),
        Line::Output(name) => output(writer, name.text()),
        Line::Changes(rows) => lists(alloc, writer, "change", rows),
        Line::Bound(figure, moment) => bound(writer, figure.key(), *moment),
        Line::Exact(time) => count_of(writer, "exact", *time),
        Line::Between { low, high } => two(writer, "between", *low, *high),
        Line::AtMost(high) => at_most(writer, "between", *high),
        Line::NoPair => holds(writer, "none"),
        Line::Cause(why) => cause(writer, *why),
        Line::From(bits) => vector(alloc, writer, "from", bits),
        Line::To(bits) => vector(alloc, writer, "to", bits),
        Line::Nodes(count) => count_of(writer, "nodes", *count),
        Line::Units(count) => count_of(writer, "units", *count),
        Line::Required(moment, standing) => required(writer, "required", *moment, *standing),
        Line::Each(rows) => lists(alloc, writer, "each", rows),
        Line::Hazards(rows) => lists(alloc, writer, "hazard", rows),
        Line::Parts(rows) => lists(alloc, writer, "parts", rows),
        Line::Accepted(time) => figure(writer, "accepted", Found::Exact(*time)),
        Line::AcceptedBetween { time, high } => between(writer, "accepted", *time, *high),
        Line::AcceptedNone => figure(writer, "accepted", Found::NoPair),
        Line::Unchecked(time) => figure(writer, "unchecked", Found::Exact(*time)),
        Line::UncheckedBetween { time, high } => between(writer, "unchecked", *time, *high),
        Line::UncheckedNone => figure(writer, "unchecked", Found::NoPair),
        Line::Default { rise, fall } => claims::default(writer, *rise, *fall),
        Line::OutputNumbers(numbers) => claims::output_numbers(writer, numbers),
        Line::First(pins) => word(writer, "first", pins.text()),
        Line::Second(pins) => word(writer, "second", pins.text()),
        Line::Hold(mask) => word(writer, "hold", mask.text()),
        Line::Flips(count) => count_of(writer, "flips", *count),
        Line::At(moments) => at(alloc, writer, moments),
        Line::Keep(conditions) => word(writer, "keep", conditions.text()),
        Line::Refused { number, name, line } => claims::refused(writer, *number, name, *line),
    }
}

pub(crate) fn count_of(writer: &mut Writer, key: &str, count: u64) -> Result<(), AllocError>
    ensures { OnOk result (Adds writer.old writer.new (member_tokens key.now (number (decimal count)))) }
{
    writer.key(key)?;
    writer.u64(count)
}

pub(crate) fn word(writer: &mut Writer, key: &str, text: &str) -> Result<(), AllocError>
    ensures { OnOk result (Adds writer.old writer.new (member_tokens key.now (string text.now))) }
{
    writer.key(key)?;
    writer.string(text)
}

/// A number as the last member of an object.
pub(crate) fn last_count(writer: &mut Writer, key: &str, count: u64) -> Result<(), AllocError>
    ensures { OnOk result (Adds writer.old writer.new (members_tokens (member key.now (number (decimal count)) no_members))) }
{
    count_of(writer, key, count)?;
    writer.end_object()
}

/// A text as the last member of an object.
pub(crate) fn last_word(writer: &mut Writer, key: &str, text: &str) -> Result<(), AllocError>
    ensures { OnOk result (Adds writer.old writer.new (members_tokens (member key.now (string text.now) no_members))) }
{
    word(writer, key, text)?;
    writer.end_object()
}

fn moment(writer: &mut Writer, moment: Option<u64>) -> Result<(), AllocError>
    ensures { OnOk result (Adds writer.old writer.new (json_tokens (moment_of moment))) }
{
    match moment {
        Some(moment) => writer.u64(moment),
        None => writer.null(),
    }
}

pub(crate) fn bound(writer: &mut Writer, key: &str, bound: Option<u64>) -> Result<(), AllocError>
    ensures { OnOk result (Adds writer.old writer.new (member_tokens key.now (moment_of bound))) }
{
    writer.key(key)?;
    moment(writer, bound)
}

pub(crate) fn numbers(writer: &mut Writer, low: u64, high: u64) -> Result<(), AllocError>
    ensures { OnOk result (Adds writer.old writer.new (json_tokens (numbers_of low high))) }
{
    writer.begin_array()?;
    writer.u64(low)?;
    writer.u64(high)?;
    writer.end_array()
}

/// No lower figure, and an upper one.
pub(crate) fn below(writer: &mut Writer, high: u64) -> Result<(), AllocError>
    ensures { OnOk result (Adds writer.old writer.new (json_tokens (none_to high))) }
{
    writer.begin_array()?;
    writer.null()?;
    writer.u64(high)?;
    writer.end_array()
}

/// The object of two figures.
fn between(writer: &mut Writer, key: &str, low: u64, high: u64) -> Result<(), AllocError>
    ensures { OnOk result (Adds writer.old writer.new (member_tokens key.now (found_object (FoundAs.Between low high)))) }
{
    figure(writer, key, Found::Between { low, high })
}

fn greatest_ended(writer: &mut Writer, greatest: u64) -> Result<(), AllocError>
    ensures { OnOk result (Adds writer.old writer.new (members_tokens (member (codes "greatest") (number (decimal greatest)) no_members))) }
{
    last_count(writer, "greatest", greatest)
}

fn spanned(writer: &mut Writer, least: u64, greatest: u64) -> Result<(), AllocError>
    ensures { OnOk result (Adds writer.old writer.new (json_tokens (spanned_value least greatest))) }
{
    writer.begin_object()?;
    count_of(writer, "least", least)?;
    greatest_ended(writer, greatest)
}

/// The least and the greatest delay, or null.
fn span(writer: &mut Writer, delays: Option<Span>) -> Result<(), AllocError>
    ensures { OnOk result (Adds writer.old writer.new (json_tokens (span_value delays))) }
{
    match delays {
        None => writer.null(),
        Some(delays) => spanned(writer, delays.least, delays.greatest),
    }
}

fn delay(writer: &mut Writer, delays: Option<Span>) -> Result<(), AllocError>
    ensures { OnOk result (Adds writer.old writer.new (member_tokens (codes "delay") (span_value delays))) }
{
    writer.key("delay")?;
    span(writer, delays)
}

fn scale_word(scale: Scale) -> &'static str
    ensures { result.now ≡ scale_text scale }
{
    match scale {
        Scale::Femtoseconds => "fs",
        Scale::Picoseconds => "ps",
        Scale::Nanoseconds => "ns",
        Scale::Microseconds => "us",
        Scale::Milliseconds => "ms",
        Scale::Seconds => "s",
    }
}

fn unit_words(alloc: Global, unit: Unit) -> Result<String, AllocError>
    ensures { IfOk result (λ text. string_bytes text ≡ unit_text unit) }
{
    let magnitude = unit.magnitude;
    let scale = scale_word(unit.scale);
    let text = format!(in alloc; "{magnitude} {scale}")?;
    Ok(text)
}

fn unit(alloc: Global, writer: &mut Writer, unit: Unit) -> Result<(), AllocError>
    ensures { OnOk result (Adds writer.old writer.new (member_tokens (codes "unit") (string (unit_text unit)))) }
{
    let words = unit_words(alloc, unit)?;
    word(writer, "unit", &words)
}

fn cause_word(why: Cause) -> &'static str
    ensures { result.now ≡ cause_text why }
{
    match why {
        Cause::Budget => "budget",
        Cause::Memory => "memory",
        Cause::Time => "time",
        Cause::Effort => "effort",
        Cause::Stop => "stop",
        Cause::Required => "required",
    }
}

fn standing_ended(writer: &mut Writer, standing: Standing) -> Result<(), AllocError>
    ensures { OnOk result (Adds writer.old writer.new (members_tokens (member (codes "standing") (string (standing_text standing)) no_members))) }
{
    last_word(writer, "standing", standing.word())
}

fn stood(writer: &mut Writer, moment: u64, standing: Standing) -> Result<(), AllocError>
    ensures { OnOk result (Adds writer.old writer.new (json_tokens (required_value moment standing))) }
{
    writer.begin_object()?;
    count_of(writer, "time", moment)?;
    standing_ended(writer, standing)
}

/// A required moment, and whether it is met.
fn required(
    writer: &mut Writer,
    key: &str,
    moment: u64,
    standing: Standing,
) -> Result<(), AllocError>
    ensures { OnOk result (Adds writer.old writer.new (member_tokens key.now (required_value moment standing))) }
{
    writer.key(key)?;
    stood(writer, moment, standing)
}

fn cause(writer: &mut Writer, why: Cause) -> Result<(), AllocError>
    ensures { OnOk result (Adds writer.old writer.new (member_tokens (codes "cause") (string (cause_text why)))) }
{
    word(writer, "cause", cause_word(why))
}

/// A character for each bit, or `none`.
fn characters(alloc: Global, vector: &[bool]) -> Result<String, AllocError>
    ensures { IfOk result (λ text. string_bytes text ≡ bits vector.now) }
{
    if vector.is_empty() {
        return String::from_str(alloc, "none");
    }
    digits(alloc, vector)
}

fn bit(one: bool) -> &'static str
    ensures { result.now ≡ bit one ∷ [] }
{
    if one { "1" } else { "0" }
}

/// A character for each bit.
fn digits(alloc: Global, vector: &[bool]) -> Result<String, AllocError>
    ensures { IfOk result (λ text. string_bytes text ≡ map bit vector.now) }
{
    let mut text = String::new(alloc);
    for one in vector {
        text.push_str(bit(*one))?;
    }
    Ok(text)
}

pub(crate) fn vector(
    alloc: Global,
    writer: &mut Writer,
    key: &str,
    vector: &Vector,
) -> Result<(), AllocError>
    ensures { OnOk result (Adds writer.old writer.new (member_tokens key.now (string (bits vector.now)))) }
{
    let text = characters(alloc, vector.bits())?;
    word(writer, key, &text)
}

/// An output alone in an array.
fn output(writer: &mut Writer, name: &str) -> Result<(), AllocError>
    ensures { OnOk result (Adds writer.old writer.new (member_tokens (codes "output") (named name.now))) }
{
    writer.key("output")?;
    writer.begin_array()?;
    writer.begin_object()?;
    word(writer, "name", name)?;
    writer.end_object()?;
    writer.end_array()
}

impl Valued for Place {
    ghost value = { place_value };

    fn value(&self, _alloc: Global, writer: &mut Writer) -> Result<(), AllocError> {
        writer.begin_object()?;
        count_of(writer, "index", self.place)?;
        word(writer, "name", self.net.text())?;
        writer.end_object()
    }
}

impl Valued for Last {
    ghost value = { last_value };

    fn value(&self, _alloc: Global, writer: &mut Writer) -> Result<(), AllocError> {
        writer.begin_object()?;
        word(writer, "output", self.output.text())?;
        bound(writer, "time", self.moment)?;
        writer.end_object()
    }
}

impl Valued for u64 {
    ghost value = { count_value };

    fn value(&self, _alloc: Global, writer: &mut Writer) -> Result<(), AllocError> {
        writer.u64(*self)
    }
}

impl Valued for Label {
    ghost value = { string };

    fn value(&self, _alloc: Global, writer: &mut Writer) -> Result<(), AllocError> {
        writer.string(self.text())
    }
}

impl Valued for Part {
    ghost value = { part_value };

    fn value(&self, alloc: Global, writer: &mut Writer) -> Result<(), AllocError> {
        writer.begin_object()?;
        lists(alloc, writer, "options", &self.words)?;
        writer.end_object()
    }
}

fn level(level: Level) -> &'static str
    ensures { result.now ≡ level_text level }
{
    match level {
        Level::Zero => "0",
        Level::One => "1",
        Level::X => "x",
    }
}

fn kind(kind: Kind) -> &'static str
    ensures { result.now ≡ kind_text kind }
{
    match kind {
        Kind::And => "and",
        Kind::Nand => "nand",
        Kind::Or => "or",
        Kind::Nor => "nor",
        Kind::Xor => "xor",
        Kind::Xnor => "xnor",
        Kind::Buf => "buf",
        Kind::Not => "not",
    }
}

/// What makes a net change, and the end of the object.
fn driven(writer: &mut Writer, by: Option<Driver>) -> Result<(), AllocError>
    ensures { OnOk result (Adds writer.old writer.new (members_tokens (driven_value by))) }
{
    match by {
        None => by_itself(writer),
        Some(by) => by_gate(writer, by),
    }
}

fn by_itself(writer: &mut Writer) -> Result<(), AllocError>
    ensures { OnOk result (Adds writer.old writer.new (members_tokens (driven_value None))) }
{
    word(writer, "by", "input")?;
    writer.end_object()
}

fn by_gate(writer: &mut Writer, by: Driver) -> Result<(), AllocError>
    ensures { OnOk result (Adds writer.old writer.new (members_tokens (driven_value (Some by)))) }
{
    word(writer, "by", kind(by.kind))?;
    count_of(writer, "delay", by.delay)?;
    writer.end_object()
}

/// The level after a change, what makes it, and the end of the object.
fn new_level(writer: &mut Writer, row: &Change) -> Result<(), AllocError>
    ensures { OnOk result (Adds writer.old writer.new (members_tokens (new_value row.now))) }
{
    word(writer, "new", level(row.to))?;
    driven(writer, row.by)
}

impl Valued for Change {
    ghost value = { change_value };

    fn value(&self, _alloc: Global, writer: &mut Writer) -> Result<(), AllocError> {
        writer.begin_object()?;
        count_of(writer, "time", self.moment)?;
        word(writer, "net", self.net.text())?;
        word(writer, "old", level(self.from))?;
        new_level(writer, self)
    }
}

fn at(alloc: Global, writer: &mut Writer, moments: &Moments) -> Result<(), AllocError>
    ensures { OnOk result (Adds writer.old writer.new (member_tokens (codes "at") (at_value moments.now))) }
{
    lists(alloc, writer, "at", moments.all())
}

//! Reports as texts.

ghost use Rattle.std.specs.Prelude.{◌≡◌, ◌++◌, List, ℕ, codes, Some, OnOk};
ghost use Rattle.std.specs.List.{flat_map};
ghost use Rattle.td_lines.specs.Texts.{unit_line, number_line, delay_line, place_line, place_lines, moment_text, last_line, bound_text, bound_line, figure_key, figures_line, cause_line, standing_text, required_line, bit, bits, vector_line, line_text, report_text, word_line, spaced, spaced_moment, at_line, place_text, refused_line, default_line, output_line, level_text, kind_text, by_text, levels_text, changed_text, change_line, words_text, spaced_word, part_line};

use crate::label::Label;
use crate::line::{Cause, Change, Driver, Figure, Last, Line, Part, Place, Span, Standing};
use crate::moments::Moments;
use crate::texts::Text;
use crate::vector::Vector;
use std::alloc::AllocError;
use td_gates::{Kind, Level};
use td_nets::Unit;

/// What prints itself.
pub(crate) trait Printed {
    /// Its text.
    ghost text: { Self → List ℕ };

    /// Prints it.
    fn print(&self, out: &mut Text) -> Result<(), AllocError>
        ensures { OnOk result (out.new ≡ out.old ++ Self.text self.now) };
}

/// Prints what follows one another.
fn all<P: Printed>(out: &mut Text, items: &[P]) -> Result<(), AllocError>
    ensures { OnOk result (out.new ≡ out.old ++ flat_map P.text items.now) }
{
    for item in items {
        item.print(out)?;
    }
    Ok(())
}

/// Prints a report as text.
pub fn print_text(out: &mut Text, report: &[Line]) -> Result<(), AllocError>
    ensures { OnOk result (out.new ≡ out.old ++ report_text report.now) }
{
    all(out, report)
}

impl Printed for Line {
    ghost text = { line_text };

    fn print(&self, out: &mut Text) -> Result<(), AllocError> {
        match self {
            Line::Module(name) => word(out, b"module ", name),
            Line::Unit(step) => unit(out, *step),
            Line::Inputs(count) => number(out, b"inputs ", *count),
            Line::Outputs(count) => number(out, b"outputs ", *count),
            Line::Gates(count) => number(out, b"gates ", *count),
            Line::Defaulted(count) => number(out, b"defaulted ", *count),
            Line::Depth(count) => number(out, b"depth ", *count),
            Line::Delay(span) => delay(out, *span),
            Line::InputPlaces(rows) => places(out, b"input ", rows),
            Line::OutputPlaces(rows) => places(out, b"output ", rows),
            Line::Lasts(rows) => all(out, rows),
            Line::Time(time) => number(out, b"time ", *time),
            Line::Output(name) => word(out, b"output ", name),
            Line::Changes(rows) => all(out, rows),
            Line::Bound(figure, moment) => bound(out, *figure, *moment),
            Line::Exact(time) => number(out, b"exact ", *time),
            Line::Between { low, high } => figures(out, b"between ", *low, *high),
            Line::AtMost(high) => number(out, b"between none ", *high),
            Line::NoPair => out.push(b"none\n"),
            Line::Cause(why) => cause(out, *why),
            Line::From(bits) => vector(out, b"from ", bits),
            Line::To(bits) => vector(out, b"to ", bits),
            Line::Nodes(count) => number(out, b"nodes ", *count),
            Line::Units(count) => number(out, b"units ", *count),
            Line::Required(moment, standing) => required(out, *moment, *standing),
            Line::Each(rows) => all(out, rows),
            Line::Hazards(rows) => all(out, rows),
            Line::Parts(rows) => all(out, rows),
            Line::Accepted(time) => number(out, b"accepted ", *time),
            Line::AcceptedBetween { time, high } => figures(
                out,
                b"accepted between ",
                *time,
                *high,
            ),
            Line::AcceptedNone => out.push(b"accepted none\n"),
            Line::Unchecked(time) => number(out, b"unchecked ", *time),
            Line::UncheckedBetween { time, high } => figures(
                out,
                b"unchecked between ",
                *time,
                *high,
            ),
            Line::UncheckedNone => out.push(b"unchecked none\n"),
            Line::Default { rise, fall } => default(out, *rise, *fall),
            Line::OutputNumbers(numbers) => output_numbers(out, numbers),
            Line::First(pins) => word(out, b"first ", pins),
            Line::Second(pins) => word(out, b"second ", pins),
            Line::Hold(mask) => word(out, b"hold ", mask),
            Line::Flips(count) => number(out, b"flips ", *count),
            Line::At(moments) => at(out, moments),
            Line::Keep(conditions) => word(out, b"keep ", conditions),
            Line::Refused { number, name, line } => refused(out, *number, name, *line),
        }
    }
}

fn unit(out: &mut Text, unit: Unit) -> Result<(), AllocError>
    ensures { OnOk result (out.new ≡ out.old ++ unit_line unit) }
{
    out.number_between(b"unit ", u64::from(unit.magnitude), b" ")?;
    out.push(unit.scale.word())?;
    out.push(b"\n")
}

fn number(out: &mut Text, front: &[u8], number: u64) -> Result<(), AllocError>
    ensures { OnOk result (out.new ≡ out.old ++ number_line front.now number) }
{
    out.number_between(front, number, b"\n")
}

fn word(out: &mut Text, front: &[u8], word: &Label) -> Result<(), AllocError>
    ensures { OnOk result (out.new ≡ out.old ++ word_line front.now word.now) }
{
    out.word_between(front, word.text(), b"\n")
}

fn span(out: &mut Text, span: Span) -> Result<(), AllocError>
    ensures { OnOk result (out.new ≡ out.old ++ delay_line (Some span)) }
{
    out.number_behind(b"delay ", span.least)?;
    out.number_between(b" ", span.greatest, b"\n")
}

fn delay(out: &mut Text, delays: Option<Span>) -> Result<(), AllocError>
    ensures { OnOk result (out.new ≡ out.old ++ delay_line delays) }
{
    match delays {
        None => out.push(b"delay none\n"),
        Some(delays) => span(out, delays),
    }
}

fn place(out: &mut Text, front: &[u8], row: &Place) -> Result<(), AllocError>
    ensures { OnOk result (out.new ≡ out.old ++ place_line front.now row.now) }
{
    out.number_between(front, row.place, b" ")?;
    out.word_between(b"", row.net.text(), b"\n")
}

fn places(out: &mut Text, front: &[u8], rows: &[Place]) -> Result<(), AllocError>
    ensures { OnOk result (out.new ≡ out.old ++ place_lines front.now rows.now) }
{
    for row in rows {
        place(out, front, row)?;
    }
    Ok(())
}

impl Printed for Last {
    ghost text = { last_line };

    fn print(&self, out: &mut Text) -> Result<(), AllocError> {
        out.word_between(b"last ", self.output.text(), b" ")?;
        moment(out, self.moment)?;
        out.push(b"\n")
    }
}

pub(crate) fn moment(out: &mut Text, moment: Option<u64>) -> Result<(), AllocError>
    ensures { OnOk result (out.new ≡ out.old ++ moment_text moment) }
{
    match moment {
        Some(moment) => out.number(moment),
        None => out.push(b"never"),
    }
}

/// The character of a level.
fn level(level: Level) -> &'static [u8]
    ensures { result.now ≡ level_text level }
{
    match level {
        Level::Zero => b"0",
        Level::One => b"1",
        Level::X => b"x",
    }
}

/// The keyword of a kind of gates.
fn kind(kind: Kind) -> &'static [u8]
    ensures { result.now ≡ kind_text kind }
{
    match kind {
        Kind::And => b"and",
        Kind::Nand => b"nand",
        Kind::Or => b"or",
        Kind::Nor => b"nor",
        Kind::Xor => b"xor",
        Kind::Xnor => b"xnor",
        Kind::Buf => b"buf",
        Kind::Not => b"not",
    }
}

fn driver(out: &mut Text, driver: Driver) -> Result<(), AllocError>
    ensures { OnOk result (out.new ≡ out.old ++ by_text (Some driver)) }
{
    out.push(kind(driver.kind))?;
    out.number_between(b" ", driver.delay, b"\n")
}

fn by(out: &mut Text, by: Option<Driver>) -> Result<(), AllocError>
    ensures { OnOk result (out.new ≡ out.old ++ by_text by) }
{
    match by {
        None => out.push(b"input\n"),
        Some(by) => driver(out, by),
    }
}

fn behind_blank(out: &mut Text, behind: Level) -> Result<(), AllocError>
    ensures { OnOk result (out.new ≡ out.old ++ (codes " " ++ level_text behind)) }
{
    out.push(b" ")?;
    out.push(level(behind))
}

fn levels(out: &mut Text, from: Level, to: Level) -> Result<(), AllocError>
    ensures { OnOk result (out.new ≡ out.old ++ levels_text from to) }
{
    behind_blank(out, from)?;
    behind_blank(out, to)?;
    out.push(b" ")
}

/// When a net changes.
fn changed(out: &mut Text, row: &Change) -> Result<(), AllocError>
    ensures { OnOk result (out.new ≡ out.old ++ changed_text row.now) }
{
    out.number_between(b"change ", row.moment, b" ")?;
    out.word(row.net.text())
}

impl Printed for Change {
    ghost text = { change_line };

    fn print(&self, out: &mut Text) -> Result<(), AllocError> {
        changed(out, self)?;
        levels(out, self.from, self.to)?;
        by(out, self.by)
    }
}

fn bound(out: &mut Text, figure: Figure, moment: Option<u64>) -> Result<(), AllocError>
    ensures { OnOk result (out.new ≡ out.old ++ bound_line figure moment) }
{
    out.word_behind(b"", figure.key())?;
    out.push(b" ")?;
    bound_moment(out, moment)?;
    out.push(b"\n")
}

pub(crate) fn bound_moment(out: &mut Text, moment: Option<u64>) -> Result<(), AllocError>
    ensures { OnOk result (out.new ≡ out.old ++ bound_text moment) }
{
    match moment {
        Some(moment) => out.number(moment),
        None => out.push(b"none"),
    }
}

impl Figure {
    /// The word of its line.
    pub fn key(self) -> &'static str
        ensures { result.now ≡ figure_key self }
    {
        match self {
            Figure::Arrivals => "a",
            Figure::Possibles => "t",
            Figure::Both => "m",
            Figure::Edges => "e",
            Figure::EdgesAndPossibles => "n",
            Figure::Earliest => "earliest",
        }
    }
}

fn figures(out: &mut Text, front: &[u8], low: u64, high: u64) -> Result<(), AllocError>
    ensures { OnOk result (out.new ≡ out.old ++ figures_line front.now low high) }
{
    out.number_behind(front, low)?;
    out.number_between(b" ", high, b"\n")
}

fn cause(out: &mut Text, why: Cause) -> Result<(), AllocError>
    ensures { OnOk result (out.new ≡ out.old ++ cause_line why) }
{
    match why {
        Cause::Budget => out.push(b"cause budget\n"),
        Cause::Memory => out.push(b"cause memory\n"),
        Cause::Time => out.push(b"cause time\n"),
        Cause::Effort => out.push(b"cause effort\n"),
        Cause::Stop => out.push(b"cause stop\n"),
        Cause::Required => out.push(b"cause required\n"),
    }
}

impl Standing {
    /// The word of its line.
    pub fn word(self) -> &'static str
        ensures { result.now ≡ standing_text self }
    {
        match self {
            Standing::Met => "met",
            Standing::Violated => "violated",
            Standing::Open => "open",
        }
    }
}

fn required(out: &mut Text, moment: u64, standing: Standing) -> Result<(), AllocError>
    ensures { OnOk result (out.new ≡ out.old ++ required_line moment standing) }
{
    out.number_behind(b"required ", moment)?;
    out.word_between(b" ", standing.word(), b"\n")
}

fn vector(out: &mut Text, front: &[u8], vector: &Vector) -> Result<(), AllocError>
    ensures { OnOk result (out.new ≡ out.old ++ vector_line front.now vector.now) }
{
    out.push(front)?;
    characters(out, vector.bits())?;
    out.push(b"\n")
}

/// A character for each bit of a vector, or `none`.
pub(crate) fn characters(out: &mut Text, vector: &[bool]) -> Result<(), AllocError>
    ensures { OnOk result (out.new ≡ out.old ++ bits vector.now) }
{
    if vector.is_empty() {
        return out.push(b"none");
    }
    for bit in vector {
        out.push(if *bit { b"1" } else { b"0" })?;
    }
    Ok(())
}

impl Printed for Label {
    ghost text = { spaced_word };

    fn print(&self, out: &mut Text) -> Result<(), AllocError> {
        out.word_behind(b" ", self.text())
    }
}

/// Words with a space between each two.
fn words(out: &mut Text, words: &[Label]) -> Result<(), AllocError>
    ensures { OnOk result (out.new ≡ out.old ++ words_text words.now) }
{
    match words {
        [] => Ok(()),
        [first, others @ ..] => {
            out.word(first.text())?;
            all(out, others)
        }
    }
}

impl Printed for Part {
    ghost text = { part_line };

    fn print(&self, out: &mut Text) -> Result<(), AllocError> {
        words(out, &self.words)?;
        out.push(b"\n")
    }
}

impl Printed for u64 {
    ghost text = { spaced_moment };

    fn print(&self, out: &mut Text) -> Result<(), AllocError> {
        out.number_behind(b" ", *self)
    }
}

fn at(out: &mut Text, moments: &Moments) -> Result<(), AllocError>
    ensures { OnOk result (out.new ≡ out.old ++ at_line moments.now) }
{
    out.push(b"at")?;
    spaced(out, moments.all())?;
    out.push(b"\n")
}

/// A space and a number for each moment, or ` none`.
fn spaced(out: &mut Text, moments: &[u64]) -> Result<(), AllocError>
    ensures { OnOk result (out.new ≡ out.old ++ spaced moments.now) }
{
    if moments.is_empty() {
        return out.push(b" none");
    }
    all(out, moments)
}

fn default(out: &mut Text, rise: u64, fall: u64) -> Result<(), AllocError>
    ensures { OnOk result (out.new ≡ out.old ++ default_line rise fall) }
{
    out.number_behind(b"default ", rise)?;
    out.number_between(b" ", fall, b"\n")
}

fn output_numbers(out: &mut Text, numbers: &Option<Moments>) -> Result<(), AllocError>
    ensures { OnOk result (out.new ≡ out.old ++ output_line numbers.now) }
{
    match numbers {
        None => out.push(b"output all\n"),
        Some(numbers) => numbered(out, numbers),
    }
}

fn numbered(out: &mut Text, numbers: &Moments) -> Result<(), AllocError>
    ensures { OnOk result (out.new ≡ out.old ++ output_line (Some numbers.now)) }
{
    out.push(b"output")?;
    spaced(out, numbers.all())?;
    out.push(b"\n")
}

fn refused(out: &mut Text, number: u8, name: &str, line: Option<u32>) -> Result<(), AllocError>
    ensures { OnOk result (out.new ≡ out.old ++ refused_line number name.now line) }
{
    out.number_between(b"refused ", u64::from(number), b" ")?;
    out.word(name)?;
    placed(out, line)?;
    out.push(b"\n")
}

fn placed(out: &mut Text, line: Option<u32>) -> Result<(), AllocError>
    ensures { OnOk result (out.new ≡ out.old ++ place_text line) }
{
    match line {
        None => Ok(()),
        Some(line) => out.number_behind(b" line ", u64::from(line)),
    }
}

//! Rows of hazards, as text and as JSON.

ghost use Rattle.std.specs.Prelude.{◌≡◌, ◌++◌, ◌∷◌, [], codes, OnOk};
ghost use Rattle.json.specs.Json.{string, member, no_members};
ghost use Rattle.json.specs.Tree.{members_tokens};
ghost use Rattle.td_lines.specs.declared.line.Hazard.TheVariants as HazardAs;
ghost use Rattle.td_lines.specs.Texts.{bit, hazard_text, hazard_line};
ghost use Rattle.td_lines.specs.Values.{Adds, hazard_value, hazard_row_value};

use crate::line::{Hazard, HazardRow};
use crate::members::{Valued, vector, word};
use crate::text::{Printed, characters};
use crate::texts::Text;
use crate::vector::Vector;
use json::Writer;
use std::alloc::{AllocError, Global};

fn digit(one: bool) -> &'static str
    ensures { result.now ≡ bit one ∷ [] }
{
    if one { "1" } else { "0" }
}

// ---- text

fn can(out: &mut Text, from: &Vector, to: &Vector) -> Result<(), AllocError>
    ensures { OnOk result (out.new ≡ out.old ++ hazard_text (HazardAs.Can from.now to.now)) }
{
    out.push(b" can ")?;
    characters(out, from.bits())?;
    out.push(b" ")?;
    characters(out, to.bits())
}

fn hazard(out: &mut Text, hazard: &Hazard) -> Result<(), AllocError>
    ensures { OnOk result (out.new ≡ out.old ++ hazard_text hazard.now) }
{
    match hazard {
        Hazard::Can { from, to } => can(out, from, to),
        Hazard::Never => out.push(b" never"),
        Hazard::NoPair => out.push(b" none"),
        Hazard::Open => out.push(b" open"),
    }
}

impl Printed for HazardRow {
    ghost text = { hazard_line };

    fn print(&self, out: &mut Text) -> Result<(), AllocError> {
        out.word_between(b"hazard ", self.output.text(), b" ")?;
        out.word(digit(self.level))?;
        hazard(out, &self.hazard)?;
        out.push(b"\n")
    }
}

// ---- JSON

/// A pair's vectors, and the end of the object.
fn can_of(alloc: Global, writer: &mut Writer, from: &Vector, to: &Vector) -> Result<(), AllocError>
    ensures { OnOk result (Adds writer.old writer.new (members_tokens (hazard_value (HazardAs.Can from.now to.now)))) }
{
    word(writer, "answer", "can")?;
    vector(alloc, writer, "from", from)?;
    vector(alloc, writer, "to", to)?;
    writer.end_object()
}

/// A word, and the end of the object.
fn last_word(writer: &mut Writer, text: &str) -> Result<(), AllocError>
    ensures { OnOk result (Adds writer.old writer.new (members_tokens (member (codes "answer") (string text.now) no_members))) }
{
    word(writer, "answer", text)?;
    writer.end_object()
}

/// What is said of a hazard, and the end of the object.
fn hazard_of(alloc: Global, writer: &mut Writer, hazard: &Hazard) -> Result<(), AllocError>
    ensures { OnOk result (Adds writer.old writer.new (members_tokens (hazard_value hazard.now))) }
{
    match hazard {
        Hazard::Can { from, to } => can_of(alloc, writer, from, to),
        Hazard::Never => last_word(writer, "never"),
        Hazard::NoPair => last_word(writer, "none"),
        Hazard::Open => last_word(writer, "open"),
    }
}

impl Valued for HazardRow {
    ghost value = { hazard_row_value };

    fn value(&self, alloc: Global, writer: &mut Writer) -> Result<(), AllocError> {
        writer.begin_object()?;
        word(writer, "output", self.output.text())?;
        word(writer, "level", digit(self.level))?;
        hazard_of(alloc, writer, &self.hazard)
    }
}

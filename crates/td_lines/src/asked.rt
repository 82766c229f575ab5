//! What was asked, in JSON: the command, the netlist's file and the question, as the words of a
//! command line say them.

ghost use Rattle.std.specs.Prelude.{◌≡◌, map, OnOk};
ghost use Rattle.json.specs.Json.{object};
ghost use Rattle.json.specs.Tree.{json_tokens, members_tokens};
ghost use Rattle.td_lines.specs.Asked.{asked_tokens, question_of};
ghost use Rattle.td_lines.specs.Said.{entries_of, entry_of, members_by, named_value, said_value, term_tokens};
ghost use Rattle.td_lines.specs.Values.{Adds, member_tokens};

use crate::claims::delays;
use crate::label::Label;
use crate::members::{Valued, list, word};
use crate::terms::{Named, Said, Term, Terms};
use json::Writer;
use std::alloc::{AllocError, Global};

/// What was asked.
#[derive(Debug, Drop)]
pub struct Asked {
    /// The command's name.
    pub command: &'static str,
    /// The netlist's file.
    pub file: Label,
    pub question: Terms,
}

impl Valued for Named {
    ghost value = { named_value };

    fn value(&self, _alloc: Global, writer: &mut Writer) -> Result<(), AllocError> {
        writer.begin_object()?;
        word(writer, "option", self.option.text())?;
        word(writer, "word", self.word.text())?;
        writer.end_object()
    }
}

fn value_of(alloc: Global, writer: &mut Writer, said: &Said) -> Result<(), AllocError>
    ensures { OnOk result (Adds writer.old writer.new (json_tokens (said_value said.now))) }
{
    match said {
        Said::Word(text) => writer.string(text.text()),
        Said::Number(count) => writer.u64(*count),
        Said::Delays { rise, fall } => delays(writer, *rise, *fall),
        Said::Words(words) => list(alloc, writer, words),
        Said::Options(options) => list(alloc, writer, options),
    }
}

fn member_of(alloc: Global, writer: &mut Writer, term: &Term) -> Result<(), AllocError>
    ensures { OnOk result (Adds writer.old writer.new (term_tokens term.now)) }
{
    writer.key(term.key)?;
    value_of(alloc, writer, &term.said)
}

/// The members, and the end of their object.
#[tactic(auto, using(crate::proofs::Steps::terms_end))]
fn terms_ended(alloc: Global, writer: &mut Writer, terms: &[Term]) -> Result<(), AllocError>
    ensures { OnOk result (Adds writer.old writer.new (members_tokens (members_by (map entry_of terms.now)))) }
{
    for one in terms {
        member_of(alloc, writer, one)?;
    }
    writer.end_object()
}

/// A member that is an object of these.
pub(crate) fn object_of(
    alloc: Global,
    writer: &mut Writer,
    key: &str,
    terms: &Terms,
) -> Result<(), AllocError>
    ensures { OnOk result (Adds writer.old writer.new (member_tokens key.now (object (members_by (entries_of terms.now))))) }
{
    writer.key(key)?;
    writer.begin_object()?;
    terms_ended(alloc, writer, terms.all())
}

/// The members that say what was asked.
pub(crate) fn head(alloc: Global, writer: &mut Writer, asked: &Asked) -> Result<(), AllocError>
    ensures { OnOk result (Adds writer.old writer.new (asked_tokens (question_of asked.now))) }
{
    word(writer, "command", asked.command)?;
    word(writer, "file", asked.file.text())?;
    object_of(alloc, writer, "question", &asked.question)
}

//! What is wrong with words about inputs.

ghost use Rattle.std.specs.Prelude.{◌≡◌, ◌++◌, map, slice_get, OnOk};
ghost use Rattle.td_inputs.specs.Labels.{label_in};
ghost use Rattle.td_inputs.specs.Readings.{fault_in};
ghost use Rattle.td_answer.specs.Refusals.{vector_word, called, at_line_text, bad_text, bad_keep_text, quote_text, no_input_text, no_net_text, clash_text, input_text, word_text};

use std::alloc::AllocError;
use td_inputs::{Label, Topic, WordFault};
use td_lines::Text;
use td_question::Quote;
use td_question::vector::VectorWord;

/// The word that gives nothing for the inputs, as the usage of the command names it.
pub(crate) fn vector(out: &mut Text, word: VectorWord) -> Result<(), AllocError>
    ensures { OnOk result (out.new ≡ out.old ++ vector_word word) }
{
    match word {
        VectorWord::From => out.push(b"bad vector FROM"),
        VectorWord::To => out.push(b"bad vector TO"),
        VectorWord::First => out.push(b"bad vector first"),
        VectorWord::Second => out.push(b"bad vector second"),
        VectorWord::Hold => out.push(b"bad vector hold"),
        VectorWord::At => out.push(b"bad vector at"),
    }
}

/// What a word of an option by name is called.
fn called(topic: Topic) -> &'static [u8]
    ensures { result.now ≡ called topic }
{
    match topic {
        Topic::Pin => b"pin ",
        Topic::HoldInput => b"held input ",
        _ => b"time ",
    }
}

fn bad(out: &mut Text, topic: Topic, word: &[u8]) -> Result<(), AllocError>
    ensures { OnOk result (out.new ≡ out.old ++ bad_text topic word.now) }
{
    out.push(b"bad ")?;
    out.push(called(topic))?;
    out.push(word)
}

fn no_input(out: &mut Text, name: &[u8]) -> Result<(), AllocError>
    ensures { OnOk result (out.new ≡ out.old ++ no_input_text name.now) }
{
    out.push(b"no input ")?;
    out.push(name)
}

/// The printed name of an input, empty where there is none at this place.
fn input_name(labels: &[Label], place: usize) -> &[u8]
    ensures { result.now ≡ input_text (slice_get (map label_in labels.now) place) }
{
    match labels.get(place) {
        Some(label) => label.name(),
        None => b"",
    }
}

/// That a word differs for an input from another one.
fn clash(out: &mut Text, topic: Topic, word: &[u8], input: &[u8]) -> Result<(), AllocError>
    ensures { OnOk result (out.new ≡ out.old ++ clash_text topic word.now input.now) }
{
    out.push(called(topic))?;
    out.push(word)?;
    out.push(b": another argument differs for input ")?;
    out.push(input)
}

/// The line of a file, where it is of one.
fn at_line(out: &mut Text, line: Option<u64>) -> Result<(), AllocError>
    ensures { OnOk result (out.new ≡ out.old ++ at_line_text line) }
{
    match line {
        None => Ok(()),
        Some(line) => out.number_behind(b" at line ", line),
    }
}

/// A text that a request has, and the line of a file.
fn quote(out: &mut Text, quote: Quote<'_>) -> Result<(), AllocError>
    ensures { OnOk result (out.new ≡ out.old ++ quote_text quote.entry) }
{
    out.push(quote.text)?;
    at_line(out, quote.line)
}

/// That a word or a line is no condition.
pub(crate) fn bad_keep(out: &mut Text, told: Quote<'_>) -> Result<(), AllocError>
    ensures { OnOk result (out.new ≡ out.old ++ bad_keep_text told.entry) }
{
    out.push(b"bad keep ")?;
    quote(out, told)
}

/// That a condition names no net.
pub(crate) fn no_net(out: &mut Text, name: Quote<'_>) -> Result<(), AllocError>
    ensures { OnOk result (out.new ≡ out.old ++ no_net_text name.entry) }
{
    out.push(b"no net ")?;
    quote(out, name)
}

/// What is wrong with a word by name, for inputs that are called so.
pub(crate) fn name(out: &mut Text, fault: WordFault<'_>, labels: &[Label]) -> Result<(), AllocError>
    ensures { OnOk result (out.new ≡ out.old ++ word_text (fault_in fault.entry) (map label_in labels.now)) }
{
    match fault {
        WordFault::Bad(topic, word) => bad(out, topic, word),
        WordFault::NoInput(name) => no_input(out, name),
        WordFault::Clash(topic, word, place) => clash(out, topic, word, input_name(labels, place)),
        WordFault::TwoForms => out.push(b"--at by name and by place"),
    }
}

//! What a request asks, as its JSON says it.

ghost use Rattle.std.specs.Prelude.{◌≡◌, ◌++◌, ◌||◌, ◌∷◌, [], map, codes, IfOk, OnOk};
ghost use Rattle.json.specs.Json.{string};
ghost use Rattle.td_lines.specs.Asked.{question_of};
ghost use Rattle.td_lines.specs.Said.{entries_of};
ghost use Rattle.td_cli.specs.Asking.{asked_of, bound_entries, command_entries, command_word, count_entry, default_entry, inputs_entries, named_entry, output_entry, pair_entries, reading_entries, search_entries, taken_words, told_of, word_entry};

use std::alloc::{AllocError, Global};
use std::str;
use td_gates::Delay;
use td_inputs::Taken;
use td_lines::{Asked, Label, Named, Said, Terms};
use td_reading::{Outputs, Reading, Told};
use td_request::{Bound, Command, Inputs, Question, Request};

fn label(alloc: Global, word: &str) -> Result<Label, AllocError>
    ensures { IfOk result (λ label. label ≡ word.now) }
{
    let text = String::from_str(alloc, word)?;
    Ok(Label::new(text))
}

/// The label of a word. The words of a command line are texts.
fn label_of(alloc: Global, word: &[u8]) -> Result<Label, AllocError>
    ensures { IfOk result (λ label. label ≡ word.now) }
{
    match str::from_utf8(word) {
        Ok(word) => label(alloc, word),
        Err(_) => Err(AllocError),
    }
}

fn say(alloc: Global, terms: &mut Terms, key: &'static str, word: &str) -> Result<(), AllocError>
    ensures { OnOk result (entries_of terms.new ≡ entries_of terms.old ++ (key.now, string word.now) ∷ []) }
{
    let word = label(alloc, word)?;
    terms.add(key, Said::Word(word))
}

fn say_word(
    alloc: Global,
    terms: &mut Terms,
    key: &'static str,
    word: Option<&str>,
) -> Result<(), AllocError>
    ensures { OnOk result (entries_of terms.new ≡ entries_of terms.old ++ word_entry key.now word.entry) }
{
    match word {
        None => Ok(()),
        Some(word) => say(alloc, terms, key, word),
    }
}

fn say_count(terms: &mut Terms, key: &'static str, count: Option<u64>) -> Result<(), AllocError>
    ensures { OnOk result (entries_of terms.new ≡ entries_of terms.old ++ count_entry key.now count) }
{
    match count {
        None => Ok(()),
        Some(count) => terms.add(key, Said::Number(count)),
    }
}

fn labels(alloc: Global, names: &[&str]) -> Result<Vec<Label>, AllocError>
    ensures { IfOk result (λ labels. labels.items ≡ map (λ name. name.now) names.now) }
{
    let mut labels = Vec::new(alloc);
    for name in names {
        labels.push(label(alloc, name)?)?;
    }
    Ok(labels)
}

fn say_default(terms: &mut Terms, is_told: bool, default: Delay) -> Result<(), AllocError>
    ensures { OnOk result (entries_of terms.new ≡ entries_of terms.old ++ default_entry is_told default) }
{
    if !is_told {
        return Ok(());
    }
    let delays = Said::Delays {
        rise: u64::from(default.rise),
        fall: u64::from(default.fall),
    };
    terms.add("default", delays)
}

fn say_outputs(
    alloc: Global,
    terms: &mut Terms,
    is_told: bool,
    outputs: &Outputs<'_>,
) -> Result<(), AllocError>
    ensures { OnOk result (entries_of terms.new ≡ entries_of terms.old ++ output_entry is_told outputs.now) }
{
    if !is_told {
        return Ok(());
    }
    let names = labels(alloc, outputs.names())?;
    terms.add("output", Said::Words(names))
}

fn is_default_told(told: Told) -> bool
    ensures { result ≡ (told.rise || told.fall) }
{
    told.rise || told.fall
}

fn say_reading(
    alloc: Global,
    terms: &mut Terms,
    told: Told,
    reading: &Reading<'_>,
) -> Result<(), AllocError>
    ensures { OnOk result (entries_of terms.new ≡ entries_of terms.old ++ reading_entries told reading.now) }
{
    say_default(terms, is_default_told(told), reading.default)?;
    say_outputs(alloc, terms, told.outputs, &reading.outputs)
}

/// What a command is told of a reading: all, but for a check.
fn told_of(command: &Command<'_>) -> Told
    ensures { result ≡ told_of command.now }
{
    match command {
        Command::Check(check) => check.told,
        Command::Sim(_)
        | Command::Path(_)
        | Command::Bound(_)
        | Command::Worst(_)
        | Command::Parts(_)
        | Command::Join(_)
        | Command::Info => Told {
            rise: true,
            fall: true,
            outputs: true,
        },
    }
}

/// An option by name, and its word.
fn option(alloc: Global, taken: Taken<'_>) -> Result<Named, AllocError>
    ensures { IfOk result (λ named. (named.option, named.word) ≡ taken_words taken.entry) }
{
    Ok(Named {
        option: label(alloc, taken.topic.option())?,
        word: label_of(alloc, taken.text)?,
    })
}

fn options(alloc: Global, named: &[Taken<'_>]) -> Result<Vec<Named>, AllocError>
    ensures { IfOk result (λ options. map (λ named. (named.option, named.word)) options.items ≡ map taken_words named.now) }
{
    let mut options = Vec::new(alloc);
    for taken in named {
        options.push(option(alloc, *taken)?)?;
    }
    Ok(options)
}

fn say_named(alloc: Global, terms: &mut Terms, named: &[Taken<'_>]) -> Result<(), AllocError>
    ensures { OnOk result (entries_of terms.new ≡ entries_of terms.old ++ named_entry named.now) }
{
    let options = options(alloc, named)?;
    terms.add("named", Said::Options(options))
}

/// What is said of the inputs, by place and by name.
fn say_inputs(alloc: Global, terms: &mut Terms, inputs: Inputs<'_>) -> Result<(), AllocError>
    ensures { OnOk result (entries_of terms.new ≡ entries_of terms.old ++ inputs_entries inputs.entry) }
{
    say_word(alloc, terms, "first", inputs.given.first)?;
    say_word(alloc, terms, "second", inputs.given.second)?;
    say_word(alloc, terms, "hold", inputs.given.hold)?;
    say_word(alloc, terms, "at", inputs.given.at)?;
    say_named(alloc, terms, inputs.named)
}

fn say_pair(
    alloc: Global,
    terms: &mut Terms,
    from: &str,
    to: &str,
    inputs: Inputs<'_>,
) -> Result<(), AllocError>
    ensures { OnOk result (entries_of terms.new ≡ entries_of terms.old ++ pair_entries from.entry to.entry inputs.entry) }
{
    say(alloc, terms, "from", from)?;
    say(alloc, terms, "to", to)?;
    say_inputs(alloc, terms, inputs)
}

fn say_bound(alloc: Global, terms: &mut Terms, asked: &Bound<'_>) -> Result<(), AllocError>
    ensures { OnOk result (entries_of terms.new ≡ entries_of terms.old ++ bound_entries asked.now) }
{
    say_inputs(alloc, terms, asked.inputs)?;
    say_count(terms, "flips", asked.flips)?;
    say_count(terms, "required", asked.required)
}

/// Which pairs are asked about, and by which moment outputs are to settle.
fn say_search(
    alloc: Global,
    terms: &mut Terms,
    question: Question<'_>,
    required: Option<u64>,
) -> Result<(), AllocError>
    ensures { OnOk result (entries_of terms.new ≡ entries_of terms.old ++ search_entries question.entry required) }
{
    say_inputs(alloc, terms, question.inputs)?;
    say_word(alloc, terms, "keep_file", question.keep_file)?;
    say_count(terms, "flips", question.flips)?;
    say_count(terms, "required", required)
}

fn say_command(alloc: Global, terms: &mut Terms, command: &Command<'_>) -> Result<(), AllocError>
    ensures { OnOk result (entries_of terms.new ≡ entries_of terms.old ++ command_entries command.now) }
{
    match command {
        Command::Sim(asked) => say_pair(alloc, terms, asked.from, asked.to, asked.inputs),
        Command::Path(asked) => {
            say_pair(alloc, terms, asked.from, asked.to, asked.inputs)?;
            say_word(alloc, terms, "net", asked.output)
        }
        Command::Bound(asked) => say_bound(alloc, terms, asked),
        Command::Worst(asked) => say_search(alloc, terms, asked.question, asked.required),
        Command::Parts(asked) => say_search(alloc, terms, asked.question, asked.required),
        Command::Join(asked) => say_search(alloc, terms, asked.question, asked.required),
        Command::Check(asked) => say(alloc, terms, "certificate", asked.certificate),
        Command::Info => Ok(()),
    }
}

fn command_word(command: &Command<'_>) -> &'static str
    ensures { result.now ≡ command_word command.now }
{
    match command {
        Command::Sim(_) => "sim",
        Command::Path(_) => "path",
        Command::Bound(_) => "bound",
        Command::Worst(_) => "worst",
        Command::Parts(_) => "parts",
        Command::Join(_) => "join",
        Command::Check(_) => "check",
        Command::Info => "info",
    }
}

/// What a request asks.
pub(crate) fn asked(alloc: Global, request: &Request<'_>) -> Result<Asked, AllocError>
    ensures { IfOk result (λ asked. question_of asked ≡ asked_of request.now) }
{
    let mut question = Terms::new(alloc);
    say_reading(
        alloc,
        &mut question,
        told_of(&request.command),
        &request.reading,
    )?;
    say_command(alloc, &mut question, &request.command)?;
    Ok(Asked {
        command: command_word(&request.command),
        file: label(alloc, request.file)?,
        question,
    })
}

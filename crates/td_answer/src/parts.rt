//! The parts of a question, as options by which `worst` searches them.

ghost use Rattle.std.specs.Prelude.{◌≡◌, ◌∷◌, ◌++◌, [], map, codes, decimal, IfOk, IfErr, OnOk, None as Nothing};
ghost use Rattle.std.specs.List.{flat_map};
ghost use Rattle.td_inputs.specs.Placings.{words_by_place, text_of};
ghost use Rattle.td_answer.specs.Parts.{given_words, number_words, default_words, pins_words, question_words, asked_words, keep_option, condition_words, output_words, reading_words, part_words, HasParts, IsTrueParts, IsRefusedParts};
ghost use Rattle.td_answer.specs.Writing.{CanBeWritten};

use crate::outcome::Outcome;
use crate::pins::trits;
use crate::refusal::Refusal;
use crate::worst::method_of;
use std::alloc::{AllocError, Global};
use td_domain::Cube;
use td_inputs::ByPlace;
use td_lines::{Label, Line, Part, Report};
use td_parts::cut;
use td_question::{question_of, words_of};
use td_reading::Reading;
use td_request::Parts;
use td_search::{Problem, SearchFault};

/// What the options of each part say of its pairs besides pins, and of moments.
#[derive(Clone, Copy)]
struct Said<'a> {
    placed: &'a ByPlace,
    flips: Option<u64>,
    /// The moment that is required.
    required: Option<u64>,
    /// The words of conditions.
    keep: &'a [&'a [u8]],
    /// The file of conditions.
    keep_file: Option<&'a str>,
}

/// Appends a word.
fn push_word(alloc: Global, words: &mut Vec<Label>, word: &str) -> Result<(), AllocError>
    ensures { OnOk result (words.new.items ≡ words.old.items ++ word.now ∷ []) }
{
    let word = String::from_str(alloc, word)?;
    words.push(Label::new(word))?;
    Ok(())
}

/// Appends an option and its word.
fn push_option(
    alloc: Global,
    words: &mut Vec<Label>,
    name: &str,
    word: &str,
) -> Result<(), AllocError>
    ensures { OnOk result (words.new.items ≡ words.old.items ++ name.now ∷ word.now ∷ []) }
{
    push_word(alloc, words, name)?;
    push_word(alloc, words, word)
}

/// Appends an option as it is given, where it is.
fn push_given(
    alloc: Global,
    words: &mut Vec<Label>,
    name: &str,
    word: Option<&str>,
) -> Result<(), AllocError>
    ensures { OnOk result (words.new.items ≡ words.old.items ++ given_words name.now (text_of word.entry)) }
{
    match word {
        None => Ok(()),
        Some(word) => push_option(alloc, words, name, word),
    }
}

/// Appends an option and its number.
fn push_number(
    alloc: Global,
    words: &mut Vec<Label>,
    name: &str,
    number: u64,
) -> Result<(), AllocError>
    ensures { OnOk result (words.new.items ≡ words.old.items ++ name.now ∷ decimal number ∷ []) }
{
    let word = format!(in alloc; "{number}")?;
    push_option(alloc, words, name, &word)
}

/// Appends an option and its number, where it is given.
fn push_count(
    alloc: Global,
    words: &mut Vec<Label>,
    name: &str,
    number: Option<u64>,
) -> Result<(), AllocError>
    ensures { OnOk result (words.new.items ≡ words.old.items ++ number_words name.now number) }
{
    match number {
        None => Ok(()),
        Some(number) => push_number(alloc, words, name, number),
    }
}

/// Appends a default delay, where it isn't that of one step.
fn push_default(
    alloc: Global,
    words: &mut Vec<Label>,
    name: &str,
    steps: u32,
) -> Result<(), AllocError>
    ensures { OnOk result (words.new.items ≡ words.old.items ++ default_words name.now steps) }
{
    if steps == 1 {
        return Ok(());
    }
    push_number(alloc, words, name, u64::from(steps))
}

/// Appends the pins of a part.
fn push_pins(alloc: Global, words: &mut Vec<Label>, cube: &Cube) -> Result<(), AllocError>
    ensures { OnOk result (words.new.items ≡ words.old.items ++ pins_words cube.now) }
{
    let first = trits(alloc, cube, false)?;
    push_option(alloc, words, "--first", &first)?;
    let second = trits(alloc, cube, true)?;
    push_option(alloc, words, "--second", &second)
}

/// Appends what the question says of the pairs of each part and of moments.
fn push_question(
    alloc: Global,
    words: &mut Vec<Label>,
    placed: &ByPlace,
    flips: Option<u64>,
) -> Result<(), AllocError>
    ensures { OnOk result (words.new.items ≡ words.old.items ++ question_words (words_by_place placed.now) flips) }
{
    push_given(alloc, words, "--hold", placed.hold.as_deref())?;
    push_count(alloc, words, "--flips", flips)?;
    push_given(alloc, words, "--at", placed.at.as_deref())
}

/// And what is required of them.
fn push_asked(alloc: Global, words: &mut Vec<Label>, said: Said<'_>) -> Result<(), AllocError>
    ensures { OnOk result (words.new.items ≡ words.old.items ++ asked_words (words_by_place said.entry.placed.now) said.entry.flips said.entry.required) }
{
    push_question(alloc, words, said.placed, said.flips)?;
    push_count(alloc, words, "--required", said.required)
}

/// Appends the option of a condition. The words of a command line are texts.
fn push_condition(alloc: Global, words: &mut Vec<Label>, word: &[u8]) -> Result<(), AllocError>
    ensures { OnOk result (words.new.items ≡ words.old.items ++ codes "--keep" ∷ word.now ∷ []) }
{
    match str::from_utf8(word) {
        Ok(word) => push_option(alloc, words, "--keep", word),
        Err(_) => Err(AllocError),
    }
}

/// Appends the option of each condition.
fn push_keep(alloc: Global, words: &mut Vec<Label>, keep: &[&[u8]]) -> Result<(), AllocError>
    ensures { OnOk result (words.new.items ≡ words.old.items ++ flat_map keep_option keep.now) }
{
    for word in keep {
        push_condition(alloc, words, word)?;
    }
    Ok(())
}

/// Appends the options of conditions, and that of a file of them.
fn push_conditions(
    alloc: Global,
    words: &mut Vec<Label>,
    keep: &[&[u8]],
    file: Option<&str>,
) -> Result<(), AllocError>
    ensures { OnOk result (words.new.items ≡ words.old.items ++ condition_words (map (λ word. word.now) keep.now) (text_of file.entry)) }
{
    push_keep(alloc, words, keep)?;
    push_given(alloc, words, "--keep-file", file)
}

/// Appends the option of each output that is asked about.
fn push_outputs(alloc: Global, words: &mut Vec<Label>, names: &[&str]) -> Result<(), AllocError>
    ensures { OnOk result (words.new.items ≡ words.old.items ++ flat_map output_words names.now) }
{
    for name in names {
        push_option(alloc, words, "--output", name)?;
    }
    Ok(())
}

/// Appends how the netlist's text is read.
fn push_reading(
    alloc: Global,
    words: &mut Vec<Label>,
    reading: &Reading<'_>,
) -> Result<(), AllocError>
    ensures { OnOk result (words.new.items ≡ words.old.items ++ reading_words reading.now) }
{
    push_default(alloc, words, "--default-rise", reading.default.rise)?;
    push_default(alloc, words, "--default-fall", reading.default.fall)?;
    push_outputs(alloc, words, reading.outputs.names())
}

/// The options of one part.
fn part_of(
    alloc: Global,
    cube: &Cube,
    said: Said<'_>,
    reading: &Reading<'_>,
) -> Result<Part, AllocError>
    ensures { IfOk result (λ part. part.words.items ≡ part_words reading.now (words_by_place said.entry.placed.now) said.entry.flips said.entry.required (map (λ word. word.now) said.entry.keep.now) (text_of said.entry.keep_file) cube.now) }
{
    let mut words = Vec::new(alloc);
    push_pins(alloc, &mut words, cube)?;
    push_asked(alloc, &mut words, said)?;
    push_conditions(alloc, &mut words, said.keep, said.keep_file)?;
    push_reading(alloc, &mut words, reading)?;
    Ok(Part { words })
}

/// The line of the parts.
fn line_of(
    alloc: Global,
    cubes: &[Cube],
    said: Said<'_>,
    reading: &Reading<'_>,
) -> Result<Line, AllocError>
    ensures { IfOk result (HasParts (map (part_words reading.now (words_by_place said.entry.placed.now) said.entry.flips said.entry.required (map (λ word. word.now) said.entry.keep.now) (text_of said.entry.keep_file)) cubes.now)) }
{
    let mut parts = Vec::new(alloc);
    for cube in cubes {
        let part = part_of(alloc, cube, said, reading)?;
        parts.push(part)?;
    }
    Ok(Line::Parts(parts))
}

/// A report of one line.
fn report_of(alloc: Global, line: Line) -> Result<Report, AllocError>
    ensures { IfOk result (λ report. report ≡ line ∷ []) }
{
    let mut report = Report::new(alloc);
    report.add(line)?;
    Ok(report)
}

/// The parts of what a request asks of a text.
pub(crate) fn parts<'n, 'w>(
    alloc: Global,
    text: &'n [u8],
    reading: &Reading<'_>,
    asked: &Parts<'w>,
) -> Result<Outcome, Refusal<'n, 'w>>
    ensures says { IfOk result (IsTrueParts text.now reading.now asked.now) }
    ensures certified { IfOk result (λ outcome. outcome.certificate ≡ Nothing) }
    ensures written { IfOk result CanBeWritten }
    ensures refusal { IfErr result (IsRefusedParts text.now reading.now asked.now) }
{
    let about = question_of(alloc, text, reading, &asked.question)?;
    let problem = Problem {
        circuit: &about.circuit,
        admit: &about.admit,
        strategy: method_of(asked.strategy).strategy(),
    };
    let cubes = cut(alloc, &problem, asked.count.parts as usize)?;
    if cubes.is_empty() {
        return Err(Refusal::Search(SearchFault::NoPair));
    }
    let keep = words_of(alloc, asked.question.inputs.named)?;
    let said = Said {
        placed: &about.words,
        flips: asked.question.flips,
        required: asked.required,
        keep: &keep,
        keep_file: asked.question.keep_file,
    };
    let line = line_of(alloc, &cubes, said, reading)?;
    let report = report_of(alloc, line)?;
    Ok(Outcome::done(report))
}

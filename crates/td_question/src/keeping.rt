//! Conditions on nets, as words of the command line say them.

ghost use Rattle.std.specs.Prelude.{◌≡◌, ◌∷◌, ◌++◌, [], ℕ, List, map, OnOk, IfOk, IfErr, IfSome, IfNone};
ghost use Rattle.td_gates.specs.declared.primitives.Level.{Level as LevelModel};
ghost use Rattle.td_nets.specs.Netlist.{Netlist};
ghost use Rattle.td_inputs.specs.Readings.{same_topic};
ghost use Rattle.td_inputs.specs.Scans.{taken_in};
ghost use Rattle.td_spans.specs.declared.condition.Form.{Form as FormModel};
ghost use Rattle.td_certificate.specs.Text.{level_byte};
ghost use Rattle.td_question.specs.Asking.{keep_quotes, is_too_long, IsFaultOfQuestion};
ghost use Rattle.td_question.specs.KeepLines.{file_quotes, quote_in, word_quote, Quote as QuoteModel};
ghost use Rattle.td_question.specs.Keeping.{HasFields, HasParts, keep_texts, AreConditions, IsFaultOfQuote, IsFirstFault, SaysCondition, Spells};
ghost use Rattle.td_question.specs.Found.{AreLevels, AreFound, AreNames, AreSaid, AsksForm};

use crate::keep_lines::{MOST_BYTES, push_lines};
use crate::net_names::{NetNames, numbers_of};
use crate::quote::Quote;
use crate::rising::in_order;
use std::alloc::{AllocError, Global};
use td_circuit::Circuit;
use td_gates::Level;
use td_inputs::{Taken, Topic};
use td_refutation::NamedCondition;
use td_request::Question;
use td_spans::Form;

/// Why what is said asks no condition: a quote doesn't name a net and ask something of it, the
/// netlist has no net of that name, or the file of conditions is too long.
#[derive(Clone, Copy, Drop)]
pub enum KeepFault<'w> {
    Bad(Quote<'w>),
    NoNet(Quote<'w>),
    TooLong,
}

/// The parts of a quote: the name of a net, and what is asked of it.
#[derive(Clone, Copy, Drop)]
struct Parts<'w> {
    name: &'w [u8],
    form: Form,
}

/// The level that this character asks for, x where any will do.
fn level_of(byte: u8) -> Option<Level>
    ensures some { IfSome result (λ level. byte ≡ level_byte level) }
    ensures none { IfNone result ((level : LevelModel) → ¬ (byte ≡ level_byte level)) }
{
    match byte {
        b'0' => Some(Level::Zero),
        b'1' => Some(Level::One),
        b'.' => Some(Level::X),
        _ => None,
    }
}

/// The two levels that these characters ask for. Not both may be any.
fn levels_of(first: u8, second: u8) -> Option<Form>
    ensures some { IfSome result (AreLevels first second) }
    ensures none { IfNone result ((form : FormModel) → ¬ AreLevels first second form) }
{
    if first == b'.' && second == b'.' {
        return None;
    }
    let first = level_of(first)?;
    let second = level_of(second)?;
    Some(Form::Levels(first, second))
}

/// The parts of a word of a condition. What is asked stands at its end, so that names may have any
/// characters.
fn word_parts(word: &[u8]) -> Option<Parts<'_>>
    ensures some { IfSome result (λ parts. HasParts word.now parts.name.now parts.form) }
    ensures none { IfNone result ((name : List ℕ) (form : FormModel) → ¬ HasParts word.now name form) }
{
    match word {
        [name @ .., sign, first, second] => {
            if *first == b'=' && *second == b'=' {
                let name = &word[..name.len() + 1];
                return Some(Parts {
                    name,
                    form: Form::Equal,
                });
            }
            if name.is_empty() || *sign != b'=' {
                return None;
            }
            let form = levels_of(*first, *second)?;
            Some(Parts { name, form })
        }
        _ => None,
    }
}

/// What these characters ask of a net.
fn form_of(first: u8, second: u8) -> Option<Form>
    ensures some { IfSome result (AsksForm first second) }
    ensures none { IfNone result ((form : FormModel) → ¬ AsksForm first second form) }
{
    if first == b'=' && second == b'=' {
        return Some(Form::Equal);
    }
    levels_of(first, second)
}

/// The parts of a line: what is asked is its last field, and the name stands before that.
fn line_parts(line: &[u8]) -> Option<Parts<'_>>
    ensures some { IfSome result (λ parts. HasFields line.now parts.name.now parts.form) }
    ensures none { IfNone result ((name : List ℕ) (form : FormModel) → ¬ HasFields line.now name form) }
{
    match line {
        [front @ .., blank, first, second] => {
            let name = front.trim_ascii_end();
            if name.is_empty() || !blank.is_ascii_whitespace() {
                return None;
            }
            let form = form_of(*first, *second)?;
            Some(Parts { name, form })
        }
        _ => None,
    }
}

/// The parts of a quote.
fn parts_of<'w>(quote: Quote<'w>) -> Option<Parts<'w>>
    ensures some { IfSome result (λ parts. Spells (quote_in quote.entry) parts.name.now parts.form) }
    ensures none { IfNone result ((name : List ℕ) (form : FormModel) → ¬ Spells (quote_in quote.entry) name form) }
{
    match quote.line {
        None => word_parts(quote.text),
        Some(_) => line_parts(quote.text),
    }
}

fn is_keep(topic: Topic) -> bool
    ensures { result ≡ same_topic Topic.Keep topic }
{
    match topic {
        Topic::Keep => true,
        Topic::First | Topic::Second | Topic::Hold | Topic::At | Topic::Pin | Topic::HoldInput =>
            false,
    }
}

/// Adds the word, if it is one of a condition. The error is out of memory.
fn push_word<'w>(words: &mut Vec<&'w [u8]>, taken: Taken<'w>) -> Result<(), AllocError>
    ensures { OnOk result (map (λ word. word.now) words.new.items ≡ map (λ word. word.now) words.old.items ++ keep_texts (taken_in taken.entry ∷ [])) }
{
    if !is_keep(taken.topic) {
        return Ok(());
    }
    words.push(taken.text)?;
    Ok(())
}

/// The words of conditions, in order. The error is out of memory.
pub fn words_of<'w>(alloc: Global, named: &[Taken<'w>]) -> Result<Vec<&'w [u8]>, AllocError>
    ensures { IfOk result (λ words. map (λ word. word.now) words.items ≡ keep_texts (map taken_in named.now)) }
{
    let mut words = Vec::new(alloc);
    for taken in named {
        push_word(&mut words, *taken)?;
    }
    Ok(words)
}

/// Adds words of the command line. The error is out of memory.
fn push_words<'w>(quotes: &mut Vec<Quote<'w>>, words: &[&'w [u8]]) -> Result<(), AllocError>
    ensures { OnOk result (map quote_in quotes.new.items ≡ map quote_in quotes.old.items ++ map word_quote (map (λ word. word.now) words.now)) }
{
    for word in words {
        quotes.push(Quote {
            text: *word,
            line: None,
        })?;
    }
    Ok(())
}

/// Adds the lines of the file of conditions, where there is one. The error is out of memory.
fn push_file<'w>(quotes: &mut Vec<Quote<'w>>, text: Option<&'w [u8]>) -> Result<(), AllocError>
    ensures { OnOk result (map quote_in quotes.new.items ≡ map quote_in quotes.old.items ++ file_quotes text.entry) }
{
    match text {
        None => Ok(()),
        Some(text) => push_lines(quotes, text),
    }
}

/// What a question says of conditions: the words of the command line, and then the lines of the
/// file. The error is out of memory.
fn quotes_of<'w>(alloc: Global, question: &Question<'w>) -> Result<Vec<Quote<'w>>, AllocError>
    ensures { IfOk result (λ quotes. map quote_in quotes.items ≡ keep_quotes question.now) }
{
    let words = words_of(alloc, question.inputs.named)?;
    let mut quotes = Vec::new(alloc);
    push_words(&mut quotes, &words)?;
    push_file(&mut quotes, question.keep_text)?;
    Ok(quotes)
}

/// Adds the name of a net in a quote, if there is one. The error is out of memory.
fn add_name<'w>(names: &mut NetNames<'w>, quote: Quote<'w>) -> Result<(), AllocError>
    ensures { OnOk result ((quotes : List QuoteModel) → AreNames quotes names.old → AreNames (quotes ++ quote_in quote.entry ∷ []) names.new) }
{
    let Some(parts) = parts_of(quote) else {
        return Ok(());
    };
    names.add(parts.name)?;
    Ok(())
}

/// The names of nets in quotes. The error is out of memory.
fn names_of<'w>(alloc: Global, quotes: &[Quote<'w>]) -> Result<NetNames<'w>, AllocError>
    ensures { IfOk result (λ names. AreNames (map quote_in quotes.now) names) }
{
    let mut names = NetNames::new(alloc);
    for quote in quotes {
        add_name(&mut names, *quote)?;
    }
    Ok(names)
}

/// The condition that a quote says, by the numbers of the nets of these names.
fn condition_of<'w>(
    names: &NetNames<'_>,
    numbers: &[Option<u64>],
    quote: Quote<'w>,
) -> Result<NamedCondition, KeepFault<'w>>
    requires { AreNames (quote_in quote ∷ []) names.now }
    ensures said { IfOk result (λ condition. (netlist : Netlist) → AreFound netlist names.now numbers.now → SaysCondition netlist (quote_in quote.entry) condition) }
    ensures fault { IfErr result (λ fault. (netlist : Netlist) → AreFound netlist names.now numbers.now → IsFaultOfQuote netlist (quote_in quote.entry) fault) }
{
    let Some(parts) = parts_of(quote) else {
        return Err(KeepFault::Bad(quote));
    };
    match names.number_of(parts.name, numbers) {
        Some(net) => Ok(NamedCondition {
            net,
            form: parts.form,
        }),
        None => Err(KeepFault::NoNet(Quote {
            text: parts.name,
            line: quote.line,
        })),
    }
}

/// The condition that each quote says, or what is wrong with the first one that says none.
fn said_by<'w>(
    alloc: Global,
    names: &NetNames<'_>,
    numbers: &[Option<u64>],
    quotes: &[Quote<'w>],
) -> Result<Result<Vec<NamedCondition>, KeepFault<'w>>, AllocError>
    requires { AreNames (map quote_in quotes.now) names.now }
    ensures said { IfOk result (λ reported. IfOk reported (λ said. (netlist : Netlist) → AreFound netlist names.now numbers.now → AreSaid netlist (map quote_in quotes.now) said.items)) }
    ensures fault { IfOk result (λ reported. IfErr reported (λ fault. (netlist : Netlist) → AreFound netlist names.now numbers.now → IsFirstFault netlist (map quote_in quotes.now) fault)) }
{
    let mut said = Vec::new(alloc);
    for quote in quotes {
        match condition_of(names, numbers, *quote) {
            Ok(condition) => said.push(condition)?,
            Err(fault) => return Ok(Err(fault)),
        }
    }
    Ok(Ok(said))
}

/// The conditions that quotes say on nets of a circuit, each once, in the order of a certificate;
/// or what is wrong with the first of the quotes that says none. The error is out of memory.
fn conditions_by<'w>(
    alloc: Global,
    circuit: &Circuit,
    quotes: &[Quote<'w>],
) -> Result<Result<Vec<NamedCondition>, KeepFault<'w>>, AllocError>
    ensures keep { IfOk result (λ reported. IfOk reported (λ keep. AreConditions circuit.now.netlist (map quote_in quotes.now) keep.items)) }
    ensures fault { IfOk result (λ reported. IfErr reported (IsFirstFault circuit.now.netlist (map quote_in quotes.now))) }
{
    let names = names_of(alloc, quotes)?;
    let numbers = numbers_of(alloc, circuit, &names)?;
    match said_by(alloc, &names, &numbers, quotes)? {
        Ok(said) => {
            let keep = in_order(alloc, said)?;
            Ok(Ok(keep))
        }
        Err(fault) => Ok(Err(fault)),
    }
}

/// Whether the file of conditions is too long.
fn is_too_long(text: Option<&[u8]>) -> bool
    ensures { result ≡ is_too_long text.entry }
{
    match text {
        None => false,
        Some(text) => text.len() > MOST_BYTES,
    }
}

/// The conditions that a question says on nets of a circuit, each once, in the order of a
/// certificate; or what is wrong with the file, or with the first of the words and lines that says
/// none. The error is out of memory.
pub(crate) fn conditions_of<'w>(
    alloc: Global,
    circuit: &Circuit,
    question: &Question<'w>,
) -> Result<Result<Vec<NamedCondition>, KeepFault<'w>>, AllocError>
    ensures keep { IfOk result (λ reported. IfOk reported (λ keep. AreConditions circuit.now.netlist (keep_quotes question.now) keep.items)) }
    ensures fault { IfOk result (λ reported. IfErr reported (IsFaultOfQuestion circuit.now.netlist question.now)) }
{
    if is_too_long(question.keep_text) {
        return Ok(Err(KeepFault::TooLong));
    }
    let quotes = quotes_of(alloc, question)?;
    conditions_by(alloc, circuit, &quotes)
}

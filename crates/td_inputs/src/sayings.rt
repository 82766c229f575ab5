//! What the words of options by name say of inputs.

ghost use Rattle.std.specs.Prelude.{◌≡◌, length, map, option_map, IfOk};
ghost use Rattle.td_inputs.specs.Labels.{label_in};
ghost use Rattle.td_inputs.specs.Scans.{taken_in};
ghost use Rattle.td_inputs.specs.Readings.{has, joined_by, merge, named_parts, reading, reading_in, same_topic, step, value_by};

use crate::cells::{clash, together};
use crate::labels::Label;
use crate::scanning::{Taken, cut};
use crate::topic::Topic;
use crate::value::{Value, moment, named_count, pin_value, said};
use std::alloc::{AllocError, Global};

/// What is wrong with a word of an option by name.
#[derive(Clone, Copy, Drop)]
pub enum WordFault<'a> {
    /// It is no name with a value that the inputs of this name can have.
    Bad(Topic, &'a [u8]),
    /// No input has this name.
    NoInput(&'a [u8]),
    /// It says something else of the input at this place than another word does.
    Clash(Topic, &'a [u8], usize),
    /// `--at` is given by name and by place.
    TwoForms,
}

/// The name and the value in a word of an option by name. An input that is held has no value.
fn named_parts<'a>(taken: Taken<'a>) -> Option<(&'a [u8], &'a [u8])>
    ensures { option_map (λ parts. (parts.0.now, parts.1.now)) result ≡ named_parts taken.entry.topic taken.entry.text.now }
{
    match taken.topic {
        Topic::HoldInput => Some((taken.text, b"")),
        _ => cut(b'=', taken.text),
    }
}

/// What the value in a word says, where it names that many inputs. A condition on a net says
/// nothing of inputs.
fn value_by(topic: Topic, count: usize, text: &[u8]) -> Option<Value>
    ensures { result ≡ value_by topic count text.now }
{
    match topic {
        Topic::Pin => pin_value(count, text),
        Topic::HoldInput => Some(Value::Each(1)),
        Topic::At => moment(text),
        Topic::First | Topic::Second | Topic::Hold | Topic::Keep => None,
    }
}

/// What a word of an option by name says of each input.
pub fn reading<'a>(
    alloc: Global,
    labels: &[Label],
    taken: Taken<'a>,
) -> Result<Result<Vec<Option<u64>>, WordFault<'a>>, AllocError>
    ensures read { IfOk result (λ read. reading_in read ≡ reading (map label_in labels.now) (taken_in taken.entry)) }
    ensures each { IfOk result (λ read. IfOk read (λ cells. length cells.items ≡ length labels.now)) }
{
    let Some((name, text)) = named_parts(taken) else {
        return Ok(Err(WordFault::Bad(taken.topic, taken.text)));
    };
    let count = named_count(labels, name);
    if count == 0 {
        return Ok(Err(WordFault::NoInput(name)));
    }
    let Some(value) = value_by(taken.topic, count, text) else {
        return Ok(Err(WordFault::Bad(taken.topic, taken.text)));
    };
    let cells = said(alloc, labels, name, value)?;
    Ok(Ok(cells))
}

/// Whether two options by name are the same.
fn same_topic(one: Topic, other: Topic) -> bool
    ensures { result ≡ same_topic one other }
{
    match (one, other) {
        (Topic::Pin, Topic::Pin) => true,
        (Topic::HoldInput, Topic::HoldInput) => true,
        (Topic::At, Topic::At) => true,
        (Topic::Keep, Topic::Keep) => true,
        _ => false,
    }
}

/// Whether an option by name is among those taken.
pub fn has(topic: Topic, taken: &[Taken<'_>]) -> bool
    ensures { result ≡ has topic (map taken_in taken.now) }
{
    for word in taken {
        if same_topic(topic, word.topic) {
            return true;
        }
    }
    false
}

/// What was said of each input, and what one word more says.
fn joined_by<'a>(
    alloc: Global,
    labels: &[Label],
    cells: &[Option<u64>],
    taken: Taken<'a>,
) -> Result<Result<Vec<Option<u64>>, WordFault<'a>>, AllocError>
    requires { length cells.now ≡ length labels.now }
    ensures read { IfOk result (λ read. reading_in read ≡ joined_by (map label_in labels.now) cells.now (taken_in taken.entry)) }
    ensures each { IfOk result (λ read. IfOk read (λ more. length more.items ≡ length labels.now)) }
{
    match reading(alloc, labels, taken)? {
        Ok(more) => match clash(cells, &more) {
            Some(place) => Ok(Err(WordFault::Clash(taken.topic, taken.text, place))),
            None => {
                let both = together(alloc, cells, &more)?;
                Ok(Ok(both))
            }
        },
        Err(fault) => Ok(Err(fault)),
    }
}

/// The same, where the word may be of another option, and then says nothing.
fn step<'a>(
    alloc: Global,
    topic: Topic,
    labels: &[Label],
    cells: Vec<Option<u64>>,
    taken: Taken<'a>,
) -> Result<Result<Vec<Option<u64>>, WordFault<'a>>, AllocError>
    requires { length cells.items ≡ length labels.now }
    ensures read { IfOk result (λ read. reading_in read ≡ step topic (map label_in labels.now) cells.items (taken_in taken.entry)) }
    ensures each { IfOk result (λ read. IfOk read (λ more. length more.items ≡ length labels.now)) }
{
    if same_topic(topic, taken.topic) {
        joined_by(alloc, labels, &cells, taken)
    } else {
        Ok(Ok(cells))
    }
}

/// What these cells and all words of an option by name say of each input.
pub fn merged<'a>(
    alloc: Global,
    topic: Topic,
    labels: &[Label],
    start: Vec<Option<u64>>,
    taken: &[Taken<'a>],
) -> Result<Result<Vec<Option<u64>>, WordFault<'a>>, AllocError>
    requires { length start.items ≡ length labels.now }
    ensures { IfOk result (λ read. reading_in read ≡ merge topic (map label_in labels.now) start.items (map taken_in taken.now)) }
{
    let mut cells = start;
    for word in taken {
        match step(alloc, topic, labels, cells, *word)? {
            Ok(more) => cells = more,
            Err(fault) => return Ok(Err(fault)),
        }
    }
    Ok(Ok(cells))
}

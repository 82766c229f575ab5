//! Options by place that say what options by name and by place say together.

ghost use Rattle.std.specs.Prelude.{◌≡◌, ℕ, List, Option, None, Some, map, length, replicate, IfOk, IfErr, IfSome, IfNone};
ghost use Rattle.td_inputs.specs.Labels.{label_in};
ghost use Rattle.td_inputs.specs.Scans.{taken_in};
ghost use Rattle.td_inputs.specs.Readings.{fault_in, merge};
ghost use Rattle.td_inputs.specs.Placings.{ArePlaced, GivesCells, IsPlacing, IsUnread, IsWrong, Word, given_in, patterned, placed_moments, placing_in, text_of, timed, words_by_place};

use crate::labels::Label;
use crate::sayings::{WordFault, has, merged};
use crate::scanning::Taken;
use crate::topic::Topic;
use crate::words::ByPlace;
use crate::writing::{Letters, cells_of, moments_word, pattern};
use std::alloc::{AllocError, Global};

/// The words of options by place, where they are given.
#[derive(Clone, Copy)]
pub struct Given<'a> {
    pub first: Option<&'a str>,
    pub second: Option<&'a str>,
    pub hold: Option<&'a str>,
    pub at: Option<&'a str>,
}

/// The word of an option by place, after options by name are merged into it.
#[derive(Drop)]
pub enum Placing<'a> {
    /// The option has this word, or is left out.
    Word(Option<String>),
    /// The word of an option by name is wrong.
    Wrong(WordFault<'a>),
    /// The given word gives nothing for that many inputs.
    Unread,
}

/// Nothing, said of that many inputs.
fn nothing(alloc: Global, count: usize) -> Result<Vec<Option<u64>>, AllocError>
    ensures { IfOk result (λ cells. cells.items ≡ replicate count None) }
{
    let mut cells = Vec::new(alloc);
    for _input in 0..count {
        cells.push(None)?;
    }
    Ok(cells)
}

/// What a word by place says of each of that many inputs.
fn spelled_cells(
    alloc: Global,
    letters: Letters,
    count: usize,
    word: &str,
) -> Result<Option<Vec<Option<u64>>>, AllocError>
    ensures some { IfOk result (λ found. IfSome found (λ cells. GivesCells letters count (Some word.now) cells.items)) }
    ensures none { IfOk result (λ found. IfNone found ((cells : List (Option ℕ)) → ¬ GivesCells letters count (Some word.now) cells)) }
{
    if count == 0 {
        return if word == "none" {
            Ok(Some(Vec::new(alloc)))
        } else {
            Ok(None)
        };
    }
    if word.len() == count {
        cells_of(alloc, letters, word.as_bytes())
    } else {
        Ok(None)
    }
}

/// What the given word of an option by place says of each of that many inputs.
fn given_cells(
    alloc: Global,
    letters: Letters,
    count: usize,
    given: Option<&str>,
) -> Result<Option<Vec<Option<u64>>>, AllocError>
    ensures some { IfOk result (λ found. IfSome found (λ cells. GivesCells letters count (text_of given.entry) cells.items)) }
    ensures none { IfOk result (λ found. IfNone found ((cells : List (Option ℕ)) → ¬ GivesCells letters count (text_of given.entry) cells)) }
{
    match given {
        Some(word) => spelled_cells(alloc, letters, count, word),
        None => {
            let cells = nothing(alloc, count)?;
            Ok(Some(cells))
        }
    }
}

/// The word of an option by place, into which the words of an option by name are merged, where
/// there are such.
pub fn placed<'a>(
    alloc: Global,
    letters: Letters,
    topic: Topic,
    labels: &[Label],
    taken: &[Taken<'a>],
    given: Option<&str>,
) -> Result<Placing<'a>, AllocError>
    ensures { IfOk result (λ placing. IsPlacing letters topic (map label_in labels.now) (map taken_in taken.now) (text_of given.entry) (placing_in placing)) }
{
    if !has(topic, taken) {
        return kept(alloc, given);
    }
    match given_cells(alloc, letters, labels.len(), given)? {
        Some(start) => patterned(alloc, letters, topic, labels, taken, start),
        None => Ok(Placing::Unread),
    }
}

/// A given word as it is.
fn kept<'a>(alloc: Global, given: Option<&str>) -> Result<Placing<'a>, AllocError>
    ensures { IfOk result (λ placing. placing_in placing ≡ Word (text_of given.entry)) }
{
    match given {
        Some(word) => Ok(Placing::Word(Some(String::from_str(alloc, word)?))),
        None => Ok(Placing::Word(None)),
    }
}

/// The word by place of what is said from the start and by the words of an option by name.
fn patterned<'a>(
    alloc: Global,
    letters: Letters,
    topic: Topic,
    labels: &[Label],
    taken: &[Taken<'a>],
    start: Vec<Option<u64>>,
) -> Result<Placing<'a>, AllocError>
    requires { length start.items ≡ length labels.now }
    ensures { IfOk result (λ placing. placing_in placing ≡ patterned letters (merge topic (map label_in labels.now) start.items (map taken_in taken.now))) }
{
    match merged(alloc, topic, labels, start, taken)? {
        Ok(cells) => {
            let word = pattern(alloc, letters, &cells)?;
            Ok(Placing::Word(Some(word)))
        }
        Err(fault) => Ok(Placing::Wrong(fault)),
    }
}

/// The word of `--at` by place. It is given by name or by place.
pub fn placed_moments<'a>(
    alloc: Global,
    labels: &[Label],
    taken: &[Taken<'a>],
    given: Option<&str>,
) -> Result<Placing<'a>, AllocError>
    ensures { IfOk result (λ placing. placing_in placing ≡ placed_moments (map label_in labels.now) (map taken_in taken.now) (text_of given.entry)) }
{
    if !has(Topic::At, taken) {
        return kept(alloc, given);
    }
    match given {
        Some(_) => Ok(Placing::Wrong(WordFault::TwoForms)),
        None => timed(alloc, labels, taken),
    }
}

/// The word of `--at` by place of what its words say by name.
fn timed<'a>(
    alloc: Global,
    labels: &[Label],
    taken: &[Taken<'a>],
) -> Result<Placing<'a>, AllocError>
    ensures { IfOk result (λ placing. placing_in placing ≡ timed (merge Topic.At (map label_in labels.now) (replicate (length labels.now) None) (map taken_in taken.now))) }
{
    let start = nothing(alloc, labels.len())?;
    match merged(alloc, Topic::At, labels, start, taken)? {
        Ok(cells) => {
            let word = moments_word(alloc, &cells)?;
            Ok(Placing::Word(Some(word)))
        }
        Err(fault) => Ok(Placing::Wrong(fault)),
    }
}

/// The words of the options by place that say what all words of options by name and by place say
/// together; none where a given word gives nothing for the inputs.
pub fn places<'a>(
    alloc: Global,
    labels: &[Label],
    taken: &[Taken<'a>],
    given: Given<'_>,
) -> Result<Result<Option<ByPlace>, WordFault<'a>>, AllocError>
    ensures placed { IfOk result (λ read. IfOk read (λ found. IfSome found (λ options.
        ArePlaced (map label_in labels.now) (map taken_in taken.now) (given_in given.entry) (words_by_place options)))) }
    ensures unread { IfOk result (λ read. IfOk read (λ found. IfNone found (
        IsUnread (map label_in labels.now) (map taken_in taken.now) (given_in given.entry)))) }
    ensures wrong { IfOk result (λ read. IfErr read (λ fault.
        IsWrong (map label_in labels.now) (map taken_in taken.now) (given_in given.entry) (fault_in fault))) }
{
    let first = match placed(
        alloc,
        Letters::Trits,
        Topic::Pin,
        labels,
        taken,
        given.first,
    )? {
        Placing::Word(word) => word,
        Placing::Wrong(fault) => return Ok(Err(fault)),
        Placing::Unread => return Ok(Ok(None)),
    };
    let second = match placed(
        alloc,
        Letters::Trits,
        Topic::Pin,
        labels,
        taken,
        given.second,
    )? {
        Placing::Word(word) => word,
        Placing::Wrong(fault) => return Ok(Err(fault)),
        Placing::Unread => return Ok(Ok(None)),
    };
    let hold = match placed(
        alloc,
        Letters::Holds,
        Topic::HoldInput,
        labels,
        taken,
        given.hold,
    )? {
        Placing::Word(word) => word,
        Placing::Wrong(fault) => return Ok(Err(fault)),
        Placing::Unread => return Ok(Ok(None)),
    };
    match placed_moments(alloc, labels, taken, given.at)? {
        Placing::Word(at) => Ok(Ok(Some(ByPlace {
            first,
            second,
            hold,
            at,
        }))),
        Placing::Wrong(fault) => Ok(Err(fault)),
        Placing::Unread => Ok(Ok(None)),
    }
}

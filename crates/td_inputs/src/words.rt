//! The words of a command line, put together again.

ghost use Rattle.std.specs.Prelude.{◌≡◌, ◌++◌, map, IfOk, OnOk};
ghost use Rattle.td_inputs.specs.Scans.{with_words};
ghost use Rattle.td_inputs.specs.Placings.{option_words, placed_words, texts_of, word_of, words_by_place};

use crate::topic::Topic;
use std::alloc::{AllocError, Global};

/// Appends copies of words.
pub fn push_words(alloc: Global, all: &mut Vec<String>, words: &[&str]) -> Result<(), AllocError>
    ensures { OnOk result (texts_of all.new.items ≡ texts_of all.old.items ++ map (λ word. word.now) words.now) }
{
    for word in words {
        all.push(String::from_str(alloc, word)?)?;
    }
    Ok(())
}

/// Appends an option and its word, where it has one.
pub fn push_option(
    alloc: Global,
    all: &mut Vec<String>,
    topic: Topic,
    word: Option<String>,
) -> Result<(), AllocError>
    ensures { OnOk result (texts_of all.new.items ≡ texts_of all.old.items ++ option_words topic (word_of word)) }
{
    match word {
        None => Ok(()),
        Some(word) => {
            all.push(String::from_str(alloc, topic.option())?)?;
            all.push(word)?;
            Ok(())
        }
    }
}

/// Options by place, each with its word where it isn't left out.
#[derive(Drop)]
pub struct ByPlace {
    pub first: Option<String>,
    pub second: Option<String>,
    pub hold: Option<String>,
    pub at: Option<String>,
}

/// Appends options by place.
fn push_options(alloc: Global, all: &mut Vec<String>, options: ByPlace) -> Result<(), AllocError>
    ensures { OnOk result (texts_of all.new.items ≡ texts_of all.old.items ++ placed_words (words_by_place options)) }
{
    push_option(alloc, all, Topic::First, options.first)?;
    push_option(alloc, all, Topic::Second, options.second)?;
    push_option(alloc, all, Topic::Hold, options.hold)?;
    push_option(alloc, all, Topic::At, options.at)?;
    Ok(())
}

/// The words with others after the command's name, which is the second of them.
pub fn with_words(alloc: Global, rest: &[&str], words: &[&str]) -> Result<Vec<String>, AllocError>
    ensures { IfOk result (λ all. texts_of all.items ≡ with_words (map (λ word. word.now) rest.now) (map (λ word. word.now) words.now)) }
{
    let place = rest.len().min(2);
    let mut all = Vec::new(alloc);
    push_words(alloc, &mut all, &rest[..place])?;
    push_words(alloc, &mut all, words)?;
    push_words(alloc, &mut all, &rest[place..])?;
    Ok(all)
}

/// The words with options by place after the command's name, which is the second of them.
pub fn with_options(
    alloc: Global,
    rest: &[&str],
    options: ByPlace,
) -> Result<Vec<String>, AllocError>
    ensures { IfOk result (λ all. texts_of all.items ≡ with_words (map (λ word. word.now) rest.now) (placed_words (words_by_place options))) }
{
    let place = rest.len().min(2);
    let mut all = Vec::new(alloc);
    push_words(alloc, &mut all, &rest[..place])?;
    push_options(alloc, &mut all, options)?;
    push_words(alloc, &mut all, &rest[place..])?;
    Ok(all)
}

//! The words of a command line, with those about inputs and nets by name set apart.

ghost use Rattle.std.specs.Prelude.{◌≡◌, ◌++◌, map, IfOk, OnOk};
ghost use Rattle.td_inputs.specs.Scans.{taken_in, with_words};
ghost use Rattle.td_command.specs.Parting.{is_command, begin_with_command, say_by_name, AreParted};

use std::alloc::{AllocError, Global};
use std::convert::AsStr;
use td_inputs::{Scan, Taken, Topic, has, parted};

/// The words of a command line. What is said of inputs and nets by name is set apart, where it comes
/// with a command that comes first.
#[derive(Drop)]
pub struct Words<'a> {
    /// The words as they came.
    pub(crate) all: Vec<&'a str>,
    /// The words without those by name: those about inputs by place stand after the command.
    pub(crate) plain: Vec<&'a str>,
    /// What is said of inputs and nets by name.
    pub(crate) named: Vec<Taken<'a>>,
}

/// Whether a word may be a command's name: it isn't empty, and begins with no `-`.
fn is_command(word: &[u8]) -> bool
    ensures { result ≡ is_command word.now }
{
    match word {
        [] => false,
        [first, ..] => *first != b'-',
    }
}

/// Whether a command's name comes first, after the program's.
fn begin_with_command<S: AsStr>(words: &[S]) -> bool
    ensures { result ≡ begin_with_command (map S.text words.now) }
{
    match words {
        [] => false,
        [_] => false,
        [_, command, ..] => is_command(command.as_str().as_bytes()),
    }
}

/// Whether something is said by name.
fn say_by_name(named: &[Taken<'_>]) -> bool
    ensures { result ≡ say_by_name (map taken_in named.now) }
{
    has(Topic::Pin, named)
        || has(Topic::HoldInput, named)
        || has(Topic::Keep, named)
        || has(Topic::At, named)
}

/// Appends words.
fn push<'a>(all: &mut Vec<&'a str>, words: &[&'a str]) -> Result<(), AllocError>
    ensures { OnOk result (map (λ word. word.now) all.new.items ≡ map (λ word. word.now) all.old.items ++ map (λ word. word.now) words.now) }
{
    all.extend_from_slice(words)?;
    Ok(())
}

/// The words with others after the command's name, which is the second of them.
fn put<'a>(alloc: Global, rest: &[&'a str], words: &[&'a str]) -> Result<Vec<&'a str>, AllocError>
    ensures { IfOk result (λ all. map (λ word. word.now) all.items ≡ with_words (map (λ word. word.now) rest.now) (map (λ word. word.now) words.now)) }
{
    let place = rest.len().min(2);
    let mut all = Vec::new(alloc);
    push(&mut all, &rest[..place])?;
    push(&mut all, words)?;
    push(&mut all, &rest[place..])?;
    Ok(all)
}

/// The texts of words.
fn texts<'a, S: AsStr>(alloc: Global, words: &'a [S]) -> Result<Vec<&'a str>, AllocError>
    ensures { IfOk result (λ all. map (λ word. word.now) all.items ≡ map S.text words.entry.now) }
{
    let mut all = Vec::new(alloc);
    for word in words {
        all.push(word.as_str())?;
    }
    Ok(all)
}

impl<'a> Words<'a> {
    /// The words as they came.
    pub fn all(&self) -> &[&'a str]
        ensures { result.now ≡ self.now.all.items }
    {
        &self.all
    }

    /// The words of a command line, of which the first is the program's name.
    pub fn new<S: AsStr>(alloc: Global, words: &'a [S]) -> Result<Words<'a>, AllocError>
        ensures { IfOk result (AreParted (map S.text words.entry.now)) }
    {
        let scan = parted(alloc, words)?;
        let all = texts(alloc, words)?;
        if say_by_name(&scan.taken) && begin_with_command(words) {
            return apart(alloc, all, scan);
        }
        let plain = texts(alloc, words)?;
        Ok(Words {
            all,
            plain,
            named: Vec::new(alloc),
        })
    }
}

/// The words as they came, those by name, and the others.
fn apart<'a>(alloc: Global, all: Vec<&'a str>, scan: Scan<'a>) -> Result<Words<'a>, AllocError>
    ensures came { IfOk result (λ words. words.all.items ≡ all.entry.items) }
    ensures plain { IfOk result (λ words. map (λ word. word.now) words.plain.items ≡ with_words (map (λ word. word.now) scan.entry.rest.items) (map (λ word. word.now) scan.entry.given.items)) }
    ensures named { IfOk result (λ words. words.named.items ≡ scan.entry.taken.items) }
{
    let plain = put(alloc, &scan.rest, &scan.given)?;
    Ok(Words {
        all,
        plain,
        named: scan.taken,
    })
}

//! Which word of the command line isn't text.

use crate::hint::advise;
use crate::lines::{help, printable};
use std::alloc::{AllocError, Global};
use std::env::{Env, FillError};
use td_lines::Text;
use td_text::Sink;

/// The most bytes of a word that are looked at.
const MOST_READ: usize = 4096;

/// What the words of a command line are, before they are text.
#[derive(Drop)]
struct Spelling {
    asks_for_hints: bool,
    hint: Text,
}

/// Says, after `refuse_words`, which word isn't text in UTF-8, where hints are wanted or one of the
/// words is `--hints`.
pub fn explain_words<R: Env, E: Sink>(rt: &R, alloc: Global, hints: bool, err: &mut E) {
    if let Ok(spelling) = spelling_of(rt, alloc) {
        if hints || spelling.asks_for_hints {
            advise(&Ok(spelling.hint), err);
        }
    }
}

/// Looks at each word of the command line.
fn spelling_of<R: Env>(rt: &R, alloc: Global) -> Result<Spelling, AllocError> {
    let mut found = Spelling {
        asks_for_hints: false,
        hint: Text::new(alloc),
    };
    let mut buf = [0u8; MOST_READ];
    for place in 0..usize::MAX {
        match rt.arg(place, &mut buf) {
            Ok(count) => {
                let read: &[u8] = &buf;
                if let Some((word, _)) = read.split_at_checked(count) {
                    found.add(place, word)?;
                }
            }
            Err(FillError::TooLong) => {}
            Err(FillError::NotPresent) => return Ok(found),
        }
    }
    Ok(found)
}

impl Spelling {
    /// One word more, which stands at this place after the program's name.
    fn add(&mut self, place: usize, word: &[u8]) -> Result<(), AllocError> {
        if word == b"--hints".as_slice() {
            self.asks_for_hints = true;
        }
        if !self.hint.bytes().is_empty() || str::from_utf8(word).is_ok() {
            return Ok(());
        }
        let text = &mut self.hint;
        text.number_between(b"word ", place as u64, b" after tdelay, ")?;
        for byte in word {
            text.push(&[printable(*byte)])?;
        }
        text.push(b", isn't UTF-8, as each word has to be")?;
        help(text, b"give the file another name, or a link with one")
    }
}

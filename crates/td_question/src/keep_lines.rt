//! The lines of a file of conditions.

ghost use Rattle.std.specs.Prelude.{◌≡◌, ◌≤◌, ◌++◌, false, length, map, take, OnOk};
ghost use Rattle.td_question.specs.KeepLines.{content, is_escaped, line_quotes, quote_in, quotes_in, uncommented};

use crate::quote::Quote;
use std::alloc::{AllocError, Global};

/// The most bytes of a file of conditions.
pub(crate) const MOST_BYTES: usize = 67_108_864;

/// Whether the byte after this one is of a name that a backslash begins.
fn is_escaped(escaped: bool, byte: u8) -> bool
    ensures { result ≡ is_escaped escaped byte }
{
    !byte.is_ascii_whitespace() && (escaped || byte == b'\\')
}

/// Where the comment of a line begins, or the line ends.
fn comment_start(line: &[u8]) -> usize
    ensures within { result ≤ length line.now }
    ensures front { take result line.now ≡ uncommented false line.now }
{
    let mut escaped = false;
    for (at, byte) in line.iter().enumerate() {
        if *byte == b'#' && !escaped {
            return at;
        }
        escaped = is_escaped(escaped, *byte);
    }
    line.len()
}

/// What a line says, without its comment and the blanks around.
fn content(line: &[u8]) -> &[u8]
    ensures { result.now ≡ content line.now }
{
    let front = &line[..comment_start(line)];
    front.trim_ascii()
}

/// Adds what a line says, if it says something. The error is out of memory.
fn push_line<'w>(quotes: &mut Vec<Quote<'w>>, number: u64, line: &'w [u8]) -> Result<(), AllocError>
    ensures { OnOk result (map quote_in quotes.new.items ≡ map quote_in quotes.old.items ++ line_quotes number line.now) }
{
    let text = content(line);
    if text.is_empty() {
        return Ok(());
    }
    quotes.push(Quote {
        text,
        line: Some(number),
    })?;
    Ok(())
}

/// Adds what each line of a text says, in order. The error is out of memory.
pub(crate) fn push_lines<'w>(quotes: &mut Vec<Quote<'w>>, text: &'w [u8]) -> Result<(), AllocError>
    ensures { OnOk result (map quote_in quotes.new.items ≡ map quote_in quotes.old.items ++ quotes_in text.now) }
{
    let mut start = 0;
    let mut number = 1;
    for (at, byte) in text.iter().enumerate() {
        if *byte == b'\n' {
            push_line(quotes, number, &text[start..at])?;
            start = at + 1;
            number += 1;
        }
    }
    push_line(quotes, number, &text[start..])
}

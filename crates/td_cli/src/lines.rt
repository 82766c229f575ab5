//! Lines of hints. Each is appended without its end.

use std::alloc::AllocError;
use td_lines::Text;
use td_nets::Name;

/// The most bytes of a line of a file that are shown.
const MOST_SHOWN: usize = 100;

/// Appends what is wrong at a line of a file.
pub(crate) fn at_line(
    text: &mut Text,
    file: &str,
    line: u32,
    sentence: &[u8],
) -> Result<(), AllocError> {
    text.word(file)?;
    text.number_between(b":", u64::from(line), b": ")?;
    text.push(sentence)
}

/// Appends what is wrong with a file.
pub(crate) fn of_file(text: &mut Text, file: &str, sentence: &[u8]) -> Result<(), AllocError> {
    text.word_between(b"", file, b": ")?;
    text.push(sentence)
}

/// Appends what is wrong with two files.
pub(crate) fn of_two(
    text: &mut Text,
    one: &str,
    other: &str,
    sentence: &[u8],
) -> Result<(), AllocError> {
    text.word_between(b"", one, b" and ")?;
    text.word_between(b"", other, b": ")?;
    text.push(sentence)
}

/// Appends, on a line of its own, what to do.
pub(crate) fn help(text: &mut Text, advice: &[u8]) -> Result<(), AllocError> {
    text.push(b"\n  help: ")?;
    text.push(advice)
}

/// Appends the printed form of a name between bytes.
pub(crate) fn name_between(
    text: &mut Text,
    front: &[u8],
    name: &Name,
    behind: &[u8],
) -> Result<(), AllocError> {
    text.push(front)?;
    text.name(name)?;
    text.push(behind)
}

/// Appends, on a line of its own, the line of this number of a text, from 1 on, where there is one.
/// Of a long one its beginning is shown, and `?` in place of what a terminal doesn't show.
pub(crate) fn quote(text: &mut Text, bytes: &[u8], line: u32) -> Result<(), AllocError> {
    let mut number: u32 = 1;
    let mut shown = 0;
    for byte in bytes {
        if number > line {
            return Ok(());
        }
        if *byte == b'\n' {
            number = number.saturating_add(1);
        } else if number == line && shown < MOST_SHOWN {
            text.push(if shown == 0 { b"\n    " } else { b"" })?;
            text.push(&[printable(*byte)])?;
            shown += 1;
        }
    }
    Ok(())
}

/// The byte, or `?` where a terminal doesn't show it.
pub(crate) fn printable(byte: u8) -> u8 {
    match byte {
        b'\t' => b' ',
        32..=126 => byte,
        _ => b'?',
    }
}

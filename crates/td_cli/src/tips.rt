//! What to do about a command line that its parser refuses, in place of what the parser guesses.

use crate::near::is_near;
use clap::Error;
use clap::error::ErrorKind;
use std::alloc::{AllocError, Global};
use td_command::{Words, asked};
use td_lines::Text;

/// The commands, in the order of help.
const COMMANDS: [&str; 8] = [
    "sim", "path", "bound", "worst", "parts", "join", "check", "info",
];

/// The parser's text, with advice that serves in place of its tips.
pub(crate) fn with_advice(
    alloc: Global,
    error: &Error,
    text: &str,
    words: &[&str],
) -> Result<Text, AllocError> {
    let kind = error.kind();
    let is_guessed = kind == ErrorKind::UnknownArgument
        || kind == ErrorKind::InvalidSubcommand
        || kind == ErrorKind::InvalidValue;
    let mut whole = Text::new(alloc);
    if !is_guessed {
        whole.word(text)?;
        return Ok(whole);
    }
    let refused = quoted(alloc, text)?;
    let case = Case {
        alloc,
        kind,
        words,
        refused: &refused,
    };
    let mut parts = Parts::new(alloc);
    let mut line = Text::new(alloc);
    for byte in text.as_bytes() {
        line.push(&[*byte])?;
        if *byte == b'\n' {
            parts.add(&case, line.bytes())?;
            line = Text::new(alloc);
        }
    }
    case.advise(&mut parts.tips)?;
    parts.join(&mut whole)?;
    Ok(whole)
}

/// What stands in a text between its first two quotes.
fn quoted(alloc: Global, text: &str) -> Result<String, AllocError> {
    let mut word = String::new(alloc);
    let mut is_open = false;
    for character in text.chars() {
        if character == '\'' {
            if is_open {
                return Ok(word);
            }
            is_open = true;
        } else if is_open {
            word.push(character)?;
        }
    }
    Ok(word)
}

/// Whether this is the name of a command.
fn is_command(word: &str) -> bool {
    COMMANDS.contains(&word)
}

/// Whether a word looks like the name of a file.
fn is_file(word: &str) -> bool {
    word.as_bytes().contains(&b'.') && !word.as_bytes().contains(&b'=')
}

/// An option's name without the dashes before it.
fn bare(word: &[u8]) -> &[u8] {
    let word = word.strip_prefix(b"-").unwrap_or(word);
    word.strip_prefix(b"-").unwrap_or(word)
}

/// The parts of the parser's text: what it refuses, what to do, and the usage.
#[derive(Drop)]
struct Parts {
    head: Text,
    tips: Text,
    usage: Text,
    is_past_head: bool,
    is_in_usage: bool,
    is_misled: bool,
}

impl Parts {
    fn new(alloc: Global) -> Parts {
        Parts {
            head: Text::new(alloc),
            tips: Text::new(alloc),
            usage: Text::new(alloc),
            is_past_head: false,
            is_in_usage: false,
            is_misled: false,
        }
    }

    /// Puts a line of the parser's text where it belongs. A tip that misleads is left out, and so
    /// is the usage with what it guessed.
    fn add(&mut self, case: &Case<'_>, line: &[u8]) -> Result<(), AllocError> {
        if self.is_in_usage {
            return self.usage.push(line);
        }
        if line.starts_with(b"  tip: ") {
            if case.is_right(line)? {
                return self.tips.push(line);
            }
            self.is_misled = self.is_misled || line.starts_with(b"  tip: a similar ");
            return Ok(());
        }
        if line.len() == 1 {
            self.is_past_head = true;
            return Ok(());
        }
        if self.is_past_head {
            self.is_in_usage = true;
            if self.is_misled && line.starts_with(b"Usage: ") {
                return case.push_usage(&mut self.usage, line);
            }
            return self.usage.push(line);
        }
        self.head.push(line)
    }

    /// Appends the parts, with empty lines between them.
    fn join(&self, whole: &mut Text) -> Result<(), AllocError> {
        whole.push(self.head.bytes())?;
        if !self.tips.bytes().is_empty() {
            whole.push(b"\n")?;
            whole.push(self.tips.bytes())?;
        }
        whole.push(b"\n")?;
        whole.push(self.usage.bytes())
    }
}

/// What the parser refuses: the words of a command line, and the one among them that it names.
#[derive(Clone, Copy)]
struct Case<'w> {
    alloc: Global,
    kind: ErrorKind,
    words: &'w [&'w str],
    refused: &'w str,
}

impl<'w> Case<'w> {
    /// Whether a tip of the parser serves. The commands that may be meant are found here anew.
    fn is_right(&self, line: &[u8]) -> Result<bool, AllocError> {
        if line.starts_with(b"  tip: subcommand ") {
            return Ok(true);
        }
        if self.kind == ErrorKind::InvalidSubcommand || !line.starts_with(b"  tip: a similar ") {
            return Ok(false);
        }
        let Ok(text) = str::from_utf8(line) else {
            return Ok(false);
        };
        let meant = quoted(self.alloc, text)?;
        let meant = meant.as_str().as_bytes();
        Ok(is_near(bare(self.refused.as_bytes()), bare(meant)))
    }

    /// Appends the usage that the command's help has, or this one.
    fn push_usage(&self, usage: &mut Text, guessed: &[u8]) -> Result<(), AllocError> {
        if let [_, command, ..] = self.words {
            let words = ["tdelay", *command, "--help"];
            let words = Words::new(self.alloc, &words)?;
            if let Err(error) = asked(self.alloc, &words) {
                let text = format!(in self.alloc; "{error}")?;
                return push_usage_of(self.alloc, usage, text.as_str());
            }
        }
        usage.push(guessed)
    }

    /// Appends what to do, after the tips of the parser that serve.
    fn advise(&self, tips: &mut Text) -> Result<(), AllocError> {
        match self.kind {
            ErrorKind::InvalidSubcommand => self.name_commands(tips),
            ErrorKind::UnknownArgument if self.refused.as_bytes().starts_with(b"-") => {
                match self.words {
                    [_, first, ..] if is_command(first) => self.name_takers(first, tips),
                    _ => self.place_options(tips),
                }
            }
            _ => Ok(()),
        }
    }

    /// Appends which commands may be meant, or which there are.
    fn name_commands(&self, tips: &mut Text) -> Result<(), AllocError> {
        for command in COMMANDS {
            if is_near(self.refused.as_bytes(), command.as_bytes()) {
                tips.word_between(b"  tip: a similar subcommand exists: '", command, b"'\n")?;
            }
        }
        if !tips.bytes().is_empty() {
            return Ok(());
        }
        if is_file(self.refused) {
            tips.push(b"  help: write a command before the file, as in tdelay worst ")?;
            push_word(tips, self.refused)?;
            return tips.push(b"\n");
        }
        tips.push(
            b"  help: the commands are sim, path, bound, worst, parts, join, check and info\n",
        )
    }

    /// Appends which other commands take the option that this one doesn't take.
    fn name_takers(&self, command: &str, tips: &mut Text) -> Result<(), AllocError> {
        let mut takers = Vec::new(self.alloc);
        for other in COMMANDS {
            if self.takes(other)? {
                takers.push(other)?;
            }
        }
        if !takers.is_empty() {
            push_list(tips, &takers)?;
            tips.push(if takers.len() == 1 {
                b" takes "
            } else {
                b" take "
            })?;
            tips.word_between(b"", self.refused, b", ")?;
            return tips.word_between(b"", command, b" doesn't\n");
        }
        if let Some(file) = self.file() {
            tips.push(b"  help: a file's name that begins with - is written ./")?;
            push_word(tips, file)?;
            tips.push(b"\n")?;
        }
        Ok(())
    }

    /// Whether the command of this name takes the option that is refused.
    fn takes(&self, command: &str) -> Result<bool, AllocError> {
        is_known(self.alloc, &["tdelay", command, self.refused])
    }

    /// The name of a file that was read as options.
    fn file(&self) -> Option<&'w str> {
        for word in self.words {
            if word.as_bytes().starts_with(self.refused.as_bytes()) && is_file(word) {
                return Some(word);
            }
        }
        None
    }

    /// Appends that options stand after the command.
    fn place_options(&self, tips: &mut Text) -> Result<(), AllocError> {
        let Some(line) = self.line()? else {
            if !tips.bytes().is_empty() {
                return Ok(());
            }
            tips.push(b"  help: write a command first: sim, path, bound, worst, parts, join, ")?;
            return tips.push(b"check or info\n");
        };
        tips.push(b"  help: write options after the command")?;
        if is_known(self.alloc, &line)? {
            tips.push(b":")?;
            for word in &line {
                tips.push(b" ")?;
                push_word(tips, word)?;
            }
        }
        tips.push(b"\n")
    }

    /// The words with the command first, where one of them is a command.
    fn line(&self) -> Result<Option<Vec<&'w str>>, AllocError> {
        let mut line = Vec::new(self.alloc);
        line.push("tdelay")?;
        let Some(command) = self.command() else {
            return Ok(None);
        };
        line.push(command)?;
        let mut is_placed = false;
        for (place, word) in self.words.iter().enumerate() {
            if place > 0 && (is_placed || *word != command) {
                line.push(*word)?;
            } else if place > 0 {
                is_placed = true;
            }
        }
        Ok(Some(line))
    }

    /// The first word after the program's name that is a command.
    fn command(&self) -> Option<&'w str> {
        for (place, word) in self.words.iter().enumerate() {
            if place > 0 && is_command(word) {
                return Some(word);
            }
        }
        None
    }
}

/// Whether the program takes these words, or refuses them for another reason than that one of them
/// is no option of the command.
fn is_known(alloc: Global, words: &[&str]) -> Result<bool, AllocError> {
    let words = Words::new(alloc, words)?;
    match asked(alloc, &words) {
        Ok(_) => Ok(true),
        Err(error) => match error.kind() {
            ErrorKind::OutOfMemory => Err(AllocError),
            ErrorKind::UnknownArgument => Ok(false),
            _ => Ok(true),
        },
    }
}

/// Appends the line of usage of a help's text.
fn push_usage_of(alloc: Global, usage: &mut Text, help: &str) -> Result<(), AllocError> {
    let mut line = Text::new(alloc);
    for byte in help.as_bytes() {
        line.push(&[*byte])?;
        if *byte == b'\n' {
            if line.bytes().starts_with(b"Usage: ") {
                return usage.push(line.bytes());
            }
            line = Text::new(alloc);
        }
    }
    Ok(())
}

/// Appends the names of commands, of which there is one at least.
fn push_list(tips: &mut Text, names: &[&str]) -> Result<(), AllocError> {
    tips.push(b"  help: ")?;
    for (place, name) in names.iter().enumerate() {
        if place > 0 {
            let is_last = place.saturating_add(1) == names.len();
            tips.push(if is_last { b" and " } else { b", " })?;
        }
        tips.word(name)?;
    }
    Ok(())
}

/// Appends a word as a shell reads it.
fn push_word(tips: &mut Text, word: &str) -> Result<(), AllocError> {
    let mut is_plain = !word.is_empty();
    for byte in word.as_bytes() {
        is_plain = is_plain && (byte.is_ascii_alphanumeric() || b"-_./=,:+@%".contains(byte));
    }
    if is_plain {
        return tips.word(word);
    }
    tips.push(b"'")?;
    for byte in word.as_bytes() {
        if *byte == b'\'' {
            tips.push(b"'\\''")?;
        } else {
            tips.push(&[*byte])?;
        }
    }
    tips.push(b"'")
}

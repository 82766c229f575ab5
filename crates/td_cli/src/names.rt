//! What to do where a word about inputs by name is wrong.

use crate::lines::help;
use std::alloc::AllocError;
use td_inputs::{Label, Topic, WordFault};
use td_lines::Text;

/// The most names of inputs that are listed.
const MOST_NAMES: usize = 40;

/// Appends what to do about a word that is wrong for inputs of these names.
pub(crate) fn about_word(
    text: &mut Text,
    fault: WordFault<'_>,
    labels: &[Label],
) -> Result<(), AllocError> {
    match fault {
        WordFault::Bad(topic, _) => bad(text, topic),
        WordFault::NoInput(name) => no_input(text, name, labels),
        WordFault::Clash(..) => {
            text.push(b"two arguments give one input different values")?;
            help(text, b"remove one of them, or make them equal")
        }
        WordFault::TwoForms => {
            text.push(b"--at has a number for each input by place, or NAME=T for one by name")?;
            help(text, b"give all times in one of the two forms")
        }
    }
}

/// Appends what the word of an option by name has to be.
fn bad(text: &mut Text, topic: Topic) -> Result<(), AllocError> {
    match topic {
        Topic::Pin => {
            text.push(
                b"--pin has a name, = and a value: 0, 1 or . for one input, a number for a vector",
            )?;
            help(
                text,
                b"a number fits the vector's bits, as 10 or 8'hff, and is below 2 to the power of 64",
            )
        }
        _ => {
            text.push(b"--at has a name, = and a whole number of steps, at most 1000000000")?;
            help(text, b"write it as a=3, once for each input")
        }
    }
}

/// Appends what a condition has to be.
pub(crate) fn bad_keep(text: &mut Text) -> Result<(), AllocError> {
    text.push(b"--keep has a net's name, = and two levels, each 0, 1 or ., or the name and ==")?;
    help(
        text,
        b"ok=11 keeps a net at 1, y=01 asks for its rise, y=.. asks nothing, y== for equal levels",
    )
}

/// Appends what a line of a file of conditions has to be.
pub(crate) fn bad_line(text: &mut Text) -> Result<(), AllocError> {
    text.push(
        b"a line has a net's name, a blank and two levels, each 0, 1 or ., or the name and ==",
    )?;
    help(
        text,
        b"ok 11 keeps a net at 1, y 01 asks for its rise, y .. asks nothing, y == for equal levels",
    )
}

/// Appends that a file of conditions is too long.
pub(crate) fn long_keep_file(text: &mut Text) -> Result<(), AllocError> {
    text.push(b"the file of conditions has more than 67108864 bytes")?;
    help(text, b"leave out what is said more than once, or comments")
}

/// Appends which names nets have.
pub(crate) fn no_net(text: &mut Text) -> Result<(), AllocError> {
    text.push(b"no input and no gate's output is printed so")?;
    help(
        text,
        b"give the name as the netlist has it: a for a wire, a[2] for a bit of a vector",
    )
}

/// Appends the names of inputs, of many the first ones.
fn list(text: &mut Text, labels: &[Label]) -> Result<(), AllocError> {
    for (place, label) in labels.iter().enumerate() {
        if place == MOST_NAMES {
            return text.push(b" ..");
        }
        text.push(b" ")?;
        text.push(label.name())?;
    }
    Ok(())
}

/// Appends which inputs there are, where none has a name, and which of them it may have meant.
fn no_input(text: &mut Text, name: &[u8], labels: &[Label]) -> Result<(), AllocError> {
    text.push(b"there are the inputs")?;
    list(text, labels)?;
    for label in labels {
        if is_near(label.name(), name) {
            text.push(b"\n  help: ")?;
            text.push(label.name())?;
            return text.push(b" has nearly that name");
        }
    }
    help(
        text,
        b"give one of these, or a vector's name for all of its bits",
    )
}

/// Whether two names differ in the case of letters alone, or in one character of three or more.
fn is_near(one: &[u8], other: &[u8]) -> bool {
    if one.len() != other.len() {
        return false;
    }
    let mut differs = false;
    for (place, byte) in one.iter().enumerate() {
        if byte.to_ascii_lowercase() != other[place].to_ascii_lowercase() {
            if differs {
                return false;
            }
            differs = true;
        }
    }
    !differs || one.len() > 2
}

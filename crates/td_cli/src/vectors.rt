//! What to do where a word gives nothing for the inputs of a circuit, or no output has a name.

use crate::lines::help;
use std::alloc::AllocError;
use td_circuit::Circuit;
use td_inputs::Given;
use td_lines::Text;
use td_question::vector::VectorWord;
use td_request::{Command, Request};

/// The most names of nets that are listed.
const MOST_NAMES: usize = 40;

/// What a word has for each input.
#[derive(Clone, Copy, Drop)]
enum Items {
    /// `0`, `1` or `x`.
    Levels,
    /// `0`, `1` or `.`.
    Trits,
    /// `=` or `.`.
    Holds,
    /// Numbers with commas between them.
    Moments,
}

/// A word of the command line that gives nothing, and how the usage names it.
#[derive(Clone, Copy, Drop)]
struct Bad<'w> {
    name: &'static str,
    items: Items,
    word: &'w str,
}

/// The word of an option, if it is given.
fn word_of<'w>(word: Option<&'w str>) -> &'w str {
    word.unwrap_or("")
}

/// What is said of inputs by place.
fn given_in<'w>(command: &Command<'w>) -> Given<'w> {
    match command {
        Command::Sim(sim) => sim.inputs.given,
        Command::Path(path) => path.inputs.given,
        Command::Bound(bound) => bound.inputs.given,
        Command::Worst(search) => search.question.inputs.given,
        Command::Parts(parts) => parts.question.inputs.given,
        Command::Join(join) => join.question.inputs.given,
        Command::Check(_) | Command::Info => Given {
            first: None,
            second: None,
            hold: None,
            at: None,
        },
    }
}

/// The two vectors of a command about one pair.
fn pair_in<'w>(command: &Command<'w>) -> (&'w str, &'w str) {
    match command {
        Command::Sim(sim) => (sim.from, sim.to),
        Command::Path(path) => (path.from, path.to),
        _ => ("", ""),
    }
}

/// The word that gives nothing.
fn bad_of<'w>(command: &Command<'w>, word: VectorWord) -> Bad<'w> {
    let given = given_in(command);
    let (from, to) = pair_in(command);
    let (name, items, word) = match word {
        VectorWord::From => ("FROM", Items::Levels, from),
        VectorWord::To => ("TO", Items::Levels, to),
        VectorWord::First => ("--first", Items::Trits, word_of(given.first)),
        VectorWord::Second => ("--second", Items::Trits, word_of(given.second)),
        VectorWord::Hold => ("--hold", Items::Holds, word_of(given.hold)),
        VectorWord::At => ("--at", Items::Moments, word_of(given.at)),
    };
    Bad { name, items, word }
}

/// Appends what is wrong with a word that gives nothing for the inputs of a circuit.
pub(crate) fn about_vector(
    text: &mut Text,
    request: &Request<'_>,
    circuit: &Circuit,
    word: VectorWord,
) -> Result<(), AllocError> {
    let bad = bad_of(&request.command, word);
    text.word_between(b"", bad.name, b": ")?;
    if circuit.input_count() == 0 {
        text.push(b"the word none, since there are no inputs")?;
        return help(text, b"write none in its place");
    }
    match bad.items {
        Items::Moments => bad_moments(text, circuit),
        _ => bad_characters(text, circuit, bad),
    }
}

fn bad_moments(text: &mut Text, circuit: &Circuit) -> Result<(), AllocError> {
    text.number_between(b"", circuit.input_count() as u64, b" numbers")?;
    for_each(text, circuit)?;
    help(
        text,
        b"write whole numbers of steps, at most 1000000000, with commas between them and no spaces",
    )
}

fn bad_characters(text: &mut Text, circuit: &Circuit, bad: Bad<'_>) -> Result<(), AllocError> {
    let inputs = circuit.input_count();
    text.number_between(b"", inputs as u64, b" characters")?;
    for_each(text, circuit)?;
    bad_character(text, bad.items, bad.word.as_bytes(), inputs)?;
    help(text, allowed(bad.items))
}

/// Appends for which inputs something is wanted.
fn for_each(text: &mut Text, circuit: &Circuit) -> Result<(), AllocError> {
    text.push(b", one for each of")?;
    let inputs = circuit.input_count();
    let _gates = circuit.gates();
    for input in 0..inputs {
        if input == MOST_NAMES {
            return text.push(b" ..");
        }
        text.push(b" ")?;
        text.name(circuit.name(circuit.net_of_input(input) as usize))?;
    }
    Ok(())
}

/// Appends how many characters a word has, or which one of them is wrong.
fn bad_character(
    text: &mut Text,
    items: Items,
    word: &[u8],
    inputs: usize,
) -> Result<(), AllocError> {
    if word.len() != inputs {
        return text.number_behind(b"; got ", word.len() as u64);
    }
    for (place, character) in word.iter().enumerate() {
        if !is_allowed(items, *character) {
            text.number_behind(b"; character ", place as u64 + 1)?;
            return text.push(b" is none of those allowed");
        }
    }
    Ok(())
}

/// Whether such a word may have this character.
fn is_allowed(items: Items, character: u8) -> bool {
    match items {
        Items::Levels => character == b'0' || character == b'1' || character == b'x',
        Items::Trits => character == b'0' || character == b'1' || character == b'.',
        Items::Holds => character == b'=' || character == b'.',
        Items::Moments => true,
    }
}

/// Which characters such a word may have.
fn allowed(items: Items) -> &'static [u8] {
    match items {
        Items::Levels => b"write 0, 1 or x for each, the first character for the first input",
        Items::Trits => b"write 0, 1 or . (free) for each, the first character for the first input",
        Items::Holds => b"write = (held) or . for each, the first character for the first input",
        Items::Moments => b"write a number for each",
    }
}

/// Appends a space and the name of a net, or nothing where the net has no name.
fn net_name(text: &mut Text, circuit: &Circuit, net: usize) -> Result<(), AllocError> {
    if net < 2 || circuit.net_count() <= net {
        return Ok(());
    }
    text.push(b" ")?;
    text.name(circuit.name(net))
}

/// Appends which outputs there are, where none has the name that is asked about.
pub(crate) fn no_output(text: &mut Text, circuit: &Circuit, name: &str) -> Result<(), AllocError> {
    text.word_between(b"--output: no output has the name ", name, b"; there are")?;
    let _gates = circuit.gates();
    for (place, net) in circuit.outputs().iter().enumerate() {
        if place == MOST_NAMES {
            text.push(b" ..")?;
            break;
        }
        net_name(text, circuit, *net as usize)?;
    }
    help(text, b"give one of these; a bit of a vector is a[3]")
}

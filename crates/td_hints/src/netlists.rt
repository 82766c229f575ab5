//! Faults of a netlist's text, and loops of its circuit.

ghost use Rattle.std.specs.Prelude.{◌≡◌};
ghost use Rattle.td_hints.specs.Netlists.{leaving_sentence, leaving_advice, IsSentence, IsAdvice};

use td_netlist::FaultKind;
use td_nets::{is_candidate, is_reserved};

/// How a text leaves the subset of the language.
#[derive(Clone, Copy, Debug, PartialEq, Eq, Drop)]
pub enum Leaving {
    /// An instance of a cell or of another module, or a parameter as a delay.
    Cell,
    /// Behaviour or a variable, where gate primitives have to be.
    Behaviour,
    /// A second module.
    Module,
    /// High impedance, a wired net or a switch.
    Undriving,
    /// A strength.
    Strength,
    /// A net's delay.
    NetDelay,
    /// A third delay, to high impedance.
    ThirdDelay,
    /// A choice of minimal, typical and maximal delay, or a part of a vector.
    Choice,
    /// An array of instances.
    Instances,
    /// Another constant than 1'b0 and 1'b1, or a constant where a number has to be.
    Constant,
    /// Ports by name, or a fraction without a digit before it.
    Named,
    /// A compiler directive other than `timescale.
    Directive,
    /// An attribute where none is read.
    Attribute,
    /// An operator, a string or a system name.
    Other,
}

/// Nets and gates with the level z, or with several drivers.
static UNDRIVING: [&'static str; 30] = [
    "inout", "tri", "tri0", "tri1", "triand", "trior", "trireg", "wand", "wor", "supply0",
    "supply1", "bufif0", "bufif1", "notif0", "notif1", "nmos", "pmos", "cmos", "rnmos", "rpmos",
    "rcmos", "tran", "tranif0", "tranif1", "rtran", "rtranif0", "rtranif1", "pullup", "pulldown",
    "uwire",
];

/// Strengths of a driver.
static STRENGTHS: [&'static str; 13] = [
    "strong0", "strong1", "pull0", "pull1", "weak0", "weak1", "highz0", "highz1", "small",
    "medium", "large", "scalared", "vectored",
];

/// Whether a word is one of these.
fn is_among(word: &[u8], words: &[&str]) -> bool {
    words.iter().any(|other| other.as_bytes() == word)
}

/// How a text leaves the subset by a word of letters.
fn leaving_by_word(word: &[u8]) -> Leaving {
    if word == b"module".as_slice() {
        Leaving::Module
    } else if is_among(word, &UNDRIVING) {
        Leaving::Undriving
    } else if is_among(word, &STRENGTHS) {
        Leaving::Strength
    } else if is_reserved(word) {
        Leaving::Behaviour
    } else {
        Leaving::Cell
    }
}

/// How a text leaves the subset at this token.
pub fn way_of(token: &[u8]) -> Leaving {
    let Some(first) = token.first() else {
        return Leaving::Other;
    };
    match *first {
        b'a'..=b'z' | b'A'..=b'Z' | b'_' | b'\\' => leaving_by_word(token),
        b'0'..=b'9' | b'\'' => Leaving::Constant,
        b'#' => Leaving::NetDelay,
        b',' => Leaving::ThirdDelay,
        b':' => Leaving::Choice,
        b'[' => Leaving::Instances,
        b'.' => Leaving::Named,
        b'`' => Leaving::Directive,
        b'(' if token.len() == 1 => Leaving::Strength,
        b'(' => Leaving::Attribute,
        _ => Leaving::Other,
    }
}

impl Leaving {
    /// What is wrong.
    pub fn sentence(self) -> &'static [u8]
        ensures { result.now ≡ leaving_sentence self }
    {
        match self {
            Leaving::Cell => {
                b"an instance of a cell or of another module, or a parameter as a delay"
            }
            Leaving::Behaviour => b"behaviour or a variable, where gate primitives have to be",
            Leaving::Module => b"a second module",
            Leaving::Undriving => b"high impedance, a wired net or a switch",
            Leaving::Strength => b"a strength",
            Leaving::NetDelay => b"a net's delay",
            Leaving::ThirdDelay => b"a third delay, to high impedance",
            Leaving::Choice => {
                b"a choice of minimal, typical and maximal delay, or a part of a vector"
            }
            Leaving::Instances => b"an array of instances",
            Leaving::Constant => {
                b"another constant than 1'b0 and 1'b1, or a constant where a number has to be"
            }
            Leaving::Named => b"ports by name, or a fraction without a digit before it",
            Leaving::Directive => b"a compiler directive other than `timescale",
            Leaving::Attribute => b"an attribute where none is read",
            Leaving::Other => b"an operator, a string or a system name",
        }
    }

    /// What to do about it.
    pub fn advice(self) -> &'static [u8]
        ensures { result.now ≡ leaving_advice self }
    {
        match self {
            Leaving::Cell => {
                b"a cell instance: map it to gate primitives, see docs/FROM-RTL.md; a delay: write it as a number"
            }
            Leaving::Behaviour => b"synthesise it to gates: see docs/FROM-RTL.md",
            Leaving::Module => b"flatten the design into one module: see docs/FROM-RTL.md",
            Leaving::Undriving => b"write it as gates: no net has the level z",
            Leaving::Strength => b"leave it out: a net has one driver",
            Leaving::NetDelay => b"put a buf with this delay into the net",
            Leaving::ThirdDelay => b"leave it out: a gate has a rise and a fall delay",
            Leaving::Choice => b"write one of the three delays; name one bit",
            Leaving::Instances => b"write the instances one by one",
            Leaving::Constant => b"write 1'b0 or 1'b1 for each bit, and a number plainly",
            Leaving::Named => b"list the nets in order; write 0.5 for .5",
            Leaving::Directive => b"run a preprocessor first",
            Leaving::Attribute => b"remove it",
            Leaving::Other => b"remove it, or synthesise it: see docs/FROM-RTL.md",
        }
    }
}

/// What is wrong with a text.
pub fn sentence(kind: FaultKind<'_>) -> &'static [u8]
    ensures { IsSentence kind.entry result.now }
{
    match kind {
        FaultKind::OutOfMemory => b"memory ran out",
        FaultKind::BadByte => {
            b"a byte that no word may hold: a control character, or a letter that isn't ASCII"
        }
        FaultKind::UnexpectedEnd => {
            b"the text ends inside a comment, an attribute, a directive or the module, or has no module"
        }
        FaultKind::Syntax => b"a word that the grammar doesn't allow here",
        FaultKind::ZeroDelay => b"a delay of 0",
        FaultKind::DelayTooFine => b"a delay that is no whole number of steps",
        FaultKind::DelayTooLarge => b"a delay of more than 1,000,000,000 steps",
        FaultKind::Redeclared => {
            b"a name that is declared again: with a second direction, as a second wire or port, or with another range"
        }
        FaultKind::UnknownBit => {
            b"a bit of a scalar, of a name that isn't declared, or outside its range"
        }
        FaultKind::WidthNotOne => b"a vector of several bits as the terminal of a gate",
        FaultKind::TwoDrivers => b"a second gate drives a net that has a driver",
        FaultKind::DrivenInput => b"a gate drives an input of the module",
        FaultKind::Undriven => b"a net without a driver, which a gate reads or which is an output",
        FaultKind::TooMany => b"a limit on the size of a netlist is passed",
        FaultKind::PortUndeclared => {
            b"a port without a direction, or a direction for a name that is no port"
        }
        FaultKind::OutOfSubset(token) => way_of(token).sentence(),
    }
}

/// What to do about it.
pub fn advice(kind: FaultKind<'_>) -> &'static [u8]
    ensures { IsAdvice kind.entry result.now }
{
    match kind {
        FaultKind::OutOfMemory => b"give it more memory, or a smaller netlist",
        FaultKind::BadByte => b"rename the net, or save the text as ASCII",
        FaultKind::UnexpectedEnd => b"close it; if the file is empty or cut off, fetch it again",
        FaultKind::Syntax => b"mend the line; a comma or a semicolon is often missing before it",
        FaultKind::ZeroDelay => {
            b"give it 1 step at least, or leave it out and choose --default-rise and --default-fall"
        }
        FaultKind::DelayTooFine => b"give `timescale a shorter step, or round the delay",
        FaultKind::DelayTooLarge => b"give `timescale a longer step",
        FaultKind::Redeclared => b"remove one of the two, or make the ranges equal",
        FaultKind::UnknownBit => b"declare the vector, or mend the number",
        FaultKind::WidthNotOne => b"name a bit, one gate for each",
        FaultKind::TwoDrivers => b"give the two outputs two names: there are no wired nets",
        FaultKind::DrivenInput => b"rename the net, or make it no input",
        FaultKind::Undriven => {
            b"mind its spelling; drive it by a gate, by 1'b0 or 1'b1, or make it an input; an output that passes an input on needs a buf"
        }
        FaultKind::TooMany => {
            b"take the circuit apart, or make the range smaller: docs/NETLIST.md, Limits"
        }
        FaultKind::PortUndeclared => b"declare it, or list it among the ports",
        FaultKind::OutOfSubset(token) => way_of(token).advice(),
    }
}

/// What is wrong where a net has two drivers, before its name.
pub const SECOND_FRONT: &[u8] = b"a second gate output drives net";

/// It follows the name of the net, before the line of its first driver.
pub const SECOND_BACK: &[u8] = b"; the first is at line ";

/// What is wrong where a gate drives an input, before the input's name.
pub const INPUT_FRONT: &[u8] = b"a gate output drives the input";

/// It follows the name of the input, before the line of its declaration.
pub const INPUT_BACK: &[u8] = b"; it is declared at line ";

/// What is wrong with a circuit that has a loop, before the name of a net on it.
pub const LOOP_FRONT: &[u8] = b"net";

/// What is wrong with a circuit that has a loop. It follows the name of a net on the loop.
pub const LOOP_BACK: &[u8] = b"lies on a loop of gates, as in a latch or a ring oscillator";

/// What to do about a loop.
pub const LOOP_ADVICE: &[u8] =
    b"cut the loop: let a gate on it read a new input in place of this net; docs/FROM-RTL.md cuts flip-flops and latches";

//! Tokens of a text.

use td_nets::Keyword;

/// The characters that the grammar names, a colon inside a range alone.
#[derive(Clone, Copy, Debug, PartialEq, Eq)]
pub enum Symbol {
    Open,
    Close,
    Comma,
    Semicolon,
    Hash,
    LeftBracket,
    RightBracket,
    Colon,
}

/// What no token comes after.
#[derive(Clone, Copy, Debug, PartialEq, Eq)]
pub enum Stop {
    /// The text ends inside a comment or an attribute.
    Cut,
    /// A byte that no token may hold.
    Bad,
    /// A backslash without a name, or a point of a number without a digit after it.
    Malformed,
    End,
}

/// A number as written: its digits, and those after its point. `_` may stand between them.
#[derive(Clone, Copy, Debug)]
pub struct Number<'a> {
    pub whole: &'a [u8],
    pub fraction: Option<&'a [u8]>,
}

/// What a `timescale sets: the unit of delays and the step of time, each as the power of ten of a
/// femtosecond that it is, from 0 to 17. The step is not greater than the unit.
#[derive(Clone, Copy, Debug, PartialEq, Eq)]
pub struct Timescale {
    pub unit: u8,
    pub step: u8,
}

/// A compiler directive of the subset.
#[derive(Clone, Copy, Debug, PartialEq, Eq)]
pub enum Directive {
    Timescale(Timescale),
    /// `celldefine or `endcelldefine.
    Cells,
}

/// Why the parts of a directive can't be read.
#[derive(Clone, Copy, Debug, PartialEq, Eq)]
pub enum Unread {
    /// A byte breaks their form.
    Wrong,
    /// The text ends among them.
    Short,
}

/// A token.
#[derive(Clone, Copy, Debug)]
pub enum Token<'a> {
    Name(&'a [u8]),
    /// A name with a backslash before it, which isn't part of the name.
    Escaped(&'a [u8]),
    Reserved(Keyword),
    Number(Number<'a>),
    /// The level of a constant and its text.
    Constant(bool, &'a [u8]),
    Mark(Symbol),
    Attribute,
    /// What a directive says and its word. Parts that can't be read matter only where a directive
    /// may stand.
    Directive(Result<Directive, Unread>, &'a [u8]),
    /// What the subset leaves out: another reserved word, another constant or directive, a number
    /// that runs into letters, another character.
    Outside(&'a [u8]),
}

/// A token, and the line of its first byte.
#[derive(Clone, Copy, Debug)]
pub struct Placed<'a> {
    pub token: Token<'a>,
    pub line: u32,
}

/// What stands in front of the rest of a text: a token, or what no token comes after, with its
/// line.
#[derive(Clone, Copy, Debug)]
pub enum Front<'a> {
    Next(Placed<'a>),
    Behind(Stop, u32),
}

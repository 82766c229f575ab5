//! Names that are borrowed from the text.

use crate::ranges::Range;
use td_syntax::Role;

/// The name of a net, borrowed from the text.
#[derive(Clone, Copy, Debug, PartialEq, Eq, Hash)]
pub struct NameRef<'a> {
    pub text: &'a [u8],
    pub bit: Option<u32>,
}

/// What a terminal is joined to, borrowed from the text.
#[derive(Clone, Copy, Debug, PartialEq, Eq)]
pub enum NetRef<'a> {
    Low,
    High,
    Named(NameRef<'a>),
}

/// A net, and the line of the name that names it.
#[derive(Clone, Copy, Debug)]
pub struct PlacedRef<'a> {
    pub net: NameRef<'a>,
    pub line: u32,
}

/// What a declaration says of a port: its direction, its range, and the line where it does.
#[derive(Clone, Copy, Debug)]
pub struct Direction {
    pub role: Role,
    pub range: Option<Range>,
    pub line: u32,
}

//! Reads a module from its tokens: single tokens, and lists with commas.

ghost use Rattle.std.specs.Prelude.{◌≡◌, ◌≤◌, drop, length, Option, Some, None};
ghost use Rattle.td_syntax.specs.Tokens.{tokens_of, front_of};
ghost use Rattle.td_syntax.specs.Faults.{Gives, Fault, refused, stopped, reported};
ghost use Rattle.td_syntax.specs.Views.{view, placed_view, name_view, names_view, option_name_view, option_bytes, option_number_view, step_view, option_terminal_view};
ghost use Rattle.td_syntax.specs.Readers as readers;
ghost use Rattle.td_syntax.specs.Readers.{behind_front, is_mark, as_name, as_number, as_whole, as_attribute, as_keyword, refused_name, next_at, name_at, whole_at, maybe_at, mark_at, maybe_mark_at, separator_at, name_step, names_at};
ghost use Rattle.td_syntax.specs.Parsing.{as_wire, as_module, as_direction, as_base, second_refusal, count_at, is_behind, end_at};

use crate::fault::{Fault, FaultKind};
use crate::lookahead::Lookahead;
use crate::step::Step;
use crate::syntax::{Name, Role, Terminal};
use crate::token::{Front, Number, Placed, Stop, Symbol, Token};
use std::alloc::Global;
use std::marker::Model;
use td_nets::{Keyword, MAX_GATES};

/// What is left of a text, and how many gates there are so far.
#[derive(Drop)]
pub struct Parser<'a> {
    tokens: Lookahead<'a>,
    gates: u32,
}

impl<'a> Model for Parser<'a> {
    ghost Value = { readers.Remainder };

    ghost view = { λ p. record { stream = p.tokens; gates = p.gates } };
}

/// A fault of this kind on this line.
pub fn fault<'a>(kind: FaultKind<'a>, line: u32) -> Fault<'a>
    ensures kind { result.kind ≡ kind.entry }
    ensures line { result.line ≡ line }
{
    Fault { kind, line }
}

/// What a token is reported as where the grammar doesn't allow it.
pub fn refused<'a>(placed: Placed<'a>) -> Fault<'a>
    ensures kind { reported result.kind ≡ Some (refused (placed_view placed.entry)).kind }
    ensures line { result.line ≡ placed.entry.line }
{
    match placed.token {
        Token::Constant(_, text) | Token::Directive(_, text) | Token::Outside(text) => {
            fault(FaultKind::OutOfSubset(text), placed.line)
        }
        Token::Attribute => fault(FaultKind::OutOfSubset(b"(*"), placed.line),
        Token::Mark(Symbol::Colon) => fault(FaultKind::OutOfSubset(b":"), placed.line),
        _ => fault(FaultKind::Syntax, placed.line),
    }
}

/// The same where a name, too, is outside the subset.
pub fn refused_name<'a>(placed: Placed<'a>) -> Fault<'a>
    ensures kind { reported result.kind ≡ Some (refused_name (placed_view placed.entry)).kind }
    ensures line { result.line ≡ placed.entry.line }
{
    match placed.token {
        Token::Name(text) | Token::Escaped(text) => {
            fault(FaultKind::OutOfSubset(text), placed.line)
        }
        _ => refused(placed),
    }
}

/// What follows the last token, where another is due.
fn stopped<'a>(stop: Stop, line: u32) -> Fault<'a>
    ensures kind { reported result.kind ≡ Some (stopped stop line).kind }
    ensures line { result.line ≡ line }
{
    match stop {
        Stop::Bad => fault(FaultKind::BadByte, line),
        Stop::Malformed => fault(FaultKind::Syntax, line),
        Stop::Cut | Stop::End => fault(FaultKind::UnexpectedEnd, line),
    }
}

/// Whether a token is this mark.
pub fn is_mark(mark: Symbol, token: Token<'_>) -> bool
    ensures { result ≡ is_mark mark (view token.entry) }
{
    match token {
        Token::Mark(other) => other as u8 == mark as u8,
        _ => false,
    }
}

/// A name without its backslash.
fn name_of<'a>(placed: Placed<'a>) -> Option<Name<'a>>
    ensures { option_name_view result ≡ as_name (placed_view placed.entry) }
{
    match placed.token {
        Token::Name(name) => Some(Name {
            name,
            line: placed.line,
        }),
        Token::Escaped(text) => Some(Name {
            name: unescaped(text),
            line: placed.line,
        }),
        _ => None,
    }
}

/// The bytes after the first one.
fn unescaped(text: &[u8]) -> &[u8]
    ensures { result.now ≡ drop 1 text.now }
{
    match text {
        [] => text,
        [_, name @ ..] => name,
    }
}

/// A name or a constant, as a terminal.
pub fn base_of<'a>(placed: Placed<'a>) -> Option<Terminal<'a>>
    ensures { option_terminal_view result ≡ as_base (placed_view placed.entry) }
{
    match placed.token {
        Token::Constant(level, _) => Some(Terminal::Level(level)),
        _ => match name_of(placed) {
            Some(name) => Some(Terminal::Whole(name)),
            None => None,
        },
    }
}

/// The number that a token is, if it is one.
pub fn number_of<'a>(placed: Placed<'a>) -> Option<Number<'a>>
    ensures { option_number_view result ≡ as_number (placed_view placed.entry) }
{
    match placed.token {
        Token::Number(number) => Some(number),
        _ => None,
    }
}

/// The digits of a number without a point.
pub fn whole_of<'a>(placed: Placed<'a>) -> Option<&'a [u8]>
    ensures { option_bytes result ≡ as_whole (placed_view placed.entry) }
{
    match placed.token {
        Token::Number(number) => match number.fraction {
            None => Some(number.whole),
            Some(_) => None,
        },
        _ => None,
    }
}

/// The reserved word of the subset that a token is, if it is one.
pub fn keyword_of(placed: Placed<'_>) -> Option<Keyword>
    ensures { result ≡ as_keyword (placed_view placed.entry) }
{
    match placed.token {
        Token::Reserved(keyword) => Some(keyword),
        _ => None,
    }
}

fn is_wire(placed: Placed<'_>) -> Option<()>
    ensures { result ≡ as_wire (placed_view placed.entry) }
{
    match placed.token {
        Token::Reserved(Keyword::Wire) => Some(()),
        _ => None,
    }
}

/// Something where a token is an attribute, else nothing.
pub fn is_attribute(placed: Placed<'_>) -> Option<()>
    ensures { result ≡ as_attribute (placed_view placed.entry) }
{
    match placed.token {
        Token::Attribute => Some(()),
        _ => None,
    }
}

/// Something where a token is the word `module`, else nothing.
pub fn is_module(placed: Placed<'_>) -> Option<()>
    ensures { result ≡ as_module (placed_view placed.entry) }
{
    match placed.token {
        Token::Reserved(Keyword::Module) => Some(()),
        _ => None,
    }
}

/// The direction of a word.
pub fn direction_of(placed: Placed<'_>) -> Option<Role>
    ensures { result ≡ as_direction (placed_view placed.entry) }
{
    match placed.token {
        Token::Reserved(Keyword::Input) => Some(Role::Input),
        Token::Reserved(Keyword::Output) => Some(Role::Output),
        _ => None,
    }
}

/// The fault of a token after the module. A second module is outside the subset.
fn second_refused<'a>(placed: Placed<'a>) -> Fault<'a>
    ensures kind { reported result.kind ≡ Some (second_refusal (placed_view placed.entry)).kind }
    ensures line { result.line ≡ placed.entry.line }
{
    match is_module(placed) {
        Some(()) => fault(FaultKind::OutOfSubset(b"module"), placed.line),
        None => refused(placed),
    }
}

impl<'a> Parser<'a> {
    /// A parser that stands before the first token of a text and has seen no gate.
    pub fn new(text: &'a [u8]) -> Parser<'a>
        requires { length text.now ≤ 67108864 }
        ensures { result ≡ readers.start (tokens_of 1 text.now) }
    {
        Parser {
            tokens: Lookahead::new(text),
            gates: 0,
        }
    }

    // ---- one token

    /// Takes the token in front.
    #[tactic(auto, unfolding(crate::specs::Readers::next_at))]
    pub fn next(&mut self) -> Result<Placed<'a>, Fault<'a>>
        ensures { Gives (λ p. (placed_view p, self.new)) result (next_at self.old) }
    {
        match self.tokens.next() {
            Front::Next(placed) => Ok(placed),
            Front::Behind(stop, line) => Err(stopped(stop, line)),
        }
    }

    /// The token in front, which stays.
    #[tactic(auto, unfolding(crate::specs::Readers::next_at))]
    pub fn peek(&self) -> Result<Placed<'a>, Fault<'a>>
        ensures { Gives (λ p. (placed_view p, behind_front self.now)) result (next_at self.now) }
    {
        match self.tokens.front() {
            Front::Next(placed) => Ok(placed),
            Front::Behind(stop, line) => Err(stopped(stop, line)),
        }
    }

    /// Takes a name.
    #[tactic(auto, unfolding(crate::specs::Readers::name_at, crate::specs::Readers::take_at))]
    pub fn name(&mut self) -> Result<Name<'a>, Fault<'a>>
        ensures { Gives (λ n. (name_view n, self.new)) result (name_at self.old) }
    {
        let placed = self.next()?;
        match name_of(placed) {
            Some(name) => Ok(name),
            None => Err(refused(placed)),
        }
    }

    /// The digits of a number without a point.
    #[tactic(auto, unfolding(crate::specs::Readers::whole_at, crate::specs::Readers::take_at))]
    pub fn whole(&mut self) -> Result<&'a [u8], Fault<'a>>
        ensures { Gives (λ n. (n.now, self.new)) result (whole_at self.old) }
    {
        let placed = self.next()?;
        match whole_of(placed) {
            Some(digits) => Ok(digits),
            None => Err(refused(placed)),
        }
    }

    /// Takes this mark.
    #[tactic(auto, unfolding(crate::specs::Readers::mark_at))]
    pub fn mark(&mut self, mark: Symbol) -> Result<(), Fault<'a>>
        ensures { Gives (λ _. self.new) result (mark_at mark self.old) }
    {
        let placed = self.next()?;
        if is_mark(mark, placed.token) {
            Ok(())
        } else {
            Err(refused(placed))
        }
    }

    /// Whether the mark is in front, which is taken then.
    #[tactic(auto, unfolding(crate::specs::Readers::maybe_mark_at))]
    pub fn maybe_mark(&mut self, mark: Symbol) -> Result<bool, Fault<'a>>
        ensures { Gives (λ b. (b, self.new)) result (maybe_mark_at mark self.old) }
    {
        let placed = self.peek()?;
        if is_mark(mark, placed.token) {
            self.next()?;
            Ok(true)
        } else {
            Ok(false)
        }
    }

    /// Takes a name, if one is in front.
    #[tactic(auto, unfolding(crate::specs::Readers::maybe_at))]
    pub fn maybe_name(&mut self) -> Result<Option<Name<'a>>, Fault<'a>>
        ensures { Gives (λ n. (option_name_view n, self.new)) result (maybe_at as_name self.old) }
    {
        let found = name_of(self.peek()?);
        if found.is_some() {
            self.next()?;
        }
        Ok(found)
    }

    /// Takes the word `wire`, if it is in front.
    #[tactic(auto, unfolding(crate::specs::Readers::maybe_at))]
    pub fn maybe_wire(&mut self) -> Result<Option<()>, Fault<'a>>
        ensures { Gives (λ w. (w, self.new)) result (maybe_at as_wire self.old) }
    {
        let found = is_wire(self.peek()?);
        if found.is_some() {
            self.next()?;
        }
        Ok(found)
    }

    /// Takes an attribute, if one is in front.
    #[tactic(auto, unfolding(crate::specs::Readers::maybe_at))]
    pub fn maybe_attribute(&mut self) -> Result<Option<()>, Fault<'a>>
        ensures { Gives (λ a. (a, self.new)) result (maybe_at as_attribute self.old) }
    {
        let found = is_attribute(self.peek()?);
        if found.is_some() {
            self.next()?;
        }
        Ok(found)
    }

    // ---- lists

    /// Whether a comma is in front, and not the mark that ends the list. Either is taken.
    #[tactic(auto, unfolding(crate::specs::Readers::separator_at))]
    pub fn separator(&mut self, end: Symbol) -> Result<bool, Fault<'a>>
        ensures { Gives (λ more. (more, self.new)) result (separator_at end self.old) }
    {
        let placed = self.next()?;
        let more = is_mark(Symbol::Comma, placed.token);
        if more {
            Ok(true)
        } else if is_mark(end, placed.token) {
            Ok(false)
        } else {
            Err(refused(placed))
        }
    }

    /// Takes a name of a list, and after it the comma or the mark that ends the list.
    #[tactic(auto, unfolding(crate::specs::Readers::name_step))]
    pub fn name_step(&mut self, end: Symbol, place: usize) -> Result<Step<Name<'a>>, Fault<'a>>
        ensures { Gives (λ x. (step_view name_view x, self.new)) result (name_step end place self.old) }
    {
        let name = self.name()?;
        if self.separator(end)? {
            Ok(Step::More(name))
        } else {
            Ok(Step::Final(name))
        }
    }

    /// Names with commas between them, up to the mark after them.
    pub fn names(&mut self, alloc: Global, end: Symbol) -> Result<Vec<Name<'a>>, Fault<'a>>
        ensures { Gives (λ x. (names_view x.items, self.new)) result (names_at end self.old) }
    {
        let mut names = Vec::new(alloc);
        'names: loop {
            match self.name_step(end, names.len())? {
                Step::More(name) => names.push(name)?,
                Step::Final(name) => {
                    names.push(name)?;
                    return Ok(names);
                }
                Step::Done => return Ok(names),
            }
        }
    }

    // ---- counts and ends

    /// There are no more tokens than bytes of a text.
    pub fn is_within(&self)
        ensures { length self.now.stream.tokens ≤ 67108865 }
    {
        self.tokens.is_within();
    }

    /// One gate more, whose output stands on this line.
    #[tactic(auto, unfolding(crate::specs::Parsing::count_at))]
    pub fn count_gate(&mut self, line: u32) -> Result<(), Fault<'a>>
        ensures { Gives (λ _. self.new) result (count_at line self.old) }
    {
        if self.gates < MAX_GATES {
            self.gates += 1;
            Ok(())
        } else {
            Err(fault(FaultKind::TooMany, line))
        }
    }

    /// Whether no token stands in front.
    pub fn is_behind(&self) -> bool
        ensures { result ≡ is_behind (front_of self.now.stream) }
    {
        matches!(self.tokens.front(), Front::Behind(_, _))
    }

    /// Nothing follows the module.
    #[tactic(auto, unfolding(crate::specs::Parsing::end_at))]
    pub fn end(&self) -> Result<(), Fault<'a>>
        ensures { Gives (λ _. self.now) result (end_at self.now) }
    {
        match self.tokens.front() {
            Front::Behind(Stop::End, _) => Ok(()),
            Front::Behind(stop, line) => Err(stopped(stop, line)),
            Front::Next(placed) => Err(second_refused(placed)),
        }
    }
}

//! Variables by number, in little memory.

ghost use Rattle.std.specs.Prelude.{◌≡◌, ◌≤◌, ◌/◌, ◌%◌, ◌==◌, ◌++◌, ◌∷◌, [], ℕ, get_or, length, take, slice_get, IfOk, IfSome, OnOk, OnErr};
ghost use Rattle.td_spans.specs.declared.variable.Variable.TheVariants.{Span as SpanModel, Flips as FlipsModel};
ghost use Rattle.td_spans.specs.Packing.{word_at, long_at, spanned, decoded, IsWithin};

use crate::variable::{Saying, Variable};
use std::alloc::{AllocError, Global};
use std::marker::Model;

/// How a variable is laid out.
#[derive(Clone, Copy, Debug, PartialEq, Eq, Drop)]
pub enum Layout {
    /// Of a net's start. The number is the net.
    First,
    /// Of a net's end. The number is the net.
    Last,
    /// Of flips. The number is 2^16 times how many inputs, and the count.
    FewFlips,
    /// Of flips. The number is a place among the words, where the inputs stand and the count.
    Flips,
    /// Of a span for ever. The number is twice a place among the words, where the net stands and
    /// the first place, and the level.
    Rest,
    /// Of a span. The words have its last place too.
    Span,
    /// Of a span for ever whose first place has two words.
    LongRest,
    /// Of a span whose places have two words each.
    LongSpan,
}

/// Variables by number, from 0 on. One takes five bytes; one of a span has words besides, of four
/// bytes each.
#[derive(Drop)]
pub struct Variables {
    layouts: Vec<Layout>,
    numbers: Vec<u32>,
    words: Vec<u32>,
}

impl Model for Variables {
    ghost use Rattle.std.specs.Prelude.{List};
    ghost use Rattle.td_spans.specs.declared.variable.Variable.{Variable};
    ghost use Rattle.td_spans.specs.Packing.{all_decoded, AreWithin};

    ghost Value = { List Variable };

    ghost view = { λ variables. all_decoded variables.words.items variables.layouts.items variables.numbers.items };

    ghost invariant = { λ variables. AreWithin variables.words.items variables.layouts.items variables.numbers.items };
}

// The low half of a number.
fn low_half(number: u64) -> u32
    ensures { result ≡ number % 4294967296 }
{
    (number % 4_294_967_296) as u32
}

// The high half of a number.
fn high_half(number: u64) -> u32
    ensures { result ≡ number / 4294967296 }
{
    (number / 4_294_967_296) as u32
}

// The word at a place.
fn word_at(words: &[u32], place: usize) -> u32
    ensures { result ≡ word_at words.now place }
{
    if place < words.len() { words[place] } else { 0 }
}

// The number whose halves stand at a place and behind it.
fn long_at(words: &[u32], place: usize) -> u64
    requires { place ≤ 4294967296 }
    ensures { result ≡ long_at words.now place }
{
    u64::from(word_at(words, place)) + 4_294_967_296 * u64::from(word_at(words, place + 1))
}

// The variable of a layout and a number.
fn decoded(words: &[u32], layout: Layout, number: u32) -> Variable
    ensures { result ≡ decoded words.now layout number }
{
    let level = number % 2 == 1;
    let at = (number / 2) as usize;
    match layout {
        Layout::First => Variable::First(number),
        Layout::Last => Variable::Last(number),
        Layout::FewFlips => Variable::Flips(number / 65536, u64::from(number % 65536)),
        Layout::Flips => Variable::Flips(
            word_at(words, number as usize),
            long_at(words, number as usize + 1),
        ),
        Layout::Rest => Variable::Span(Saying {
            net: word_at(words, at),
            level,
            first: u64::from(word_at(words, at + 1)),
            last: None,
        }),
        Layout::Span => Variable::Span(Saying {
            net: word_at(words, at),
            level,
            first: u64::from(word_at(words, at + 1)),
            last: Some(u64::from(word_at(words, at + 2))),
        }),
        Layout::LongRest => Variable::Span(Saying {
            net: word_at(words, at),
            level,
            first: long_at(words, at + 1),
            last: None,
        }),
        Layout::LongSpan => Variable::Span(Saying {
            net: word_at(words, at),
            level,
            first: long_at(words, at + 1),
            last: Some(long_at(words, at + 3)),
        }),
    }
}

// Twice a place, and the level.
fn number_with(place: usize, level: bool) -> Option<u32>
    ensures place { IfSome result (λ number. number / 2 ≡ place) }
    ensures level { IfSome result (λ number. (number % 2 == 1) ≡ level) }
{
    if place >= 2_147_483_648 {
        return None;
    }
    if level {
        Some(2 * place as u32 + 1)
    } else {
        Some(2 * place as u32)
    }
}

// Puts the net and the places of a span at the end of the words. The error is out of memory.
fn put_span(
    words: &mut Vec<u32>,
    net: u32,
    first: u64,
    last: Option<u64>,
) -> Result<Layout, AllocError>
    ensures within { IfOk result (λ layout. (number : ℕ) → number / 2 ≡ length words.old.items → IsWithin (length words.new.items) layout number) }
    ensures says { IfOk result (λ layout. (number : ℕ) → number / 2 ≡ length words.old.items → decoded words.new.items layout number ≡ SpanModel (spanned net (number % 2 == 1) first last)) }
    ensures kept { take (length words.old.items) words.new.items ≡ words.old.items }
{
    match last {
        None => {
            if first < 4_294_967_296 {
                words.extend_from_slice(&[net, first as u32])?;
                Ok(Layout::Rest)
            } else {
                words.extend_from_slice(&[net, low_half(first), high_half(first)])?;
                Ok(Layout::LongRest)
            }
        }
        Some(last) => {
            if first < 4_294_967_296 && last < 4_294_967_296 {
                words.extend_from_slice(&[net, first as u32, last as u32])?;
                Ok(Layout::Span)
            } else {
                words.extend_from_slice(&[
                    net,
                    low_half(first),
                    high_half(first),
                    low_half(last),
                    high_half(last),
                ])?;
                Ok(Layout::LongSpan)
            }
        }
    }
}

// Lays a variable of flips out. The error is out of memory.
fn put_flips(words: &mut Vec<u32>, inputs: u32, count: u64) -> Result<(Layout, u32), AllocError>
    ensures within { IfOk result (λ it. IsWithin (length words.new.items) it.0 it.1) }
    ensures says { IfOk result (λ it. decoded words.new.items it.0 it.1 ≡ FlipsModel inputs count) }
    ensures kept { take (length words.old.items) words.new.items ≡ words.old.items }
{
    if inputs < 65536 && count < 65536 {
        return Ok((Layout::FewFlips, 65536 * inputs + count as u32));
    }
    match u32::try_from(words.len()) {
        Ok(place) => {
            words.extend_from_slice(&[inputs, low_half(count), high_half(count)])?;
            Ok((Layout::Flips, place))
        }
        Err(_large) => Err(AllocError),
    }
}

// Lays a variable of a span out. The error is out of memory.
fn put_saying(words: &mut Vec<u32>, saying: Saying) -> Result<(Layout, u32), AllocError>
    ensures within { IfOk result (λ it. IsWithin (length words.new.items) it.0 it.1) }
    ensures says { IfOk result (λ it. decoded words.new.items it.0 it.1 ≡ SpanModel saying) }
    ensures kept { take (length words.old.items) words.new.items ≡ words.old.items }
{
    match number_with(words.len(), saying.level) {
        None => Err(AllocError),
        Some(number) => {
            let layout = put_span(words, saying.net, saying.first, saying.last)?;
            Ok((layout, number))
        }
    }
}

// Lays a variable out. The error is out of memory, also where there are 2^31 words.
fn put(words: &mut Vec<u32>, variable: Variable) -> Result<(Layout, u32), AllocError>
    ensures within { IfOk result (λ it. IsWithin (length words.new.items) it.0 it.1) }
    ensures says { IfOk result (λ it. decoded words.new.items it.0 it.1 ≡ variable) }
    ensures kept { take (length words.old.items) words.new.items ≡ words.old.items }
{
    match variable {
        Variable::First(net) => Ok((Layout::First, net)),
        Variable::Last(net) => Ok((Layout::Last, net)),
        Variable::Span(saying) => put_saying(words, saying),
        Variable::Flips(inputs, count) => put_flips(words, inputs, count),
    }
}

impl Variables {
    /// No variables.
    pub fn new(alloc: Global) -> Variables
        ensures { result ≡ [] }
    {
        Variables {
            layouts: Vec::new(alloc),
            numbers: Vec::new(alloc),
            words: Vec::new(alloc),
        }
    }

    /// How many variables there are.
    pub fn len(&self) -> usize
        ensures { result ≡ length self.now }
    {
        self.layouts.len()
    }

    /// The variable with a number, if there is one.
    pub fn get(&self, number: usize) -> Option<Variable>
        ensures { result ≡ slice_get self.now number }
    {
        match self.layouts.get(number) {
            None => None,
            Some(layout) => match self.numbers.get(number) {
                None => None,
                Some(it) => Some(decoded(&self.words, *layout, *it)),
            },
        }
    }

    /// Adds a variable. The error is out of memory, also where there are 2^31 words, and then all
    /// is as before.
    pub fn push(&mut self, variable: Variable) -> Result<(), AllocError>
        ensures ok { OnOk result (self.new ≡ self.old ++ variable ∷ []) }
        ensures err { OnErr result (self.new ≡ self.old) }
    {
        self.layouts.reserve(1)?;
        self.numbers.reserve(1)?;
        let (layout, number) = put(&mut self.words, variable)?;
        self.layouts.push_reserved(layout);
        self.numbers.push_reserved(number);
        Ok(())
    }

    /// Keeps so many first variables, if there are more.
    pub fn truncate(&mut self, count: usize)
        ensures { self.new ≡ take count self.old }
    {
        self.layouts.truncate(count);
        self.numbers.truncate(count);
    }
}

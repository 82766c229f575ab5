//! The tokens of a text, one after another.

ghost use Rattle.std.specs.Prelude.{◌≡◌, ◌≤◌, ◌+◌, length};
ghost use Rattle.td_syntax.specs.Bytes.{newlines};
ghost use Rattle.td_syntax.specs.Tokens.{tokens_of, front_of, rest_of, stop_line};
ghost use Rattle.td_syntax.specs.Tokens as tokens;
ghost use Rattle.td_syntax.specs.Views.{front_view};

use crate::piece::{Piece, piece_at};
use crate::token::{Front, Placed, Stop};
use std::marker::Model;

/// The greatest number of bytes of a text.
pub const MAX_TEXT: usize = 67_108_864;

/// What is left of a text. A contract sees its tokens: the last one is given again and again.
#[derive(Drop)]
pub struct Lexer<'a> {
    rest: &'a [u8],
    line: u32,
}

impl<'a> Model for Lexer<'a> {
    ghost Value = { tokens.Stream };

    ghost view = { λ l. tokens_of l.line l.rest.now };

    ghost invariant = { λ l. l.line + length l.rest.now ≤ 67108865 };
}

fn newlines(text: &[u8]) -> usize
    ensures count { result ≡ newlines text.now }
    ensures within { result ≤ length text.now }
{
    text.iter().filter(|b| **b == b'\n').count()
}

/// The line at which a stop is reported: a comment that is cut short at the end of the text.
fn stop_line(stop: Stop, line: u32, rest: &[u8]) -> u32
    requires { line + length rest.now ≤ 67108865 }
    ensures { result ≡ stop_line line rest.now stop }
{
    match stop {
        Stop::Cut => line + newlines(rest) as u32,
        Stop::Bad | Stop::Malformed | Stop::End => line,
    }
}

impl<'a> Lexer<'a> {
    /// The tokens of the text.
    pub fn new(text: &'a [u8]) -> Lexer<'a>
        requires { length text.now ≤ 67108864 }
        ensures { result ≡ tokens_of 1 text.now }
    {
        Lexer {
            rest: text,
            line: 1,
        }
    }

    /// There are no more tokens than bytes of a text.
    pub fn is_within(&self)
        ensures { length self.now.tokens ≤ 67108865 }
    {
        // For the prover: this read says how long the text may be.
        let _rest = &self.rest;
    }

    /// Takes the first token. What follows the last token stays.
    pub fn next(&mut self) -> Front<'a>
        ensures front { front_view result ≡ front_of self.old }
        ensures rest { self.new ≡ rest_of self.old }
    {
        let mut rest = self.rest;
        let mut line = self.line;
        'pieces: loop {
            match piece_at(rest) {
                Piece::Last(stop) => {
                    self.rest = rest;
                    self.line = line;
                    return Front::Behind(stop, stop_line(stop, line, rest));
                }
                Piece::Space(n) => {
                    let (taken, after) = rest.split_at(n);
                    line += newlines(taken) as u32;
                    rest = after;
                }
                Piece::Found(token, n) => {
                    let (taken, after) = rest.split_at(n);
                    self.line = line + newlines(taken) as u32;
                    self.rest = after;
                    return Front::Next(Placed { token, line });
                }
            }
        }
    }
}

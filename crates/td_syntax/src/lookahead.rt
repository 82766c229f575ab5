//! The tokens of a text, the first of which is at hand.

ghost use Rattle.std.specs.Prelude.{◌≡◌, ◌≤◌, length};
ghost use Rattle.td_syntax.specs.Tokens.{tokens_of, front_of, rest_of, with_front};
ghost use Rattle.td_syntax.specs.Tokens as tokens;
ghost use Rattle.td_syntax.specs.Views.{front_view};

use crate::lexer::Lexer;
use crate::token::Front;
use std::marker::Model;

/// What is left of a text, and what stands in front of it, which is read once however often it is
/// looked at. A contract sees the tokens: the last one is given again and again.
#[derive(Drop)]
pub struct Lookahead<'a> {
    front: Front<'a>,
    behind: Lexer<'a>,
}

impl<'a> Model for Lookahead<'a> {
    ghost Value = { tokens.Stream };

    ghost view = { λ l. with_front (front_view l.front) l.behind };

    ghost invariant = { λ l. length (with_front (front_view l.front) l.behind).tokens ≤ 67108865 };
}

impl<'a> Lookahead<'a> {
    /// The tokens of the text.
    pub fn new(text: &'a [u8]) -> Lookahead<'a>
        requires { length text.now ≤ 67108864 }
        ensures { result ≡ tokens_of 1 text.now }
    {
        let mut behind = Lexer::new(text);
        behind.is_within();
        Lookahead {
            front: behind.next(),
            behind,
        }
    }

    /// There are no more tokens than bytes of a text.
    pub fn is_within(&self)
        ensures { length self.now.tokens ≤ 67108865 }
    {
        // For the prover: this read says how long the text may be.
        let _front = self.front;
    }

    /// What stands in front, which stays.
    pub fn front(&self) -> Front<'a>
        ensures { front_view result ≡ front_of self.now }
    {
        self.front
    }

    /// Takes the first token. What follows the last token stays.
    pub fn next(&mut self) -> Front<'a>
        ensures front { front_view result ≡ front_of self.old }
        ensures rest { self.new ≡ rest_of self.old }
    {
        let front = self.front;
        if let Front::Next(_) = front {
            self.front = self.behind.next();
        }
        front
    }
}

//! What stands at the front of a text.

ghost use Rattle.std.specs.Prelude.{◌≡◌, ◌≤◌, ◌<◌, ◌∷◌, ◌+◌, length, [], IfSome};
ghost use Rattle.std.specs.List.{prefix_len, position_or_len};
ghost use Rattle.std.specs.Char.{is_ascii_digit, is_ascii_alphanumeric};
ghost use Rattle.td_nets.specs.Letters.{is_letter, is_name_byte};
ghost use Rattle.td_syntax.specs.Bytes.{is_number_byte, is_run_byte, is_printable, is_newline, is_quote, begins};
ghost use Rattle.td_nets.specs.Keywords.{keyword_of};
ghost use Rattle.td_syntax.specs.Pieces.{numeral_at, comment_end, ends_name};
ghost use Rattle.td_syntax.specs.Lexical.{Takes, piece_at, slash_at, number_at, constant_of, comment_of, word_of, mark_of, open_at, escaped_at, directive_of, directive_at, char_at, attribute_of, end_behind};
ghost use Rattle.td_syntax.specs.declared.attribute.Place.TheVariants.{Plain};
ghost use Rattle.td_syntax.specs.Views.{view, piece_view, option_numeral_view};

use crate::attribute::attribute_len;
use crate::bytes::{is_blank, is_number_byte, is_printable, is_run_byte};
use crate::timescale::{blank_len, timescale};
use crate::token::{Directive, Number, Stop, Symbol, Token};
use memchr::{memchr, memmem};
use td_nets::{is_candidate, is_letter, is_name_byte, is_reserved, keyword_of};

/// A piece of a text and how many bytes it takes.
#[derive(Clone, Copy, Debug)]
pub enum Piece<'a> {
    /// White space or a comment.
    Space(usize),
    Found(Token<'a>, usize),
    /// What no token comes after.
    Last(Stop),
}

fn word_of(word: &[u8]) -> Token<'_>
    ensures { view result ≡ word_of word.now }
{
    if !is_candidate(word) {
        return Token::Name(word);
    }
    match keyword_of(word) {
        Some(keyword) => Token::Reserved(keyword),
        None => {
            if is_reserved(word) {
                Token::Outside(word)
            } else {
                Token::Name(word)
            }
        }
    }
}

/// The token of the one byte `mark`.
fn mark_of(byte: u8, mark: &[u8]) -> Token<'_>
    requires { mark.now ≡ byte ∷ [] }
    ensures { view result ≡ mark_of byte }
{
    match byte {
        b')' => Token::Mark(Symbol::Close),
        b',' => Token::Mark(Symbol::Comma),
        b';' => Token::Mark(Symbol::Semicolon),
        b'#' => Token::Mark(Symbol::Hash),
        b'[' => Token::Mark(Symbol::LeftBracket),
        b']' => Token::Mark(Symbol::RightBracket),
        b':' => Token::Mark(Symbol::Colon),
        _ => Token::Outside(mark),
    }
}

fn name_len(text: &[u8]) -> usize
    ensures run { result ≡ prefix_len is_name_byte text.now }
    ensures within { result ≤ length text.now }
{
    text.iter().take_while(|b| is_name_byte(**b)).count()
}

fn run_len(text: &[u8]) -> usize
    ensures run { result ≡ prefix_len is_run_byte text.now }
    ensures within { result ≤ length text.now }
{
    text.iter().take_while(|b| is_run_byte(**b)).count()
}

fn printable_len(text: &[u8]) -> usize
    ensures run { result ≡ prefix_len is_printable text.now }
    ensures within { result ≤ length text.now }
{
    text.iter().take_while(|b| is_printable(**b)).count()
}

fn constant_len(text: &[u8]) -> usize
    ensures run { result ≡ prefix_len is_ascii_alphanumeric text.now }
    ensures within { result ≤ length text.now }
{
    text.iter()
        .take_while(|b| b.is_ascii_alphanumeric())
        .count()
}

/// How many bytes stand before the next newline.
fn line_len(text: &[u8]) -> usize
    ensures place { result ≡ position_or_len is_newline text.now }
    ensures within { result ≤ length text.now }
{
    memchr(b'\n', text).unwrap_or(text.len())
}

fn comment_len(text: &[u8]) -> Option<usize>
    ensures place { result ≡ comment_end text.now }
    ensures within { IfSome result (λ n. n + 2 ≤ length text.now) }
{
    memmem::find(text, b"*/")
}

fn number_len(text: &[u8]) -> usize
    ensures run { result ≡ prefix_len is_number_byte text.now }
    ensures within { result ≤ length text.now }
{
    text.iter().take_while(|b| is_number_byte(**b)).count()
}

fn begins_digit(text: &[u8]) -> bool
    ensures { result ≡ begins is_ascii_digit text.now }
{
    match text {
        [] => false,
        [b, ..] => b.is_ascii_digit(),
    }
}

fn begins_letter(text: &[u8]) -> bool
    ensures { result ≡ begins is_letter text.now }
{
    match text {
        [] => false,
        [b, ..] => is_letter(*b),
    }
}

fn begins_name_byte(text: &[u8]) -> bool
    ensures { result ≡ begins is_name_byte text.now }
{
    match text {
        [] => false,
        [b, ..] => is_name_byte(*b),
    }
}

fn begins_quote(text: &[u8]) -> bool
    ensures { result ≡ begins is_quote text.now }
{
    match text {
        [] => false,
        [b, ..] => *b == b'\'',
    }
}

/// The number in front and how many bytes it takes, unless no digit follows its point.
#[tactic(auto, unfolding(crate::specs::Pieces::numeral_at))]
fn numeral(text: &[u8]) -> Option<(Number<'_>, usize)>
    ensures number { option_numeral_view result ≡ numeral_at text.now }
    ensures within { IfSome result (λ x. x.1 ≤ length text.now) }
{
    let len = number_len(text);
    let (whole, behind) = text.split_at(len);
    match behind {
        [b'.', rest @ ..] => {
            if !begins_digit(rest) {
                return None;
            }
            let more = number_len(rest);
            let (digits, _) = rest.split_at(more);
            let fraction = Some(digits);
            Some((Number { whole, fraction }, len + 1 + more))
        }
        _ => Some((
            Number {
                whole,
                fraction: None,
            },
            len,
        )),
    }
}

#[tactic(auto, unfolding(crate::specs::Lexical::constant_of))]
fn constant_of(text: &[u8]) -> Token<'_>
    ensures { view result ≡ constant_of text.now }
{
    if text == b"1'b0".as_slice() || text == b"1'B0".as_slice() {
        Token::Constant(false, text)
    } else if text == b"1'b1".as_slice() || text == b"1'B1".as_slice() {
        Token::Constant(true, text)
    } else {
        Token::Outside(text)
    }
}

/// A number, or what it runs into.
#[tactic(auto, unfolding(crate::specs::Lexical::number_at))]
fn number_piece(text: &[u8]) -> Piece<'_>
    ensures { piece_view result ≡ number_at text.now }
{
    let Some((number, len)) = numeral(text) else {
        return Piece::Last(Stop::Malformed);
    };
    let (_, after) = text.split_at(len);
    if begins_quote(after) {
        let (_, digits) = after.split_at(1);
        let len = len + 1 + constant_len(digits);
        let (constant, _) = text.split_at(len);
        Piece::Found(constant_of(constant), len)
    } else if begins_name_byte(after) {
        let len = run_len(text);
        let (run, _) = text.split_at(len);
        Piece::Found(Token::Outside(run), len)
    } else {
        Piece::Found(Token::Number(number), len)
    }
}

/// Whether an escaped name ends here: at white space or at the end of the text.
fn ends_name(text: &[u8]) -> bool
    ensures { result ≡ ends_name text.now }
{
    match text {
        [] => true,
        [b, ..] => is_blank(*b),
    }
}

/// An escaped name. The text begins with the backslash.
#[tactic(auto, unfolding(crate::specs::Lexical::escaped_at))]
fn escaped_piece<'a>(text: &'a [u8], rest: &[u8]) -> Piece<'a>
    requires { text.now ≡ 92 ∷ rest.now }
    ensures { piece_view result ≡ escaped_at rest.now }
{
    let len = printable_len(rest);
    let (_, after) = rest.split_at(len);
    if !ends_name(after) {
        Piece::Last(Stop::Bad)
    } else if len == 0 {
        Piece::Last(Stop::Malformed)
    } else {
        let (token, _) = text.split_at(len + 1);
        Piece::Found(Token::Escaped(token), len + 1)
    }
}

/// A directive by its word and the text after that.
#[tactic(auto, unfolding(crate::specs::Lexical::directive_of))]
fn directive_of<'a>(word: &'a [u8], behind: &[u8]) -> Piece<'a>
    requires { length word.now + length behind.now ≤ 67108865 }
    ensures { piece_view result ≡ directive_of word.now behind.now }
{
    if word == b"`timescale".as_slice() {
        match timescale(behind) {
            Ok((directive, rest)) => Piece::Found(
                Token::Directive(Ok(directive), word),
                word.len() + (behind.len() - rest.len()),
            ),
            Err(unread) => Piece::Found(
                Token::Directive(Err(unread), word),
                word.len() + behind.len(),
            ),
        }
    } else if word == b"`celldefine".as_slice() || word == b"`endcelldefine".as_slice() {
        Piece::Found(Token::Directive(Ok(Directive::Cells), word), word.len())
    } else {
        Piece::Found(Token::Outside(word), word.len())
    }
}

/// A directive. The text begins with the backquote `mark`.
#[tactic(auto, unfolding(crate::specs::Lexical::directive_at))]
fn directive_piece<'a>(mark: &'a [u8], text: &'a [u8], rest: &[u8]) -> Piece<'a>
    requires mark { mark.now ≡ 96 ∷ [] }
    requires text { text.now ≡ 96 ∷ rest.now }
    requires within { length text.now ≤ 67108865 }
    ensures { piece_view result ≡ directive_at rest.now }
{
    if begins_letter(rest) {
        let (word, behind) = text.split_at(1 + name_len(rest));
        directive_of(word, behind)
    } else {
        Piece::Found(Token::Outside(mark), 1)
    }
}

/// A character by itself, an escaped name or a directive.
#[tactic(auto, unfolding(crate::specs::Lexical::char_at))]
fn char_piece<'a>(first: u8, mark: &'a [u8], text: &'a [u8], rest: &[u8]) -> Piece<'a>
    requires mark { mark.now ≡ first ∷ [] }
    requires text { text.now ≡ first ∷ rest.now }
    requires within { length text.now ≤ 67108865 }
    ensures { piece_view result ≡ char_at first rest.now }
{
    if first == b'\\' {
        escaped_piece(text, rest)
    } else if first == b'`' {
        directive_piece(mark, text, rest)
    } else {
        Piece::Found(mark_of(first, mark), 1)
    }
}

fn comment_piece(text: &[u8]) -> Piece<'_>
    ensures { piece_view result ≡ comment_of (comment_end text.now) }
{
    match comment_len(text) {
        None => Piece::Last(Stop::Cut),
        Some(n) => Piece::Space(n + 4),
    }
}

fn slash_piece<'a>(slash: &'a [u8], text: &'a [u8]) -> Piece<'a>
    requires { slash.now ≡ 47 ∷ [] }
    ensures { piece_view result ≡ slash_at text.now }
{
    match text {
        [] => Piece::Found(Token::Outside(slash), 1),
        [b'/', rest @ ..] => Piece::Space(2 + line_len(rest)),
        [b'*', rest @ ..] => comment_piece(rest),
        [_, ..] => Piece::Found(Token::Outside(slash), 1),
    }
}

/// An attribute. The text is what follows the `(*`.
fn attribute_piece(text: &[u8]) -> Piece<'_>
    requires { length text.now ≤ 67108865 }
    ensures { piece_view result ≡ attribute_of (end_behind Plain text.now) }
{
    match attribute_len(text) {
        None => Piece::Last(Stop::Cut),
        Some(n) => Piece::Found(Token::Attribute, n + 2),
    }
}

/// A bracket, or an attribute. The text is what follows the `(`.
fn open_piece(text: &[u8]) -> Piece<'_>
    requires { length text.now ≤ 67108865 }
    ensures { piece_view result ≡ open_at text.now }
{
    match text {
        [b'*', rest @ ..] => attribute_piece(rest),
        _ => Piece::Found(Token::Mark(Symbol::Open), 1),
    }
}

/// The piece at the front of the text.
#[tactic(auto, unfolding(crate::specs::Lexical::piece_at))]
fn front_piece(text: &[u8]) -> Piece<'_>
    requires { length text.now ≤ 67108865 }
    ensures { piece_view result ≡ piece_at text.now }
{
    let [first, rest @ ..] = text else {
        return Piece::Last(Stop::End);
    };
    let first = *first;
    if is_blank(first) {
        Piece::Space(blank_len(text))
    } else if is_letter(first) {
        let len = name_len(text);
        let (word, _) = text.split_at(len);
        Piece::Found(word_of(word), len)
    } else if first.is_ascii_digit() {
        number_piece(text)
    } else {
        let (mark, _) = text.split_at(1);
        if first == b'/' {
            slash_piece(mark, rest)
        } else if first == b'(' {
            open_piece(rest)
        } else if is_printable(first) {
            char_piece(first, mark, text, rest)
        } else {
            Piece::Last(Stop::Bad)
        }
    }
}

/// The piece at the front of the text.
pub fn piece_at(text: &[u8]) -> Piece<'_>
    requires { length text.now ≤ 67108865 }
    ensures piece { piece_view result ≡ piece_at text.now }
    ensures takes { Takes (piece_view result) (length text.now) }
{
    front_piece(text)
}

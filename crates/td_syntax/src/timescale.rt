//! The parts of a `timescale.

ghost use Rattle.std.specs.Prelude.{◌≡◌, ◌≤◌, length, IfOk, IfSome};
ghost use Rattle.std.specs.List.{prefix_len};
ghost use Rattle.td_syntax.specs.Bytes.{is_blank, is_zero};
ghost use Rattle.td_syntax.specs.Spans.{unblanked};
ghost use Rattle.td_syntax.specs.Timescales.{magnitude_at, letter_exponent, second_letter, unit_at, span_at, slash_at, timescale_at};
ghost use Rattle.td_syntax.specs.TimescaleViews.{part_view, rest_view, directive_view};

use crate::bytes::is_blank;
use crate::token::{Directive, Timescale, Unread};

/// How many bytes of white space are in front.
pub fn blank_len(text: &[u8]) -> usize
    ensures run { result ≡ prefix_len is_blank text.now }
    ensures within { result ≤ length text.now }
{
    text.iter().take_while(|b| is_blank(**b)).count()
}

fn zero_len(text: &[u8]) -> usize
    ensures run { result ≡ prefix_len is_zero text.now }
    ensures within { result ≤ length text.now }
{
    text.iter().take_while(|b| **b == b'0').count()
}

/// The text after the white space in front.
#[tactic(auto, unfolding(crate::specs::Spans::unblanked))]
fn unblanked(text: &[u8]) -> &[u8]
    ensures { result.now ≡ unblanked text.now }
{
    text.split_at(blank_len(text)).1
}

/// 1, 10 or 100, as the number of its zeros.
#[tactic(auto, unfolding(crate::specs::Timescales::magnitude_at))]
fn magnitude(text: &[u8]) -> Result<(u8, &[u8]), Unread>
    ensures part { part_view result ≡ magnitude_at text.now }
    ensures few { IfOk result (λ x. x.0 ≤ 2) }
{
    match text {
        [] => Err(Unread::Short),
        [b'1', rest @ ..] => {
            let zeros = zero_len(rest).min(2);
            Ok((zeros as u8, rest.split_at(zeros).1))
        }
        _ => Err(Unread::Wrong),
    }
}

/// The units with two letters, by the first one, as the power of ten of a femtosecond.
fn letter_exponent(letter: u8) -> Option<u8>
    ensures tens { result ≡ letter_exponent letter }
    ensures few { IfSome result (λ n. n ≤ 12) }
{
    match letter {
        b'm' => Some(12),
        b'u' => Some(9),
        b'n' => Some(6),
        b'p' => Some(3),
        b'f' => Some(0),
        _ => None,
    }
}

fn second_letter(tens: u8, text: &[u8]) -> Result<(u8, &[u8]), Unread>
    requires { tens ≤ 12 }
    ensures part { part_view result ≡ second_letter tens text.now }
    ensures few { IfOk result (λ x. x.0 ≤ 12) }
{
    match text {
        [] => Err(Unread::Short),
        [b's', rest @ ..] => Ok((tens, rest)),
        _ => Err(Unread::Wrong),
    }
}

/// A unit, as the power of ten of a femtosecond.
#[tactic(auto, unfolding(crate::specs::Timescales::unit_at))]
fn unit(text: &[u8]) -> Result<(u8, &[u8]), Unread>
    ensures part { part_view result ≡ unit_at text.now }
    ensures few { IfOk result (λ x. x.0 ≤ 15) }
{
    match text {
        [] => Err(Unread::Short),
        [b's', rest @ ..] => Ok((15, rest)),
        [letter, rest @ ..] => match letter_exponent(*letter) {
            Some(tens) => second_letter(tens, rest),
            None => Err(Unread::Wrong),
        },
    }
}

/// A magnitude and a unit, as the power of ten of a femtosecond.
#[tactic(auto, unfolding(crate::specs::Timescales::span_at))]
fn span(text: &[u8]) -> Result<(u8, &[u8]), Unread>
    ensures { part_view result ≡ span_at text.now }
{
    let (zeros, behind) = magnitude(unblanked(text))?;
    let (tens, rest) = unit(unblanked(behind))?;
    Ok((zeros + tens, rest))
}

#[tactic(auto, unfolding(crate::specs::Timescales::slash_at))]
fn slash(text: &[u8]) -> Result<&[u8], Unread>
    ensures { rest_view result ≡ slash_at text.now }
{
    match text {
        [] => Err(Unread::Short),
        [b'/', rest @ ..] => Ok(rest),
        _ => Err(Unread::Wrong),
    }
}

#[tactic(auto, unfolding(crate::specs::Timescales::timescale_at))]
fn parts(text: &[u8]) -> Result<(Directive, &[u8]), Unread>
    ensures { directive_view result ≡ timescale_at text.now }
{
    let (unit, behind) = span(text)?;
    let (step, rest) = span(slash(unblanked(behind))?)?;
    if step <= unit {
        Ok((Directive::Timescale(Timescale { unit, step }), rest))
    } else {
        Err(Unread::Wrong)
    }
}

/// The parts after the word of the directive, and the text after them.
pub fn timescale(text: &[u8]) -> Result<(Directive, &[u8]), Unread>
    ensures parts { directive_view result ≡ timescale_at text.now }
    ensures within { IfOk result (λ x. length x.1.now ≤ length text.now) }
{
    parts(text)
}

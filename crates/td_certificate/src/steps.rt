//! Lines of steps, each read from the front of the bytes.

ghost use Rattle.std.specs.Prelude.{◌≡◌, ◌≤◌, ◌^◌, [], IfOk};
ghost use Rattle.td_certificate.specs.Fields.{Gives};
ghost use Rattle.td_certificate.specs.StepReading.{open_digits_at, open_number_at, numbers_at, spaced_at, kind_of_byte, line_of, refuted_line_at};

use crate::fields::{GREATEST, Reason, Stop, first_byte, literal, number_or_none};
use td_refutation::StepKind;

/// A line in a leaf that is refuted: a step of this kind, or the bound that the steps are to show,
/// none where they are to show that no admitted pair lies in the cube.
#[derive(Clone, Copy, Drop)]
pub enum Line {
    Step(StepKind),
    Bound(Option<u64>),
}

/// Takes a number without leading zeros and the byte after it, a newline or a space. Answers
/// whether that byte is the newline.
#[tactic(auto, unfolding(crate::specs::StepReading::open_number_at, crate::specs::StepReading::open_digits_at))]
fn open_number(text: &[u8]) -> Result<(u64, bool, &[u8]), Stop<'_>>
    ensures read { Gives (λ x. ((x.0, x.1), x.2.now)) result (open_number_at text.now) }
    ensures within { IfOk result (λ x. x.0 ≤ 10 ^ 18) }
{
    let (first, mut rest) = first_byte(text)?;
    if !first.is_ascii_digit() {
        return Err(Stop::Wrong(Reason::Syntax, text));
    }
    let mut number = u64::from(first - b'0');
    'digits: loop {
        let (byte, after) = first_byte(rest)?;
        if byte == b'\n' {
            return Ok((number, true, after));
        }
        if byte == b' ' {
            return Ok((number, false, after));
        }
        if !byte.is_ascii_digit() {
            return Err(Stop::Wrong(Reason::Syntax, rest));
        }
        if number == 0 {
            return Err(Stop::Wrong(Reason::Syntax, rest));
        }
        let next = 10 * number + u64::from(byte - b'0');
        if next > GREATEST {
            return Err(Stop::Wrong(Reason::NumberTooLarge, rest));
        }
        number = next;
        rest = after;
    }
}

/// Takes at least one number, a space between each two, and the newline.
pub fn numbers<'a>(text: &'a [u8], numbers: &mut Vec<u64>) -> Result<&'a [u8], Stop<'a>>
    requires { numbers.old.items ≡ [] }
    ensures { Gives (λ rest. (numbers.new.items, rest.now)) result (numbers_at text.now) }
{
    let mut rest = text;
    'numbers: loop {
        let (number, last, after) = open_number(rest)?;
        numbers.push(number)?;
        if last {
            return Ok(after);
        }
        rest = after;
    }
}

/// Takes numbers, each after a space, and the newline.
#[tactic(auto, unfolding(crate::specs::StepReading::spaced_at))]
fn spaced<'a>(text: &'a [u8], list: &mut Vec<u64>) -> Result<&'a [u8], Stop<'a>>
    ensures { Gives (λ rest. (list.new.items, rest.now)) result (spaced_at text.now) }
{
    list.clear();
    match text {
        [] => Err(Stop::Ends),
        [b'\n', rest @ ..] => Ok(rest),
        [b' ', rest @ ..] => numbers(rest, list),
        [_, ..] => Err(Stop::Wrong(Reason::Syntax, text)),
    }
}

/// The kind of the steps with this letter.
fn kind_of(letter: u8) -> Option<StepKind>
    ensures { result ≡ kind_of_byte letter }
{
    match letter {
        b'i' => Some(StepKind::First),
        b'f' => Some(StepKind::Last),
        b'w' => Some(StepKind::Span),
        b'c' => Some(StepKind::Flips),
        b'g' => Some(StepKind::Gate),
        b't' => Some(StepKind::Table),
        b'n' => Some(StepKind::Net),
        b'u' => Some(StepKind::Pairs),
        b'k' => Some(StepKind::Keep),
        b'l' => Some(StepKind::Lemma),
        b'e' => Some(StepKind::End),
        b'r' => Some(StepKind::Again),
        _ => None,
    }
}

/// Takes a line in a leaf that is refuted, with the numbers of a step.
#[tactic(auto, unfolding(crate::specs::StepReading::refuted_line_at, crate::specs::StepReading::behind_line_tag))]
pub fn line_at<'a>(text: &'a [u8], numbers: &mut Vec<u64>) -> Result<(Line, &'a [u8]), Stop<'a>>
    ensures { Gives (λ x. (line_of x.0 numbers.new.items, x.1.now)) result (refuted_line_at text.now) }
{
    match text {
        [] => Err(Stop::Ends),
        [b'q', rest @ ..] => {
            let rest = literal(b" ", rest)?;
            let (bound, rest) = number_or_none(true, rest)?;
            Ok((Line::Bound(bound), rest))
        }
        [letter, rest @ ..] => match kind_of(*letter) {
            Some(kind) => {
                let rest = spaced(rest, numbers)?;
                Ok((Line::Step(kind), rest))
            }
            None => Err(Stop::Wrong(Reason::Syntax, text)),
        },
    }
}

//! Fields of a certificate's text, each read from the front of the bytes.

ghost use Rattle.std.specs.Prelude.{◌≡◌, ◌≤◌, ◌<◌, ◌+◌, ◌^◌, ◌==◌, codes, IfOk};
ghost use Rattle.td_certificate.specs.declared.fields.Stop.TheVariants.{OutOfMemory};
ghost use Rattle.td_certificate.specs.Reading.{Gives, byte_at, literal, digits_at, number_at, number_from, begins_with_zero, begins_none, number_or_none, domain_of, letter_at, number_behind, behind_tag, BoundTag, PointTag, EmptyTag, RefutedTag, node_at, leaves_in};

use crate::question::Version;
use crate::refuting::refuted_lines;
use crate::tree::{BoundedBy, Node};
use std::alloc::{AllocError, AllocFailed, Global};

/// The greatest number of a certificate.
pub const GREATEST: u64 = 1_000_000_000_000_000_000;

/// What is wrong at a byte.
#[derive(Clone, Copy, Drop)]
pub enum Reason {
    Syntax,
    NumberTooLarge,
    Version,
}

/// Why reading stops: the bytes end, or from here on they can't be read.
#[derive(Clone, Copy, Drop)]
pub enum Stop<'a> {
    OutOfMemory,
    Ends,
    Wrong(Reason, &'a [u8]),
}

impl From<AllocError> for Stop<'_> {
    ghost from_gives = { λ _ e. e ≡ OutOfMemory };

    fn from(_e: AllocError) -> Self {
        Stop::OutOfMemory
    }
}

impl<T: Drop> From<AllocFailed<T>> for Stop<'_> {
    ghost from_gives = { λ _ e. e ≡ OutOfMemory };

    fn from(_e: AllocFailed<T>) -> Self {
        Stop::OutOfMemory
    }
}

/// Which leaves may stand in a tree.
#[derive(Clone, Copy, Drop)]
pub enum Leaves {
    /// Those of the first version: each has an admitted pair.
    First,
    /// Those of the second and the third version: one without an admitted pair too.
    Later,
    /// Those of the fourth version: those that are bounded by edges and those that steps refute too.
    Any,
}

impl Leaves {
    /// The leaves of a version.
    pub fn of(version: Version) -> Leaves
        ensures { result ≡ leaves_in version }
    {
        match version {
            Version::First => Leaves::First,
            Version::Second | Version::Third => Leaves::Later,
            Version::Fourth => Leaves::Any,
        }
    }
}

/// Takes the first byte.
pub fn first_byte(text: &[u8]) -> Result<(u8, &[u8]), Stop<'_>>
    ensures { Gives (λ x. (x.0, x.1.now)) result (byte_at text.now) }
{
    match text {
        [] => Err(Stop::Ends),
        [byte, rest @ ..] => Ok((*byte, rest)),
    }
}

/// Takes this word from the front.
pub fn literal<'a>(word: &[u8], text: &'a [u8]) -> Result<&'a [u8], Stop<'a>>
    ensures { Gives (λ rest. (tt, rest.now)) result (literal word.now text.now) }
{
    let mut rest = text;
    for expected in word {
        let (byte, after) = first_byte(rest)?;
        if byte != *expected {
            return Err(Stop::Wrong(Reason::Syntax, rest));
        }
        rest = after;
    }
    Ok(rest)
}

/// Takes a number without leading zeros, at most `most`, and the byte that closes it.
#[tactic(auto, unfolding(crate::specs::Fields::number_at, crate::specs::Fields::digits_at))]
pub fn number<'a>(most: u64, close: u8, text: &'a [u8]) -> Result<(u64, &'a [u8]), Stop<'a>>
    requires { most ≤ 10 ^ 18 }
    ensures read { Gives (λ x. (x.0, x.1.now)) result (number_at most close text.now) }
    ensures within { IfOk result (λ x. x.0 ≤ most) }
{
    let (first, mut rest) = first_byte(text)?;
    if !first.is_ascii_digit() {
        return Err(Stop::Wrong(Reason::Syntax, text));
    }
    let mut number = u64::from(first - b'0');
    if number > most {
        return Err(Stop::Wrong(Reason::NumberTooLarge, text));
    }
    'digits: loop {
        let (byte, after) = first_byte(rest)?;
        if byte == close {
            return Ok((number, after));
        }
        if !byte.is_ascii_digit() {
            return Err(Stop::Wrong(Reason::Syntax, rest));
        }
        if number == 0 {
            return Err(Stop::Wrong(Reason::Syntax, rest));
        }
        let next = 10 * number + u64::from(byte - b'0');
        if next > most {
            return Err(Stop::Wrong(Reason::NumberTooLarge, rest));
        }
        number = next;
        rest = after;
    }
}

/// Whether the first byte is a 0.
fn begins_with_zero(text: &[u8]) -> bool
    ensures { result ≡ begins_with_zero text.now }
{
    matches!(text, [b'0', ..])
}

/// Takes a number as `number` does. A 0 is refused where it must be of a positive count.
#[tactic(auto, unfolding(crate::specs::Fields::number_from))]
pub fn number_from<'a>(
    positive: bool,
    most: u64,
    close: u8,
    text: &'a [u8],
) -> Result<(u64, &'a [u8]), Stop<'a>>
    requires { most ≤ 10 ^ 18 }
    ensures read { Gives (λ x. (x.0, x.1.now)) result (number_from positive most close text.now) }
    ensures within { IfOk result (λ x. x.0 ≤ most) }
{
    if positive && begins_with_zero(text) {
        return Err(Stop::Wrong(Reason::Syntax, text));
    }
    number(most, close, text)
}

/// The domain with this letter, where a leaf may name it.
fn domain(leaves: Leaves, letter: u8) -> Option<BoundedBy>
    ensures { result ≡ domain_of leaves letter }
{
    match leaves {
        Leaves::First | Leaves::Later => match letter {
            b'a' => Some(BoundedBy::Arrival),
            b't' => Some(BoundedBy::Possible),
            b'm' => Some(BoundedBy::Both),
            _ => None,
        },
        Leaves::Any => match letter {
            b'a' => Some(BoundedBy::Arrival),
            b't' => Some(BoundedBy::Possible),
            b'm' => Some(BoundedBy::Both),
            b'e' => Some(BoundedBy::Edges),
            b'n' => Some(BoundedBy::EdgesAndPossible),
            _ => None,
        },
    }
}

#[tactic(auto, unfolding(crate::specs::Reading::letter_at))]
fn letter(leaves: Leaves, text: &[u8]) -> Result<(BoundedBy, &[u8]), Stop<'_>>
    ensures { Gives (λ x. (x.0, x.1.now)) result (letter_at leaves text.now) }
{
    match text {
        [] => Err(Stop::Ends),
        [byte, rest @ ..] => match domain(leaves, *byte) {
            Some(domain) => Ok((domain, rest)),
            None => Err(Stop::Wrong(Reason::Syntax, text)),
        },
    }
}

/// Takes a word, a number and the byte that closes it.
#[tactic(auto, unfolding(crate::specs::Fields::number_behind))]
pub fn number_behind<'a>(
    word: &[u8],
    most: u64,
    close: u8,
    text: &'a [u8],
) -> Result<(u64, &'a [u8]), Stop<'a>>
    requires { most ≤ 10 ^ 18 }
    ensures read { Gives (λ x. (x.0, x.1.now)) result (number_behind word.now most close text.now) }
    ensures within { IfOk result (λ x. x.0 ≤ most) }
{
    let rest = literal(word, text)?;
    number(most, close, rest)
}

/// Whether `none` begins here, where it may stand in a number's place.
fn begins_none(may: bool, text: &[u8]) -> bool
    ensures { result ≡ begins_none may text.now }
{
    may && matches!(text, [b'n', ..])
}

/// Takes a number and the newline, or `none` where it may stand in a number's place.
#[tactic(auto, unfolding(crate::specs::Fields::number_or_none))]
pub fn number_or_none(may: bool, text: &[u8]) -> Result<(Option<u64>, &[u8]), Stop<'_>>
    ensures { Gives (λ x. (x.0, x.1.now)) result (number_or_none may text.now) }
{
    if begins_none(may, text) {
        let rest = literal(b"none\n", text)?;
        return Ok((None, rest));
    }
    let (number, rest) = number(GREATEST, b'\n', text)?;
    Ok((Some(number), rest))
}

/// Takes a space, a number and the newline.
pub fn last_number(text: &[u8]) -> Result<(u64, &[u8]), Stop<'_>>
    ensures { Gives (λ x. (x.0, x.1.now)) result (number_behind (codes " ") (10 ^ 18) 10 text.now) }
{
    number_behind(b" ", GREATEST, b'\n', text)
}

#[tactic(auto, unfolding(crate::specs::Reading::behind_tag))]
fn bound(leaves: Leaves, text: &[u8]) -> Result<(Node, &[u8]), Stop<'_>>
    ensures { Gives (λ x. (x.0, x.1.now)) result (behind_tag leaves BoundTag text.now) }
{
    let rest = literal(b" ", text)?;
    let (domain, rest) = letter(leaves, rest)?;
    let (bound, rest) = last_number(rest)?;
    Ok((Node::Bound(domain, bound), rest))
}

/// Takes what follows the first byte of a leaf of one pair.
#[tactic(auto, unfolding(crate::specs::Reading::behind_tag))]
fn point(leaves: Leaves, text: &[u8]) -> Result<(Node, &[u8]), Stop<'_>>
    ensures { Gives (λ x. (x.0, x.1.now)) result (behind_tag leaves PointTag text.now) }
{
    let (time, rest) = last_number(text)?;
    Ok((Node::Point(time), rest))
}

/// Takes what follows the first byte of a leaf without an admitted pair.
#[tactic(auto, unfolding(crate::specs::Reading::behind_tag))]
fn empty(leaves: Leaves, text: &[u8]) -> Result<(Node, &[u8]), Stop<'_>>
    ensures { Gives (λ x. (x.0, x.1.now)) result (behind_tag leaves EmptyTag text.now) }
{
    let rest = literal(b"one\n", text)?;
    Ok((Node::Empty, rest))
}

/// Takes what follows the first byte of a leaf that is refuted.
#[tactic(auto, unfolding(crate::specs::Reading::behind_tag))]
fn refuted(alloc: Global, leaves: Leaves, text: &[u8]) -> Result<(Node, &[u8]), Stop<'_>>
    ensures { Gives (λ x. (x.0, x.1.now)) result (behind_tag leaves RefutedTag text.now) }
{
    let rest = literal(b"\n", text)?;
    let (refuted, rest) = refuted_lines(alloc, rest)?;
    Ok((Node::Refuted(refuted), rest))
}

/// Takes a node's line, or its lines.
#[tactic(auto, unfolding(crate::specs::Reading::node_at, crate::specs::Reading::tag_at, crate::specs::Reading::behind_tag))]
pub fn node(alloc: Global, leaves: Leaves, text: &[u8]) -> Result<(Node, &[u8]), Stop<'_>>
    ensures { Gives (λ x. (x.0, x.1.now)) result (node_at leaves text.now) }
{
    match text {
        [] => Err(Stop::Ends),
        [b's', rest @ ..] => {
            let (position, rest) = last_number(rest)?;
            Ok((Node::Split(position), rest))
        }
        [b'b', rest @ ..] => bound(leaves, rest),
        [b'p', rest @ ..] => point(leaves, rest),
        [b'n', rest @ ..] => match leaves {
            Leaves::First => Err(Stop::Wrong(Reason::Syntax, text)),
            Leaves::Later | Leaves::Any => empty(leaves, rest),
        },
        [b'x', rest @ ..] => match leaves {
            Leaves::First | Leaves::Later => Err(Stop::Wrong(Reason::Syntax, text)),
            Leaves::Any => refuted(alloc, leaves, rest),
        },
        [_, ..] => Err(Stop::Wrong(Reason::Syntax, text)),
    }
}

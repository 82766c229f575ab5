//! Reading a certificate's text.

ghost use Rattle.std.specs.Prelude.{◌≡◌, ◌≤◌, ◌<◌, ◌+◌, ◌-◌, ◌^◌, ℕ, take, length, Some, IfOk, IfErr};
ghost use Rattle.td_certificate.specs.Reading.{Gives, begins_number, front_number, IsUpTo, is_version, version_reason, digit_at, version_at, has_inputs, leaves_in, may_claim_none, high_at, timed_at, claim_behind, claim_at, nodes_at, lines_at, certificate_at};
ghost use Rattle.td_certificate.specs.Spelling.{Spells};
ghost use Rattle.td_certificate.specs.Tails.{answer_at};
ghost use Rattle.td_certificate.specs.declared.certificate.Certificate.{Certificate as Contents};
ghost use Rattle.td_certificate.specs.declared.fault.CertFaultKind.{CertFaultKind as Kind};
ghost use Rattle.td_certificate.specs.Faults.{IsFault, kind_of, kind_in, IsWithinLimit, IsFront, HasMore, IsReadAs, IsReported, line_behind};

use crate::asking::question;
use crate::certificate::{Certificate, Claim};
use crate::characters::{Bits, row};
use crate::fault::{CertFault, CertFaultKind};
use crate::fields::{
    GREATEST, Leaves, Reason, Stop, literal, node, number, number_behind, number_from,
    number_or_none,
};
use crate::question::{Question, Version};
use crate::tree::Tree;
use std::alloc::Global;
use td_domain::Pair;
use td_nets::{MAX_GATES, MAX_INPUTS};

/// The greatest number of bytes of a certificate's text.
const MAX_TEXT: usize = 268_435_456;

/// Whether a number's digits stand in front of these bytes.
fn begins_number(bytes: &[u8]) -> bool
    ensures { result ≡ begins_number bytes.now }
{
    match bytes {
        [] => false,
        [first] => first.is_ascii_digit(),
        [first, second, ..] => {
            first.is_ascii_digit() && !(*first == b'0' && second.is_ascii_digit())
        }
    }
}

/// The number of the digits in front of these bytes, none where it passes the greatest of a
/// certificate.
fn front_number(bytes: &[u8]) -> Option<u64>
    ensures { IsUpTo (10 ^ 18) (front_number 0 bytes.now) result }
{
    let mut number = 0u64;
    for byte in bytes {
        if !byte.is_ascii_digit() {
            return Some(number);
        }
        number = 10 * number + u64::from(*byte - b'0');
        if number > GREATEST {
            return None;
        }
    }
    Some(number)
}

/// Whether one of the versions has this number.
fn is_version(number: u64) -> bool
    ensures { result ≡ is_version number }
{
    number == 1 || number == 2 || number == 3 || number == 4
}

/// What is wrong with a first line that isn't that of a version, from the byte after its word and
/// space on.
#[tactic(auto, unfolding(crate::specs::Reading::version_reason))]
fn version_reason(behind: &[u8]) -> Reason
    ensures { result ≡ version_reason behind.now }
{
    if !begins_number(behind) {
        return Reason::Syntax;
    }
    match front_number(behind) {
        None => Reason::NumberTooLarge,
        Some(number) => {
            if is_version(number) {
                Reason::Syntax
            } else {
                Reason::Version
            }
        }
    }
}

/// Takes a version's digit and the newline.
#[tactic(auto, unfolding(crate::specs::Reading::digit_at))]
fn digit(text: &[u8]) -> Result<(Version, &[u8]), Stop<'_>>
    ensures { Gives (λ x. (x.0, x.1.now)) result (digit_at text.now) }
{
    let (version, rest) = match text {
        [] => return Err(Stop::Ends),
        [b'1', rest @ ..] => (Version::First, rest),
        [b'2', rest @ ..] => (Version::Second, rest),
        [b'3', rest @ ..] => (Version::Third, rest),
        [b'4', rest @ ..] => (Version::Fourth, rest),
        [_, ..] => return Err(Stop::Wrong(Reason::Syntax, text)),
    };
    let rest = literal(b"\n", rest)?;
    Ok((version, rest))
}

/// Takes the first line.
#[tactic(auto, unfolding(crate::specs::Reading::version_at))]
fn version(text: &[u8]) -> Result<(Version, &[u8]), Stop<'_>>
    ensures { Gives (λ x. (x.0, x.1.now)) result (version_at text.now) }
{
    let behind = literal(b"tdelay-cert ", text)?;
    match digit(behind) {
        Err(Stop::Wrong(_, rest)) => Err(Stop::Wrong(version_reason(behind), rest)),
        other => other,
    }
}

/// Takes a tree.
fn tree(alloc: Global, version: Version, text: &[u8]) -> Result<(Tree, &[u8]), Stop<'_>>
    ensures { Gives (λ x. (x.0, x.1.now)) result (nodes_at (leaves_in version) 1 text.now) }
{
    let mut nodes = Vec::new(alloc);
    let mut pending = 1u64;
    let leaves = Leaves::of(version);
    let mut rest = text;
    while pending > 0 {
        let (first, after) = node(alloc, leaves, rest)?;
        pending = pending - 1 + first.sides();
        nodes.push(first)?;
        rest = after;
    }
    Ok((Tree::from_nodes(nodes), rest))
}

/// Whether a circuit surely has inputs where a text of this version is about it.
fn has_inputs(version: Version) -> bool
    ensures { result ≡ has_inputs version }
{
    match version {
        Version::First | Version::Fourth => false,
        Version::Second | Version::Third => true,
    }
}

/// Whether a text of this version may claim that no pair is admitted.
fn may_claim_none(version: Version) -> bool
    ensures { result ≡ may_claim_none version }
{
    match version {
        Version::First | Version::Second | Version::Third => false,
        Version::Fourth => true,
    }
}

/// Takes the line of the moment after which no admitted pair changes an output, where a text of
/// this version has it.
#[tactic(auto, unfolding(crate::specs::Reading::high_at))]
fn high(version: Version, time: u64, text: &[u8]) -> Result<(u64, &[u8]), Stop<'_>>
    ensures { Gives (λ x. (x.0, x.1.now)) result (high_at version time text.now) }
{
    match version {
        Version::First | Version::Second | Version::Third => Ok((time, text)),
        Version::Fourth => number_behind(b"high ", GREATEST, b'\n', text),
    }
}

/// Takes the lines of a claim after that of its time.
#[tactic(auto, unfolding(crate::specs::Reading::timed_at))]
fn timed(
    alloc: Global,
    version: Version,
    inputs: u32,
    time: u64,
    text: &[u8],
) -> Result<(Claim, &[u8]), Stop<'_>>
    ensures { Gives (λ x. (x.0, x.1.now)) result (timed_at version inputs time text.now) }
{
    let (high, rest) = high(version, time, text)?;
    let (first, rest) = row::<Bits>(alloc, b"from ", inputs, rest)?;
    let (second, rest) = row::<Bits>(alloc, b"to ", inputs, rest)?;
    let pair = Pair::new(first, second);
    Ok((Claim { time, high, pair }, rest))
}

/// Takes the lines after that of the time, which are there where it tells one.
#[tactic(auto, unfolding(crate::specs::Reading::claim_behind))]
fn behind_time(
    alloc: Global,
    version: Version,
    inputs: u32,
    time: Option<u64>,
    text: &[u8],
) -> Result<(Option<Claim>, &[u8]), Stop<'_>>
    ensures { Gives (λ x. (x.0, x.1.now)) result (claim_behind version inputs time text.now) }
{
    match time {
        None => Ok((None, text)),
        Some(time) => {
            let (claim, rest) = timed(alloc, version, inputs, time, text)?;
            Ok((Some(claim), rest))
        }
    }
}

/// Takes the lines of the claim.
#[tactic(auto, unfolding(crate::specs::Reading::claim_at))]
fn claim(
    alloc: Global,
    version: Version,
    inputs: u32,
    text: &[u8],
) -> Result<(Option<Claim>, &[u8]), Stop<'_>>
    ensures { Gives (λ x. (x.0, x.1.now)) result (claim_at version inputs text.now) }
{
    let rest = literal(b"time ", text)?;
    let (time, rest) = number_or_none(may_claim_none(version), rest)?;
    behind_time(alloc, version, inputs, time, rest)
}

/// Takes the lines after those of the question.
fn answered<'a>(
    alloc: Global,
    version: Version,
    inputs: u32,
    gates: u32,
    question: Question,
    text: &'a [u8],
) -> Result<(Certificate, &'a [u8]), Stop<'a>>
    ensures { Gives (λ x. (x.0, x.1.now)) result (answer_at version inputs gates question text.now) }
{
    let (claim, rest) = claim(alloc, version, inputs, text)?;
    let (tree, rest) = tree(alloc, version, rest)?;
    let certificate = Certificate {
        gates,
        question,
        claim,
        tree,
    };
    Ok((certificate, rest))
}

/// Takes the lines after the first.
#[tactic(auto, unfolding(crate::specs::Reading::lines_at))]
fn lines(alloc: Global, version: Version, text: &[u8]) -> Result<(Certificate, &[u8]), Stop<'_>>
    ensures { Gives (λ x. (x.0, x.1.now)) result (lines_at version text.now) }
{
    let rest = literal(b"circuit ", text)?;
    let (inputs, rest) = number_from(has_inputs(version), MAX_INPUTS as u64, b' ', rest)?;
    let (gates, rest) = number(MAX_GATES as u64, b'\n', rest)?;
    let (question, rest) = question(alloc, version, inputs as u32, rest)?;
    answered(alloc, version, inputs as u32, gates as u32, question, rest)
}

/// Takes a certificate.
#[tactic(auto, unfolding(crate::specs::Reading::certificate_at))]
fn certificate(alloc: Global, text: &[u8]) -> Result<(Certificate, &[u8]), Stop<'_>>
    ensures { Gives (λ x. (x.0, x.1.now)) result (certificate_at text.now) }
{
    let (version, rest) = version(text)?;
    lines(alloc, version, rest)
}

/// The line of the place where this rest of the text begins.
fn line_number(text: &[u8], rest: &[u8]) -> u32
    requires rest { length rest.now ≤ length text.now }
    requires limit { length text.now ≤ 268435456 }
    ensures { result ≡ line_behind (take (length text.now - length rest.now) text.now) }
{
    let front = &text[..text.len() - rest.len()];
    1 + front.iter().filter(|byte| **byte == b'\n').count() as u32
}

fn kind_of(reason: Reason) -> CertFaultKind
    ensures { result ≡ kind_of reason }
{
    match reason {
        Reason::Syntax => CertFaultKind::Syntax,
        Reason::NumberTooLarge => CertFaultKind::NumberTooLarge,
        Reason::Version => CertFaultKind::Version,
    }
}

/// The certificate that a text spells, or what is wrong with it.
fn read_whole(alloc: Global, text: &[u8]) -> Result<Certificate, CertFault>
    // What is read is spelled so.
    ensures found { IfOk result (λ c. Spells c text.now × IsWithinLimit text.now) }
    // A fault is one of the text.
    ensures fault { IfErr result (λ fault. IsFault fault.kind fault.line text.now) }
{
    if text.len() > MAX_TEXT {
        return Err(CertFault {
            kind: CertFaultKind::TooLong,
            line: 1,
        });
    }
    match certificate(alloc, text) {
        Ok((certificate, rest)) => {
            if rest.is_empty() {
                return Ok(certificate);
            }
            Err(CertFault {
                kind: CertFaultKind::Trailing,
                line: line_number(text, rest),
            })
        }
        Err(Stop::OutOfMemory) => Err(CertFault {
            kind: CertFaultKind::OutOfMemory,
            line: 0,
        }),
        Err(Stop::Ends) => Err(CertFault {
            kind: CertFaultKind::UnexpectedEnd,
            line: line_number(text, &[]),
        }),
        Err(Stop::Wrong(reason, rest)) => Err(CertFault {
            kind: kind_of(reason),
            line: line_number(text, rest),
        }),
    }
}

/// The certificate that a text spells, all of the text.
///
/// A fault is on the first line that can't be read on, or where more text follows a certificate.
pub fn read(alloc: Global, text: &[u8]) -> Result<Certificate, CertFault>
    // What is read is spelled so, and a fault is one of the text.
    ensures found { IfOk result (λ c. Spells c text.now × IsWithinLimit text.now) }
    ensures fault { IfErr result (λ fault. IsFault fault.kind fault.line text.now) }

    // Unless memory runs out, a text that spells a certificate is read as this certificate, and
    // each other text gives its fault.
    ensures only { (c : Contents) → Spells c text.now → IsWithinLimit text.now → IsReadAs c result }
    ensures ends { IsFront text.now → IsWithinLimit text.now → IsReported CertFaultKind.UnexpectedEnd result }
    ensures trailing { (line : ℕ) → HasMore text.now line → IsWithinLimit text.now → IsReported CertFaultKind.Trailing result }
    ensures stops { (kind : Kind) → kind_in text.now ≡ Some kind → IsWithinLimit text.now → IsReported kind result }
{
    read_whole(alloc, text)
}

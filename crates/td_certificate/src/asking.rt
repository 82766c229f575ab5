//! Reading what a certificate is about.

ghost use Rattle.std.specs.Prelude.{◌≡◌, ◌≤◌, ◌<◌, ◌^◌, ◌==◌, ◌&&◌, length, true, option_map, IfOk};
ghost use Rattle.td_certificate.specs.declared.question.Version.TheVariants as of_version;
ghost use Rattle.td_domain.specs.Cubes.{weave};
ghost use Rattle.td_certificate.specs.Tails.{limited_at};
ghost use Rattle.td_certificate.specs.Reading.{Gives, most_flips, flips_at, admit_at, moment_at, moments_at, at_line, dated_at, steps_at, delays, default_at, outputs_at, terms_by, terms_at, with_keep, told_at, question_at};

use crate::characters::{Holds, Trits, row};
use crate::conditions::kept;
use crate::fields::{Reason, Stop, literal, number_behind, number_from};
use crate::question::{Question, Terms, Version, are_free, holds_none};
use crate::steps::numbers;
use std::alloc::{AllocError, Global};
use td_circuit::LATEST;
use td_domain::{Admit, Cube, Trit};

/// The greatest number of flips in a text of this version. With all inputs where nothing is pinned
/// or held, all pairs are admitted, which the second version doesn't say.
fn most_flips(version: Version, pins: &Cube, held: &[bool]) -> u64
    ensures { result ≡ most_flips version pins.now held.now }
{
    let inputs = held.len() as u64;
    match version {
        Version::Second => {
            if are_free(pins) && holds_none(held) {
                inputs.saturating_sub(1)
            } else {
                inputs
            }
        }
        Version::First | Version::Third | Version::Fourth => inputs,
    }
}

/// Takes the line of the flips.
#[tactic(auto, unfolding(crate::specs::Reading::flips_at))]
fn flips(most: u64, text: &[u8]) -> Result<(u64, &[u8]), Stop<'_>>
    requires { most ≤ 10 ^ 18 }
    ensures read { Gives (λ x. (x.0, x.1.now)) result (flips_at most text.now) }
    ensures within { IfOk result (λ x. x.0 ≤ most) }
{
    match number_behind(b"flips ", most, b'\n', text) {
        Err(Stop::Wrong(_, rest)) => Err(Stop::Wrong(Reason::Syntax, rest)),
        other => other,
    }
}

/// Takes the line of the flips, after rows of these trits and held inputs.
fn limited<'a>(
    alloc: Global,
    version: Version,
    firsts: &[Trit],
    seconds: &[Trit],
    held: Vec<bool>,
    text: &'a [u8],
) -> Result<(Admit, &'a [u8]), Stop<'a>>
    requires firsts { length firsts.now ≡ length held.items }
    requires seconds { length seconds.now ≡ length held.items }
    requires few { length held.items ≤ 4096 }
    ensures { Gives (λ x. (x.0, x.1.now)) result (limited_at version firsts.now seconds.now held.items text.now) }
{
    let pins = Cube::weave(alloc, firsts, seconds)?;
    let (flips, rest) = flips(most_flips(version, &pins, &held), text)?;
    Ok((Admit::new(pins, held, flips as u32), rest))
}

/// Takes the lines from `first` to `flips`.
#[tactic(auto, unfolding(crate::specs::Reading::admit_at))]
fn admit(
    alloc: Global,
    version: Version,
    inputs: u32,
    text: &[u8],
) -> Result<(Admit, &[u8]), Stop<'_>>
    requires { inputs ≤ 4096 }
    ensures { Gives (λ x. (x.0, x.1.now)) result (admit_at version inputs text.now) }
{
    let (firsts, rest) = row::<Trits>(alloc, b"first ", inputs, text)?;
    let (seconds, rest) = row::<Trits>(alloc, b"second ", inputs, rest)?;
    let (held, rest) = row::<Holds>(alloc, b"hold ", inputs, rest)?;
    limited(alloc, version, &firsts, &seconds, held, rest)
}

/// Takes a moment. `others` moments are still to come, and `at_once` says that all before are 0 and
/// one has to be later.
fn moment(at_once: bool, others: u32, text: &[u8]) -> Result<(u64, &[u8]), Stop<'_>>
    ensures { Gives (λ x. (x.0, x.1.now)) result (moment_at at_once others text.now) }
{
    let close = if others == 0 { b'\n' } else { b' ' };
    match number_from(at_once && others == 0, LATEST, close, text) {
        Err(Stop::Wrong(_, rest)) => Err(Stop::Wrong(Reason::Syntax, rest)),
        other => other,
    }
}

/// Takes a moment for each input, not all of them 0 where one has to be later.
fn moments(
    alloc: Global,
    later: bool,
    inputs: u32,
    text: &[u8],
) -> Result<(Vec<u64>, &[u8]), Stop<'_>>
    ensures { Gives (λ x. (x.0.items, x.1.now)) result (moments_at later inputs text.now) }
{
    let mut moments = Vec::new(alloc);
    let mut at_once = later;
    let mut rest = text;
    for input in 0..inputs {
        let (next, after) = moment(at_once, inputs - input - 1, rest)?;
        at_once = at_once & (next == 0);
        moments.push(next)?;
        rest = after;
    }
    Ok((moments, rest))
}

/// Takes the line of the moments.
#[tactic(auto, unfolding(crate::specs::Reading::at_line))]
fn at(alloc: Global, later: bool, inputs: u32, text: &[u8]) -> Result<(Vec<u64>, &[u8]), Stop<'_>>
    ensures { Gives (λ x. (x.0.items, x.1.now)) result (at_line later inputs text.now) }
{
    let rest = literal(b"at ", text)?;
    if inputs == 0 {
        let rest = literal(b"none\n", rest)?;
        return Ok((Vec::new(alloc), rest));
    }
    moments(alloc, later, inputs, rest)
}

/// Takes the lines from `first` to `at`.
#[tactic(auto, unfolding(crate::specs::Reading::dated_at))]
fn dated(
    alloc: Global,
    version: Version,
    later: bool,
    inputs: u32,
    text: &[u8],
) -> Result<(Question, &[u8]), Stop<'_>>
    requires { inputs ≤ 4096 }
    ensures { Gives (λ x. (x.0, x.1.now)) result (dated_at version later inputs text.now) }
{
    let (admit, rest) = admit(alloc, version, inputs, text)?;
    let (moments, rest) = at(alloc, later, inputs, rest)?;
    Ok((Question::new(admit, moments), rest))
}

/// Takes a delay and the byte that closes it.
#[tactic(auto, unfolding(crate::specs::Reading::steps_at))]
fn steps(close: u8, text: &[u8]) -> Result<(u32, &[u8]), Stop<'_>>
    ensures { Gives (λ x. (x.0, x.1.now)) result (steps_at close text.now) }
{
    match number_from(true, LATEST, close, text) {
        Err(Stop::Wrong(_, rest)) => Err(Stop::Wrong(Reason::Syntax, rest)),
        Err(other) => Err(other),
        Ok((steps, rest)) => Ok((steps as u32, rest)),
    }
}

/// Takes the line of the delays of gates that state none.
#[tactic(auto, unfolding(crate::specs::Reading::default_at))]
fn default(text: &[u8]) -> Result<((u32, u32), &[u8]), Stop<'_>>
    ensures { Gives (λ x. (delays x.0.0 x.0.1, x.1.now)) result (default_at text.now) }
{
    let rest = literal(b"default ", text)?;
    let (rise, rest) = steps(b' ', rest)?;
    let (fall, rest) = steps(b'\n', rest)?;
    Ok(((rise, fall), rest))
}

/// Takes which outputs are asked about: none where all are.
#[tactic(auto, unfolding(crate::specs::Reading::outputs_at))]
fn outputs(alloc: Global, text: &[u8]) -> Result<(Option<Vec<u64>>, &[u8]), Stop<'_>>
    ensures { Gives (λ x. (option_map (λ numbers. numbers.items) x.0, x.1.now)) result (outputs_at text.now) }
{
    match text {
        [] => Err(Stop::Ends),
        [b'a', ..] => {
            let rest = literal(b"all\n", text)?;
            Ok((None, rest))
        }
        [_, ..] => {
            let mut asked = Vec::new(alloc);
            let rest = numbers(text, &mut asked)?;
            Ok((Some(asked), rest))
        }
    }
}

/// Takes the lines `default` and `output`.
#[tactic(auto, unfolding(crate::specs::Reading::terms_at))]
fn terms(alloc: Global, text: &[u8]) -> Result<(Terms, &[u8]), Stop<'_>>
    ensures { Gives (λ x. (x.0, x.1.now)) result (terms_at text.now) }
{
    let ((rise, fall), rest) = default(text)?;
    let rest = literal(b"output ", rest)?;
    let (outputs, rest) = outputs(alloc, rest)?;
    let terms = Terms {
        rise,
        fall,
        outputs,
        keep: Vec::new(alloc),
    };
    Ok((terms, rest))
}

/// Takes the lines from `default` to `keep`.
#[tactic(auto, unfolding(crate::specs::Reading::told_at))]
fn told(alloc: Global, inputs: u32, text: &[u8]) -> Result<(Question, &[u8]), Stop<'_>>
    requires { inputs ≤ 4096 }
    ensures { Gives (λ x. (x.0, x.1.now)) result (told_at inputs text.now) }
{
    let (terms, rest) = terms(alloc, text)?;
    let (question, rest) = dated(alloc, Version::Fourth, false, inputs, rest)?;
    let rest = literal(b"keep ", rest)?;
    let (keep, rest) = kept(alloc, rest)?;
    let terms = Terms {
        rise: terms.rise,
        fall: terms.fall,
        outputs: terms.outputs,
        keep,
    };
    Ok((question.with_terms(terms), rest))
}

/// The question of the first version, which has no lines.
#[tactic(auto, unfolding(crate::specs::Reading::question_at))]
fn unrestricted(alloc: Global, inputs: u32, text: &[u8]) -> Result<(Question, &[u8]), Stop<'_>>
    ensures { Gives (λ x. (x.0, x.1.now)) result (question_at of_version.First inputs text.now) }
{
    let admit = Admit::all(alloc, inputs as usize)?;
    let moments = vec![in alloc; 0u64; inputs as usize]?;
    Ok((Question::new(admit, moments), text))
}

/// Takes the lines of a question of the second version.
#[tactic(auto, unfolding(crate::specs::Reading::question_at))]
fn restricted(alloc: Global, inputs: u32, text: &[u8]) -> Result<(Question, &[u8]), Stop<'_>>
    requires { inputs ≤ 4096 }
    ensures { Gives (λ x. (x.0, x.1.now)) result (question_at of_version.Second inputs text.now) }
{
    let (admit, rest) = admit(alloc, Version::Second, inputs, text)?;
    let moments = vec![in alloc; 0u64; inputs as usize]?;
    Ok((Question::new(admit, moments), rest))
}

/// Takes the lines of a question.
#[tactic(auto, unfolding(crate::specs::Reading::question_at))]
pub fn question(
    alloc: Global,
    version: Version,
    inputs: u32,
    text: &[u8],
) -> Result<(Question, &[u8]), Stop<'_>>
    requires { inputs ≤ 4096 }
    ensures { Gives (λ x. (x.0, x.1.now)) result (question_at version inputs text.now) }
{
    match version {
        Version::First => unrestricted(alloc, inputs, text),
        Version::Second => restricted(alloc, inputs, text),
        Version::Third => dated(alloc, version, true, inputs, text),
        Version::Fourth => told(alloc, inputs, text),
    }
}

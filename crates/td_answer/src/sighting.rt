//! What is found of an output, with the pair that shows it.

ghost use Rattle.std.specs.Prelude.{◌≡◌, option_map, IfOk};
ghost use Rattle.td_answer.specs.Sightings.{kept_pair, shown_by, sighted, vectors_of};

use crate::answers::vector_of;
use std::alloc::{AllocError, Global};
use td_domain::Pair;
use td_lines::{Found, Vectors};
use td_worst::KeptAnswer;

/// What is found of a worst delay, and a pair that has the figure, or the lower one, where that is
/// asked for and known.
#[derive(Debug, Drop)]
pub(crate) struct Sighting {
    pub(crate) found: Found,
    pub(crate) pair: Option<Vectors>,
}

/// The pair of an answer about the pairs that keep conditions, if there is one.
pub(crate) fn kept_pair(answer: &KeptAnswer) -> Option<&Pair>
    ensures { option_map (λ pair. pair.now) result ≡ kept_pair answer.now }
{
    match answer {
        KeptAnswer::Exact { best, .. } => Some(&best.pair),
        KeptAnswer::Between { best, .. } => Some(&best.pair),
        KeptAnswer::Open { .. } | KeptAnswer::NoPair { .. } => None,
    }
}

/// A pair, where something is found that a pair shows.
fn shown_by(found: Found, pair: Option<&Pair>) -> Option<&Pair>
    ensures { option_map (λ pair. pair.now) result ≡ shown_by found (option_map (λ pair. pair.now) pair.entry) }
{
    match found {
        Found::Exact(_) | Found::Between { .. } => pair,
        Found::AtMost(_) | Found::NoPair => None,
    }
}

/// The vectors of a pair.
fn vectors_of(alloc: Global, pair: &Pair) -> Result<Vectors, AllocError>
    ensures { IfOk result (λ vectors. vectors ≡ vectors_of pair.now) }
{
    let from = vector_of(alloc, pair.first())?;
    let to = vector_of(alloc, pair.second())?;
    Ok(Vectors { from, to })
}

/// The vectors of a pair, if there is one.
fn vectors_in(alloc: Global, pair: Option<&Pair>) -> Result<Option<Vectors>, AllocError>
    ensures { IfOk result (λ vectors. vectors ≡ option_map vectors_of (option_map (λ pair. pair.now) pair.entry)) }
{
    match pair {
        None => Ok(None),
        Some(pair) => {
            let vectors = vectors_of(alloc, pair)?;
            Ok(Some(vectors))
        }
    }
}

/// What is found, with the pair where that is asked for.
pub(crate) fn sighted(
    alloc: Global,
    is_asked: bool,
    found: Found,
    pair: Option<&Pair>,
) -> Result<Sighting, AllocError>
    ensures { IfOk result (λ seen. seen ≡ sighted is_asked found (option_map (λ pair. pair.now) pair.entry)) }
{
    if !is_asked {
        return Ok(Sighting { found, pair: None });
    }
    let pair = vectors_in(alloc, shown_by(found, pair))?;
    Ok(Sighting { found, pair })
}

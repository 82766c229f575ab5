//! Counts of levels that stay the same from place to place, in pieces.

ghost use Rattle.std.specs.Prelude.{◌≡◌, ◌+◌, ◌≤◌, ◌<◌, ◌++◌, ◌∷◌, ℕ, true, false, [], length, drop, slice_get, IfOk};
ghost use Rattle.td_gates.specs.declared.primitives.Level.{Level as LevelModel};
ghost use Rattle.td_spans.specs.Times.{is_by};
ghost use Rattle.td_spans.specs.Pieces.{no_counts, one_at, counts_or, is_nothing, sum_counts, joined, nearest, next_index, two_at, piece_at, many, many_counts, told_or};

use crate::gate_clauses::level_from;
use crate::net_clauses::is_within;
use crate::sayings::is_by;
use crate::variable::Saying;
use std::alloc::{AllocError, Global};
use td_gates::{Counts, Level};

/// Counts at the places up to the last one, where there is one, that no piece before it has.
#[derive(Clone, Copy, Debug, PartialEq, Eq, Drop)]
pub struct Piece {
    pub last: Option<u64>,
    pub counts: Counts,
}

/// One input at a level.
pub fn one_at(level: Level) -> Counts
    ensures { result ≡ one_at level }
{
    match level {
        Level::Zero => Counts {
            zeros: 1,
            ones: 0,
            unknowns: 0,
        },
        Level::One => Counts {
            zeros: 0,
            ones: 1,
            unknowns: 0,
        },
        Level::X => Counts {
            zeros: 0,
            ones: 0,
            unknowns: 1,
        },
    }
}

// Whether nothing is counted.
fn is_nothing(counts: Counts) -> bool
    ensures { result ≡ is_nothing counts }
{
    counts.zeros == 0 && (counts.ones == 0 && counts.unknowns == 0)
}

fn sum_counts(one: Counts, other: Counts) -> Counts
    ensures { result ≡ sum_counts one other }
{
    Counts {
        zeros: one.zeros.saturating_add(other.zeros),
        ones: one.ones.saturating_add(other.ones),
        unknowns: one.unknowns.saturating_add(other.unknowns),
    }
}

// Two counts as one: their sum, or the first of them that counts something.
fn joined(adds: bool, one: Counts, other: Counts) -> Counts
    ensures { result ≡ joined adds one other }
{
    if is_nothing(one) {
        other
    } else if is_nothing(other) {
        one
    } else if adds {
        sum_counts(one, other)
    } else {
        one
    }
}

// The earlier of two last places, where there is one.
fn nearest(one: Option<u64>, other: Option<u64>) -> Option<u64>
    ensures { result ≡ nearest one other }
{
    match one {
        None => other,
        Some(first) => match other {
            None => Some(first),
            Some(second) => Some(first.min(second)),
        },
    }
}

fn next_index(index: usize, over: bool) -> usize
    requires { index < 18446744073709551615 }
    ensures { result ≡ next_index index over }
{
    if over { index + 1 } else { index }
}

// The pieces at two indices, where both are there.
fn two_at(one: &[Piece], i: usize, other: &[Piece], j: usize) -> Option<(Piece, Piece)>
    ensures { result ≡ two_at (slice_get one.now i) (slice_get other.now j) }
{
    match one.get(i) {
        None => None,
        Some(first) => match other.get(j) {
            None => None,
            Some(second) => Some((*first, *second)),
        },
    }
}

// The piece of two, up to the end of the one that is over first.
fn joined_piece(adds: bool, one: Piece, other: Piece) -> Piece
    ensures last { result.last ≡ nearest one.last other.last }
    ensures counts { result.counts ≡ joined adds one.counts other.counts }
{
    Piece {
        last: nearest(one.last, other.last),
        counts: joined(adds, one.counts, other.counts),
    }
}

/// Two lists of pieces as one that joins what they count at each place. The error is out of memory.
pub fn merged(
    alloc: Global,
    adds: bool,
    one: &[Piece],
    other: &[Piece],
) -> Result<Vec<Piece>, AllocError>
    ensures { IfOk result (λ pieces. (place : ℕ) → counts_or pieces.items no_counts place ≡ joined adds (counts_or one.now no_counts place) (counts_or other.now no_counts place)) }
{
    let mut pieces = Vec::new(alloc);
    let mut i = 0;
    let mut j = 0;
    while let Some((first, second)) = two_at(one, i, other, j) {
        pieces.push(joined_piece(adds, first, second))?;
        i = next_index(i, is_within(first.last, second.last));
        j = next_index(j, is_within(second.last, first.last));
    }
    pieces.extend_from_slice(&one[i..])?;
    pieces.extend_from_slice(&other[j..])?;
    Ok(pieces)
}

// A count of one net for as many.
fn many(count: u64, one: u64) -> u64
    ensures { result ≡ many count one }
{
    if one == 0 { 0 } else { count }
}

/// Pieces that count one net, for as many. The error is out of memory.
pub fn repeated(alloc: Global, count: u64, one: &[Piece]) -> Result<Vec<Piece>, AllocError>
    ensures { IfOk result (λ pieces. (place : ℕ) → counts_or pieces.items no_counts place ≡ many_counts count (counts_or one.now no_counts place)) }
{
    let mut pieces = Vec::new(alloc);
    for piece in one {
        pieces.push(Piece {
            last: piece.last,
            counts: Counts {
                zeros: many(count, piece.counts.zeros),
                ones: many(count, piece.counts.ones),
                unknowns: many(count, piece.counts.unknowns),
            },
        })?;
    }
    Ok(pieces)
}

/// The piece at an index, after all of them one that counts nothing and has no end.
pub fn piece_at(pieces: &[Piece], index: usize) -> Piece
    ensures { result ≡ piece_at pieces.now index }
{
    match pieces.get(index) {
        None => Piece {
            last: None,
            counts: Counts::NONE,
        },
        Some(piece) => *piece,
    }
}

/// The index of the first piece, from an index on, that isn't over at a place.
pub fn index_from(pieces: &[Piece], from: usize, place: u128) -> usize
    ensures on { is_by place (piece_at pieces.now result).last ≡ true }
    ensures same { (n : ℕ) → place ≤ n → counts_or (drop from pieces.now) no_counts n ≡ counts_or (drop result pieces.now) no_counts n }
{
    let mut index = from;
    while !is_by(place, piece_at(pieces, index).last) {
        index = next_index(index, true);
    }
    index
}

// The pieces of a saying. The error is out of memory.
fn by_saying(alloc: Global, saying: Saying) -> Result<Vec<Piece>, AllocError>
    ensures { IfOk result (λ pieces. (place : ℕ) → counts_or pieces.items no_counts place ≡ told_or (saying ∷ []) no_counts place) }
{
    let mut pieces = Vec::new(alloc);
    let told = Piece {
        last: saying.last,
        counts: one_at(level_from(saying.level)),
    };
    if saying.first == 0 {
        pieces.push(told)?;
        return Ok(pieces);
    }
    pieces.push(Piece {
        last: Some(saying.first - 1),
        counts: Counts::NONE,
    })?;
    pieces.push(told)?;
    Ok(pieces)
}

/// The pieces of sayings of one net, the first of which counts at each place. The error is out of
/// memory.
pub fn by_sayings(alloc: Global, sayings: &[Saying]) -> Result<Vec<Piece>, AllocError>
    ensures { IfOk result (λ pieces. (place : ℕ) → counts_or pieces.items no_counts place ≡ told_or sayings.now no_counts place) }
{
    match sayings.len() {
        0 => Ok(Vec::new(alloc)),
        1 => by_saying(alloc, sayings[0]),
        count => {
            let middle = count / 2;
            let low = by_sayings(alloc, &sayings[..middle])?;
            let high = by_sayings(alloc, &sayings[middle..])?;
            let pieces = merged(alloc, false, &low, &high)?;
            Ok(pieces)
        }
    }
}

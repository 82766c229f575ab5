//! 64 pairs of vectors, one in each lane.

use std::alloc::{AllocError, Global};
use td_domain::Pair;

/// How many pairs there are: a word has a bit for each.
pub const LANES: u32 = 64;

/// 64 pairs of vectors: bit `k` of an input's word is its bit in lane `k`.
#[derive(Debug, Drop)]
pub struct Pairs {
    first: Vec<u64>,
    second: Vec<u64>,
}

/// An input's bits in some lanes are flipped: its first bit, its second, or both.
#[derive(Clone, Copy, Debug, Drop)]
pub struct Flip {
    pub input: usize,
    pub first: bool,
    pub second: bool,
}

impl Pairs {
    /// Pairs by their words, one in each for each input.
    pub fn new(first: Vec<u64>, second: Vec<u64>) -> Self {
        Pairs { first, second }
    }

    /// The same pair in each lane. The error is out of memory.
    pub(crate) fn of(alloc: Global, pair: &Pair) -> Result<Self, AllocError> {
        Ok(Pairs {
            first: spread(alloc, pair.first())?,
            second: spread(alloc, pair.second())?,
        })
    }

    /// The pair in a lane. The error is out of memory.
    pub fn pair(&self, alloc: Global, lane: u32) -> Result<Pair, AllocError> {
        Ok(Pair::new(
            bits_in(alloc, &self.first, lane)?,
            bits_in(alloc, &self.second, lane)?,
        ))
    }

    /// Flips bits of an input in these lanes.
    pub(crate) fn flip(&mut self, flip: Flip, lanes: u64) {
        if flip.first {
            flip_in(&mut self.first, flip.input, lanes);
        }
        if flip.second {
            flip_in(&mut self.second, flip.input, lanes);
        }
    }

    /// The words of an input, 0 where there is no such input.
    pub(crate) fn words(&self, input: usize) -> (u64, u64) {
        (word_in(&self.first, input), word_in(&self.second, input))
    }

    /// The two bits of an input in a lane.
    pub(crate) fn bits(&self, input: usize, lane: u32) -> (bool, bool) {
        let (first, second) = self.words(input);
        (bit_of(first, lane), bit_of(second, lane))
    }
}

/// All lanes where a bit is 1, no lane where it is 0.
fn lanes_of(bit: bool) -> u64 {
    if bit { u64::MAX } else { 0 }
}

/// A word for each bit, the same in each lane. The error is out of memory.
fn spread(alloc: Global, bits: &[bool]) -> Result<Vec<u64>, AllocError> {
    let mut words = Vec::new(alloc);
    for bit in bits {
        words.push(lanes_of(*bit))?;
    }
    Ok(words)
}

/// The bits of a lane. The error is out of memory.
fn bits_in(alloc: Global, words: &[u64], lane: u32) -> Result<Vec<bool>, AllocError> {
    let mut bits = Vec::new(alloc);
    for word in words {
        bits.push(bit_of(*word, lane))?;
    }
    Ok(bits)
}

/// Flips the bits of an input in these lanes.
fn flip_in(words: &mut [u64], input: usize, lanes: u64) {
    if let Some(word) = words.get_mut(input) {
        *word ^= lanes;
    }
}

/// The word of an input, 0 where there is no such input.
fn word_in(words: &[u64], input: usize) -> u64 {
    match words.get(input) {
        Some(word) => *word,
        None => 0,
    }
}

/// The bit in a lane.
fn bit_of(word: u64, lane: u32) -> bool {
    word.rotate_right(lane) & 1 == 1
}

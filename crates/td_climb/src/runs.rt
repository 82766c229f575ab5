//! What runs of words have in common.

use std::alloc::{AllocError, Global};
use std::mem;

/// How often runs become longer, at most: each time three times as long, or as long as they are
/// asked to be.
const ROUNDS: usize = 41;

/// What is asked of a run of words, lane by lane.
#[derive(Clone, Copy, Debug, Drop)]
pub enum Run {
    /// Whether all of them are 1.
    All,
    /// Whether any of them is.
    Any,
}

/// An answer for the run from each word on, and room for those of longer runs.
#[derive(Debug, Drop)]
pub struct Runs {
    words: Vec<u64>,
    spare: Vec<u64>,
}

/// How far after an answer the two stand with which it is joined.
#[derive(Clone, Copy, Debug, Drop)]
struct Steps {
    one: usize,
    two: usize,
}

impl Steps {
    /// From runs of `done` words to runs that are up to three times as long, of `length` words at
    /// most.
    fn after(done: usize, length: usize) -> Steps {
        let left = length.saturating_sub(done);
        let one = done.min(left);
        Steps {
            one,
            two: done.saturating_mul(2).min(left),
        }
    }
}

impl Runs {
    /// None yet.
    pub fn new(alloc: Global) -> Self {
        Runs {
            words: Vec::new(alloc),
            spare: Vec::new(alloc),
        }
    }

    /// Answers of runs of `length` words, from each word on after which there are as many. The
    /// error is out of memory.
    pub fn make(&mut self, run: Run, words: &[u64], length: usize) -> Result<(), AllocError> {
        self.words.resize(words.len(), 0)?;
        self.spare.resize(words.len(), 0)?;
        join_steps(run, words, Steps::after(1, length), &mut self.words);
        let mut done = 3usize;
        for _ in 0..ROUNDS {
            if length <= done {
                break;
            }
            let steps = Steps::after(done, length);
            join_steps(run, &self.words, steps, &mut self.spare);
            mem::swap(&mut self.words, &mut self.spare);
            done = done.saturating_mul(3);
        }
        Ok(())
    }

    /// What was made last, from a place on.
    pub fn from(&self, place: usize) -> &[u64] {
        match self.words.get(place..) {
            Some(words) => words,
            None => &[],
        }
    }
}

/// Joins each answer with those that stand these steps after it, as far as there are any.
fn join_steps(run: Run, words: &[u64], steps: Steps, joined: &mut [u64]) {
    if let (Some(ones), Some(twos)) = (words.get(steps.one..), words.get(steps.two..)) {
        match run {
            Run::All => join_lists(Run::All, words, ones, twos, joined),
            Run::Any => join_lists(Run::Any, words, ones, twos, joined),
        }
    }
}

/// Joins answers of three lists. Each way to join has a copy of its own, which the compiler makes
/// vectors of. It goes by numbers, since the program that isn't proved is slow by iterators.
#[inline(always)]
fn join_lists(run: Run, words: &[u64], ones: &[u64], twos: &[u64], joined: &mut [u64]) {
    let both = ones.len().min(twos.len());
    let count = joined.len().min(words.len()).min(both);
    for place in 0..count {
        joined[place] = match run {
            Run::All => words[place] & ones[place] & twos[place],
            Run::Any => words[place] | ones[place] | twos[place],
        };
    }
}

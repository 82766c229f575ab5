//! Which variables were met in conflicts lately, and the order of decisions.

use crate::table::{read, small, write_at};
use std::alloc::{AllocError, Global};

// Where a score is above this, all are divided by 2^16.
const MOST_SCORE: u64 = 1 << 60;

const FIRST_INCREMENT: u64 = 1 << 44;
// A heap of all variables has fewer levels.
const HEAP_LEVELS: u32 = 33;

/// Scores of variables, and a heap of those that may be open, the greatest score first.
#[derive(Clone, Drop)]
pub struct Activity {
    // By variable.
    scores: Vec<u64>,
    increment: u64,
    // As many as there are variables; the first `count` of them are the heap.
    heap: Vec<u32>,
    count: u32,
    // By variable: its place in the heap.
    places: Vec<Option<u32>>,
}

impl Activity {
    /// No variables yet.
    pub fn new(alloc: Global) -> Activity {
        Activity {
            scores: Vec::new(alloc),
            increment: FIRST_INCREMENT,
            heap: Vec::new(alloc),
            count: 0,
            places: Vec::new(alloc),
        }
    }

    /// Makes room for this number of variables, the new ones in the heap. The error is out of
    /// memory.
    pub fn grow(&mut self, variables: u32) -> Result<(), AllocError> {
        let before = small(self.scores.len());
        self.scores.resize(variables as usize, 0)?;
        self.heap.resize(variables as usize, 0)?;
        self.places.resize(variables as usize, None)?;
        for variable in before..variables {
            self.insert(variable);
        }
        Ok(())
    }

    /// Puts a variable into the heap, where it isn't there.
    pub fn insert(&mut self, variable: u32) {
        if self.place_of(variable).is_none() {
            let place = self.count;
            self.put(place, variable);
            self.count = self.count.saturating_add(1);
            self.rise(place);
        }
    }

    /// The variable with the greatest score in the heap.
    pub fn first(&self) -> Option<u32> {
        if self.count == 0 {
            return None;
        }
        Some(self.at(0))
    }

    /// Takes the variable with the greatest score from the heap.
    pub fn pop(&mut self) -> Option<u32> {
        if self.count == 0 {
            return None;
        }
        let first = self.at(0);
        self.count = self.count.saturating_sub(1);
        write_at(&mut self.places, first as usize, None);
        if self.count > 0 {
            let last = self.at(self.count);
            self.put(0, last);
            self.sink();
        }
        Some(first)
    }

    /// Raises the score of a variable that was met in a conflict.
    pub fn bump(&mut self, variable: u32) {
        let score = self.score(variable).saturating_add(self.increment);
        write_at(&mut self.scores, variable as usize, score);
        if score > MOST_SCORE {
            self.scale_down();
        }
        if let Some(place) = self.place_of(variable) {
            self.rise(place);
        }
    }

    /// Makes what is met from now on count for more: by a nineteenth where the search is stable,
    /// else by two of 23.
    pub fn decay(&mut self, is_stable: bool) {
        let more = if is_stable {
            self.increment / 19
        } else {
            self.increment / 23 * 2
        };
        self.increment = self.increment.saturating_add(more);
    }

    fn scale_down(&mut self) {
        for score in self.scores.iter_mut() {
            *score /= 65536;
        }
        self.increment = (self.increment / 65536).max(1);
    }

    /// How much a variable was met in conflicts, 0 where it never was.
    pub fn score(&self, variable: u32) -> u64 {
        read(&self.scores, variable as usize, 0)
    }

    fn at(&self, place: u32) -> u32 {
        read(&self.heap, place as usize, 0)
    }

    fn place_of(&self, variable: u32) -> Option<u32> {
        read(&self.places, variable as usize, None)
    }

    fn put(&mut self, place: u32, variable: u32) {
        write_at(&mut self.heap, place as usize, variable);
        write_at(&mut self.places, variable as usize, Some(place));
    }

    // Moves the variable at the place up to where it belongs.
    fn rise(&mut self, from: u32) {
        let variable = self.at(from);
        let place = self.risen(from, self.score(variable));
        self.put(place, variable);
    }

    // Moves those above down, as far as their score is less. Answers the place that is free then.
    fn risen(&mut self, from: u32, score: u64) -> u32 {
        let mut place = from;
        for _ in 0..HEAP_LEVELS {
            if place == 0 {
                return place;
            }
            let above = (place - 1) / 2;
            let other = self.at(above);
            if self.score(other) >= score {
                return place;
            }
            self.put(place, other);
            place = above;
        }
        place
    }

    // Moves the first variable down to where it belongs.
    fn sink(&mut self) {
        let variable = self.at(0);
        let place = self.sunk(self.score(variable));
        self.put(place, variable);
    }

    // Moves those below the first one up, as far as their score is greater. Answers the place that
    // is free then.
    fn sunk(&mut self, score: u64) -> u32 {
        let mut place = 0;
        for _ in 0..HEAP_LEVELS {
            let Some(below) = self.greater_child(place) else {
                return place;
            };
            let other = self.at(below);
            if self.score(other) <= score {
                return place;
            }
            self.put(place, other);
            place = below;
        }
        place
    }

    // The place below with the greater score, if there is one.
    fn greater_child(&self, place: u32) -> Option<u32> {
        let left = place.saturating_mul(2).saturating_add(1);
        let right = left.saturating_add(1);
        if left >= self.count {
            return None;
        }
        if right < self.count && self.score(self.at(right)) > self.score(self.at(left)) {
            return Some(right);
        }
        Some(left)
    }
}

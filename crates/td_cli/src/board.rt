//! What a search tells the thread that waits for it.

use std::alloc::Global;
use std::mem;
use std::sync::{Mutex, Wait};
use td_lines::Text;
use td_pool::Progress;

/// Lines, in order, and how far the search has come by the last of them that says so.
#[derive(Drop)]
struct Notes {
    lines: Vec<Text>,
    reached: Option<Progress>,
}

/// What a search leaves for the thread that waits for it, which writes the lines. Where memory is
/// refused a line is left out.
#[derive(Drop)]
pub(crate) struct Board {
    alloc: Global,
    notes: Mutex<Notes>,
}

impl Board {
    /// One with nothing on it.
    pub(crate) fn new(alloc: Global) -> Board {
        let notes = Notes {
            lines: Vec::new(alloc),
            reached: None,
        };
        Board {
            alloc,
            notes: Mutex::new(notes),
        }
    }

    /// Leaves a line.
    pub(crate) fn put<R: Wait>(&self, rt: &R, line: Text) {
        let _put = self.notes.lock(rt).lines.push(line);
    }

    /// Notes how far the search has come.
    pub(crate) fn reach<R: Wait>(&self, rt: &R, progress: Progress) {
        self.notes.lock(rt).reached = Some(progress);
    }

    /// Takes the lines that are left by now.
    pub(crate) fn take<R: Wait>(&self, rt: &R) -> Vec<Text> {
        mem::replace(&mut self.notes.lock(rt).lines, Vec::new(self.alloc))
    }

    /// How far the search has come, if it said so.
    pub(crate) fn reached<R: Wait>(&self, rt: &R) -> Option<Progress> {
        self.notes.lock(rt).reached
    }
}

//! The thread that waits for a search.

use crate::advice::Advice;
use crate::board::Board;
use crate::deadline::Deadline;
use crate::message::tell;
use crate::progress::Beats;
use std::alloc::Global;
use std::sync::Wait;
use std::time::Clock;
use td_stop::{Signal, Stop};
use td_text::Sink;

/// The thread that waits for a search: each time that its timer looks, it writes the lines that the
/// search left, or says itself how far it is where none came for long.
#[derive(Drop)]
pub(crate) struct Waiting<'a, 'w, R, E, A> {
    rt: &'a R,
    is_asked: bool,
    beats: Beats,
    deadline: &'a Deadline<'a, 'w, A>,
    stop: &'a Stop,
    board: &'a Board,
    err: &'a mut E,
}

impl<'a, 'w, R: Wait + Clock, E: Sink, A: Advice> Waiting<'a, 'w, R, E, A> {
    /// Waits for a search that begins now, whose progress is asked for or not.
    pub(crate) fn new(
        rt: &'a R,
        alloc: Global,
        is_asked: bool,
        deadline: &'a Deadline<'a, 'w, A>,
        stop: &'a Stop,
        board: &'a Board,
        err: &'a mut E,
    ) -> Self {
        Waiting {
            rt,
            is_asked,
            beats: Beats::new(rt, alloc),
            deadline,
            stop,
            board,
            err,
        }
    }

    /// Writes the lines that are left by now.
    pub(crate) fn write(&mut self) {
        for line in self.board.take(self.rt) {
            tell(self.err, line.bytes());
            self.beats.heard(self.rt);
        }
    }
}

impl<'a, 'w, R: Wait + Clock, E: Sink, A: Advice> Signal for Waiting<'a, 'w, R, E, A> {
    fn is_given(&mut self) -> bool {
        if self.is_asked {
            self.write();
            if let Some(line) = self.beats.line(self.rt, self.board, &self.stop.gauge) {
                tell(self.err, line.bytes());
            }
        }
        self.deadline.is_given()
    }
}

//! Lines on standard error that say how far a search has come.

use crate::board::Board;
use crate::pace::Pace;
use std::alloc::{AllocError, Global};
use std::sync::Wait;
use std::time::Clock;
use td_answer::{Begun, TableWatch};
use td_lines::{Row, Text, print_row};
use td_pool::{Progress, Watch};
use td_search::Problem;
use td_stop::Gauge;

/// After how many seconds without a line one is due.
const DUE: u64 = 10;

/// Leaves a line on a board for each step of progress that it gets, and is due when it left none
/// for ten seconds. Where memory is refused, the search goes on without the line.
#[derive(Drop)]
pub(crate) struct ProgressLines<'a, R> {
    rt: &'a R,
    alloc: Global,
    is_asked: bool,
    board: &'a Board,
    pace: Pace,
    /// The nodes of the trees before this one, and those of this one by the last line.
    before: u64,
    nodes: u64,
}

impl<'a, R: Wait + Clock> ProgressLines<'a, R> {
    /// The lines of a search that begins now, if they are asked for.
    pub(crate) fn new(rt: &'a R, alloc: Global, is_asked: bool, board: &'a Board) -> Self {
        ProgressLines {
            rt,
            alloc,
            is_asked,
            board,
            pace: Pace::new(rt),
            before: 0,
            nodes: 0,
        }
    }

    /// The same with the nodes of all trees: a search of several counts each from 0 on.
    fn whole(&mut self, progress: Progress) -> Progress {
        if progress.nodes < self.nodes {
            self.before = self.before.saturating_add(self.nodes);
        }
        self.nodes = progress.nodes;
        let mut whole = progress;
        whole.nodes = self.before.saturating_add(progress.nodes);
        whole
    }

    /// Leaves a line, if there is one.
    fn leave(&self, line: Result<Text, AllocError>) {
        if let Ok(line) = line {
            self.board.put(self.rt, line);
        }
    }
}

/// How many seconds have passed, if they are known, and how much was done in each of the last ones.
#[derive(Clone, Copy, Drop)]
struct Timing {
    seconds: Option<u64>,
    rate: u64,
}

impl Timing {
    /// Appends it, and ends the line.
    fn push(self, text: &mut Text) -> Result<(), AllocError> {
        if let Some(seconds) = self.seconds {
            text.number_behind(b" seconds ", seconds)?;
            text.number_behind(b" rate ", self.rate)?;
        }
        text.push(b"\n")
    }
}

/// The line that says this.
fn line_of(alloc: Global, progress: Progress, timing: Timing) -> Result<Text, AllocError> {
    let mut text = Text::new(alloc);
    text.number_behind(b"nodes ", progress.nodes)?;
    text.number_behind(b" low ", progress.low)?;
    text.number_behind(b" high ", progress.high)?;
    text.number_behind(b" open ", progress.open)?;
    timing.push(&mut text)?;
    Ok(text)
}

/// The line of a search by spans that has taken so many units of work: which question it asks, and
/// the figures that are known, if there are some.
fn units_line(
    alloc: Global,
    gauge: &Gauge,
    reached: Option<Progress>,
    timing: Timing,
) -> Result<Text, AllocError> {
    let mut text = Text::new(alloc);
    text.number_behind(b"units ", gauge.units())?;
    text.number_behind(b" question ", gauge.moment())?;
    if let Some(progress) = reached {
        text.number_behind(b" low ", progress.low)?;
        text.number_behind(b" high ", progress.high)?;
    }
    timing.push(&mut text)?;
    Ok(text)
}

/// The line that says which row of a table is begun.
fn row_line(alloc: Global, row: Begun<'_>, seconds: Option<u64>) -> Result<Text, AllocError> {
    let mut text = Text::new(alloc);
    text.number_behind(b"rows ", row.done)?;
    text.number_behind(b" of ", row.rows)?;
    text.word_behind(b" output ", row.output)?;
    if let Some(seconds) = seconds {
        text.number_behind(b" seconds ", seconds)?;
    }
    text.push(b"\n")?;
    Ok(text)
}

/// The line of a row that is found, as the table has it.
fn found_line(alloc: Global, row: &Row) -> Result<Text, AllocError> {
    let mut text = Text::new(alloc);
    print_row(&mut text, row)?;
    Ok(text)
}

/// What the thread that waits for a search says where the search itself leaves no line.
#[derive(Drop)]
pub(crate) struct Beats {
    alloc: Global,
    pace: Pace,
    units: u64,
}

impl Beats {
    /// Those of a search that begins now.
    pub(crate) fn new<R: Clock>(rt: &R, alloc: Global) -> Beats {
        Beats {
            alloc,
            pace: Pace::new(rt),
            units: 0,
        }
    }

    /// The search has left a line.
    pub(crate) fn heard<R: Clock>(&mut self, rt: &R) {
        let _rate = self.pace.tick(rt, self.units);
    }

    /// A line, if none was written for ten seconds: of a search by spans if there is one, else how
    /// far the search had come.
    pub(crate) fn line<R: Wait + Clock>(
        &mut self,
        rt: &R,
        board: &Board,
        gauge: &Gauge,
    ) -> Option<Text> {
        if self.pace.silence(rt)? < DUE {
            return None;
        }
        let is_by_spans = gauge.units() > self.units;
        self.units = gauge.units();
        let timing = Timing {
            rate: self.pace.tick(rt, self.units),
            seconds: self.pace.seconds(rt),
        };
        let reached = board.reached(rt);
        let line = match reached {
            Some(progress) if !is_by_spans => line_of(self.alloc, progress, timing),
            _ => units_line(self.alloc, gauge, reached, timing),
        };
        match line {
            Ok(line) => Some(line),
            Err(_) => None,
        }
    }
}

impl<'a, R: Wait + Clock> Watch for ProgressLines<'a, R> {
    ghost use Rattle.std.specs.Prelude.{⊤};

    ghost reported = { λ _ _ _. ⊤ };

    fn is_looking(&self) -> bool {
        self.is_asked
    }

    fn is_due(&self) -> bool {
        if !self.is_asked {
            return false;
        }
        match self.pace.silence(self.rt) {
            Some(seconds) => seconds >= DUE,
            None => false,
        }
    }

    fn passed(&mut self, _problem: &Problem<'_>, progress: Progress) {
        if !self.is_asked {
            return;
        }
        let whole = self.whole(progress);
        let timing = Timing {
            rate: self.pace.tick(self.rt, whole.nodes),
            seconds: self.pace.seconds(self.rt),
        };
        self.board.reach(self.rt, whole);
        self.leave(line_of(self.alloc, whole, timing));
    }

    ghost reported_nothing = { λ _ _. tt };

    ghost reported_both = { λ _ _ _ _ _ _. tt };

    ghost reported_alike = { λ _ _ _ _ _. tt };
}

impl<'a, R: Wait + Clock> TableWatch for ProgressLines<'a, R> {
    ghost use Rattle.std.specs.Prelude.{⊤};

    ghost heard = { λ _ _ _. ⊤ };

    fn begun(&mut self, row: Begun<'_>) {
        if !self.is_asked {
            return;
        }
        let seconds = self.pace.seconds(self.rt);
        self.leave(row_line(self.alloc, row, seconds));
    }

    fn found(&mut self, row: &Row) {
        if !self.is_asked {
            return;
        }
        self.leave(found_line(self.alloc, row));
    }

    ghost heard_nothing = { λ _. tt };

    ghost heard_more = { λ _ _ _ _ _ _ _. tt };
}

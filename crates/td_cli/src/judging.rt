//! The outcome of a request on the texts of its files.

ghost use Rattle.std.specs.Prelude.{IfSome};
ghost use Rattle.td_cli.specs.Deadlines.{can_end};
ghost use Rattle.td_cli.specs.Judging.{IsAnswered};

use crate::advice::Advice;
use crate::board::Board;
use crate::deadline::Deadline;
use crate::progress::ProgressLines;
use crate::waiting::Waiting;
use std::alloc::Global;
use std::snapshot::Snapshot;
use std::sync::Wait;
use std::thread;
use std::thread::{Promise, Threads};
use std::time::Clock;
use td_answer::{Outcome, Refusal, TableWatch, Texts, answer};
use td_pool::Unwatched;
use td_request::{Command, Request};
use td_stop::{Stop, Timer};
use td_text::Sink;

/// Whether a request asks for the progress of its search.
pub(crate) fn shows_progress(request: &Request<'_>) -> bool {
    match &request.command {
        Command::Worst(search) => search.shown.progress,
        _ => false,
    }
}

/// The outcome of a request on the texts of its files. Lines on standard error say how far a search
/// has come, where that is asked for. None where something is to end it, and no thread can be
/// started for it, or no clock be read.
pub(crate) fn judged<'n, 'c, 'w, R: Threads + Wait + Clock + Sync, E: Sink, A: Advice + Sync>(
    rt: &R,
    alloc: Global,
    request: &Request<'w>,
    texts: &Texts<'n, 'c, 'w>,
    err: &mut E,
    advice: &A,
) -> Option<Result<Outcome, Refusal<'n, 'w>>>
    ensures { IfSome result (IsAnswered (can_end request.now.command) request.now texts.now) }
{
    let case = Case { request, texts };
    let deadline = Deadline::of(request, advice);
    let is_asked = shows_progress(request);
    let may_end = deadline.can_come();
    if !may_end && !is_asked {
        return Some(case.answered(rt, alloc, &Stop::never(), &mut Unwatched));
    }
    if may_end && !Timer::can_run(rt) {
        return None;
    }
    case.judged(rt, alloc, &deadline, is_asked, err)
}

/// What a thread promises that judges a request.
#[derive(Drop)]
struct Answering<'n, 'c, 'w> {
    request: Snapshot<Request<'w>>,
    texts: Snapshot<Texts<'n, 'c, 'w>>,
    can_stop: bool,
}

impl<'n, 'c, 'w> Promise<Result<Outcome, Refusal<'n, 'w>>> for Answering<'n, 'c, 'w> {
    ghost use Rattle.td_cli.specs.Judging.{IsAnswered};

    ghost kept_by = { λ promise found. IsAnswered promise.can_stop promise.request.value promise.texts.value found };
}

/// A request, and the texts of its files.
#[derive(Clone, Copy, Drop)]
struct Case<'r, 'n, 'c, 'w> {
    request: &'r Request<'w>,
    texts: &'r Texts<'n, 'c, 'w>,
}

impl<'r, 'n, 'c, 'w> Case<'r, 'n, 'c, 'w> {
    ghost use Rattle.std.specs.Prelude.{◌||◌, is_some, IfSome};
    ghost use Rattle.td_cli.specs.Judging.{IsAnswered};

    /// The outcome, of a search that ends once the stop is set.
    fn answered<W: TableWatch, R: Threads + Wait + Sync>(
        self,
        rt: &R,
        alloc: Global,
        stop: &Stop,
        watch: &mut W,
    ) -> Result<Outcome, Refusal<'n, 'w>>
        ensures { IsAnswered stop.now.can_be_set self.entry.request.now self.entry.texts.now result }
    {
        answer(rt, alloc, self.request, self.texts, stop, watch)
    }

    /// The outcome, of a search that leaves its lines on a board.
    fn watched<R: Threads + Wait + Clock + Sync>(
        self,
        rt: &R,
        alloc: Global,
        stop: &Stop,
        is_asked: bool,
        board: &Board,
    ) -> Result<Outcome, Refusal<'n, 'w>>
        ensures { IsAnswered stop.now.can_be_set self.entry.request.now self.entry.texts.now result }
    {
        let mut watch = ProgressLines::new(rt, alloc, is_asked, board);
        self.answered(rt, alloc, stop, &mut watch)
    }

    /// The outcome, by a thread of its own, while this one writes the lines that it leaves, and
    /// ends it by the deadline. Where no thread can be started, this one searches, unless it has a
    /// deadline.
    fn judged<R: Threads + Wait + Clock + Sync, E: Sink, A: Advice + Sync>(
        self,
        rt: &R,
        alloc: Global,
        deadline: &Deadline<'_, '_, A>,
        is_asked: bool,
        err: &mut E,
    ) -> Option<Result<Outcome, Refusal<'n, 'w>>>
        ensures { IfSome result (IsAnswered (is_some deadline.now.seconds || is_some deadline.now.file) self.entry.request.now self.entry.texts.now) }
    {
        let case = self;
        let timer = &Timer::new();
        let board = &Board::new(alloc);
        let stop = &deadline.stop();
        thread::scope(
            thread::scope_env(),
            rt,
            |scope| -> Option<Result<Outcome, Refusal<'_, '_>>>
                ensures { IfSome result (IsAnswered stop.entry.now.can_be_set case.entry.request.now case.entry.texts.now) }
            {
                let promise = Answering {
                    request: Snapshot::of(case.request),
                    texts: Snapshot::of(case.texts),
                    can_stop: stop.can_be_set,
                };
                let mut waiting = Waiting::new(rt, alloc, is_asked, deadline, stop, board, err);
                let job = move || -> Result<Outcome, Refusal<'_, '_>>
                    ensures { IsAnswered stop.entry.now.can_be_set case.entry.request.now case.entry.texts.now result }
                {
                    let found = case.watched(rt, alloc, stop, is_asked, board);
                    timer.end(rt);
                    found
                };
                let Ok(running) = scope.spawn_with(promise, job) else {
                    if deadline.can_come() {
                        return None;
                    }
                    let found = case.watched(rt, alloc, stop, is_asked, board);
                    waiting.write();
                    return Some(found);
                };
                timer.run(rt, deadline.seconds, &mut waiting, stop);
                let found = running.join(rt);
                waiting.write();
                Some(found)
            },
        )
    }
}

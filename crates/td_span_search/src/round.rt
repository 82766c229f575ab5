//! A round of a team: orders, what the workers do at the same time, and its merge in their order.

use crate::log::Steps;
use crate::record::Note;
use crate::search::Found;
use crate::team::Team;
use crate::tree::{Answered, State, Tree};
use crate::worker::{Known, Left, Orders, Report, Spent, Task, Told};
use std::alloc::{AllocError, Global};
use std::thread::Threads;
use std::{mem, thread};
use td_cdcl::{ClauseNumber, read, write_at};

/// What the reports of a round come to.
#[derive(Drop)]
struct Merged {
    told: Vec<Told>,
    // Closed cubes, each by a lemma of the log.
    closed: Vec<(usize, ClauseNumber)>,
    is_later: bool,
    // Where the climb has come, and the rank of the worker that has come there.
    climbed: Option<Found>,
    rank: usize,
}

impl Merged {
    // Where a climb has come further, of equals the one of the higher rank.
    fn go_further(&mut self, climbed: Option<Found>, rank: usize) {
        let Some(other) = climbed else {
            return;
        };
        let is_further = match &self.climbed {
            Some(own) => { other.delay > own.delay || other.delay == own.delay && rank > self.rank }
            None => true,
        };
        if is_further {
            self.climbed = Some(other);
            self.rank = rank;
        }
    }
}

// The task of a cube, where there is one.
fn task_of(alloc: Global, tree: &Tree, place: usize) -> Result<Option<Task>, AllocError> {
    match tree.nodes.get(place) {
        Some(node) => Ok(Some(Task {
            place,
            output: node.output,
            moment: tree.moment,
            cube: Vec::from_slice(alloc, &node.cube)?,
        })),
        None => Ok(None),
    }
}

// The later one, the first where they are as late.
fn later(first: Option<Found>, second: Option<Found>) -> Option<Found> {
    let Some(other) = second else {
        return first;
    };
    let Some(one) = first else {
        return Some(other);
    };
    if other.delay > one.delay {
        Some(other)
    } else {
        Some(one)
    }
}

impl<'a> Team<'a> {
    /// A round. The error is out of memory.
    pub(crate) fn turn<R: Threads + Sync>(&mut self, rt: &R) -> Result<(), AllocError> {
        if self.climb.is_none() {
            self.plan()?;
        }
        self.order_all()?;
        let known = Known {
            log: &self.log,
            told: &self.told,
            reach: &self.reach,
            best: &self.best,
            climb: &self.climb,
        };
        let size = self.size.max(1);
        thread::for_each_mut(
            rt,
            &mut self.workers,
            size,
            &|_place, worker| {
                worker.round(&known);
            },
        );
        self.merge()
    }

    // Gives each worker its cube and a share of the climb; the cubes that wait are dealt out behind
    // these.
    fn order_all(&mut self) -> Result<(), AllocError> {
        let size = self.workers.len().max(1);
        let tries = self.share_of_climb();
        let work = self.limits.work.saturating_sub(self.spent());
        let words = self.limits.words.saturating_sub(self.words());
        for place in 0..self.workers.len() {
            let mut orders = Orders {
                tries,
                tasks: Vec::new(self.alloc),
                forgets: self.is_new,
                work: work.div_ceil(size as u64),
                words: words / (size as u64),
            };
            if let Some(tree) = &self.question {
                if let Some(node) = read(&self.places, place, None) {
                    if let Some(task) = task_of(self.alloc, tree, node)? {
                        orders.tasks.push(task)?;
                    }
                }
            }
            if let Some(worker) = self.workers.get_mut(place) {
                worker.orders = orders;
            }
        }
        self.is_new = false;
        self.deal_out()
    }

    fn deal_out(&mut self) -> Result<(), AllocError> {
        let Some(tree) = &self.question else {
            return Ok(());
        };
        let size = self.workers.len().max(1);
        let mut next = 0usize;
        for place in 0..tree.nodes.len() {
            if !tree.is(place, State::Open) {
                continue;
            }
            let Some(task) = task_of(self.alloc, tree, place)? else {
                continue;
            };
            if let Some(worker) = self.workers.get_mut(next % size) {
                worker.orders.tasks.push(task)?;
            }
            next = next.saturating_add(1);
        }
        Ok(())
    }

    // How many tries of the climb each worker makes: as many as a round has room for.
    fn share_of_climb(&mut self) -> u64 {
        if self.climb.is_none() {
            return 0;
        }
        let size = self.workers.len().max(1) as u64;
        let cost = match self.workers.first() {
            Some(first) => first.search.steps_of_a_run(),
            None => 1,
        };
        let tries = (self.limits.slice() / cost.max(1))
            .min(self.tries / size)
            .max(1);
        self.tries = self.tries.saturating_sub(tries.saturating_mul(size));
        tries
    }

    // Merges the reports of all workers, in their order.
    fn merge(&mut self) -> Result<(), AllocError> {
        self.rounds = self.rounds.saturating_add(1);
        let mut is_whole = true;
        for worker in &self.workers {
            if worker.search.best.delay > self.best.delay {
                self.best = worker.search.best.clone()?;
            }
            is_whole = is_whole && !worker.report.is_out_of_memory;
        }
        if !is_whole {
            return Err(AllocError);
        }
        let mut merged = Merged {
            told: Vec::new(self.alloc),
            closed: Vec::new(self.alloc),
            is_later: false,
            climbed: None,
            rank: 0,
        };
        for place in 0..self.workers.len() {
            self.merge_report(place, &mut merged)?;
        }
        self.go_on(merged)
    }

    fn merge_report(&mut self, place: usize, merged: &mut Merged) -> Result<(), AllocError> {
        let size = self.workers.len().max(1);
        let Some(worker) = self.workers.get_mut(place) else {
            return Ok(());
        };
        let Report {
            closed,
            spent,
            left,
            is_later,
            candidate,
            climbed,
            told,
            ..
        } = mem::replace(&mut worker.report, Report::none(self.alloc));
        let steps = Steps::of(self.alloc, &mut worker.search);
        let explanations = self
            .log
            .take_in(&mut worker.names, &worker.search.meanings, steps)?;
        for lemma in &explanations {
            merged.told.push(Told {
                lemma: *lemma,
                by: Some(place),
            })?;
        }
        for own in &closed {
            let lemma = worker.names.clause(own.lemma);
            merged.closed.push((own.place, lemma))?;
            merged.told.push(Told {
                lemma,
                by: Some(place),
            })?;
        }
        for own in &told {
            merged.told.push(Told {
                lemma: worker.names.clause(*own),
                by: Some(place),
            })?;
        }
        self.charge(&spent, left);
        merged.is_later = merged.is_later || is_later;
        let before = mem::replace(&mut self.candidate, None);
        self.candidate = later(before, candidate);
        // Among equals another worker's each round.
        let rank = place.saturating_add(self.rounds) % size;
        merged.go_further(climbed, rank);
        Ok(())
    }

    // Notes what was spent on cubes, and where one that was left open may be split.
    fn charge(&mut self, spent: &[Spent], left: Option<Left>) {
        let Some(tree) = &mut self.question else {
            return;
        };
        for own in spent {
            tree.charge(own.place, own.work);
        }
        if let Some(Left { place, bits }) = left {
            tree.set_bits(place, bits);
        }
    }

    // Closes cubes, and goes on with the climb, or with one from a pair that answers the question.
    fn go_on(&mut self, merged: Merged) -> Result<(), AllocError> {
        let Merged {
            told,
            closed,
            is_later,
            climbed,
            ..
        } = merged;
        self.told = told;
        for (place, lemma) in &closed {
            self.close(*place, *lemma)?;
        }
        for worker in 0..self.places.len() {
            if !self.is_running(worker) {
                write_at(&mut self.places, worker, None);
            }
        }
        self.climb = climbed;
        if self.tries == 0 {
            self.climb = None;
        }
        if is_later {
            self.climb = Some(self.best.clone()?);
            self.tries = self.limits.near as u64;
        }
        Ok(())
    }

    // Whether a worker asks about a cube that is neither closed nor void.
    fn is_running(&self, worker: usize) -> bool {
        let Some(place) = read(&self.places, worker, None) else {
            return false;
        };
        match &self.question {
            Some(tree) => tree.is(place, State::Running),
            None => false,
        }
    }

    // Closes a cube by a lemma of the log. Where the question of an output is answered so, its ends
    // are lowered.
    fn close(&mut self, place: usize, lemma: ClauseNumber) -> Result<(), AllocError> {
        let Some(tree) = &mut self.question else {
            return Ok(());
        };
        let end = tree.moment.saturating_add(1);
        let mut joined = Vec::new(self.alloc);
        let answered = tree.close(place, lemma, &mut self.log, &mut joined)?;
        for lemma in &joined {
            self.told.push(Told {
                lemma: *lemma,
                by: None,
            })?;
        }
        match answered {
            Some(answered) => self.lower(answered, end),
            None => Ok(()),
        }
    }

    fn lower(&mut self, answered: Answered, place: u64) -> Result<(), AllocError> {
        let Answered { output, lemma } = answered;
        for level in [false, true] {
            if self.reach.lower(output, level, place) {
                self.log.record.add(Note::Lowered {
                    before: self.log.proof.next(),
                    net: output,
                    level,
                    place,
                    lemma,
                })?;
            }
        }
        Ok(())
    }
}

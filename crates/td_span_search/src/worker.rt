//! A worker of a search by several: it is given cubes and a number of steps, and reports what it
//! did.

use crate::asking::{Asked, Reply};
use crate::log::{Log, Names};
use crate::network::Net;
use crate::reach::Reach;
use crate::search::{CubeBit, Found, Search};
use std::alloc::{AllocError, Global};
use std::mem;
use td_cdcl::{ClauseNumber, read, variable_of};

// A cube is split at one of so many bits at most.
const MOST_BITS: usize = 40;

/// A cube of a question, by its place in the question's tree.
#[derive(Drop)]
pub struct Task {
    pub place: usize,
    pub output: Net,
    pub moment: u64,
    pub cube: Vec<CubeBit>,
}

/// What a worker is to do in a round: a share of a climb, if there is one, and then its cubes.
#[derive(Drop)]
pub struct Orders {
    pub tries: u64,
    pub tasks: Vec<Task>,
    /// Whether it forgets what no open question needs.
    pub forgets: bool,
    /// How much work and memory it may take.
    pub work: u64,
    pub words: u64,
}

/// A cube that is closed, by a lemma of the worker.
#[derive(Clone, Copy, Drop)]
pub struct Closed {
    pub place: usize,
    pub lemma: ClauseNumber,
}

/// Work that was spent on a cube.
#[derive(Clone, Copy, Drop)]
pub struct Spent {
    pub place: usize,
    pub work: u64,
}

/// The cube that was left open, and the bits at which it may be split.
#[derive(Drop)]
pub struct Left {
    pub place: usize,
    pub bits: Vec<CubeBit>,
}

/// What a worker did in a round.
#[derive(Drop)]
pub struct Report {
    pub closed: Vec<Closed>,
    pub spent: Vec<Spent>,
    pub left: Option<Left>,
    /// Whether it found a pair that answers a question.
    pub is_later: bool,
    /// The best of the models' pairs.
    pub candidate: Option<Found>,
    /// Where its share of the climb came to.
    pub climbed: Option<Found>,
    /// Lemmas for the others.
    pub told: Vec<ClauseNumber>,
    pub is_out_of_memory: bool,
}

/// A clause of the log that the workers are told: a lemma or an explanation of one of them, or a
/// lemma that none of them made alone.
#[derive(Clone, Copy, Drop)]
pub struct Told {
    pub lemma: ClauseNumber,
    pub by: Option<usize>,
}

/// What all workers know when a round begins.
#[derive(Clone, Copy, Drop)]
pub struct Known<'k> {
    pub log: &'k Log,
    pub told: &'k [Told],
    pub reach: &'k Reach,
    pub best: &'k Found,
    /// Where the climb of all stands.
    pub climb: &'k Option<Found>,
}

/// A worker, with its numbers in the log.
#[derive(Drop)]
pub struct Worker<'a> {
    pub number: usize,
    pub search: Search<'a>,
    pub names: Names,
    pub orders: Orders,
    pub report: Report,
}

impl Orders {
    /// Nothing to do.
    pub fn none(alloc: Global) -> Orders {
        Orders {
            tries: 0,
            tasks: Vec::new(alloc),
            forgets: false,
            work: 0,
            words: 0,
        }
    }
}

impl Report {
    /// Nothing done.
    pub fn none(alloc: Global) -> Report {
        Report {
            closed: Vec::new(alloc),
            spent: Vec::new(alloc),
            left: None,
            is_later: false,
            candidate: None,
            climbed: None,
            told: Vec::new(alloc),
            is_out_of_memory: false,
        }
    }
}

impl<'a> Worker<'a> {
    /// A worker that has done nothing yet.
    pub fn new(alloc: Global, number: usize, search: Search<'a>, names: Names) -> Worker<'a> {
        Worker {
            number,
            search,
            names,
            orders: Orders::none(alloc),
            report: Report::none(alloc),
        }
    }

    /// Does what it is ordered to. Its report says what it did.
    pub fn round(&mut self, known: &Known<'_>) {
        let alloc = self.search.alloc;
        self.report = Report::none(alloc);
        let orders = mem::replace(&mut self.orders, Orders::none(alloc));
        if self.work(known, &orders).is_err() {
            self.report.is_out_of_memory = true;
        }
    }

    fn work(&mut self, known: &Known<'_>, orders: &Orders) -> Result<(), AllocError> {
        self.begin(known, orders)?;
        if orders.tries > 0 {
            if let Some(from) = known.climb {
                let here = self.search.climb(orders.tries, from.clone()?, 3)?;
                self.report.climbed = Some(here);
            }
        }
        for task in &orders.tasks {
            if self.search.is_over() || !self.handle(task)? {
                break;
            }
        }
        self.report.candidate = mem::replace(&mut self.search.candidate, None);
        self.report.told = self.search.solver.take_told();
        Ok(())
    }

    // Takes in what the others know, and begins to count.
    fn begin(&mut self, known: &Known<'_>, orders: &Orders) -> Result<(), AllocError> {
        let search = &mut self.search;
        search.pause = u64::MAX;
        search.limits.work = search.spent().saturating_add(orders.work);
        search.limits.words = search.words().saturating_add(orders.words);
        if known.best.delay > search.best.delay {
            search.best = known.best.clone()?;
        }
        for output in search.network.outputs() {
            for level in [false, true] {
                let end = known.reach.times(*output).end(level);
                search.reach.lower(*output, level, end);
            }
        }
        if orders.forgets {
            let top = search.top().saturating_sub(1);
            search.forget(search.best_known(), top)?;
        }
        for told in known.told {
            if told.by != Some(self.number) {
                self.search.hear(known.log, told.lemma)?;
            }
        }
        // What was heard may lie in no cone that was looked at.
        self.search.cone_of = None;
        self.search.pause = self
            .search
            .steps()
            .saturating_add(self.search.limits.slice());
        Ok(())
    }

    // Asks about a cube. Answers whether the worker goes on to the next one.
    fn handle(&mut self, task: &Task) -> Result<bool, AllocError> {
        let search = &mut self.search;
        if search.best_known() > task.moment || search.reach.height(task.output) <= task.moment {
            return Ok(true);
        }
        let place = task.place;
        let start = search.spent();
        search.cube = Vec::from_slice(search.alloc, &task.cube)?;
        let asked = Asked {
            net: task.output,
            last: None,
            place: task.moment.saturating_add(1),
        };
        let left = search.limits.work.saturating_sub(start).max(1);
        let reply = search.ask(asked, Some(left))?;
        search.cube.clear();
        let work = search.spent().saturating_sub(start);
        self.report.spent.push(Spent { place, work })?;
        match reply {
            Reply::No(lemma) => {
                self.report.closed.push(Closed { place, lemma })?;
                Ok(true)
            }
            Reply::Yes => {
                self.report.is_later = true;
                Ok(false)
            }
            Reply::Open => {
                let bits = self.search.active_bits(task.output)?;
                self.report.left = Some(Left { place, bits });
                Ok(false)
            }
        }
    }
}

impl<'a> Search<'a> {
    /// The input bits below an output that were met in conflicts and aren't known, at 0, those met
    /// most first. The error is out of memory.
    pub(crate) fn active_bits(&self, output: Net) -> Result<Vec<CubeBit>, AllocError> {
        let cone = self.cone(output)?;
        let mut bits = Vec::new(self.alloc);
        for input in 0..self.network.inputs() {
            let net = self.network.net_of_input(input);
            if !read(&cone, net as usize, false) {
                continue;
            }
            for is_last in [true, false] {
                let Some(literal) = self.settled_literal(net, is_last) else {
                    continue;
                };
                let variable = variable_of(literal);
                let activity = self.solver.activity(variable);
                if activity > 0 && !self.solver.is_fixed(variable) {
                    let rank = u64::MAX.saturating_sub(activity);
                    bits.push((rank, net, !is_last))?;
                }
            }
        }
        bits.sort_unstable();
        let mut best = Vec::new(self.alloc);
        for (_, net, is_first) in bits.iter().take(MOST_BITS) {
            best.push(CubeBit {
                net: *net,
                is_last: !*is_first,
                level: false,
            })?;
        }
        Ok(best)
    }
}

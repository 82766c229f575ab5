//! A search by several workers, in rounds: each worker is given cubes, and what they report is
//! merged in their order. No clock decides anything, and they share nothing but the stop: so what a
//! team finds is a function of the question, the limits and the number of workers.

use crate::limits::Limits;
use crate::log::{Log, Names};
use crate::network::Network;
use crate::pairs::PairBits;
use crate::reach::Reach;
use crate::refutation::Refutation;
use crate::schedule::Schedule;
use crate::search::{Ending, Found, Search};
use crate::source::Source;
use crate::tree::Tree;
use crate::worker::{Told, Worker};
use std::alloc::{AllocError, Global};
use std::thread::Threads;

/// A search by several workers. The first one searches alone as long as its limits say; then the
/// others begin as copies of it.
#[derive(Drop)]
pub struct Team<'a> {
    pub(crate) alloc: Global,
    pub(crate) network: &'a Network,
    pub(crate) limits: Limits,
    // How many workers there are to be.
    pub(crate) size: usize,
    pub(crate) workers: Vec<Worker<'a>>,
    // What all have done, once there are several.
    pub(crate) log: Log,
    pub(crate) reach: Reach,
    pub(crate) best: Found,
    pub(crate) schedule: Schedule,
    pub(crate) question: Option<Tree>,
    // Whether no worker was given a cube of the question yet.
    pub(crate) is_new: bool,
    // Questions that stay open.
    pub(crate) parked: Vec<Tree>,
    // By worker the cube of the question that it asks about.
    pub(crate) places: Vec<Option<usize>>,
    // The best of the models of the question.
    pub(crate) candidate: Option<Found>,
    // Where the climb of all stands, and how many tries are left.
    pub(crate) climb: Option<Found>,
    pub(crate) tries: u64,
    pub(crate) told: Vec<Told>,
    // The work of the first worker alone, and the rounds since.
    pub(crate) alone: u64,
    pub(crate) rounds: usize,
}

// Copies of the first worker, each with random numbers of its own.
fn copies<'a>(
    alloc: Global,
    first: &Worker<'a>,
    size: usize,
) -> Result<Vec<Worker<'a>>, AllocError> {
    let mut others = Vec::new(alloc);
    for number in 1..size {
        let mut search = first.search.clone()?;
        let more = (number as u64).wrapping_mul(0x9E3779B97F4A7C15);
        search.draws = search.draws.wrapping_add(more) | 1;
        others.push(Worker::new(alloc, number, search, first.names.clone()?))?;
    }
    Ok(others)
}

impl<'a> Team<'a> {
    /// A team of this size, whose first worker goes on with a search that has asked nothing yet.
    /// The error is out of memory.
    pub fn new(search: Search<'a>, size: usize) -> Result<Team<'a>, AllocError> {
        let alloc = search.alloc;
        let network = search.network;
        let limits = search.limits;
        let best = search.best.clone()?;
        let reach = search.reach.clone()?;
        let log = Log::new(alloc, network.nets())?;
        let names = Names::of(alloc, &log)?;
        let mut workers = Vec::new(alloc);
        workers.push(Worker::new(alloc, 0, search, names))?;
        Ok(Team {
            alloc,
            network,
            limits,
            size,
            workers,
            log,
            reach,
            best,
            schedule: Schedule::new(alloc, limits),
            question: None,
            is_new: false,
            parked: Vec::new(alloc),
            places: Vec::new(alloc),
            candidate: None,
            climb: None,
            tries: 0,
            told: Vec::new(alloc),
            alone: 0,
            rounds: 0,
        })
    }

    /// Searches until `ending` says why it ends. What was found stands in the team, also after an
    /// error, which is out of memory. A thread that can't be started changes nothing but the time.
    pub fn run<R: Threads + Sync>(&mut self, rt: &R) -> Result<(), AllocError> {
        self.search_alone()?;
        if self.size < 2 || self.ending().is_some() {
            return Ok(());
        }
        self.fork()?;
        for _ in 0..u64::MAX {
            if self.ending().is_some() {
                return Ok(());
            }
            self.turn(rt)?;
        }
        Ok(())
    }

    fn search_alone(&mut self) -> Result<(), AllocError> {
        let Some(first) = self.workers.first_mut() else {
            return Ok(());
        };
        if self.size > 1 {
            first.search.pause = self.limits.alone;
        }
        let ended = first.search.run_by(&mut self.schedule);
        self.best = first.search.best.clone()?;
        self.reach = first.search.reach.clone()?;
        self.alone = first.search.spent();
        ended
    }

    // The first worker hands its log over, and the others begin as copies of it.
    fn fork(&mut self) -> Result<(), AllocError> {
        let Some(first) = self.workers.first_mut() else {
            return Ok(());
        };
        self.log = Log::of(self.alloc, &mut first.search)?;
        first.names = Names::of(self.alloc, &self.log)?;
        let _none = first.search.solver.take_told();
        for other in copies(self.alloc, first, self.size)? {
            self.workers.push(other)?;
        }
        self.places.resize(self.workers.len(), None)
    }

    /// The delay of the best pair that was found.
    pub fn low(&self) -> u64 {
        self.best.delay
    }

    /// The best pair that was found, if one was.
    pub fn pair(&self) -> Option<&PairBits> {
        match self.workers.first() {
            Some(first) if first.search.is_ready => Some(&self.best.pair),
            _ => None,
        }
    }

    /// The best delay that is known, by a pair that was found or before.
    pub(crate) fn best_known(&self) -> u64 {
        self.best.delay.max(self.limits.known)
    }

    /// The latest moment at which an output may change, by what is known now.
    pub fn top(&self) -> u64 {
        self.reach.top(self.network)
    }

    /// The work that was done, in units.
    pub fn spent(&self) -> u64 {
        let mut spent = self.alone;
        for worker in &self.workers {
            let own = worker.search.spent().saturating_sub(self.alone);
            spent = spent.saturating_add(own);
        }
        spent
    }

    /// How much memory it takes, in words of 4 bytes, about.
    pub fn words(&self) -> u64 {
        let mut words = self.log.words();
        for worker in &self.workers {
            words = words.saturating_add(worker.search.words());
        }
        words
    }

    /// Why the search ends, if it is to end.
    pub fn ending(&self) -> Option<Ending> {
        let first = self.workers.first()?;
        if first.search.has_no_pair() {
            return Some(Ending::NoPair);
        }
        if first.search.is_ready && self.best_known() >= self.top() {
            return Some(Ending::Closed);
        }
        if self.best.delay > self.limits.enough {
            return Some(Ending::Enough);
        }
        if self.spent() >= self.limits.work {
            return Some(Ending::Work);
        }
        if self.words() >= self.limits.words {
            return Some(Ending::Memory);
        }
        for worker in &self.workers {
            match worker.search.ending() {
                None | Some(Ending::Work) | Some(Ending::Closed) => {}
                ending => return ending,
            }
        }
        None
    }

    /// Steps that show that no output changes after the bound, which is `top` at least, or that no
    /// pair is asked about, where that is known. All else is let go before they are spelled. The
    /// error is out of memory.
    pub fn into_refutation(self, bound: u64) -> Result<Refutation, AllocError> {
        let Team {
            alloc,
            network,
            mut workers,
            mut log,
            reach,
            ..
        } = self;
        let mut contradiction = None;
        if workers.len() < 2 {
            if let Some(first) = workers.first_mut() {
                contradiction = first.search.solver.contradiction();
                log = Log::of(alloc, &mut first.search)?;
            }
        }
        workers.clear();
        Source {
            alloc,
            network,
            first: reach.before_questions(),
            proof: &log.proof,
            contradiction,
            meanings: &log.meanings,
            record: &log.record,
            settled: &log.settled,
        }
        .refutation(bound)
    }
}

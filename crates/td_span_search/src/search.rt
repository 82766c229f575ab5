//! A search under way.

use crate::conditions::Rests;
use crate::limits::Limits;
use crate::network::{Net, Network};
use crate::pairs::{Admitted, PairBits};
use crate::reach::{Reach, Times};
use crate::record::{Axiom, Note, Record};
use crate::refutation::Refutation;
use crate::source::Source;
use crate::span::Span;
use crate::spans::Spans;
use crate::waves::Waves;
use std::alloc::{AllocError, Global};
use td_cdcl::{ClauseNumber, Literal, Solver, literal_at, read, small, write_at};
use td_stop::Stop;

// So many steps a look at a watch takes.
const STEPS_OF_A_LOOK: u64 = 6;

/// What a variable says: that a net's first or last level is 1; that a span is true; that at least
/// so many of the first so many inputs differ; or nothing any more, since its span is forgotten.
#[derive(Clone, Copy, Debug, PartialEq, Eq, Drop)]
pub enum Meaning {
    First(Net),
    Last(Net),
    Span(Span),
    Differ { inputs: u32, at_least: u32 },
    Forgotten(Span),
}

/// The literals that say that the nets are at 1 at the start, or in the end; none where no question
/// has asked for it. A contracted net has its source's.
#[derive(Clone, Drop)]
pub struct Settled {
    pub first: Vec<Option<Literal>>,
    pub last: Vec<Option<Literal>>,
}

impl Settled {
    /// None of so many nets. The error is out of memory.
    pub fn new(alloc: Global, nets: usize) -> Result<Settled, AllocError> {
        Ok(Settled {
            first: vec![in alloc; None; nets]?,
            last: vec![in alloc; None; nets]?,
        })
    }

    /// The literal that says that a net is at 1 at the start, or in the end, if there is one.
    pub fn literal(&self, net: Net, is_last: bool) -> Option<Literal> {
        let literals = if is_last { &self.last } else { &self.first };
        read(literals, net as usize, None)
    }

    /// Sets that literal.
    pub fn set(&mut self, net: Net, is_last: bool, literal: Literal) {
        let literals = if is_last {
            &mut self.last
        } else {
            &mut self.first
        };
        write_at(literals, net as usize, Some(literal));
    }
}

/// A bit of an input that holds in a question.
#[derive(Clone, Copy, Debug, PartialEq, Eq, Drop)]
pub struct CubeBit {
    pub net: Net,
    pub is_last: bool,
    pub level: bool,
}

/// A span that would answer a question, and the moment that the question asks about.
#[derive(Clone, Copy, PartialEq, Eq, Drop)]
pub struct Goal {
    pub moment: u64,
    pub variable: u32,
}

/// A pair and its delay.
#[derive(Clone, Drop)]
pub struct Found {
    pub delay: u64,
    pub pair: PairBits,
}

/// Where the next sweep goes on, and the work of one of its questions.
#[derive(Clone, Copy, Drop)]
pub struct Sweep {
    pub place: usize,
    pub limit: u64,
}

/// What was done, beside conflicts and propagations.
#[derive(Clone, Copy, Debug, PartialEq, Eq, Drop)]
pub struct Counts {
    pub questions: u64,
    pub models: u64,
    pub explanations: u64,
    pub simulations: u64,
    /// Steps of simulations: 5 for each net, and 12 for each change.
    pub simulated: u64,
}

/// Why a search ends: the best delay that is known is the latest moment that is possible; no pair
/// is asked about; a pair is late enough; its work is done; its stop is set; it takes as much memory
/// as it may; or a run has too many changes, or a gate too many inputs, to be followed.
#[derive(Clone, Copy, Debug, PartialEq, Eq, Drop)]
pub enum Ending {
    Closed,
    NoPair,
    Enough,
    Work,
    Stop,
    Memory,
    Lost,
}

/// A search under way.
#[derive(Clone, Drop)]
pub struct Search<'a> {
    pub(crate) alloc: Global,
    pub(crate) network: &'a Network,
    pub(crate) admitted: &'a Admitted,
    pub(crate) stop: &'a Stop,
    pub(crate) limits: Limits,
    pub(crate) solver: Solver,
    // By variable.
    pub(crate) meanings: Vec<Meaning>,
    // By variable: the bodies by which it was explained, literals that give it together.
    pub(crate) reasons: Vec<Vec<Vec<Literal>>>,
    pub(crate) settled: Settled,
    pub(crate) spans: Spans,
    pub(crate) reach: Reach,
    pub(crate) waves: Waves,
    pub(crate) record: Record,
    pub(crate) rests: Rests,
    // The inputs on which an output or a condition depends: the others don't matter.
    pub(crate) moving: Vec<u32>,
    // Whether the best pair is one of those asked about: else none is known.
    pub(crate) is_ready: bool,
    pub(crate) best: Found,
    // The best of the models of a question that isn't answered yet.
    pub(crate) candidate: Option<Found>,
    pub(crate) sweep: Sweep,
    // By the number of inputs, the literals that at least 1, 2, .. of them differ; none where no
    // question has asked for it.
    pub(crate) counter: Vec<Vec<Literal>>,
    // The bits of the question that is asked.
    pub(crate) cube: Vec<CubeBit>,
    // The net whose cone is decided, with the variables that aren't and the inputs that are.
    pub(crate) cone_of: Option<Net>,
    pub(crate) skipped: Vec<bool>,
    pub(crate) inputs: Vec<u32>,
    pub(crate) goals: Vec<Goal>,
    // By net: spans to be explained, none between questions.
    pub(crate) needs: Vec<Vec<u32>>,
    pub(crate) draws: u64,
    pub(crate) counts: Counts,
    // After how many steps it pauses.
    pub(crate) pause: u64,
    // How much of its work it has told who waits for it.
    pub(crate) told: u64,
    // Whether a run had too many changes to be followed.
    pub(crate) is_lost: bool,
}

// The inputs on which an output or a condition depends.
fn moving(alloc: Global, network: &Network, admitted: &Admitted) -> Result<Vec<u32>, AllocError> {
    let mut nets = Vec::from_slice(alloc, network.outputs())?;
    for condition in &admitted.conditions {
        nets.push(condition.net)?;
    }
    let below = network.nets_below(alloc, &nets)?;
    let mut moving = Vec::new(alloc);
    for input in 0..network.inputs() {
        if read(&below, network.net_of_input(input) as usize, false) {
            moving.push(small(input))?;
        }
    }
    Ok(moving)
}

impl<'a> Search<'a> {
    /// A search that has asked nothing yet: `times` says when each net may change. The error is out
    /// of memory.
    pub fn new(
        alloc: Global,
        network: &'a Network,
        admitted: &'a Admitted,
        times: &[Times],
        limits: Limits,
        stop: &'a Stop,
    ) -> Result<Search<'a>, AllocError> {
        let nets = network.nets();
        let mut needs = Vec::with_capacity(alloc, nets)?;
        for _ in 0..nets {
            needs.push(Vec::new(alloc))?;
        }
        Ok(Search {
            alloc,
            network,
            admitted,
            stop,
            limits,
            solver: Solver::new(alloc),
            meanings: Vec::new(alloc),
            reasons: Vec::new(alloc),
            settled: Settled::new(alloc, nets)?,
            spans: Spans::new(alloc, nets)?,
            reach: Reach::new(alloc, network, times)?,
            waves: Waves::new(alloc),
            record: Record::new(alloc),
            rests: Rests::new(alloc),
            moving: moving(alloc, network, admitted)?,
            is_ready: admitted.conditions.is_empty() && admitted.is_some(),
            best: Found {
                delay: 0,
                pair: admitted.some_pair(alloc)?,
            },
            candidate: None,
            sweep: Sweep {
                place: 0,
                limit: limits.sweep,
            },
            counter: Vec::new(alloc),
            cube: Vec::new(alloc),
            cone_of: None,
            skipped: Vec::new(alloc),
            inputs: Vec::new(alloc),
            goals: Vec::new(alloc),
            needs,
            draws: 0x9E3779B97F4A7C15,
            counts: Counts {
                questions: 0,
                models: 0,
                explanations: 0,
                simulations: 0,
                simulated: 0,
            },
            pause: u64::MAX,
            told: 0,
            is_lost: false,
        })
    }

    /// The delay of the best pair that was found.
    pub fn low(&self) -> u64 {
        self.best.delay
    }

    /// The best delay that is known, by a pair that was found or before.
    pub(crate) fn best_known(&self) -> u64 {
        self.best.delay.max(self.limits.known)
    }

    /// The best pair that was found, if one was.
    pub fn pair(&self) -> Option<&PairBits> {
        if self.is_ready {
            Some(&self.best.pair)
        } else {
            None
        }
    }

    /// The latest moment at which an output may change, by what is known now.
    pub fn top(&self) -> u64 {
        self.reach.top(self.network)
    }

    /// How many conflicts the questions have met.
    pub fn conflicts(&self) -> u64 {
        self.solver.conflicts()
    }

    /// How many variables there are.
    pub fn variables(&self) -> u64 {
        self.meanings.len() as u64
    }

    /// What was done, beside conflicts and propagations.
    pub fn counts(&self) -> Counts {
        self.counts
    }

    /// The work that was done, in units: conflicts, thousands of propagations, explanations.
    pub fn spent(&self) -> u64 {
        self.solver.work().saturating_add(self.counts.explanations)
    }

    /// The steps that were taken: 6 for a look at a watch, 5,000 for an explanation, and those of
    /// simulations. They take about as long each.
    pub fn steps(&self) -> u64 {
        let looks = self.solver.looks().saturating_mul(STEPS_OF_A_LOOK);
        let explained = self.counts.explanations.saturating_mul(5000);
        looks
            .saturating_add(explained)
            .saturating_add(self.counts.simulated)
    }

    /// The steps of a simulation, on average.
    pub(crate) fn steps_of_a_run(&self) -> u64 {
        self.counts.simulated / self.counts.simulations.max(1)
    }

    /// How much memory it takes, in words of 4 bytes, about.
    pub fn words(&self) -> u64 {
        self.solver.words().saturating_add(self.record.words())
    }

    // Tells who waits for it how much work was done since it was told last.
    pub(crate) fn tell_work(&mut self) {
        let spent = self.spent();
        self.stop.gauge.add(spent.saturating_sub(self.told));
        self.told = spent;
    }

    /// Whether the search is to end or to pause.
    pub(crate) fn is_over(&self) -> bool {
        self.is_paused() || self.ends().is_some()
    }

    /// Whether the search has taken the steps after which it pauses.
    pub(crate) fn is_paused(&self) -> bool {
        self.steps() >= self.pause
    }

    // Why the search is to end, but for what is shown.
    pub(crate) fn ends(&self) -> Option<Ending> {
        if self.is_lost {
            Some(Ending::Lost)
        } else if self.best.delay > self.limits.enough {
            Some(Ending::Enough)
        } else if self.stop.is_set() {
            Some(Ending::Stop)
        } else if self.spent() >= self.limits.work {
            Some(Ending::Work)
        } else if self.words() >= self.limits.words {
            Some(Ending::Memory)
        } else {
            None
        }
    }

    /// Why the search ends, if it is to end.
    pub fn ending(&self) -> Option<Ending> {
        if self.has_no_pair() {
            return Some(Ending::NoPair);
        }
        if self.is_ready && self.best_known() >= self.top() {
            return Some(Ending::Closed);
        }
        self.ends()
    }

    /// Lets the solver's questions stay open once the search pauses.
    pub(crate) fn pace_solver(&mut self) {
        let left = self.pause.saturating_sub(self.steps()) / STEPS_OF_A_LOOK;
        let looks = self.solver.looks().saturating_add(left);
        self.solver.pause_at(looks);
    }

    /// What a variable says.
    pub(crate) fn meaning(&self, variable: u32) -> Option<Meaning> {
        self.meanings.get(variable as usize).copied()
    }

    /// Whether a net is contracted: the output of a gate with one input that is no constant, and no
    /// output of the circuit. It has no variables.
    pub(crate) fn is_thin(&self, net: Net) -> bool {
        self.network.is_thin(net)
    }

    /// Adds a variable. The error is out of memory, or that there are too many.
    pub(crate) fn add_variable(&mut self, meaning: Meaning) -> Result<u32, AllocError> {
        let variable = self.solver.add_variable(false)?;
        self.meanings.push(meaning)?;
        self.reasons.push(Vec::new(self.alloc))?;
        Ok(variable)
    }

    /// Adds a clause, with the reason why it holds. The error is out of memory.
    pub(crate) fn add(&mut self, clause: &[Literal], axiom: Axiom) -> Result<(), AllocError> {
        let number = self.next_number();
        self.record.add(Note::Given(number, axiom))?;
        self.solver.add(clause)?;
        Ok(())
    }

    /// The number of the next clause of the proof.
    pub(crate) fn next_number(&self) -> ClauseNumber {
        self.solver.proof().next()
    }

    /// The literal that says that a net is at 1 at the start, or in the end, if there is one.
    pub(crate) fn settled_literal(&self, net: Net, is_last: bool) -> Option<Literal> {
        self.settled.literal(net, is_last)
    }

    /// Sets the literal that says that a net is at 1 at the start, or in the end.
    pub(crate) fn set_settled(&mut self, net: Net, is_last: bool, literal: Literal) {
        self.settled.set(net, is_last, literal);
    }

    /// Steps that show that no output changes after the bound, which is `top` at least, or that no
    /// pair is asked about, where that is known. The error is out of memory.
    pub fn refutation(&self, bound: u64) -> Result<Refutation, AllocError> {
        self.source().refutation(bound)
    }

    fn source(&self) -> Source<'_> {
        Source {
            alloc: self.alloc,
            network: self.network,
            first: self.reach.before_questions(),
            proof: self.solver.proof(),
            contradiction: self.solver.contradiction(),
            meanings: &self.meanings,
            record: &self.record,
            settled: &self.settled,
        }
    }

    /// Lowers an end of a net by a lemma. The error is out of memory.
    pub(crate) fn cut(
        &mut self,
        net: Net,
        level: bool,
        place: u64,
        lemma: ClauseNumber,
    ) -> Result<(), AllocError> {
        if !self.reach.lower(net, level, place) {
            return Ok(());
        }
        let before = self.next_number();
        self.record.add(Note::Lowered {
            before,
            net,
            level,
            place,
            lemma,
        })
    }

    /// Lowers the ends of a gate's output by those of its inputs. The error is out of memory.
    pub(crate) fn redo(&mut self, net: Net) -> Result<(), AllocError> {
        for level in [false, true] {
            let place = self.reach.end_by_inputs(self.network, net, level);
            if self.reach.lower(net, level, place) {
                let before = self.next_number();
                self.record.add(Note::Again {
                    before,
                    net,
                    level,
                    place,
                })?;
            }
        }
        Ok(())
    }

    /// A number below the bound, 0 where that is 0, that looks random.
    pub(crate) fn draw(&mut self, bound: usize) -> usize {
        self.draws ^= self.draws << 13;
        self.draws ^= self.draws >> 7;
        self.draws ^= self.draws << 17;
        let number = self.draws.wrapping_mul(0x2545F4914F6CDD1D) >> 33;
        (number % (bound.max(1) as u64)) as usize
    }

    /// The literal of a variable that says that it is true.
    pub(crate) fn positive(variable: u32) -> Literal {
        literal_at(variable, true)
    }
}

//! The search, of which nothing is promised.

ghost use Rattle.std.specs.Prelude.{◌≡◌, length};

use crate::effort::Effort;
use crate::spelling::steps_of;
use std::alloc::{AllocError, Global};
use std::thread::Threads;
use td_circuit::Circuit;
use td_domain::Admit;
use td_gates::Level;
use td_refutation::{NamedCondition, Step, question_on};
use td_span_search::{
    Admitted, Condition, Ending, FOREVER, Limits, Network, PairBits, Search, Team, Times,
};
use td_spans::{Form, first_times};

/// What a search found: the latest pair, if it knows one, and lines that are to show the least
/// bound, or that no pair is asked about, unless memory ran out; why it ended, and what it took.
#[derive(Drop)]
pub struct Findings {
    pub pair: Option<PairBits>,
    pub steps: Result<Vec<Step>, AllocError>,
    pub ending: Ending,
    /// The units of work that it took.
    pub work: u64,
}

/// The most gates that lead to the outputs of a circuit that is searched.
const MOST_GATES: usize = 60_000;

// How many gates the first climb simulates where a pair is enough under which an output changes at
// all.
const FEW_GATES: u64 = 20_000;

// How many where pairs keep conditions: most moves break one, and models are near late pairs.
const KEPT_GATES: u64 = 100_000;

// The work of the first question where a pair is enough that is later than a required moment above
// 0: that question stays the same, so it is split soon, and a sweep helps little.
const REQUIRED_EFFORT: u64 = 64_000;

// The work after which such a question is split.
const REQUIRED_SPLIT: u64 = 3_000;

// How much the search does.
fn limits_of(known: u64, keeps: bool, effort: Effort<'_>) -> Limits {
    let mut limits = Limits {
        known,
        words: effort.words,
        alone: effort.alone,
        ..Limits::of_work(effort.work)
    };
    if keeps {
        limits.climb = KEPT_GATES;
    }
    if let Some(required) = effort.required {
        limits.known = known.max(required);
        limits.enough = required;
        if required == 0 {
            limits.climb = FEW_GATES;
        } else {
            limits.effort = REQUIRED_EFFORT;
            limits.split = REQUIRED_SPLIT;
            limits.sweeps_from = u64::MAX;
        }
    }
    limits
}

/// Searches for admitted pairs that keep conditions and are later than a known one, by its delay.
/// It begins with a pair of its own, whose levels its solver tries first: near a late pair later
/// ones are rare. Where too many gates lead to the outputs, it finds nothing, and is lost. The
/// error is out of memory before anything was found.
pub fn search<R: Threads + Sync>(
    rt: &R,
    alloc: Global,
    circuit: &Circuit,
    admit: &Admit,
    keep: &[NamedCondition],
    known: u64,
    effort: Effort<'_>,
) -> Result<Findings, AllocError>
    requires { length admit.now.held ≡ length circuit.now.netlist.inputs }
{
    let network = Network::new(alloc, circuit)?;
    if network.cone().len() > MOST_GATES {
        return Ok(Findings {
            pair: None,
            steps: Ok(Vec::new(alloc)),
            ending: Ending::Lost,
            work: 0,
        });
    }
    let mut admitted = Admitted::new(alloc, &network, admit)?;
    admitted.conditions = conditions_in(alloc, circuit, admit, keep)?;
    let times = times_in(alloc, circuit, admit)?;
    let limits = limits_of(known, !keep.is_empty(), effort);
    let search = Search::new(alloc, &network, &admitted, &times, limits, effort.stop)?;
    let mut team = Team::new(search, effort.workers as usize)?;
    let ended = team.run(rt);
    let pair = copy_of(alloc, team.pair())?;
    let ending = team.ending().unwrap_or(Ending::Memory);
    let work = team.spent();
    let steps = match ended {
        Ok(()) => steps_in(alloc, circuit, team),
        Err(error) => Err(error),
    };
    Ok(Findings {
        pair,
        steps,
        ending,
        work,
    })
}

fn copy_of(alloc: Global, pair: Option<&PairBits>) -> Result<Option<PairBits>, AllocError> {
    match pair {
        Some(pair) => Ok(Some(pair.copy(alloc)?)),
        None => Ok(None),
    }
}

// The conditions on nets of the circuit.
fn conditions_in(
    alloc: Global,
    circuit: &Circuit,
    admit: &Admit,
    keep: &[NamedCondition],
) -> Result<Vec<Condition>, AllocError> {
    let mut conditions = Vec::new(alloc);
    for condition in question_on(alloc, circuit, admit, keep)?.keep() {
        let (first, last, is_equal) = match condition.form {
            Form::Levels(first, last) => (bit_of(first), bit_of(last), false),
            Form::Equal => (None, None, true),
        };
        conditions.push(Condition {
            net: condition.net,
            first,
            last,
            is_equal,
        })?;
    }
    Ok(conditions)
}

fn bit_of(level: Level) -> Option<bool> {
    match level {
        Level::Zero => Some(false),
        Level::One => Some(true),
        Level::X => None,
    }
}

// The lines of the least bound that is known, or of the proof that no pair is asked about.
fn steps_in(alloc: Global, circuit: &Circuit, team: Team<'_>) -> Result<Vec<Step>, AllocError> {
    let top = team.top();
    let refutation = team.into_refutation(top)?;
    steps_of(alloc, circuit, refutation)
}

// When the nets may change in runs of admitted pairs.
fn times_in(alloc: Global, circuit: &Circuit, admit: &Admit) -> Result<Vec<Times>, AllocError>
    requires { length admit.now.held ≡ length circuit.now.netlist.inputs }
{
    let mut times = Vec::with_capacity(alloc, circuit.net_count())?;
    for time in &first_times(alloc, circuit, admit, admit.pins())? {
        times.push(Times {
            early: time.early.unwrap_or(FOREVER),
            falls: time.ends.zero,
            rises: time.ends.one,
        })?;
    }
    Ok(times)
}

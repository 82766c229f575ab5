//! The simulation of 64 pairs by the levels of each net at each moment of its window.

use crate::cone::Cone;
use crate::delaying::Due;
use crate::joining::{Join, negated};
use crate::lanes::Latest;
use crate::pairs::Pairs;
use crate::places::Places;
use crate::rooms::Rooms;
use crate::runs::{Run, Runs};
use crate::windows::{Window, windows};
use std::alloc::{AllocError, Global};
use td_circuit::{Circuit, FIRST_INPUT, Gate};

/// The levels of a net in 64 lanes, a word for each moment of its window. Before it they are those
/// at the start, and after it they stay.
#[derive(Debug, Drop)]
pub struct Strip {
    start: u64,
    from: u64,
    words: Vec<u64>,
}

impl Strip {
    /// At 0 in each lane, without a window.
    pub fn new(alloc: Global) -> Self {
        Strip {
            start: 0,
            from: 0,
            words: Vec::new(alloc),
        }
    }

    /// At these levels, and from a moment on at other ones. The error is out of memory.
    fn write(&mut self, start: u64, moment: u64, levels: u64) -> Result<(), AllocError> {
        self.start = start;
        self.from = moment;
        self.words.clear();
        self.words.push(levels)?;
        Ok(())
    }

    /// The levels in the end.
    fn end(&self) -> u64 {
        match self.words.last() {
            Some(levels) => *levels,
            None => self.start,
        }
    }

    /// The last change in these lanes, from a moment on: in no lane, at 0, where there is none.
    fn last_change(&self, lanes: u64, floor: u64) -> Latest {
        let words: &[u64] = &self.words;
        for place in (0..words.len()).rev() {
            let moment = self.from.saturating_add(place as u64);
            if moment < floor {
                break;
            }
            let before = if place == 0 {
                self.start
            } else {
                words[place - 1]
            };
            let changed = (words[place] ^ before) & lanes;
            if changed != 0 {
                return Latest {
                    moment,
                    lanes: changed,
                };
            }
        }
        Latest {
            moment: 0,
            lanes: 0,
        }
    }

    /// Writes the levels of an output, which follow from those at which it was settled: it rises
    /// where all of a run of targets are 1, and falls where none of one is. All are negated in
    /// these lanes: in all or in none.
    fn follow(&mut self, start: u64, all: &[u64], any: &[u64], negated: u64) {
        let words: &mut [u64] = &mut self.words;
        let mut level = start;
        for place in 0..words.len().min(all.len()).min(any.len()) {
            level = all[place] | (level & any[place]);
            words[place] = level ^ negated;
        }
        self.start = start ^ negated;
    }
}

/// Room for the levels of the nets of a circuit, and for a gate's target.
#[derive(Debug, Drop)]
pub struct Strips {
    cone: Cone,
    rooms: Rooms<Strip>,
    windows: Vec<Window>,
    target: Vec<u64>,
    all: Runs,
    any: Runs,
    made: Strip,
}

impl Strips {
    /// Room for a circuit. The error is out of memory.
    pub fn new(alloc: Global, circuit: &Circuit) -> Result<Self, AllocError> {
        let places = Places::new(alloc, circuit)?;
        let mut strips = Vec::new(alloc);
        for _ in 0..places.count {
            strips.push(Strip::new(alloc))?;
        }
        Ok(Strips {
            cone: Cone::of(alloc, circuit)?,
            rooms: Rooms::new(strips, places.of_nets),
            windows: windows(alloc, circuit)?,
            target: Vec::new(alloc),
            all: Runs::new(alloc),
            any: Runs::new(alloc),
            made: Strip::new(alloc),
        })
    }

    /// How many words a simulation takes: what the targets of the gates have.
    pub fn words(&self, circuit: &Circuit) -> usize {
        let first = circuit.first_gate() as usize;
        let mut words = 0usize;
        for (place, gate) in circuit.gates().iter().enumerate() {
            let output = first.saturating_add(place);
            if !self.cone.has(output) {
                continue;
            }
            if let Some(window) = self.windows.get(output) {
                words = words.saturating_add(target_words(*window, Due::of(gate)));
            }
        }
        words
    }

    /// Simulates pairs. The error is out of memory.
    pub fn simulate(&mut self, circuit: &Circuit, pairs: &Pairs) -> Result<(), AllocError> {
        self.begin(circuit, pairs)?;
        let first = circuit.first_gate() as usize;
        for (place, gate) in circuit.gates().iter().enumerate() {
            let output = first.saturating_add(place);
            if self.cone.has(output) {
                self.evaluate(gate, output)?;
            }
        }
        Ok(())
    }

    /// The latest moment at which an output changes in one of these lanes, by the pairs that were
    /// simulated last.
    pub fn latest(&self, circuit: &Circuit, lanes: u64) -> Latest {
        let mut latest = Latest { moment: 0, lanes };
        for net in circuit.outputs() {
            if let Some(strip) = self.rooms.of(*net) {
                latest = latest.or(strip.last_change(lanes, latest.moment));
            }
        }
        latest
    }

    /// The levels of the constants and the inputs. The error is out of memory.
    fn begin(&mut self, circuit: &Circuit, pairs: &Pairs) -> Result<(), AllocError> {
        self.write(0, 0, 0, 0)?;
        self.write(1, u64::MAX, 0, u64::MAX)?;
        for (input, moment) in circuit.moments().iter().enumerate() {
            let (first, second) = pairs.words(input);
            let net = input.saturating_add(FIRST_INPUT as usize);
            self.write(net, first, *moment, second)?;
        }
        Ok(())
    }

    /// The net has these levels at the start, and other ones from a moment on. The error is out of
    /// memory.
    fn write(
        &mut self,
        net: usize,
        start: u64,
        moment: u64,
        levels: u64,
    ) -> Result<(), AllocError> {
        match self.rooms.of_mut(net) {
            Some(strip) => strip.write(start, moment, levels),
            None => Ok(()),
        }
    }

    /// The levels of a gate's output. The error is out of memory.
    fn evaluate(&mut self, gate: &Gate, output: usize) -> Result<(), AllocError> {
        let Some(window) = self.windows.get(output).copied() else {
            return Ok(());
        };
        let due = Due::of(gate);
        let start = self.make_target(gate, window.from, target_words(window, due))?;
        self.all.make(Run::All, &self.target, due.rise as usize)?;
        self.any.make(Run::Any, &self.target, due.fall as usize)?;
        self.made.from = window.from;
        self.made.words.resize(window.count() as usize, 0)?;
        let later = due.last();
        self.made.follow(
            start,
            self.all.from(later.saturating_sub(due.rise) as usize),
            self.any.from(later.saturating_sub(due.fall) as usize),
            negated(gate.kind),
        );
        self.rooms.exchange(output, &mut self.made);
        Ok(())
    }

    /// Makes the target of a gate whose output may change from a moment on, from as long before as
    /// it may look back. Answers its levels at the start. The error is out of memory.
    fn make_target(&mut self, gate: &Gate, from: u64, count: usize) -> Result<u64, AllocError> {
        let join = Join::of(gate.kind);
        let mut start = 0;
        self.target.resize(count, 0)?;
        let back = Due::of(gate).last();
        for (number, net) in gate.inputs.iter().enumerate() {
            if let Some(strip) = self.rooms.of(*net) {
                let place = strip.from.saturating_add(back).saturating_sub(from) as usize;
                if number == 0 {
                    put_strip(&mut self.target, strip, place);
                    start = strip.start;
                } else {
                    join_strip(join, &mut self.target, strip, place);
                    start = join.levels(start, strip.start);
                }
            }
        }
        Ok(start)
    }
}

/// How many words the target of a gate has whose output has this window.
fn target_words(window: Window, due: Due) -> usize {
    match window.count() {
        0 => 0,
        count => count.saturating_add(due.last()).saturating_sub(1) as usize,
    }
}

/// The words of a target before an input's window, which begins at a place of the target, those
/// within it, and those after it.
fn parts<'a>(
    target: &'a mut [u64],
    strip: &Strip,
    place: usize,
) -> (&'a mut [u64], &'a mut [u64], &'a mut [u64]) {
    let start = place.min(target.len());
    let (before, rest) = target.split_at_mut(start);
    let count = strip.words.len().min(rest.len());
    let (within, after) = rest.split_at_mut(count);
    (before, within, after)
}

/// Makes a target that of an input alone, whose window begins at a place of the target.
fn put_strip(target: &mut [u64], strip: &Strip, place: usize) {
    let (before, within, after) = parts(target, strip, place);
    let words: &[u64] = &strip.words;
    before.fill(strip.start);
    for place in 0..within.len().min(words.len()) {
        within[place] = words[place];
    }
    after.fill(strip.end());
}

/// Joins a target with an input, whose window begins at a place of the target.
fn join_strip(join: Join, target: &mut [u64], strip: &Strip, place: usize) {
    match join {
        Join::And => join_strip_by(Join::And, target, strip, place),
        Join::Or => join_strip_by(Join::Or, target, strip, place),
        Join::Xor => join_strip_by(Join::Xor, target, strip, place),
    }
}

/// As `join_strip`. Each way to join has a copy of its own, which the compiler makes vectors of.
#[inline(always)]
fn join_strip_by(join: Join, target: &mut [u64], strip: &Strip, place: usize) {
    let (before, within, after) = parts(target, strip, place);
    let words: &[u64] = &strip.words;
    join_levels(join, before, strip.start);
    for place in 0..within.len().min(words.len()) {
        within[place] = join.levels(within[place], words[place]);
    }
    join_levels(join, after, strip.end());
}

/// Joins words with the same levels.
#[inline(always)]
fn join_levels(join: Join, words: &mut [u64], levels: u64) {
    for place in 0..words.len() {
        words[place] = join.levels(words[place], levels);
    }
}

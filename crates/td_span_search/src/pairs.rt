//! Pairs that are asked about, as the search makes them.

use crate::conditions::Condition;
use crate::network::Network;
use std::alloc::{AllocError, Global};
use td_cdcl::{read, write_at};
use td_domain::{Admit, Trit};

/// The bits of a pair of vectors.
#[derive(Clone, Debug, Drop)]
pub struct PairBits {
    pub first: Vec<bool>,
    pub second: Vec<bool>,
}

/// What the search changes at an input: whether its first bit flips, whether its second one does.
#[derive(Clone, Copy, Drop)]
pub struct Move {
    pub input: usize,
    pub first: bool,
    pub second: bool,
    /// Where an input is looked for that stands still in its place, if too many would differ.
    pub other: usize,
}

/// Which pairs are asked about: those that are admitted, by input the pins and whether it is held,
/// and at how many inputs the bits may differ; and that keep all conditions.
#[derive(Drop)]
pub struct Admitted {
    pub first: Vec<Option<bool>>,
    pub second: Vec<Option<bool>>,
    pub held: Vec<bool>,
    pub flips: usize,
    pub conditions: Vec<Condition>,
    // At how many inputs the pins differ.
    differing: usize,
}

fn bit_of(trit: Trit) -> Option<bool> {
    match trit {
        Trit::Zero => Some(false),
        Trit::One => Some(true),
        Trit::Free => None,
    }
}

impl PairBits {
    /// The same pair again. The error is out of memory.
    pub fn copy(&self, alloc: Global) -> Result<PairBits, AllocError> {
        Ok(PairBits {
            first: Vec::from_slice(alloc, &self.first)?,
            second: Vec::from_slice(alloc, &self.second)?,
        })
    }

    /// The bits of an input.
    #[inline(always)]
    pub fn bits(&self, input: usize) -> (bool, bool) {
        (
            read(&self.first, input, false),
            read(&self.second, input, false),
        )
    }

    /// Gives an input these bits.
    pub fn put(&mut self, input: usize, first: bool, second: bool) {
        write_at(&mut self.first, input, first);
        write_at(&mut self.second, input, second);
    }

    /// At how many inputs the bits differ.
    pub fn flips(&self) -> usize {
        let mut flips = 0usize;
        for input in 0..self.first.len() {
            let (first, second) = self.bits(input);
            if first != second {
                flips = flips.saturating_add(1);
            }
        }
        flips
    }
}

impl Admitted {
    /// The same pairs, bit by bit, without a condition. The error is out of memory.
    pub fn new(alloc: Global, network: &Network, admit: &Admit) -> Result<Admitted, AllocError> {
        let mut first = Vec::new(alloc);
        let mut second = Vec::new(alloc);
        let mut held = Vec::new(alloc);
        let mut differing = 0usize;
        for input in 0..network.inputs() {
            let pins = pins_of(admit, input);
            if pins.0.is_some() && pins.1.is_some() && pins.0 != pins.1 {
                differing = differing.saturating_add(1);
            }
            first.push(pins.0)?;
            second.push(pins.1)?;
            held.push(read(admit.held(), input, false))?;
        }
        Ok(Admitted {
            first,
            second,
            held,
            flips: admit.flips() as usize,
            conditions: Vec::new(alloc),
            differing,
        })
    }

    /// Whether a pair is admitted: no held input has pins that differ, and not too many inputs do.
    pub fn is_some(&self) -> bool {
        for input in 0..self.held.len() {
            if self.is_held(input) && self.differs(input) {
                return false;
            }
        }
        self.differing <= self.flips
    }

    /// The pinned bits of an input.
    pub fn pins(&self, input: usize) -> (Option<bool>, Option<bool>) {
        (
            read(&self.first, input, None),
            read(&self.second, input, None),
        )
    }

    /// Whether the pins differ at an input.
    pub fn differs(&self, input: usize) -> bool {
        let (first, second) = self.pins(input);
        first.is_some() && second.is_some() && first != second
    }

    /// Whether an input is held.
    pub fn is_held(&self, input: usize) -> bool {
        read(&self.held, input, false)
    }

    /// Whether an input keeps its bit in each admitted pair, but one whose pins differ: it is held,
    /// or so many other inputs surely differ as may.
    pub fn is_still(&self, input: usize) -> bool {
        let others = self
            .differing
            .saturating_sub(usize::from(self.differs(input)));
        self.is_held(input) || others >= self.flips
    }

    /// Whether fewer inputs may differ than there are.
    pub fn counts(&self) -> bool {
        self.flips < self.held.len()
    }

    /// The bits of an input that are known, a still one's by its other bit too.
    pub fn known(&self, input: usize) -> (Option<bool>, Option<bool>) {
        let (first, second) = self.pins(input);
        if self.is_still(input) {
            (first.or(second), second.or(first))
        } else {
            (first, second)
        }
    }

    /// An admitted pair, with as many inputs that differ as may be. The error is out of memory.
    pub fn some_pair(&self, alloc: Global) -> Result<PairBits, AllocError> {
        let mut pair = PairBits {
            first: Vec::new(alloc),
            second: Vec::new(alloc),
        };
        let mut flips = 0usize;
        for input in 0..self.held.len() {
            let (before, after) = self.known(input);
            let first = before.or(after).unwrap_or(false);
            let second = after.unwrap_or(first);
            pair.first.push(first)?;
            pair.second.push(second)?;
            flips = flips.saturating_add(usize::from(first != second));
        }
        for input in 0..self.held.len() {
            let (first, second) = pair.bits(input);
            if first == second && flips < self.flips && self.flip_one(&mut pair, input) {
                flips = flips.saturating_add(1);
            }
        }
        Ok(pair)
    }

    // Makes a free bit of an input differ, where the input isn't held. Answers whether it did.
    fn flip_one(&self, pair: &mut PairBits, input: usize) -> bool {
        let (first, second) = pair.bits(input);
        if self.is_held(input) {
            return false;
        }
        match self.pins(input) {
            (_, None) => pair.put(input, first, !second),
            (None, _) => pair.put(input, !first, second),
            _ => return false,
        }
        true
    }

    /// Moves where the pair stays admitted; where too many inputs would differ, another one stands
    /// still.
    pub fn step(&self, pair: &mut PairBits, step: Move) {
        let (first, second) = pair.bits(step.input);
        let (before, after) = (first != step.first, second != step.second);
        let (pinned, next) = self.pins(step.input);
        if pinned.is_some_and(|bit| bit != before) || next.is_some_and(|bit| bit != after) {
            return;
        }
        if self.is_held(step.input) && before != after {
            return;
        }
        if self.counts() && before != after && first == second {
            if pair.flips() >= self.flips && !self.still_one(pair, step.other) {
                return;
            }
        }
        pair.put(step.input, before, after);
    }

    // Lets an input stand still that differs and isn't pinned to, the first from a place on.
    // Answers whether there is one.
    fn still_one(&self, pair: &mut PairBits, from: usize) -> bool {
        let inputs = self.held.len();
        for offset in 0..inputs {
            let input = offset.saturating_add(from) % inputs.max(1);
            let (first, second) = pair.bits(input);
            let (pinned, next) = self.pins(input);
            if first != second && next.is_none() {
                pair.put(input, first, first);
                return true;
            }
            if first != second && pinned.is_none() {
                pair.put(input, second, second);
                return true;
            }
        }
        false
    }
}

fn pins_of(admit: &Admit, input: usize) -> (Option<bool>, Option<bool>) {
    let pins = admit.pins();
    let place = input.saturating_mul(2);
    let next = place.saturating_add(1);
    if next >= pins.len() {
        return (None, None);
    }
    (bit_of(pins.trit(place)), bit_of(pins.trit(next)))
}

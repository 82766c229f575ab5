//! Admitted pairs.

ghost use Rattle.std.specs.Prelude.{◌≡◌, ◌<◌, ◌≤◌, ◌*◌, ◌^◌, ◌↔◌, length, IfOk, IfSome, IsTrue};
ghost use Rattle.td_domain.specs.Admits.{all_pairs, HasAdmitted, IsAdmitted};
ghost use Rattle.td_domain.specs.FewestFlips.{common, input_flips, common_flips, fewest_flips};
ghost use Rattle.td_domain.specs.PairCubes.{cube_of};
ghost use Rattle.td_domain.specs.Sheets.{known};

use crate::cubes::{Cube, Trit};
use crate::pairs::Pair;
use std::alloc::{AllocError, Global};
use std::marker::Model;

/// Which pairs of vectors are admitted: those that lie in the pins, have equal bits at each held
/// input, and differ at `flips` inputs at most.
#[derive(Debug, Drop)]
pub struct Admit {
    pins: Cube,
    held: Vec<bool>,
    flips: u32,
}

impl Model for Admit {
    ghost use Rattle.std.specs.Prelude.{◌≡◌, ◌*◌, length};
    ghost use Rattle.td_domain.specs.Admits.{Admitted};

    ghost Value = { Admitted };

    ghost view = { λ admit. record { pins = admit.pins; held = admit.held.items; flips = admit.flips } };

    ghost invariant = { λ admit. length admit.pins ≡ 2 * length admit.held.items };
}

impl Admit {
    /// The pairs in these pins that keep each held input and differ at `flips` inputs at most. The
    /// pins have two positions for each input.
    pub fn new(pins: Cube, held: Vec<bool>, flips: u32) -> Self
        requires { length pins ≡ 2 * length held.items }
        ensures { result ≡ record { pins = pins; held = held.items; flips = flips } }
    {
        Admit { pins, held, flips }
    }

    /// All pairs of vectors for this number of inputs.
    pub fn all(alloc: Global, inputs: usize) -> Result<Self, AllocError>
        requires { inputs < 2 ^ 32 }
        ensures { IfOk result (λ admit. admit ≡ all_pairs inputs) }
    {
        let pins = Cube::free(alloc, inputs)?;
        let held = vec![in alloc; false; inputs]?;
        Ok(Admit {
            pins,
            held,
            flips: inputs as u32,
        })
    }

    /// The same pairs again.
    pub fn copy(&self, alloc: Global) -> Result<Self, AllocError>
        ensures { IfOk result (λ admit. admit ≡ self.now) }
    {
        Ok(Admit {
            pins: self.pins.copy(alloc)?,
            held: Vec::from_slice(alloc, &self.held)?,
            flips: self.flips,
        })
    }

    /// The cube that the admitted pairs lie in.
    pub fn pins(&self) -> &Cube
        ensures pins { result.now ≡ self.now.pins }
        ensures fit { length self.now.pins ≡ 2 * length self.now.held }
    {
        &self.pins
    }

    /// Which inputs have equal bits.
    pub fn held(&self) -> &[bool]
        ensures { result.now ≡ self.now.held }
    {
        &self.held
    }

    /// At how many inputs the bits may differ.
    pub fn flips(&self) -> u32
        ensures { result ≡ self.now.flips }
    {
        self.flips
    }

    /// Whether an admitted pair lies in the cube.
    pub fn any(&self, cube: &Cube) -> bool
        requires { length cube.now ≡ length self.now.pins }
        ensures { IsTrue result ↔ HasAdmitted self.now cube.now }
    {
        match fewest_flips(&self.held, &self.pins, cube) {
            Some(flips) => flips <= self.flips as usize,
            None => false,
        }
    }

    /// Whether a pair is admitted, which has a bit in each vector for each input. The error is out
    /// of memory.
    #[tactic(auto, using(crate::proofs::PairCubes::long_cube, crate::proofs::PairCubes::alone))]
    pub fn admits(&self, alloc: Global, pair: &Pair) -> Result<bool, AllocError>
        requires first { length pair.now.first ≡ length self.now.held }
        requires second { length pair.now.second ≡ length self.now.held }
        ensures { IfOk result (λ is. IsTrue is ↔ IsAdmitted self.now pair.now) }
    {
        // For the prover: this call says that there are two pins for each input.
        let _pins = self.pins();
        let cube = cube_of(alloc, pair)?;
        Ok(self.any(&cube))
    }
}

/// The trit that allows this bit alone.
fn trit_of(bit: bool) -> Trit
    ensures { result ≡ known bit }
{
    if bit { Trit::One } else { Trit::Zero }
}

/// The cube in which the pair lies alone.
fn cube_of(alloc: Global, pair: &Pair) -> Result<Cube, AllocError>
    requires { length pair.now.first ≡ length pair.now.second }
    ensures { IfOk result (λ cube. cube ≡ cube_of pair.now.first pair.now.second) }
{
    let mut trits = Vec::new(alloc);
    for (input, before) in pair.first().iter().enumerate() {
        trits.push(trit_of(*before))?;
        trits.push(trit_of(pair.second()[input]))?;
    }
    Ok(Cube::new(trits))
}

/// The fewest flips of a pair that lies in both cubes and keeps the held inputs.
fn fewest_flips(held: &[bool], pins: &Cube, cube: &Cube) -> Option<usize>
    requires pins { length pins.now ≡ 2 * length held.now }
    requires cube { length cube.now ≡ 2 * length held.now }
    ensures { result ≡ fewest_flips held.now pins.now cube.now }
{
    let mut fewest = 0;
    for (input, is_held) in held.iter().enumerate() {
        let pin = pins.trit(2 * input);
        let next_pin = pins.trit(2 * input + 1);
        let bit = cube.trit(2 * input);
        let next_bit = cube.trit(2 * input + 1);
        let flips = common_flips(*is_held, pin, next_pin, bit, next_bit)?;
        fewest += flips as usize;
    }
    Some(fewest)
}

/// The fewest flips of an input that has two trits in one cube and two in another.
fn common_flips(held: bool, pin: Trit, next_pin: Trit, bit: Trit, next_bit: Trit) -> Option<u32>
    ensures flips { result ≡ common_flips held pin next_pin bit next_bit }
    ensures few { IfSome result (λ flips. flips ≤ 1) }
{
    let first = common(pin, bit)?;
    let second = common(next_pin, next_bit)?;
    input_flips(first, second, held)
}

/// The trit that allows what both allow, where they allow a bit in common.
fn common(this: Trit, that: Trit) -> Option<Trit>
    ensures { result ≡ common this that }
{
    match (this, that) {
        (Trit::Free, _) => Some(that),
        (_, Trit::Free) => Some(this),
        (Trit::Zero, Trit::Zero) => Some(this),
        (Trit::One, Trit::One) => Some(this),
        _ => None,
    }
}

/// The fewest flips of an input with bits that these trits allow.
fn input_flips(first: Trit, second: Trit, held: bool) -> Option<u32>
    ensures flips { result ≡ input_flips first second held }
    ensures few { IfSome result (λ flips. flips ≤ 1) }
{
    match (first, second) {
        (Trit::Zero, Trit::One) | (Trit::One, Trit::Zero) => { if held { None } else { Some(1) } }
        _ => Some(0),
    }
}

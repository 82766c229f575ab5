//! Questions about small circuits, and the worst delay by all pairs.

ghost use Rattle.std.specs.Prelude.{◌≡◌, length, IfOk, IfSome};
ghost use Rattle.td_event_sim.specs.Scratch.{IsFor};

use std::alloc::{AllocError, Global};
use td_circuit::Circuit;
use td_domain::{Admit, Cube, Pair, Trit};
use td_event_sim::{Scratch, delay_of};

/// Which pairs are asked about: two trits for each input, whether it is held, and at how many
/// inputs the bits may differ.
#[derive(Clone, Copy, Debug, Drop)]
pub struct Question<'a> {
    pub pins: &'a str,
    pub held: &'a str,
    pub flips: u32,
}

/// The trit of a character, free but for the digits.
fn trit_of(character: u8) -> Trit {
    match character {
        b'0' => Trit::Zero,
        b'1' => Trit::One,
        _ => Trit::Free,
    }
}

/// The admitted pairs of a question, if it is one about this circuit.
pub fn admit_of(
    alloc: Global,
    circuit: &Circuit,
    question: Question<'_>,
) -> Result<Option<Admit>, AllocError>
    ensures { IfOk result (λ found. IfSome found (λ admit. length admit.held ≡ length circuit.now.netlist.inputs)) }
{
    let mut trits = Vec::new(alloc);
    for character in question.pins.as_bytes() {
        trits.push(trit_of(*character))?;
    }
    let mut held = Vec::new(alloc);
    for character in question.held.as_bytes() {
        held.push(*character == b'=')?;
    }
    let inputs = circuit.input_count();
    if held.len() != inputs || trits.len() % 2 != 0 || trits.len() / 2 != inputs {
        return Ok(None);
    }
    Ok(Some(Admit::new(Cube::new(trits), held, question.flips)))
}

/// The bits at every other place of those of a number.
fn every_other(alloc: Global, number: u32, count: usize) -> Result<Vec<bool>, AllocError> {
    let mut bits = Vec::new(alloc);
    let mut rest = number;
    for _ in 0..count {
        bits.push(rest % 2 == 1)?;
        rest /= 4;
    }
    Ok(bits)
}

/// The pair with the bits of a number.
fn pair_of(alloc: Global, number: u32, inputs: usize) -> Result<Pair, AllocError> {
    let first = every_other(alloc, number, inputs)?;
    let second = every_other(alloc, number / 2, inputs)?;
    Ok(Pair::new(first, second))
}

/// Whether a pair is admitted.
fn is_admitted(alloc: Global, admit: &Admit, pair: &Pair) -> Result<bool, AllocError> {
    let mut trits = Vec::new(alloc);
    for (first, second) in pair.first().iter().zip(pair.second()) {
        trits.push(if *first { Trit::One } else { Trit::Zero })?;
        trits.push(if *second { Trit::One } else { Trit::Zero })?;
    }
    let cube = Cube::new(trits);
    Ok(cube.len() == admit.pins().len() && admit.any(&cube))
}

/// The delay of a pair, 0 where it isn't one of the circuit's.
fn delay_in(scratch: &mut Scratch, circuit: &Circuit, pair: &Pair) -> Result<u64, AllocError>
    requires { IsFor circuit.now scratch.old }
    ensures { IsFor circuit.now scratch.new }
{
    let inputs = circuit.input_count();
    if pair.first().len() != inputs || pair.second().len() != inputs {
        return Ok(0);
    }
    delay_of(scratch, circuit, pair)
}

/// The greatest delay of the admitted pairs.
pub fn worst(alloc: Global, circuit: &Circuit, admit: &Admit) -> Result<u64, AllocError> {
    let mut worst = 0;
    let inputs = circuit.input_count();
    for number in 0..pairs_of(inputs) {
        let pair = pair_of(alloc, number, inputs)?;
        if is_admitted(alloc, admit, &pair)? {
            let mut scratch = Scratch::new(alloc, circuit)?;
            worst = delay_in(&mut scratch, circuit, &pair)?.max(worst);
        }
    }
    Ok(worst)
}

/// How many pairs of vectors there are. The inputs are 15 at most.
fn pairs_of(inputs: usize) -> u32 {
    let mut pairs = 1u32;
    for _ in 0..inputs {
        pairs = pairs.saturating_mul(4);
    }
    pairs
}

//! Where climbs lead, under pins, holds and flips that follow from numbers.

ghost use Rattle.std.specs.Prelude.{◌≡◌, ◌≤◌, ◌*◌, length, IfOk};

use crate::circuits::generated;
use crate::texts::{Size, next, random};
use std::alloc::{AllocError, Global};
use std::test::*;
use td_circuit::Circuit;
use td_climb::{Climb, tries_for};
use td_domain::{Admit, Cube, Pair, Trit};
use td_event_sim::{Scratch, delay_of};
use td_search::representative;
use td_stop::Stop;

/// `count` trits that follow from a number, two of three of them free.
fn random_trits(alloc: Global, count: usize, seed: u64) -> Result<Vec<Trit>, AllocError>
    ensures { IfOk result (λ trits. length trits.items ≡ count) }
{
    let mut seed = seed;
    let mut trits = Vec::new(alloc);
    for _ in 0..count {
        seed = next(seed);
        trits.push(match random(seed, 6) {
            0 => Trit::Zero,
            1 => Trit::One,
            _ => Trit::Free,
        })?;
    }
    Ok(trits)
}

/// Which of `count` inputs are held: one of four.
fn random_holds(alloc: Global, count: usize, seed: u64) -> Result<Vec<bool>, AllocError>
    ensures { IfOk result (λ held. length held.items ≡ count) }
{
    let mut seed = seed;
    let mut held = Vec::new(alloc);
    for _ in 0..count {
        seed = next(seed);
        held.push(random(seed, 4) == 0)?;
    }
    Ok(held)
}

/// The pairs of a question that follows from a number.
fn random_admit(alloc: Global, inputs: usize, seed: u64) -> Result<Admit, AllocError>
    requires { inputs ≤ 4096 }
    ensures { IfOk result (λ admit. length admit.held ≡ inputs) }
{
    let pins = Cube::new(random_trits(alloc, 2 * inputs, seed)?);
    let held = random_holds(alloc, inputs, next(seed ^ 3))?;
    let flips = random(next(seed ^ 5), inputs as u64 + 1);
    Ok(Admit::new(pins, held, flips.min(4096) as u32))
}

/// Whether a trit has this bit or is free.
fn has(trit: Trit, bit: bool) -> bool {
    trit == Trit::Free || (trit == Trit::One) == bit
}

/// Whether the pair is one of the question's.
fn is_asked(admit: &Admit, pair: &Pair) -> bool {
    let _pins = admit.pins();
    let mut flips = 0u32;
    for (input, is_held) in admit.held().iter().enumerate() {
        let (Some(before), Some(after)) = (pair.first().get(input), pair.second().get(input)) else {
            return false;
        };
        let first = admit.pins().trit(2 * input);
        let second = admit.pins().trit(2 * input + 1);
        if !has(first, *before) || !has(second, *after) || (*is_held && before != after) {
            return false;
        }
        flips = flips.saturating_add(if before == after { 0 } else { 1 });
    }
    flips <= admit.flips()
}

/// A pair with its delay, and the delay that a climb said of it.
#[derive(Debug, Drop)]
struct Reached {
    pair: Pair,
    delay: u64,
    said: u64,
}

/// The pair to which a climb leads that tries this number of pairs in each of two calls, if one is
/// admitted.
fn met(
    alloc: Global,
    circuit: &Circuit,
    admit: &Admit,
    first: u32,
    then: u32,
) -> Result<Option<Reached>, AllocError>
    requires { length admit.now.held ≡ length circuit.now.netlist.inputs }
{
    let pins = admit.pins();
    if !admit.any(pins) {
        return Ok(None);
    }
    let start = representative(alloc, pins, admit)?;
    let mut climb = Climb::new(alloc, circuit, admit, start, 1)?;
    let never = Stop::never();
    climb.go_on(circuit, admit, first, u64::MAX, &never)?;
    climb.go_on(circuit, admit, then, u64::MAX, &never)?;
    let said = climb.time();
    let pair = climb.into_pair();
    let delay = measured(alloc, circuit, &pair)?;
    Ok(Some(Reached { pair, delay, said }))
}

/// The delay of a pair by the queue, 0 where it isn't one of the circuit's.
fn measured(alloc: Global, circuit: &Circuit, pair: &Pair) -> Result<u64, AllocError> {
    let inputs = circuit.input_count();
    if pair.first().len() != inputs || pair.second().len() != inputs {
        return Ok(0);
    }
    let mut scratch = Scratch::new(alloc, circuit)?;
    delay_of(&mut scratch, circuit, pair)
}

/// The delay of the pair to which a climb leads, if one is admitted: none where it isn't one of the
/// question's, where the lanes said another delay of it, or where the same tries in other calls
/// lead to another pair.
fn delay_met(
    alloc: Global,
    circuit: &Circuit,
    admit: &Admit,
) -> Result<Option<Result<u64, &'static str>>, AllocError>
    requires { length admit.now.held ≡ length circuit.now.netlist.inputs }
{
    let (Some(once), Some(again)) = (
        met(alloc, circuit, admit, 1280, 0)?,
        met(alloc, circuit, admit, 320, 960)?,
    ) else {
        return Ok(None);
    };
    if once.pair.first() != again.pair.first() || once.pair.second() != again.pair.second() {
        return Ok(Some(Err("another pair")));
    }
    if !is_asked(admit, &once.pair) {
        return Ok(Some(Err("not admitted")));
    }
    if once.delay != once.said {
        return Ok(Some(Err("another delay")));
    }
    Ok(Some(Ok(once.delay)))
}

/// As `delay_met`, of a circuit and a question that follow from a number.
fn generated_met(
    alloc: Global,
    size: Size,
    seed: u64,
) -> Result<Option<Result<u64, &'static str>>, AllocError> {
    let Some(circuit) = generated(alloc, size, seed) else {
        return Ok(Some(Err("no circuit")));
    };
    let _numbering = circuit.gates();
    let admit = random_admit(alloc, circuit.input_count(), next(seed ^ 21))?;
    delay_met(alloc, &circuit, &admit)
}

#[test]
fn climbs_stay_admitted(rt: HostRuntime) -> Result<(), Fail> {
    let alloc = rt.alloc();
    let mut late = 0u32;
    for seed in 0..80 {
        let size = Size {
            inputs: 1 + seed % 14,
            gates: 3 + seed % 40,
            scale: 1,
        };
        match generated_met(alloc, size, seed)? {
            Some(Ok(delay)) => {
                late = late.saturating_add(u32::from(delay > 0));
            }
            Some(Err(what)) => panic!(rt; "climb {seed}: {what}"),
            None => {}
        }
    }
    assert!(rt; late > 30, "{late} of 80");
    Ok(())
}

/// The greatest delay that the queue has of any pair of a circuit with this number of inputs.
fn worst(alloc: Global, circuit: &Circuit) -> Result<u64, AllocError> {
    let mut worst = 0;
    let inputs = circuit.input_count();
    for number in 0..1u64 << 8 {
        let first = bits(alloc, number, inputs)?;
        let second = bits(alloc, number >> 4, inputs)?;
        worst = worst.max(measured(alloc, circuit, &Pair::new(first, second))?);
    }
    Ok(worst)
}

/// The lowest bits of a number.
fn bits(alloc: Global, number: u64, count: usize) -> Result<Vec<bool>, AllocError> {
    let mut rest = number;
    let mut bits = Vec::new(alloc);
    for _ in 0..count {
        bits.push(rest % 2 == 1)?;
        rest /= 2;
    }
    Ok(bits)
}

/// The worst delay of a circuit that follows from a number, if a climb met it.
fn worst_met(alloc: Global, size: Size, seed: u64) -> Result<Option<u64>, AllocError> {
    let Some(circuit) = generated(alloc, size, seed) else {
        return Ok(None);
    };
    let _numbering = circuit.gates();
    let admit = Admit::all(alloc, circuit.input_count())?;
    let worst = worst(alloc, &circuit)?;
    let Some(reached) = met(alloc, &circuit, &admit, tries_for(&circuit), 0)? else {
        return Ok(None);
    };
    Ok(if reached.delay == worst {
        Some(worst)
    } else {
        None
    })
}

#[test]
fn climbs_meet_the_worst_delay(rt: HostRuntime) -> Result<(), Fail> {
    let alloc = rt.alloc();
    let mut late = 0u32;
    for seed in 0..20 {
        let size = Size {
            inputs: 1 + seed % 4,
            gates: 5 + seed,
            scale: 1,
        };
        let worst = worst_met(alloc, size, seed)?;
        assert!(rt; worst.is_some(), "circuit {seed}");
        late = late.saturating_add(u32::from(worst.unwrap_or(0) > 9));
    }
    assert!(rt; late > 8, "{late} of 20");
    Ok(())
}

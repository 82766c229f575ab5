//! What the lanes say of 64 pairs, beside the event queue.

ghost use Rattle.std.specs.Prelude.{◌≡◌, length};
ghost use Rattle.td_event_sim.specs.Scratch.{IsFor};

use crate::circuits::{circuit_of, generated};
use crate::texts::{Size, next};
use std::alloc::{AllocError, Global};
use std::test::*;
use td_circuit::Circuit;
use td_climb::{LANES, Lanes, Pairs};
use td_event_sim::{Scratch, delay_of};

/// `count` words that follow from a number. Most have few bits set in common with none: each is
/// drawn, or the same in all lanes.
fn words(alloc: Global, count: usize, seed: u64) -> Result<Vec<u64>, AllocError> {
    let mut seed = seed;
    let mut words = Vec::new(alloc);
    for _ in 0..count {
        seed = next(seed);
        let word = (seed >> 32) | (next(seed) >> 32).rotate_left(32);
        words.push(word)?;
    }
    Ok(words)
}

/// The delay of the pair in a lane by the queue, if the lanes say the same.
fn agreed(
    alloc: Global,
    scratch: &mut Scratch,
    circuit: &Circuit,
    lanes: &Lanes,
    pairs: &Pairs,
    lane: u32,
) -> Result<Option<u64>, AllocError>
    requires { IsFor circuit.now scratch.old }
    ensures { IsFor circuit.now scratch.new }
{
    let inputs = circuit.input_count();
    let pair = pairs.pair(alloc, lane)?;
    if pair.first().len() != inputs || pair.second().len() != inputs {
        return Ok(None);
    }
    let delay = delay_of(scratch, circuit, &pair)?;
    let latest = lanes.latest(circuit, 1u64.rotate_left(lane));
    let is_same = latest.moment == delay && latest.lanes == 1u64.rotate_left(lane);
    Ok(if is_same { Some(delay) } else { None })
}

/// How many of 64 pairs have a delay that isn't 0, if the lanes say the same of each as the queue.
fn all_agreed(
    alloc: Global,
    scratch: &mut Scratch,
    circuit: &Circuit,
    lanes: &Lanes,
    pairs: &Pairs,
) -> Result<Option<u32>, AllocError>
    requires { IsFor circuit.now scratch.old }
    ensures { IsFor circuit.now scratch.new }
{
    let mut late = 0u32;
    for lane in 0..LANES {
        match agreed(alloc, scratch, circuit, lanes, pairs, lane)? {
            Some(0) => {}
            Some(_) => late = late.saturating_add(1),
            None => return Ok(None),
        }
    }
    Ok(Some(late))
}

/// As `all_agreed`, of pairs that follow from a number, which are simulated first.
fn late_pairs(
    alloc: Global,
    scratch: &mut Scratch,
    circuit: &Circuit,
    lanes: &mut Lanes,
    seed: u64,
) -> Result<Option<u32>, AllocError>
    requires { IsFor circuit.now scratch.old }
    ensures { IsFor circuit.now scratch.new }
{
    let inputs = circuit.input_count();
    let pairs = Pairs::new(
        words(alloc, inputs, seed)?,
        words(alloc, inputs, next(seed ^ 9))?,
    );
    if !lanes.simulate(circuit, &pairs)? {
        return Ok(None);
    }
    all_agreed(alloc, scratch, circuit, lanes, &pairs)
}

/// As `late_pairs`, of 64 pairs and of 64 others after them. Which way the lanes go may follow from
/// the simulation before.
fn late_twice(
    alloc: Global,
    circuit: &Circuit,
    seed: u64,
) -> Result<(Option<u32>, Option<u32>), AllocError> {
    let mut scratch = Scratch::new(alloc, circuit)?;
    let mut lanes = Lanes::new(alloc, circuit)?;
    let first = late_pairs(alloc, &mut scratch, circuit, &mut lanes, seed)?;
    let second = late_pairs(alloc, &mut scratch, circuit, &mut lanes, next(seed ^ 12))?;
    Ok((first, second))
}

#[test]
fn lanes_say_what_the_queue_says(rt: HostRuntime) -> Result<(), Fail> {
    let alloc = rt.alloc();
    let mut late = (0u32, 0u32);
    for seed in 0..120 {
        let size = Size {
            inputs: 1 + seed % 11,
            gates: 3 + seed % 50,
            scale: if seed % 4 == 3 { 100_000_000 } else { 1 },
        };
        let circuit = generated(alloc, size, seed).ok_or("a circuit")?;
        let (first, second) = late_twice(alloc, &circuit, seed)?;
        assert!(rt; first.is_some(), "circuit {seed}");
        assert!(rt; second.is_some(), "circuit {seed}, other pairs");
        late.0 = late.0.saturating_add(first.unwrap_or(0));
        late.1 = late.1.saturating_add(second.unwrap_or(0));
    }
    assert!(rt; late.0 > 2000, "{} of 7680", late.0);
    assert!(rt; late.1 > 2000, "{} of 7680", late.1);
    Ok(())
}

/// A netlist of this number of stages. Each stage doubles the events: its output changes where what
/// it reads does, and once more after a delay that is half of that of the stage before.
fn doubling_text(alloc: Global, stages: u32) -> Result<String, AllocError> {
    let mut text = format!(in alloc; "module t (w0, w{stages});\ninput w0;\noutput w{stages};\n")?;
    let mut delay = 1u64;
    for _ in 0..stages {
        delay = delay.saturating_mul(2);
    }
    for stage in 0..stages {
        let next = stage.saturating_add(1);
        let gates = format!(in alloc;
            "buf #{delay} (d{stage}, w{stage});\nxor #1 (w{next}, w{stage}, d{stage});\n"
        )?;
        text.push_str(&gates)?;
        delay /= 2;
    }
    text.push_str("endmodule\n")?;
    Ok(text)
}

/// Whether the lanes come to the end of a netlist of this number of stages that double the events.
fn ends(alloc: Global, stages: u32) -> Result<Option<bool>, AllocError> {
    let text = doubling_text(alloc, stages)?;
    let Some(circuit) = circuit_of(alloc, &text) else {
        return Ok(None);
    };
    let mut lanes = Lanes::new(alloc, &circuit)?;
    let pairs = Pairs::new(words(alloc, 1, 1)?, words(alloc, 1, 2)?);
    Ok(Some(lanes.simulate(&circuit, &pairs)?))
}

#[test]
fn too_many_events_are_cut_off(rt: HostRuntime) -> Result<(), Fail> {
    let alloc = rt.alloc();
    assert_eq!(rt; ends(alloc, 12)?, Some(true));
    assert_eq!(rt; ends(alloc, 28)?, Some(false));
    Ok(())
}

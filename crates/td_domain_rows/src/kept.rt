//! Runs that keep the waves of chosen nets.

use crate::circuits::circuit_of;
use crate::texts::module;
use std::test::*;
use td_gates::Level;
use td_run::{Wave, kept_waves, waves, waves_until};
use td_stop::Stop;

/// Where a rises at 0, b rises at 1, c falls at 3, and y falls at 1 and rises at 4. The constants
/// come first, then a, b, c and y.
const GATES: &str = "buf #1 n(b,a); not #2 m(c,b); xor #1 g(y,a,c);";

/// Whether a net's wave is kept where it is wanted, as the whole run has it.
fn is_as_wanted(kept: Option<&Wave>, whole: &Wave, is_wanted: bool) -> bool {
    match kept {
        Some(wave) => {
            is_wanted && wave.start() == whole.start() && wave.changes() == whole.changes()
        }
        None => !is_wanted,
    }
}

#[test]
fn chosen_waves_are_kept(rt: HostRuntime) -> Result<(), Fail> {
    let alloc = rt.alloc();
    let text = module(alloc, "a", "y", GATES)?;
    let circuit = circuit_of(alloc, &text).ok_or("a circuit")?;
    assert_eq!(rt; circuit.input_count(), 1);
    assert_eq!(rt; circuit.net_count(), 6);
    let wanted = [false, false, false, true, false, true];
    let never = Stop::never();
    let kept = kept_waves(
        alloc,
        &circuit,
        &[Level::Zero],
        &[Level::One],
        &wanted,
        &never,
    )?;
    let kept = kept.ok_or("no stop is set")?;
    let run = waves(alloc, &circuit, &[Level::Zero], &[Level::One])?;
    let mut lasts = Vec::new(alloc);
    for net in 0..6u32 {
        let whole = run.wave(net);
        assert_eq!(rt; kept.last(net), whole.last());
        lasts.push(kept.last(net))?;
        let is_wanted = wanted[net as usize];
        assert!(rt; is_as_wanted(kept.wave(net), whole, is_wanted));
    }
    let wanted = [None, None, Some(0), Some(1), Some(3), Some(4)];
    assert_eq!(rt; lasts.as_slice(), wanted.as_slice());
    Ok(())
}

#[test]
fn runs_end_by_a_stop(rt: HostRuntime) -> Result<(), Fail> {
    let alloc = rt.alloc();
    let text = module(alloc, "a", "y", GATES)?;
    let circuit = circuit_of(alloc, &text).ok_or("a circuit")?;
    assert_eq!(rt; circuit.input_count(), 1);
    assert_eq!(rt; circuit.net_count(), 6);
    let stop = Stop::new();
    let whole = waves_until(alloc, &circuit, &[Level::Zero], &[Level::One], &stop)?;
    assert!(rt; whole.is_some());
    stop.set();
    let whole = waves_until(alloc, &circuit, &[Level::Zero], &[Level::One], &stop)?;
    assert!(rt; whole.is_none());
    let wanted = [false; 6];
    let kept = kept_waves(
        alloc,
        &circuit,
        &[Level::Zero],
        &[Level::One],
        &wanted,
        &stop,
    )?;
    assert!(rt; kept.is_none());
    Ok(())
}

//! The search by spans with conditions, beside all pairs of small circuits.

use crate::circuits::{bits_of, circuit_of, delay_by_waves, generated, levels_of, vectors_of};
use crate::spans::{all_times, limits_of};
use std::alloc::{AllocError, Global};
use std::test::*;
use td_circuit::Circuit;
use td_domain::Admit;
use td_gates::Level;
use td_run::settle;
use td_span_search::{Admitted, Condition, Ending, Network, Search};
use td_stop::Stop;

/// Net 2 is a, 3 is b, 4 is contracted, 5 is driven by a constant, 6 is the output.
const NETS: &str = "module m(a, b, y); input a, b; output y; not #1 n(c, a); buf #2 k(d, 1'b1);
xor #3 g(y, c, b, d); endmodule";

/// A condition on the levels of a net.
fn at(net: u32, first: Option<bool>, last: Option<bool>) -> Condition {
    Condition {
        net,
        first,
        last,
        is_equal: false,
    }
}

/// The condition that both levels of a net are equal.
fn equal(net: u32) -> Condition {
    Condition {
        net,
        first: None,
        last: None,
        is_equal: true,
    }
}

/// A bit that follows from a number, or none.
fn bit_of(number: u64) -> Option<bool> {
    match number % 3 {
        0 => Some(false),
        1 => Some(true),
        _ => None,
    }
}

/// A condition on a net that follows from a number.
fn condition_of(net: u32, number: u64) -> Condition {
    if number % 10 == 9 {
        equal(net)
    } else {
        at(net, bit_of(number), bit_of(number / 3))
    }
}

/// The level to which a net settles under a vector.
fn level_at(alloc: Global, circuit: &Circuit, vector: u32, net: u32) -> Result<bool, AllocError> {
    let _few = circuit.gates();
    let bits = bits_of(alloc, vector, circuit.input_count())?;
    let levels = settle(alloc, circuit, &levels_of(alloc, &bits)?)?;
    Ok(levels.get(net as usize).copied() == Some(Level::One))
}

/// Whether a pair of vectors keeps a condition.
fn keeps(
    alloc: Global,
    circuit: &Circuit,
    condition: Condition,
    pair: (u32, u32),
) -> Result<bool, AllocError> {
    let first = level_at(alloc, circuit, pair.0, condition.net)?;
    let last = level_at(alloc, circuit, pair.1, condition.net)?;
    Ok(
        condition.first.unwrap_or(first) == first
            && condition.last.unwrap_or(last) == last
            && (!condition.is_equal || first == last),
    )
}

/// The delay of a pair of vectors, where it keeps all conditions.
fn delay_keeping(
    alloc: Global,
    circuit: &Circuit,
    conditions: &[Condition],
    pair: (u32, u32),
) -> Result<Option<u64>, AllocError> {
    for condition in conditions {
        if !keeps(alloc, circuit, *condition, pair)? {
            return Ok(None);
        }
    }
    let first = bits_of(alloc, pair.0, circuit.input_count())?;
    let second = bits_of(alloc, pair.1, circuit.input_count())?;
    Ok(Some(delay_by_waves(alloc, circuit, &first, &second)?))
}

/// The greatest delay of the pairs that keep all conditions, if there are some.
fn worst(
    alloc: Global,
    circuit: &Circuit,
    conditions: &[Condition],
) -> Result<Option<u64>, AllocError> {
    let mut worst: Option<u64> = None;
    for before in 0..vectors_of(circuit.input_count()) {
        for after in 0..vectors_of(circuit.input_count()) {
            let delay = delay_keeping(alloc, circuit, conditions, (before, after))?;
            if let Some(delay) = delay {
                worst = Some(worst.unwrap_or(0).max(delay));
            }
        }
    }
    Ok(worst)
}

/// What a search finds: the best delay and the latest moment that is possible, or that no pair
/// keeps all conditions, and whether that has an empty clause.
fn found(
    alloc: Global,
    circuit: &Circuit,
    conditions: &[Condition],
) -> Result<Option<(u64, u64)>, AllocError> {
    let _few = circuit.gates();
    let admit = Admit::all(alloc, circuit.input_count())?;
    let network = Network::new(alloc, circuit)?;
    let mut admitted = Admitted::new(alloc, &network, &admit)?;
    admitted.conditions = Vec::from_slice(alloc, conditions)?;
    let times = all_times(alloc, circuit)?;
    let stop = Stop::never();
    let limits = limits_of(10_000);
    let mut search = Search::new(alloc, &network, &admitted, &times, limits, &stop)?;
    search.run()?;
    let refutation = search.refutation(search.top())?;
    let is_empty = search.ending() == Some(Ending::NoPair);
    if is_empty && refutation.is_empty && search.pair().is_none() {
        return Ok(None);
    }
    Ok(Some((search.low(), search.top())))
}

/// Whether a search finds the greatest delay of the pairs that keep these conditions, or that there
/// are none.
fn agrees(alloc: Global, circuit: &Circuit, conditions: &[Condition]) -> Result<bool, AllocError> {
    let wanted = match worst(alloc, circuit, conditions)? {
        Some(delay) => Some((delay, delay)),
        None => None,
    };
    Ok(found(alloc, circuit, conditions)? == wanted)
}

#[test]
fn conditions_beside_all_pairs(rt: HostRuntime) -> Result<(), Fail> {
    let alloc = rt.alloc();
    for seed in 0..60 {
        let circuit = generated(alloc, 1 + seed % 3, 2 + seed % 9, seed).ok_or("a circuit")?;
        let gate = circuit.first_gate();
        let one = condition_of(gate, seed);
        let other = condition_of(gate.saturating_add(1), seed / 2);
        assert!(rt; agrees(alloc, &circuit, &[one, other])?, "circuit {seed}");
    }
    Ok(())
}

/// The greatest delay, as a search finds it, of the pairs of a circuit that keep these conditions;
/// none where there are no such pairs.
fn found_in_nets(alloc: Global, conditions: &[Condition]) -> Option<Option<(u64, u64)>> {
    let circuit = circuit_of(alloc, NETS)?;
    match found(alloc, &circuit, conditions) {
        Ok(found) => Some(found),
        Err(_) => None,
    }
}

#[test]
fn conditions_on_each_kind_of_net(rt: HostRuntime) -> Result<(), Fail> {
    let alloc = rt.alloc();
    // A change of a takes 1 + 3 steps, one of b 3.
    assert_eq!(rt;
        found_in_nets(alloc, &[at(4, Some(true), Some(false))]),
        Some(Some((4, 4)))
    );
    assert_eq!(rt; found_in_nets(alloc, &[equal(4)]), Some(Some((3, 3))));
    assert_eq!(rt;
        found_in_nets(alloc, &[equal(4), equal(3)]),
        Some(Some((0, 0)))
    );
    assert_eq!(rt;
        found_in_nets(alloc, &[at(5, Some(true), None)]),
        Some(Some((4, 4)))
    );
    // No pair keeps these.
    let high = at(2, Some(true), None);
    let low = at(2, Some(false), None);
    assert_eq!(rt; found_in_nets(alloc, &[high, low]), Some(None));
    assert_eq!(rt;
        found_in_nets(alloc, &[high, at(4, Some(true), None)]),
        Some(None)
    );
    assert_eq!(rt;
        found_in_nets(alloc, &[at(5, None, Some(false))]),
        Some(None)
    );
    Ok(())
}

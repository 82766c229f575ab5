//! Sheets: how many gates a narrowing reaches, and what is taken back.

ghost use Rattle.std.specs.Prelude.{◌≡◌, Some, slice_get};
ghost use Rattle.td_arrival.specs.Arrivals.{arrival_functions};
ghost use Rattle.td_arrival.specs.Coverage.{span_reach};
ghost use Rattle.td_domain.specs.declared.cubes.Trit.TheVariants.{Free};
ghost use Rattle.td_domain.specs.Sheets.{IsSheet};

use crate::circuits::circuit_of;
use crate::texts::{C17, module};
use std::alloc::Global;
use std::process::Abort;
use std::test::*;
use td_arrival::Arrival;
use td_circuit::Circuit;
use td_domain::{Cube, Domain, Sheet};
use td_edges::Edges;
use td_ternary::Possible;

/// How many gates the narrowing of the free cube at this position reaches.
fn redone<D: Domain>(
    rt: &impl Abort,
    alloc: Global,
    circuit: &Circuit,
    position: usize,
    bit: bool,
) -> Result<u32, Fail> {
    let free = Cube::free(alloc, circuit.input_count())?;
    let mut sheet = Sheet::<D>::new(alloc, circuit, &free)?;
    assert!(rt; position < free.len());
    sheet.narrow(circuit, position, bit)?;
    Ok(sheet.redone())
}

/// How many gates the narrowings at each input's first position reach, one figure for each bit.
fn redone_each<D: Domain>(
    rt: &impl Abort,
    alloc: Global,
    circuit: &Circuit,
) -> Result<String, Fail> {
    let mut figures = String::new(alloc);
    for input in 0..circuit.input_count() {
        let position = input.saturating_mul(2);
        let zero = redone::<D>(rt, alloc, circuit, position, false)?;
        let one = redone::<D>(rt, alloc, circuit, position, true)?;
        figures.push_str(&format!(in alloc; "{zero}{one} ")?)?;
    }
    Ok(figures)
}

/// Looks at how many gates such narrowings reach.
fn check_reached<D: Domain>(
    rt: &impl Abort,
    alloc: Global,
    circuit: &Circuit,
    wanted: &str,
) -> Result<(), Fail> {
    assert_eq!(rt; redone_each::<D>(rt, alloc, circuit)?.as_str(), wanted);
    Ok(())
}

/// The gates after each input: N10 and N22 after N1, N16, N22 and N23 after N2, and so on.
#[test]
fn gates_reached(rt: HostRuntime) -> Result<(), Fail> {
    let alloc = rt.alloc();
    let six = circuit_of(alloc, C17).ok_or("a circuit")?;
    check_reached::<Arrival>(&rt, alloc, &six, "22 33 66 55 22 ")?;
    check_reached::<Possible>(&rt, alloc, &six, "22 33 66 55 22 ")?;
    check_reached::<Edges>(&rt, alloc, &six, "22 33 66 55 22 ")
}

/// Of a gate with a slow arm that arm and itself, or itself alone.
#[test]
fn gates_reached_by_a_slow_arm(rt: HostRuntime) -> Result<(), Fail> {
    let alloc = rt.alloc();
    let slow = module(alloc, "a, b", "y", "buf #4 (t,a); or #1 (y,b,t);")?;
    let slow = circuit_of(alloc, &slow).ok_or("a circuit")?;
    check_reached::<Arrival>(&rt, alloc, &slow, "22 11 ")
}

/// An inverter that falls later than it rises, so that its bound is less where its input ends at 0.
fn inverter(alloc: Global) -> Result<Circuit, Fail> {
    let inverter = module(alloc, "a", "y", "not #(2,3) (y,a);")?;
    Ok(circuit_of(alloc, &inverter).ok_or("a circuit")?)
}

/// Narrows an inverter's sheet of the free cube, and takes that back.
fn check_back(rt: &impl Abort, circuit: &Circuit, sheet: &mut Sheet<Arrival>)
    requires sheet { IsSheet arrival_functions (λ signal. span_reach signal.changes) circuit.now sheet.old }
    requires free { slice_get sheet.old.cube 1 ≡ Some Free }
{
    assert_eq!(rt; sheet.bound(), Some(3));
    let narrowed = sheet.narrow(circuit, 1, false).is_ok();
    assert_eq!(rt; sheet.bound(), Some(if narrowed { 2 } else { 3 }));
    assert_eq!(rt; sheet.widen(), narrowed);
    assert_eq!(rt; sheet.bound(), Some(3));
    assert_eq!(rt; sheet.cube().least_free(), Some(0));
    assert!(rt; !sheet.widen());
}

/// A narrowing that was refused leaves the sheet as it was, and one that wasn't is taken back.
#[test]
fn taken_back(rt: HostRuntime) -> Result<(), Fail> {
    let alloc = rt.alloc();
    let circuit = inverter(alloc)?;
    let free = Cube::free(alloc, circuit.input_count())?;
    assert!(rt; 1 < free.len());
    let mut sheet = Sheet::<Arrival>::new(alloc, &circuit, &free)?;
    check_back(&rt, &circuit, &mut sheet);
    Ok(())
}

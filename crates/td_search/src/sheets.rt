//! A sheet of each domain, which goes from cube to cube.

ghost use Rattle.std.specs.Prelude.{◌≡◌, ℕ, ◌*◌, ◌<◌, ◌≤◌, ◌^◌, true, Option, Some, length, IfOk, IfSome, OnOk};
ghost use Rattle.std.specs.List.{All};
ghost use Rattle.td_circuit.specs.Numbering.{setting};
ghost use Rattle.td_domain.specs.Bounds.{IsBound, IsUpperBoundIn};
ghost use Rattle.td_domain.specs.Sheets.{IsSheet};
ghost use Rattle.td_certificate.specs.declared.tree.BoundedBy.TheVariants.{Both};
ghost use Rattle.td_certificate.specs.Accepts.{IsBoundBy};
ghost use Rattle.td_arrival.specs.Arrivals.{arrival_functions, last_of as arrival_last_of};
ghost use Rattle.td_arrival.specs.Coverage.{span_reach};
ghost use Rattle.td_search.specs.OpenEnds.{HasOpenEnd};
ghost use Rattle.td_search.specs.Sheeted.{AreSheets};

use std::alloc::{AllocError, Global};
use td_arrival::{Arrival, Signal};
use td_circuit::Circuit;
use td_domain::{Cube, Domain, Sheet, bound_together, move_to};
use td_gates::Level;
use td_ternary::Possible;

/// A sheet of each domain.
#[derive(Drop)]
pub struct Sheets {
    pub arrival: Sheet<Arrival>,
    pub possible: Sheet<Possible>,
}

impl Sheets {
    /// The sheets of a cube. The error is out of memory.
    pub fn new(alloc: Global, circuit: &Circuit, cube: &Cube) -> Result<Sheets, AllocError>
        requires { length cube.now ≡ 2 * length circuit.now.netlist.inputs }
        ensures sheets { IfOk result (AreSheets circuit.now) }
        ensures arrival { IfOk result (λ sheets. sheets.arrival.cube ≡ cube.now) }
        ensures possible { IfOk result (λ sheets. sheets.possible.cube ≡ cube.now) }
    {
        Ok(Sheets {
            arrival: Sheet::new(alloc, circuit, cube)?,
            possible: Sheet::new(alloc, circuit, cube)?,
        })
    }

    /// Takes both sheets to a cube and answers the strongest domain's bound of it. The error is out
    /// of memory.
    pub fn strongest_of(
        &mut self,
        alloc: Global,
        circuit: &Circuit,
        cube: &Cube,
    ) -> Result<u64, AllocError>
        requires sheets { AreSheets circuit.now self.old }
        requires positions { length cube.now ≡ 2 * length circuit.now.netlist.inputs }
        ensures sheets { AreSheets circuit.now self.new }
        ensures bound { IfOk result (λ bound. IsBoundBy Both (setting circuit.now) cube.now (Some bound)) }
        ensures small { IfOk result (λ bound. bound < 10 ^ 15) }
    {
        move_to(alloc, circuit, &mut self.arrival, cube)?;
        move_to(alloc, circuit, &mut self.possible, cube)?;
        Ok(self.strongest(circuit))
    }

    /// The strongest domain's bound of the cube of both sheets. It always has one.
    pub fn strongest(&self, circuit: &Circuit) -> u64
        requires sheets { AreSheets circuit.now self.now }
        requires cube { self.now.possible.cube ≡ self.now.arrival.cube }
        ensures bound { IsBoundBy Both (setting circuit.now) self.now.arrival.cube (Some result) }
        ensures sound { IsUpperBoundIn (setting circuit.now) self.now.arrival.cube result }
        ensures small { result < 10 ^ 15 }
    {
        bound_together(circuit, &self.arrival, &self.possible).unwrap_or(0)
    }
}

/// The strongest domain's bound of a cube, in steps. The error is out of memory.
pub fn strongest_bound(alloc: Global, circuit: &Circuit, cube: &Cube) -> Result<u64, AllocError>
    requires { length cube.now ≡ 2 * length circuit.now.netlist.inputs }
    ensures bound { IfOk result (λ bound. IsBoundBy Both (setting circuit.now) cube.now (Some bound)) }
    ensures small { IfOk result (λ bound. bound < 10 ^ 15) }
{
    Ok(Sheets::new(alloc, circuit, cube)?.strongest(circuit))
}

/// The bound of a sheet's cube by arrival windows, where an output that may change as late as that
/// has no known level after that change. Then possible levels know no last moment of that output,
/// and the bound is the strongest domain's.
pub fn open_bound(circuit: &Circuit, arrival: &Sheet<Arrival>) -> Option<u64>
    requires sheet { IsSheet arrival_functions (λ signal. span_reach signal.changes) circuit.now arrival.now }
    ensures bound { IfSome result (λ bound. IsBoundBy Both (setting circuit.now) arrival.now.cube (Some bound)) }
    ensures sound { IfSome result (IsUpperBoundIn (setting circuit.now) arrival.now.cube) }
    ensures small { IfSome result (λ bound. bound < 10 ^ 15) }
{
    let bound = arrival.bound()?;
    if has_open_end(arrival.signals(), circuit.outputs(), bound) {
        Some(bound)
    } else {
        None
    }
}

/// Whether one of some nets may change last at this moment, and has no known level after that
/// change.
fn has_open_end(signals: &[Signal], nets: &[u32], moment: u64) -> bool
    requires { All (λ net. net < length signals.now) nets.now }
    ensures { result ≡ true → HasOpenEnd arrival_last_of (λ signal. signal.finish) signals.now nets.now moment }
{
    for net in nets {
        let signal = &signals[*net as usize];
        if signal.finish == Level::X && Arrival::last(signal) == Some(moment) {
            return true;
        }
    }
    false
}

/// The bound of a cube by the domain of a sheet, where the domain has one that is at most the cut.
/// Takes the sheet to the cube. The error is out of memory.
pub fn bound_within<D: Domain>(
    alloc: Global,
    circuit: &Circuit,
    sheet: &mut Sheet<D>,
    cube: &Cube,
    cut: u64,
) -> Result<Option<u64>, AllocError>
    requires sheet { IsSheet D.functions D.reach circuit.now sheet.old }
    requires positions { length cube.now ≡ 2 * length circuit.now.netlist.inputs }
    ensures sheet { IsSheet D.functions D.reach circuit.now sheet.new }
    ensures cube { OnOk result (sheet.new.cube ≡ cube.now) }
    ensures bound { IfOk result (λ answer. (moment : ℕ) → answer ≡ Some moment
        → IsBound D.functions (setting circuit.now) cube.now (Some moment)) }
    ensures sound { IfOk result (λ answer. (moment : ℕ) → answer ≡ Some moment → IsUpperBoundIn (setting circuit.now) cube.now moment) }
    ensures within { IfOk result (λ answer. (moment : ℕ) → answer ≡ Some moment → moment ≤ cut) }
{
    move_to(alloc, circuit, sheet, cube)?;
    Ok(within_cut(sheet.bound(), cut))
}

// The moment, where it is there and at most the cut.
fn within_cut(bound: Option<u64>, cut: u64) -> Option<u64>
    ensures is { (moment : ℕ) → result ≡ Some moment → bound ≡ Some moment }
    ensures within { (moment : ℕ) → result ≡ Some moment → moment ≤ cut }
{
    bound.filter(|moment| *moment <= cut)
}

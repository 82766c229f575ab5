//! The strategy `lead`: what it does with a node.

ghost use Rattle.std.specs.Prelude.{◌≡◌, ℕ, ◌*◌, ◌<◌, ◌^◌, Option, Some, length, IfOk, IfSome};
ghost use Rattle.std.specs.List.{All};
ghost use Rattle.td_circuit.specs.Numbering.{nets, setting};
ghost use Rattle.td_certificate.specs.declared.tree.BoundedBy.TheVariants.{EdgesAndPossible};
ghost use Rattle.td_certificate.specs.Accepts.{IsBoundBy};
ghost use Rattle.td_domain.specs.Bounds.{IsUpperBoundIn};
ghost use Rattle.td_domain.specs.Sheets.{IsSheet};
ghost use Rattle.td_edges.specs.EdgeSignals.{edge_functions, last_of as edges_last_of};
ghost use Rattle.td_edges.specs.Coverage.{span_reach};
ghost use Rattle.td_ternary.specs.Possibles.{possible_functions, last_change};
ghost use Rattle.td_search.specs.Branchings.{IsBranching};
ghost use Rattle.td_search.specs.Deciding.{IsStep};
ghost use Rattle.td_search.specs.OpenEnds.{HasOpenEnd};
ghost use Rattle.td_search.specs.Sheeted.{AreSheets, IsScratch};
ghost use Rattle.td_search.specs.declared.strategy.Strategy.TheVariants.{Lead};

use crate::branching::Branching;
use crate::scratch::Scratch;
use crate::sheets::{Sheets, bound_within};
use crate::step::Step;
use std::alloc::{AllocError, Global};
use std::mem;
use td_book::BoundedBy;
use td_circuit::Circuit;
use td_domain::{Cube, Domain, Sheet, bound_together, move_to};
use td_edges::{Edges, Signal};
use td_gates::Level;
use td_ternary::Possible;

/// What to do with a cube under a cut. It is closed where edges, possible levels, or both at once
/// have a bound that is at most the cut. Else it is split, or measured. The error is out of memory.
pub fn next_step(
    alloc: Global,
    scratch: &mut Scratch,
    circuit: &Circuit,
    cube: &Cube,
    cut: u64,
) -> Result<Step, AllocError>
    requires scratch { IsScratch circuit.now scratch.old }
    requires positions { length cube.now ≡ 2 * length circuit.now.netlist.inputs }
    ensures step { IfOk result (IsStep Lead (setting circuit.now) cube.now cut) }
    ensures scratch { IsScratch circuit.now scratch.new }
{
    let mut branching = taken_branching(alloc, circuit, cube, &mut scratch.branching)?;
    let step = step_by(
        alloc,
        &mut scratch.sheets,
        &mut branching,
        circuit,
        cube,
        cut,
    );
    scratch.branching = Some(branching);
    step
}

/// The strongest domain's bound of a cube. With `lead` that domain has edges. The error is out of
/// memory.
pub fn strongest_with_edges(
    alloc: Global,
    scratch: &mut Scratch,
    circuit: &Circuit,
    cube: &Cube,
) -> Result<u64, AllocError>
    requires scratch { IsScratch circuit.now scratch.old }
    requires positions { length cube.now ≡ 2 * length circuit.now.netlist.inputs }
    ensures bound { IfOk result (λ bound. IsBoundBy EdgesAndPossible (setting circuit.now) cube.now (Some bound)) }
    ensures small { IfOk result (λ bound. bound < 10 ^ 15) }
    ensures scratch { IsScratch circuit.now scratch.new }
{
    let mut branching = taken_branching(alloc, circuit, cube, &mut scratch.branching)?;
    let bound = moved_strongest(alloc, &mut scratch.sheets, &mut branching, circuit, cube);
    scratch.branching = Some(branching);
    bound
}

/// The bound of a cube by edges, 0 where there is none. The error is out of memory.
pub fn edges_bound(
    alloc: Global,
    scratch: &mut Scratch,
    circuit: &Circuit,
    cube: &Cube,
) -> Result<u64, AllocError>
    requires scratch { IsScratch circuit.now scratch.old }
    requires positions { length cube.now ≡ 2 * length circuit.now.netlist.inputs }
    ensures scratch { IsScratch circuit.now scratch.new }
{
    let mut branching = taken_branching(alloc, circuit, cube, &mut scratch.branching)?;
    let moved = move_to(alloc, circuit, &mut branching.edges, cube);
    let bound = branching.edges.bound().unwrap_or(0);
    scratch.branching = Some(branching);
    moved?;
    Ok(bound)
}

/// The guide that is there, taken out, or a new one. The error is out of memory.
fn taken_branching(
    alloc: Global,
    circuit: &Circuit,
    cube: &Cube,
    branching: &mut Option<Branching>,
) -> Result<Branching, AllocError>
    requires branching { (there : Branching) → branching.old ≡ Some there → IsBranching circuit.now there }
    requires positions { length cube.now ≡ 2 * length circuit.now.netlist.inputs }
    ensures taken { IfOk result (IsBranching circuit.now) }
    ensures branching { (there : Branching) → branching.new ≡ Some there → IsBranching circuit.now there }
{
    match mem::replace(branching, None) {
        Some(there) => Ok(there),
        None => Branching::new(alloc, circuit, cube),
    }
}

/// As `next_step`.
fn step_by(
    alloc: Global,
    sheets: &mut Sheets,
    branching: &mut Branching,
    circuit: &Circuit,
    cube: &Cube,
    cut: u64,
) -> Result<Step, AllocError>
    requires sheets { AreSheets circuit.now sheets.old }
    requires branching { IsBranching circuit.now branching.old }
    requires positions { length cube.now ≡ 2 * length circuit.now.netlist.inputs }
    ensures step { IfOk result (IsStep Lead (setting circuit.now) cube.now cut) }
    ensures sheets { AreSheets circuit.now sheets.new }
    ensures branching { IsBranching circuit.now branching.new }
{
    if let Some(bound) = bound_within(alloc, circuit, &mut branching.edges, cube, cut)? {
        return Ok(Step::Close(BoundedBy::Edges, bound));
    }
    if let Some((output, bound)) = open_output(circuit, &branching.edges) {
        if bound > cut {
            return Ok(open_step(circuit, branching, cube, output, bound));
        }
    }
    if let Some(bound) = bound_within(alloc, circuit, &mut sheets.possible, cube, cut)? {
        return Ok(Step::Close(BoundedBy::Possible, bound));
    }
    let bound = bound_with_edges(circuit, &branching.edges, &sheets.possible);
    if bound <= cut {
        return Ok(Step::Close(BoundedBy::EdgesAndPossible, bound));
    }
    let output = latest_output(
        circuit,
        branching.edges.signals(),
        sheets.possible.signals(),
    );
    Ok(open_step(circuit, branching, cube, output, bound))
}

/// As `strongest_with_edges`.
fn moved_strongest(
    alloc: Global,
    sheets: &mut Sheets,
    branching: &mut Branching,
    circuit: &Circuit,
    cube: &Cube,
) -> Result<u64, AllocError>
    requires sheets { AreSheets circuit.now sheets.old }
    requires branching { IsBranching circuit.now branching.old }
    requires positions { length cube.now ≡ 2 * length circuit.now.netlist.inputs }
    ensures bound { IfOk result (λ bound. IsBoundBy EdgesAndPossible (setting circuit.now) cube.now (Some bound)) }
    ensures small { IfOk result (λ bound. bound < 10 ^ 15) }
    ensures sheets { AreSheets circuit.now sheets.new }
    ensures branching { IsBranching circuit.now branching.new }
{
    move_to(alloc, circuit, &mut branching.edges, cube)?;
    move_to(alloc, circuit, &mut sheets.possible, cube)?;
    Ok(bound_with_edges(circuit, &branching.edges, &sheets.possible))
}

/// The bound of the cube of both sheets by edges and possible levels at once. There always is one.
pub fn bound_with_edges(circuit: &Circuit, edges: &Sheet<Edges>, possible: &Sheet<Possible>) -> u64
    requires edges { IsSheet edge_functions (λ signal. span_reach signal.changes) circuit.now edges.now }
    requires possible { IsSheet possible_functions (λ signal. last_change signal.changes) circuit.now possible.now }
    requires cube { possible.now.cube ≡ edges.now.cube }
    ensures bound { IsBoundBy EdgesAndPossible (setting circuit.now) edges.now.cube (Some result) }
    ensures sound { IsUpperBoundIn (setting circuit.now) edges.now.cube result }
    ensures small { result < 10 ^ 15 }
{
    bound_together(circuit, edges, possible).unwrap_or(0)
}

/// The first output that changes last by edges, and the bound of the sheet's cube by them, where
/// that output has no known level after that change. Then possible levels know no last moment of
/// it, and the bound is the strongest domain's.
fn open_output(circuit: &Circuit, edges: &Sheet<Edges>) -> Option<(u32, u64)>
    requires sheet { IsSheet edge_functions (λ signal. span_reach signal.changes) circuit.now edges.now }
    ensures output { IfSome result (λ found. found.0 < length (nets circuit.now)) }
    ensures bound { IfSome result (λ found. IsBoundBy EdgesAndPossible (setting circuit.now) edges.now.cube (Some found.1)) }
    ensures sound { IfSome result (λ found. IsUpperBoundIn (setting circuit.now) edges.now.cube found.1) }
    ensures small { IfSome result (λ found. found.1 < 10 ^ 15) }
{
    let bound = edges.bound()?;
    let output = open_end(edges.signals(), circuit.outputs(), bound)?;
    Some((output, bound))
}

/// The first of some nets that may change last at this moment, if it has no known level after that
/// change.
fn open_end(signals: &[Signal], nets: &[u32], moment: u64) -> Option<u32>
    requires { All (λ net. net < length signals.now) nets.now }
    ensures net { IfSome result (λ net. net < length signals.now) }
    ensures end { IfSome result (λ net. HasOpenEnd edges_last_of (λ signal. signal.finish) signals.now nets.now moment) }
{
    for net in nets {
        let signal = &signals[*net as usize];
        if Edges::last(signal) == Some(moment) {
            if signal.finish == Level::X {
                return Some(*net);
            }
            return None;
        }
    }
    None
}

/// What is to be done with a cube whose bound is above the cut, by the output that changes last.
fn open_step(
    circuit: &Circuit,
    branching: &mut Branching,
    cube: &Cube,
    output: u32,
    bound: u64,
) -> Step
    requires branching { IsBranching circuit.now branching.old }
    requires output { output < length (nets circuit.now) }
    requires positions { length cube.now ≡ 2 * length circuit.now.netlist.inputs }
    requires bound { IsBoundBy EdgesAndPossible (setting circuit.now) cube.now (Some bound) }
    requires small { bound < 10 ^ 15 }
    ensures step { (cut : ℕ) → cut < bound → IsStep Lead (setting circuit.now) cube.now cut result }
    ensures branching { IsBranching circuit.now branching.new }
{
    let position = branching
        .fan_in
        .position(circuit, branching.edges.signals(), cube, output);
    match position {
        Some(position) => Step::Split(position, bound),
        None => Step::Measure,
    }
}

/// The output that changes last by these signals, the first one of several, and a constant where
/// there is no output.
fn latest_output(circuit: &Circuit, edges: &[Signal], possible: &[<Possible as Domain>::Sig]) -> u32
    requires edges { length edges.now ≡ length (nets circuit.now) }
    requires possible { length possible.now ≡ length (nets circuit.now) }
    ensures { result < length (nets circuit.now) }
{
    // For the prover: gates are in order.
    let _numbering = circuit.gates();
    latest_of(edges, possible, circuit.outputs())
}

/// Of some nets the one that changes last by these signals, the first one of several, and the first
/// net of all where there is none.
fn latest_of(edges: &[Signal], possible: &[<Possible as Domain>::Sig], nets: &[u32]) -> u32
    requires some { 0 < length edges.now }
    requires possible { length possible.now ≡ length edges.now }
    requires within { All (λ net. net < length edges.now) nets.now }
    ensures { result < length edges.now }
{
    let mut output = 0;
    let mut latest = None;
    for net in nets {
        let place = *net as usize;
        let last = last_of(&edges[place], &possible[place]);
        if is_later(last, latest) {
            latest = Some(last);
            output = *net;
        }
    }
    output
}

/// Whether a moment is later than another one, if there is one.
fn is_later(last: u64, other: Option<u64>) -> bool {
    match other {
        Some(other) => last > other,
        None => true,
    }
}

/// The lesser of the last moments that are there.
fn last_of(edges: &Signal, possible: &<Possible as Domain>::Sig) -> u64 {
    let last = Edges::last(edges).unwrap_or(0);
    match Possible::last(possible) {
        Some(other) => last.min(other),
        None => last,
    }
}

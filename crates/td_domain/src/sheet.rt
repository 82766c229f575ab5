//! All signals of one cube, kept while the cube is narrowed and widened.

ghost use Rattle.std.specs.Prelude.{◌≡◌, ℕ, false, ◌+◌, ◌*◌, ◌/◌, ◌<◌, ◌^◌, [], Option, Some, None, length, set, slice_get, OnOk, OnErr, IfOk};
ghost use Rattle.std.specs.List.{All};
ghost use Rattle.std.specs.Global.{Vec};
ghost use Rattle.td_circuit.specs.NetValues.{net_value};
ghost use Rattle.td_circuit.specs.Numbering.{Numbered, nets, setting};
ghost use Rattle.td_domain.specs.declared.cubes.Trit.TheVariants.{Free};
ghost use Rattle.td_domain.specs.Bounds.{AreSignals, IsBound, IsUpperBoundIn};
ghost use Rattle.td_domain.specs.Cones.{IsCone};
ghost use Rattle.td_domain.specs.Sheets.{IsSheet, IsNarrowed, IsUnchanged, IsWidened, AreCones, known};

use crate::bounding::{greatest_last, signals};
use crate::cones::cone;
use crate::cubes::{Cube, Trit};
use crate::domain::Domain;
use crate::redoing::{Narrower, redo};
use crate::undoing::{Narrowing, Replaced, put_aside, taken_space, undo};
use std::alloc::{AllocError, Global};
use std::marker::Model;
use std::mem;
use td_circuit::Circuit;

/// All signals of one cube. It is narrowed bit by bit, and each narrowing can be taken back.
#[derive(Drop)]
pub struct Sheet<D: Domain> {
    alloc: Global,
    cube: Cube,
    signals: Vec<D::Sig>,
    // Those that still stand, the latest last.
    narrowings: Vec<Narrowing<D::Sig>>,
    redone: u32,
    outputs: Vec<u32>,
    // By input the outputs of the gates that it reaches, once they were asked for.
    cones: Vec<Option<Vec<u32>>>,
    // Room for a mark of each net while signals are made anew.
    changed: Vec<bool>,
    // The room of narrowings that were taken back, to be used again.
    spare: Vec<Vec<Replaced<D::Sig>>>,
    // Room for signals, and how many of these can be released by taking back all narrowings that
    // still stand.
    scratch: D::Scratch,
    releasable: usize,
}

impl<D: Domain> Model for Sheet<D> {
    ghost use Rattle.std.specs.Prelude.{◌≡◌, ◌<◌, length, reverse};
    ghost use Rattle.std.specs.List.{All};
    ghost use Rattle.td_domain.specs.Sheets.{Shown, pages_before, CanBeUndone};

    ghost Value = { Shown D.Sig };

    ghost view = { λ s. record { cube = s.cube; signals = s.signals.items; wider = pages_before s.cube s.signals.items (reverse s.narrowings.items); redone = s.redone; outputs = s.outputs.items; cones = s.cones.items } };

    ghost invariant = { λ s. CanBeUndone (length s.cube) (length s.signals.items) (reverse s.narrowings.items) × All (λ net. net < length s.signals.items) s.outputs.items × (length s.changed.items ≡ length s.signals.items) };
}

impl<D: Domain> Sheet<D> {
    /// The sheet of a cube. Fails where memory runs out.
    pub fn new(alloc: Global, circuit: &Circuit, cube: &Cube) -> Result<Self, AllocError>
        requires { length cube.now ≡ 2 * length circuit.now.netlist.inputs }
        ensures sheet { IfOk result (IsSheet D.functions D.reach circuit.now) }
        ensures cube { IfOk result (λ sheet. sheet.cube ≡ cube.now) }
        ensures wider { IfOk result (λ sheet. sheet.wider ≡ []) }
        ensures redone { IfOk result (λ sheet. sheet.redone ≡ 0) }
    {
        Ok(Sheet {
            alloc,
            cube: cube.copy(alloc)?,
            signals: signals::<D>(alloc, circuit, cube)?,
            narrowings: Vec::new(alloc),
            redone: 0,
            outputs: Vec::from_slice(alloc, circuit.outputs())?,
            cones: no_cones(alloc, circuit)?,
            changed: vec![in alloc; false; circuit.net_count()]?,
            spare: Vec::new(alloc),
            scratch: D::scratch(alloc),
            releasable: 0,
        })
    }

    /// The cube.
    pub fn cube(&self) -> &Cube
        ensures { result.now ≡ self.now.cube }
    {
        &self.cube
    }

    /// The signals of all nets, by number: those that the cube gives.
    pub fn signals(&self) -> &[D::Sig]
        ensures numbered { result.now ≡ self.now.signals }
        ensures all { (circuit : Numbered) → IsSheet D.functions D.reach circuit self.now
            → AreSignals D.functions (setting circuit) self.now.cube (net_value (D.functions.constant_of false) (nets circuit) result.now) }
    {
        &self.signals
    }

    /// How many gates the input of the latest narrowing reaches, 0 after `new` and after `widen`.
    /// Of these only those were evaluated that read a changed signal.
    pub fn redone(&self) -> u32
        ensures { result ≡ self.now.redone }
    {
        self.redone
    }

    /// Makes a free position known, in a sheet of this circuit. Fails where memory runs out.
    pub fn narrow(
        &mut self,
        circuit: &Circuit,
        position: usize,
        bit: bool,
    ) -> Result<(), AllocError>
        requires sheet { IsSheet D.functions D.reach circuit.now self.old }
        requires free { slice_get self.old.cube position ≡ Some Free }
        ensures sheet { IsSheet D.functions D.reach circuit.now self.new }
        ensures narrowed { OnOk result (IsNarrowed circuit.now position bit self.old self.new) }
        ensures refused { OnErr result (IsUnchanged self.old self.new) }
        ensures counted { OnErr result (self.new.redone ≡ self.old.redone) }
    {
        let input = position / 2;
        self.narrowings.reserve(1)?;
        self.spare.reserve(self.narrowings.len().saturating_add(1))?;
        let cone = taken_cone(self.alloc, circuit, &mut self.cones, input)?;
        let most = cone.len().saturating_add(self.releasable);
        D::reserve(&mut self.scratch, most.saturating_add(1))?;
        self.cube.set(position, known(bit));
        let space = taken_space(self.alloc, &mut self.spare);
        let redone = redo::<D>(
            &mut self.scratch,
            circuit,
            Narrower {
                cube: &self.cube,
                position,
                cone: &cone,
            },
            &mut self.signals,
            &mut self.changed,
            space,
        );
        let count = cone.len() as u32;
        self.cones[input] = kept(circuit, cone);
        match redone {
            Ok(replaced) => {
                self.releasable = self.releasable.saturating_add(replaced.len());
                self.narrowings
                    .push_reserved(Narrowing { position, replaced });
                self.redone = count;
                Ok(())
            }
            Err(error) => {
                self.cube.set(position, Trit::Free);
                Err(error)
            }
        }
    }

    /// The position of the latest narrowing that still stands.
    pub(crate) fn latest(&self) -> Option<usize> {
        match self.narrowings.last() {
            Some(narrowing) => Some(narrowing.position),
            None => None,
        }
    }

    /// Takes back the latest narrowing that still stands. False where there is none.
    pub fn widen(&mut self) -> bool
        ensures widened { IsWidened self.old.wider result self.old self.new }
        ensures redone { self.new.redone ≡ 0 }
        ensures sheet { (circuit : Numbered) → IsSheet D.functions D.reach circuit self.old
            → IsSheet D.functions D.reach circuit self.new }
    {
        self.redone = 0;
        match self.narrowings.pop() {
            Some(narrowing) => {
                self.releasable = self.releasable.saturating_sub(narrowing.replaced.len());
                let space = undo::<D>(&mut self.scratch, &mut self.signals, narrowing.replaced);
                put_aside(&mut self.spare, space);
                self.cube.set(narrowing.position, Trit::Free);
                true
            }
            None => false,
        }
    }

    /// The bound of the cube: a moment after which no output changes for any pair of it, `None`
    /// where the domain knows none for some output, and 0 without outputs.
    pub fn bound(&self) -> Option<u64>
        ensures bound { (circuit : Numbered) → IsSheet D.functions D.reach circuit self.now
            → IsBound D.functions (setting circuit) self.now.cube result }
        ensures only { (circuit : Numbered) → IsSheet D.functions D.reach circuit self.now
            → (other : Option ℕ) → IsBound D.functions (setting circuit) self.now.cube other → other ≡ result }
        ensures sound { (circuit : Numbered) → IsSheet D.functions D.reach circuit self.now
            → (moment : ℕ) → result ≡ Some moment → IsUpperBoundIn (setting circuit) self.now.cube moment }
        ensures small { (circuit : Numbered) → IsSheet D.functions D.reach circuit self.now
            → (moment : ℕ) → result ≡ Some moment → moment < 10 ^ 15 }
    {
        greatest_last::<D>(&self.signals, &self.outputs)
    }
}

/// For each input, that it isn't known which gates it reaches.
fn no_cones(alloc: Global, circuit: &Circuit) -> Result<Vec<Option<Vec<u32>>>, AllocError>
    ensures { IfOk result (λ cones. AreCones circuit.now cones.items) }
{
    let inputs = circuit.input_count();
    let mut cones = Vec::with_capacity(alloc, inputs)?;
    for _input in 0..inputs {
        cones.push(None)?;
    }
    Ok(cones)
}

/// The gates that an input reaches, taken out of those that are known or found anew.
fn taken_cone(
    alloc: Global,
    circuit: &Circuit,
    cones: &mut [Option<Vec<u32>>],
    input: usize,
) -> Result<Vec<u32>, AllocError>
    requires cones { AreCones circuit.now cones.old }
    requires input { input < length circuit.now.netlist.inputs }
    ensures cone { IfOk result (λ cone. IsCone circuit.now (2 + input) cone.items) }
    ensures cones { AreCones circuit.now cones.new }
{
    match mem::replace(&mut cones[input], None) {
        Some(cone) => Ok(cone),
        None => cone(alloc, circuit, 2 + input),
    }
}

/// The gates that an input reaches, where they are few enough to be kept: as many for all inputs
/// together as 64 for each net.
fn kept(circuit: &Circuit, cone: Vec<u32>) -> Option<Vec<u32>>
    ensures { (other : Vec ℕ) → result ≡ Some other → other ≡ cone }
{
    let space = circuit.net_count().saturating_mul(64);
    if cone.len().saturating_mul(circuit.input_count()) <= space {
        Some(cone)
    } else {
        None
    }
}

/// The trit of a known bit.
fn known(bit: bool) -> Trit
    ensures { result ≡ known bit }
{
    if bit { Trit::One } else { Trit::Zero }
}

//! What measures pairs and bounds cubes for the workers of a search.

ghost use Rattle.std.specs.Prelude.{◌≡◌, ℕ, ◌*◌, length, IfOk};
ghost use Rattle.td_circuit.specs.Numbering.{Numbered, setting};
ghost use Rattle.td_circuit.specs.Run.{IsDelayOfBits};
ghost use Rattle.td_search.specs.Deciding.{IsProbe};
ghost use Rattle.td_search.specs.Sheeted.{IsScratch};

use crate::probe::{Probe, probe_of};
use crate::scratch::Scratch;
use std::alloc::{AllocError, Global};
use td_circuit::Circuit;
use td_domain::{Cube, Pair};
use td_event_sim::{Interruption, delay_of, delay_until};
use td_stop::Stop;

/// What measures pairs and bounds cubes of a circuit, for any number of workers at a time. What it
/// answers is true of the circuit.
pub trait Prober {
    /// What a worker uses again for each call.
    type Scratch: Drop + Send;

    /// The scratch was made for this circuit.
    ghost is_for: { Self.Scratch → Numbered → Type 0 };

    /// A scratch for this circuit. The error is out of memory.
    fn scratch(&self, alloc: Global, circuit: &Circuit) -> Result<Self::Scratch, AllocError>
        ensures { IfOk result (λ scratch. is_for scratch circuit.now) };

    /// Whether each cube is bounded before its pair is measured, which is left out where the bound
    /// closes the cube. Else the pair of each cube is measured first.
    fn bounds_first(&self) -> bool {
        false
    }

    /// A bound of a cube by some domain. Where it is above the cut, it is the strongest domain's.
    /// The error is out of memory, and the scratch may be used again.
    fn bound(
        &self,
        scratch: &mut Self::Scratch,
        alloc: Global,
        circuit: &Circuit,
        cube: &Cube,
        cut: u64,
    ) -> Result<Probe, AllocError>
        requires scratch { is_for scratch.old circuit.now }
        requires positions { length cube.now ≡ 2 * length circuit.now.netlist.inputs }
        ensures probe { IfOk result (IsProbe (setting circuit.now) cube.now cut) }
        ensures scratch { is_for scratch.new circuit.now };

    /// The delay of a pair, in steps. The error is out of memory, and the scratch may be used
    /// again.
    fn measure(
        &self,
        scratch: &mut Self::Scratch,
        circuit: &Circuit,
        pair: &Pair,
    ) -> Result<u64, AllocError>
        requires scratch { is_for scratch.old circuit.now }
        requires first_fits { length pair.now.first ≡ length circuit.now.netlist.inputs }
        requires second_fits { length pair.now.second ≡ length circuit.now.netlist.inputs }
        ensures delay { IfOk result (IsDelayOfBits (setting circuit.now) pair.now.first pair.now.second) }
        ensures only { IfOk result (λ delay. (other : ℕ) → IsDelayOfBits (setting circuit.now) pair.now.first pair.now.second other → other ≡ delay) }
        ensures scratch { is_for scratch.new circuit.now };

    /// As `measure`, but a prober that looks at the stop may end without the delay once it is set.
    fn measure_until(
        &self,
        scratch: &mut Self::Scratch,
        circuit: &Circuit,
        pair: &Pair,
        _stop: &Stop,
    ) -> Result<u64, Interruption>
        requires scratch { is_for scratch.old circuit.now }
        requires first_fits { length pair.now.first ≡ length circuit.now.netlist.inputs }
        requires second_fits { length pair.now.second ≡ length circuit.now.netlist.inputs }
        ensures delay { IfOk result (IsDelayOfBits (setting circuit.now) pair.now.first pair.now.second) }
        ensures only { IfOk result (λ delay. (other : ℕ) → IsDelayOfBits (setting circuit.now) pair.now.first pair.now.second other → other ≡ delay) }
        ensures scratch { is_for scratch.new circuit.now }
    {
        let delay = self.measure(scratch, circuit, pair)?;
        Ok(delay)
    }
}

/// The product's own prober: it measures by one queue of events and bounds by sheets, as the search
/// in one thread does.
#[derive(Clone, Copy, Debug, Drop)]
pub struct Own;

impl Prober for Own {
    type Scratch = Scratch;

    ghost is_for = { λ scratch circuit. IsScratch circuit scratch };

    fn bounds_first(&self) -> bool {
        true
    }

    fn scratch(&self, alloc: Global, circuit: &Circuit) -> Result<Scratch, AllocError> {
        let cube = Cube::free(alloc, circuit.input_count())?;
        Scratch::new(alloc, circuit, &cube)
    }

    fn bound(
        &self,
        scratch: &mut Scratch,
        alloc: Global,
        circuit: &Circuit,
        cube: &Cube,
        cut: u64,
    ) -> Result<Probe, AllocError> {
        probe_of(alloc, &mut scratch.sheets, circuit, cube, cut)
    }

    fn measure(
        &self,
        scratch: &mut Scratch,
        circuit: &Circuit,
        pair: &Pair,
    ) -> Result<u64, AllocError> {
        delay_of(&mut scratch.events, circuit, pair)
    }

    fn measure_until(
        &self,
        scratch: &mut Scratch,
        circuit: &Circuit,
        pair: &Pair,
        stop: &Stop,
    ) -> Result<u64, Interruption> {
        delay_until(&mut scratch.events, circuit, pair, stop)
    }
}

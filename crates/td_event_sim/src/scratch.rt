//! The delay of a pair of vectors.

ghost use Rattle.std.specs.Prelude.{◌≡◌, ℕ, length, IfOk, IfErr};
ghost use Rattle.td_circuit.specs.Numbering.{setting};
ghost use Rattle.td_circuit.specs.Run.{IsDelayOfBits};
ghost use Rattle.td_event_sim.specs.Cached.{IsTheDelay};
ghost use Rattle.td_event_sim.specs.Scratch.{IsFor};
ghost use Rattle.td_event_sim.specs.Stopping.{StopNeedsStop};

use crate::cache::{Cache, place_of};
use crate::interruption::Interruption;
use crate::readers::readers;
use crate::state::{State, Worklists};
use std::alloc::{AllocError, Global};
use std::marker::Model;
use td_circuit::Circuit;
use td_domain::Pair;
use td_stop::Stop;

/// Room for the simulation of a circuit with the moments of its inputs, used again for each pair.
#[derive(Drop)]
pub struct Scratch {
    /// The outputs of the gates that read each net.
    readers: Vec<Vec<u32>>,
    state: State,
    lists: Worklists,
    /// The delays of pairs that were measured before.
    cache: Cache,
}

impl Model for Scratch {
    ghost use Rattle.std.specs.Prelude.{map};
    ghost use Rattle.td_event_sim.specs.Scratch.{Space};

    ghost Value = { Space };

    ghost view = { λ inside. record {
      readers = map (λ outputs. outputs.items) inside.readers.items;
      levels = inside.state.logic.levels.items;
      tallies = inside.state.logic.tallies.items;
      latest = inside.state.latest.items;
      whens = inside.state.events.whens.items;
      queue = inside.state.events.queue;
      cache = inside.cache;
    } };
}

impl Scratch {
    /// A scratch for a circuit and the moments that its inputs have now.
    pub fn new(alloc: Global, circuit: &Circuit) -> Result<Self, AllocError>
        ensures { IfOk result (IsFor circuit.now) }
    {
        let gates = circuit.gates();
        let first_output = circuit.first_gate() as usize;
        let readers = readers(alloc, gates, first_output, circuit.net_count())?;
        let state = State::new(alloc, circuit)?;
        let cache = Cache::new(alloc, circuit.input_count())?;
        let lists = Worklists {
            taken: Vec::new(alloc),
            turned: Vec::new(alloc),
        };
        Ok(Scratch {
            readers,
            state,
            lists,
            cache,
        })
    }
}

/// The delay of a pair of vectors: the latest moment at which an output changes, 0 where none does.
/// It takes time in the number of events, which may double from gate to gate, and memory in the
/// size of the circuit. The error is out of memory, and the scratch may be used again.
pub fn delay_of(scratch: &mut Scratch, circuit: &Circuit, pair: &Pair) -> Result<u64, AllocError>
    requires scratch { IsFor circuit.now scratch.old }
    requires first_fits { length pair.now.first ≡ length circuit.now.netlist.inputs }
    requires second_fits { length pair.now.second ≡ length circuit.now.netlist.inputs }
    ensures delay { IfOk result (IsDelayOfBits (setting circuit.now) pair.now.first pair.now.second) }
    ensures only { IfOk result (λ delay. (other : ℕ) → IsDelayOfBits (setting circuit.now) pair.now.first pair.now.second other → other ≡ delay) }
    ensures scratch { IsFor circuit.now scratch.new }
{
    match delay_until(scratch, circuit, pair, &Stop::never()) {
        Ok(delay) => Ok(delay),
        Err(Interruption::OutOfMemory) => Err(AllocError),
        Err(Interruption::Stopped) => unreachable!(),
    }
}

/// As `delay_of`, unless the stop is set meanwhile. A simulation looks at the stop after each two
/// million steps or so: the event of a net is one, and so is each gate that reads it. One of fewer
/// steps ends with its delay, whatever the stop says. After an error the scratch may be used again.
pub fn delay_until(
    scratch: &mut Scratch,
    circuit: &Circuit,
    pair: &Pair,
    stop: &Stop,
) -> Result<u64, Interruption>
    requires scratch { IsFor circuit.now scratch.old }
    requires first_fits { length pair.now.first ≡ length circuit.now.netlist.inputs }
    requires second_fits { length pair.now.second ≡ length circuit.now.netlist.inputs }
    ensures delay { IfOk result (IsDelayOfBits (setting circuit.now) pair.now.first pair.now.second) }
    ensures only { IfOk result (λ delay. (other : ℕ) → IsDelayOfBits (setting circuit.now) pair.now.first pair.now.second other → other ≡ delay) }
    ensures stopped { IfErr result (StopNeedsStop stop.now.can_be_set) }
    ensures scratch { IsFor circuit.now scratch.new }
{
    let place = place_of(pair);
    if let Some(delay) = scratch.cache.find(place, pair) {
        return Ok(delay);
    }
    let delay = simulated(scratch, circuit, pair, stop)?;
    scratch.cache.put(place, pair, delay);
    Ok(delay)
}

/// The delay of a pair that is simulated. The error is that of `delay_until`.
fn simulated(
    scratch: &mut Scratch,
    circuit: &Circuit,
    pair: &Pair,
    stop: &Stop,
) -> Result<u64, Interruption>
    requires scratch { IsFor circuit.now scratch.old }
    requires first_fits { length pair.now.first ≡ length circuit.now.netlist.inputs }
    requires second_fits { length pair.now.second ≡ length circuit.now.netlist.inputs }
    ensures delay { IfOk result (IsTheDelay circuit.now pair.now.first pair.now.second) }
    ensures stopped { IfErr result (StopNeedsStop stop.now.can_be_set) }
    ensures scratch { IsFor circuit.now scratch.new }
{
    scratch
        .state
        .simulate(&mut scratch.lists, &scratch.readers, circuit, pair, stop)
}

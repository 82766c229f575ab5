//! The simulation of a pair: events take place moment by moment, and after each the gates whose
//! target may have turned are evaluated.

ghost use Rattle.std.specs.Prelude.{◌≡◌, true, ℕ, ◌+◌, ◌-◌, ◌^◌, ◌<◌, ◌≤◌, List, length, map, slice_index, OnOk, IfOk, IfErr};
ghost use Rattle.std.specs.List.{All};
ghost use Rattle.td_gates.specs.Wave.{Wave};
ghost use Rattle.td_gates.specs.Schedule.{GateState};
ghost use Rattle.td_circuit.specs.Numbering.{nets, first_output as first_output_of, IsNumbering};
ghost use Rattle.td_event_sim.specs.Cached.{IsTheDelay};
ghost use Rattle.td_event_sim.specs.Counting.{AreCounted, StayCounted};
ghost use Rattle.td_event_sim.specs.Earliest.{IsFrom};
ghost use Rattle.td_event_sim.specs.Fitting.{FitsCircuit, HasSameSpace};
ghost use Rattle.td_event_sim.specs.Latest.{greatest_at};
ghost use Rattle.td_event_sim.specs.Moment.{AreWaiting, AreWaitingBut, AreUpdated};
ghost use Rattle.td_event_sim.specs.Passing.{IsPassed};
ghost use Rattle.td_event_sim.specs.Queue.{Waits, AreBelow};
ghost use Rattle.td_event_sim.specs.Reached.{HasReached};
ghost use Rattle.td_event_sim.specs.Rules.{AreReported, ones_of, rules_of};
ghost use Rattle.td_event_sim.specs.Scratch.{AreNets, AreReadersOf};
ghost use Rattle.td_event_sim.specs.State.{IsRunBy, IsStateBefore};
ghost use Rattle.td_event_sim.specs.Stopping.{StopNeedsStop};

use crate::earliest::NEVER;
use crate::events::Events;
use crate::interruption::Interruption;
use crate::logic::{Logic, settle};
use crate::looks::is_stopped;
use std::alloc::{AllocError, Global};
use td_circuit::Circuit;
use td_domain::Pair;
use td_stop::Stop;

/// What a simulation has come to.
#[derive(Drop)]
pub struct State {
    pub logic: Logic,
    /// The moment of the latest change of each net, 0 where there was none.
    pub latest: Vec<u64>,
    pub events: Events,
}

/// What is gone through at a moment.
#[derive(Drop)]
pub struct Worklists {
    /// The nets that waited for the moment.
    pub taken: Vec<u32>,
    /// The outputs of the gates whose target may have turned.
    pub turned: Vec<u32>,
}

/// The greatest of these moments of these nets, 0 where there are none.
fn greatest(latest: &[u64], nets: &[u32]) -> u64
    requires { All (λ net. net < length latest.now) nets.now }
    ensures { result ≡ greatest_at latest.now nets.now }
{
    let mut moment = 0;
    for net in nets {
        moment = moment.max(latest[*net as usize]);
    }
    moment
}

impl State {
    /// Room for a circuit.
    pub fn new(alloc: Global, circuit: &Circuit) -> Result<Self, AllocError>
        ensures { IfOk result (FitsCircuit circuit.now) }
    {
        let logic = Logic::new(alloc, circuit)?;
        let latest = vec![in alloc; 0; circuit.net_count()]?;
        let events = Events::new(alloc, circuit.net_count())?;
        Ok(State {
            logic,
            latest,
            events,
        })
    }

    /// The circuit settles under the first vector, and the inputs get their events.
    fn start(&mut self, circuit: &Circuit, pair: &Pair) -> Result<(), AllocError>
        requires first_fits { length pair.now.first ≡ length circuit.now.netlist.inputs }
        requires second_fits { length pair.now.second ≡ length circuit.now.netlist.inputs }
        requires numbering { IsNumbering circuit.now }
        requires fits { FitsCircuit circuit.now self.old }
        ensures fits { FitsCircuit circuit.now self.new }
        ensures counted { OnOk result (AreCounted circuit.now.gates self.new.logic.levels.items (ones_of self.new.logic.tallies.items)) }
        ensures waiting { OnOk result (AreWaiting self.new.events.queue self.new.events.whens.items) }
        ensures reached { OnOk result (HasReached circuit.now pair.now 0 self.new.logic.levels.items self.new.events.whens.items self.new.latest.items) }
    {
        settle(
            &mut self.logic.levels,
            &mut self.logic.tallies,
            circuit,
            pair.first(),
        );
        self.latest.fill(0);
        self.events
            .schedule_inputs(pair.first(), pair.second(), circuit.moments())?;
        Ok(())
    }

    /// The event of a net takes place where it is due, and the net waits on where it has a later
    /// one.
    fn pass(
        &mut self,
        turned: &mut Vec<u32>,
        readers: &[Vec<u32>],
        first_output: usize,
        net: u32,
        moment: u64,
    ) -> Result<(), AllocError>
        requires net { net < length self.old.events.whens.items }
        requires readers_fit { length readers.now ≡ length self.old.events.whens.items }
        requires readers { All (λ outputs. AreNets first_output (first_output + length self.old.logic.tallies.items) outputs.items) readers.now }
        requires levels_fit { length self.old.logic.levels.items ≡ length self.old.events.whens.items }
        requires latest_fit { length self.old.latest.items ≡ length self.old.events.whens.items }
        requires late { moment ≤ slice_index self.old.events.whens.items net }
        requires from { IsFrom (moment + 1) self.old.events.queue.firsts }
        requires below { AreBelow (length self.old.events.whens.items) self.old.events.queue }
        ensures passed { OnOk result (IsPassed moment net self.old self.new) }
        ensures counted { OnOk result (StayCounted first_output (map (λ outputs. outputs.items) readers.now) self.old.logic.levels.items self.new.logic.levels.items
            (ones_of self.old.logic.tallies.items) (ones_of self.new.logic.tallies.items)) }
        ensures space { HasSameSpace self.old self.new }
        ensures reported { (begun : List ℕ) → AreReported first_output (rules_of self.old.logic.tallies.items) begun (ones_of self.old.logic.tallies.items) turned.old.items
            → OnOk result (AreReported first_output (rules_of self.old.logic.tallies.items) begun (ones_of self.new.logic.tallies.items) turned.new.items) }
        ensures outputs { AreNets first_output (first_output + length self.old.logic.tallies.items) turned.old.items
            → AreNets first_output (first_output + length self.old.logic.tallies.items) turned.new.items }
        ensures from { IsFrom (moment + 1) self.new.events.queue.firsts }
        ensures below { AreBelow (length self.old.events.whens.items) self.new.events.queue }
    {
        let i = net as usize;
        let when = self.events.whens[i];
        if when == moment {
            self.events.whens[i] = NEVER;
            self.latest[i] = moment;
            self.logic.turn(turned, readers, first_output, i)?;
            return Ok(());
        }
        if when < NEVER {
            self.events.queue.add(net, when)?;
        }
        Ok(())
    }

    /// Carries out the events of these nets that are due at a moment, and adds the outputs of the
    /// gates whose target may turn. The other nets wait on.
    fn update(
        &mut self,
        turned: &mut Vec<u32>,
        readers: &[Vec<u32>],
        first_output: usize,
        taken: &[u32],
        moment: u64,
    ) -> Result<(), AllocError>
        requires readers_fit { length readers.now ≡ length self.old.events.whens.items }
        requires readers { All (λ outputs. AreNets first_output (first_output + length self.old.logic.tallies.items) outputs.items) readers.now }
        requires levels_fit { length self.old.logic.levels.items ≡ length self.old.events.whens.items }
        requires latest_fit { length self.old.latest.items ≡ length self.old.events.whens.items }
        requires in_time { moment < 2 ^ 64 - 1 }
        requires nets { All (λ net. net < length self.old.events.whens.items) taken.now }
        requires first { (net : ℕ) → net < length self.old.events.whens.items → moment ≤ slice_index self.old.events.whens.items net }
        requires waiting { AreWaitingBut moment taken.now self.old.events.queue self.old.events.whens.items }
        requires from { IsFrom (moment + 1) self.old.events.queue.firsts }
        requires below { AreBelow (length self.old.events.whens.items) self.old.events.queue }
        ensures updated { OnOk result (AreUpdated moment self.old.logic.levels.items self.new.logic.levels.items self.old.events.whens.items self.new.events.whens.items
            self.old.latest.items self.new.latest.items) }
        ensures counted { OnOk result (StayCounted first_output (map (λ outputs. outputs.items) readers.now) self.old.logic.levels.items self.new.logic.levels.items
            (ones_of self.old.logic.tallies.items) (ones_of self.new.logic.tallies.items)) }
        ensures space { HasSameSpace self.old self.new }
        ensures reported { OnOk result (AreReported first_output (rules_of self.old.logic.tallies.items) (ones_of self.old.logic.tallies.items) (ones_of self.new.logic.tallies.items) turned.new.items) }
        ensures outputs { OnOk result (AreNets first_output (first_output + length self.old.logic.tallies.items) turned.new.items) }
        ensures waiting { OnOk result (AreWaiting self.new.events.queue self.new.events.whens.items) }
        ensures from { IsFrom (moment + 1) self.new.events.queue.firsts }
        ensures below { AreBelow (length self.old.events.whens.items) self.new.events.queue }
    {
        turned.clear();
        for net in taken {
            self.pass(turned, readers, first_output, *net, moment)?;
        }
        Ok(())
    }

    /// The events of a moment take place, and the gates whose target may turn are evaluated.
    fn advance(
        &mut self,
        lists: &mut Worklists,
        readers: &[Vec<u32>],
        circuit: &Circuit,
        moment: u64,
    ) -> Result<(), AllocError>
        requires numbering { IsNumbering circuit.now }
        requires fits { FitsCircuit circuit.now self.old }
        requires readers { AreReadersOf (first_output_of circuit.now) (length (nets circuit.now)) circuit.now.gates (map (λ outputs. outputs.items) readers.now) }
        requires counted { AreCounted circuit.now.gates self.old.logic.levels.items (ones_of self.old.logic.tallies.items) }
        requires in_time { moment < 2 ^ 64 - 1 }
        requires first { IsFrom moment self.old.events.queue.firsts }
        requires earliest { (net when : ℕ) → Waits self.old.events.queue net when → moment ≤ when }
        requires waiting { AreWaiting self.old.events.queue self.old.events.whens.items }
        ensures state { (waves : List Wave) (states : ℕ → ℕ → GateState) → IsRunBy circuit.now waves states
            → IsStateBefore circuit.now waves states moment self.old.logic.levels.items self.old.events.whens.items self.old.latest.items
            → OnOk result (IsStateBefore circuit.now waves states (moment + 1) self.new.logic.levels.items self.new.events.whens.items self.new.latest.items) }
        ensures counted { OnOk result (AreCounted circuit.now.gates self.new.logic.levels.items (ones_of self.new.logic.tallies.items)) }
        ensures fits { FitsCircuit circuit.now self.new }
        ensures waiting { OnOk result (AreWaiting self.new.events.queue self.new.events.whens.items) }
        ensures from { OnOk result (IsFrom (moment + 1) self.new.events.queue.firsts) }
    {
        let first_output = circuit.first_gate() as usize;
        self.events.queue.take(moment, &mut lists.taken);
        self.update(
            &mut lists.turned,
            readers,
            first_output,
            &lists.taken,
            moment,
        )?;
        self.events
            .evaluate(&self.logic, &lists.turned, first_output, moment)?;
        Ok(())
    }

    /// The delay of a pair, unless the stop is set before a long simulation has come to its end.
    pub fn simulate(
        &mut self,
        lists: &mut Worklists,
        readers: &[Vec<u32>],
        circuit: &Circuit,
        pair: &Pair,
        stop: &Stop,
    ) -> Result<u64, Interruption>
        requires first_fits { length pair.now.first ≡ length circuit.now.netlist.inputs }
        requires second_fits { length pair.now.second ≡ length circuit.now.netlist.inputs }
        requires fits { FitsCircuit circuit.now self.old }
        requires readers { AreReadersOf (first_output_of circuit.now) (length (nets circuit.now)) circuit.now.gates (map (λ outputs. outputs.items) readers.now) }
        ensures delay { IfOk result (IsTheDelay circuit.now pair.now.first pair.now.second) }
        ensures stopped { IfErr result (StopNeedsStop stop.now.can_be_set) }
        ensures fits { FitsCircuit circuit.now self.new }
    {
        // For the prover: these calls say that the gates are in order, and that each input has a
        // moment.
        let _gates = circuit.gates();
        let _moments = circuit.moments();
        self.start(circuit, pair)?;
        let mut moment = self.events.queue.first();
        let mut steps = 0u64;
        while moment < NEVER {
            self.advance(lists, readers, circuit, moment)?;
            if is_stopped(stop, &mut steps, readers, &lists.taken) {
                return Err(Interruption::Stopped);
            }
            moment = self.events.queue.first_from(moment + 1);
        }
        Ok(greatest(&self.latest, circuit.outputs()))
    }
}

//! The levels of the nets, with what the gates count of them.

ghost use Rattle.std.specs.Prelude.{◌≡◌, ℕ, ◌+◌, ◌<◌, ◌≤◌, not, List, length, map, slice_set, OnOk, IfOk};
ghost use Rattle.std.specs.List.{All};
ghost use Rattle.td_circuit.specs.Numbering.{nets};
ghost use Rattle.td_event_sim.specs.Bits.{bit_at};
ghost use Rattle.td_event_sim.specs.Counting.{AreCounted, StayCounted};
ghost use Rattle.td_event_sim.specs.Rules.{AreRules, AreReported, ones_of, rules_of};
ghost use Rattle.td_event_sim.specs.Scratch.{AreNets};
ghost use Rattle.td_event_sim.specs.Settling.{AreFirst, AreSettled};

use crate::counts::{count, recount};
use crate::rules::{Tally, tallies};
use std::alloc::{AllocError, Global};
use td_circuit::{Circuit, FIRST_INPUT};

/// The levels of the nets of a circuit, and the tallies of its gates.
#[derive(Drop)]
pub struct Logic {
    /// Whether each net is at 1.
    pub levels: Vec<bool>,
    /// How many inputs of each gate are at 1, and its rule.
    pub tallies: Vec<Tally>,
}

/// The levels of the constants and the inputs.
fn first_levels(levels: &mut [bool], vector: &[bool])
    requires { length vector.now + 2 ≤ length levels.old }
    ensures { AreFirst vector.now levels.new }
{
    levels[0] = false;
    levels[1] = true;
    for (i, level) in vector.iter().enumerate() {
        levels[i + FIRST_INPUT as usize] = *level;
    }
}

/// Settles the levels under a vector, and counts each gate's inputs that are at 1.
pub fn settle(levels: &mut [bool], tallies: &mut [Tally], circuit: &Circuit, vector: &[bool])
    requires vector_fits { length vector.now ≡ length circuit.now.netlist.inputs }
    requires levels_fit { length levels.old ≡ length (nets circuit.now) }
    requires tallies_fit { length tallies.old ≡ length circuit.now.gates }
    requires rules { AreRules circuit.now.gates (rules_of tallies.old) }
    ensures settled { AreSettled circuit.now vector.now (length circuit.now.gates) levels.new }
    ensures counted { AreCounted circuit.now.gates levels.new (ones_of tallies.new) }
    ensures rules { rules_of tallies.new ≡ rules_of tallies.old }
{
    let gates = circuit.gates();
    let first_output = vector.len() + FIRST_INPUT as usize;
    first_levels(levels, vector);
    for (place, gate) in gates.iter().enumerate() {
        let count = count(levels, &gate.inputs);
        let level = tallies[place].rule.target(count);
        tallies[place].ones = count;
        levels[first_output + place] = level;
    }
}

impl Logic {
    /// All nets of a circuit at 0.
    pub fn new(alloc: Global, circuit: &Circuit) -> Result<Self, AllocError>
        ensures levels { IfOk result (λ logic. length logic.levels.items ≡ length (nets circuit.now)) }
        ensures tallies { IfOk result (λ logic. length logic.tallies.items ≡ length circuit.now.gates) }
        ensures rules { IfOk result (λ logic. AreRules circuit.now.gates (rules_of logic.tallies.items)) }
    {
        let tallies = tallies(alloc, circuit.gates())?;
        let levels = vec![in alloc; false; circuit.net_count()]?;
        Ok(Logic { levels, tallies })
    }

    /// Turns the level of a net, counts it for the gates that read it, and adds the outputs of
    /// those whose target may turn.
    pub fn turn(
        &mut self,
        turned: &mut Vec<u32>,
        readers: &[Vec<u32>],
        first_output: usize,
        net: usize,
    ) -> Result<(), AllocError>
        requires net { net < length self.old.levels.items }
        requires readers_fit { length readers.now ≡ length self.old.levels.items }
        requires readers { All (λ outputs. AreNets first_output (first_output + length self.old.tallies.items) outputs.items) readers.now }
        ensures levels { self.new.levels.items ≡ slice_set self.old.levels.items net (not (bit_at self.old.levels.items net)) }
        ensures counted { OnOk result (StayCounted first_output (map (λ outputs. outputs.items) readers.now) self.old.levels.items self.new.levels.items
            (ones_of self.old.tallies.items) (ones_of self.new.tallies.items)) }
        ensures rules { rules_of self.new.tallies.items ≡ rules_of self.old.tallies.items }
        ensures reported { (begun : List ℕ) → AreReported first_output (rules_of self.old.tallies.items) begun (ones_of self.old.tallies.items) turned.old.items
            → OnOk result (AreReported first_output (rules_of self.old.tallies.items) begun (ones_of self.new.tallies.items) turned.new.items) }
        ensures outputs { AreNets first_output (first_output + length self.old.tallies.items) turned.old.items
            → AreNets first_output (first_output + length self.old.tallies.items) turned.new.items }
    {
        let rises = !self.levels[net];
        self.levels[net] = rises;
        recount(
            &mut self.tallies,
            turned,
            &readers[net],
            first_output,
            rises,
        )?;
        Ok(())
    }
}

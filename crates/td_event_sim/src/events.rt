//! The events of the nets, and how inputs and gates come by them.

ghost use Rattle.std.specs.Prelude.{◌≡◌, ℕ, ◌+◌, ◌-◌, ◌^◌, ◌<◌, ◌≤◌, List, length, slice_index, slice_set, OnOk, IfOk};
ghost use Rattle.std.specs.List.{Contains};
ghost use Rattle.td_circuit.specs.Numbering.{NumberedGate};
ghost use Rattle.td_event_sim.specs.Counting.{AreCounted};
ghost use Rattle.td_event_sim.specs.Earliest.{IsFrom};
ghost use Rattle.td_event_sim.specs.Queue.{AreBelow};
ghost use Rattle.td_event_sim.specs.Moment.{when_after, evaluation_at, AreWaiting, AreEvaluatedBy, AreScheduled, IsInputEvent};
ghost use Rattle.td_event_sim.specs.Rules.{AreRules, ones_of, rules_of, target_by_rule};
ghost use Rattle.td_event_sim.specs.Scratch.{AreNets};

use crate::earliest::NEVER;
use crate::logic::Logic;
use crate::queue::Queue;
use crate::rules::Tally;
use std::alloc::{AllocError, Global};
use td_circuit::FIRST_INPUT;
use td_gates::Level;

/// The events of the nets of a circuit: at most one of each net, which turns its level.
#[derive(Drop)]
pub struct Events {
    /// The moment of the event of each net, `NEVER` where it has none.
    pub whens: Vec<u64>,
    /// The nets that wait for the moments of their events.
    pub queue: Queue,
}

/// The moment of an input's event: its own where its two levels differ.
fn input_event(first: bool, second: bool, moment: u64) -> u64
    ensures { IsInputEvent first second moment result }
{
    if first == second { NEVER } else { moment }
}

impl Events {
    /// No event for any of `nets` nets.
    pub fn new(alloc: Global, nets: usize) -> Result<Self, AllocError>
        ensures whens { IfOk result (λ events. length events.whens.items ≡ nets) }
        ensures below { IfOk result (λ events. AreBelow nets events.queue) }
    {
        let whens = vec![in alloc; NEVER; nets]?;
        let queue = Queue::new(alloc)?;
        Ok(Events { whens, queue })
    }

    /// The net has an event at this moment from now on, or none.
    fn schedule(&mut self, net: u32, when: u64) -> Result<(), AllocError>
        requires net { net < length self.old.whens.items }
        requires below { AreBelow (length self.old.whens.items) self.old.queue }
        ensures when { self.new.whens.items ≡ slice_set self.old.whens.items net when }
        ensures waiting { AreWaiting self.old.queue self.old.whens.items → OnOk result (AreWaiting self.new.queue self.new.whens.items) }
        ensures from { (from : ℕ) → from ≤ when → IsFrom from self.old.queue.firsts → IsFrom from self.new.queue.firsts }
        ensures below { AreBelow (length self.old.whens.items) self.new.queue }
    {
        self.whens[net as usize] = when;
        if when == NEVER {
            return Ok(());
        }
        self.queue.add(net, when)?;
        Ok(())
    }

    /// Each input whose levels differ gets an event at its moment, and no other net has one.
    pub fn schedule_inputs(
        &mut self,
        first: &[bool],
        second: &[bool],
        moments: &[u64],
    ) -> Result<(), AllocError>
        requires fits { length first.now + 2 ≤ length self.old.whens.items }
        requires second_fits { length second.now ≡ length first.now }
        requires moments_fit { length moments.now ≡ length first.now }
        requires few { length first.now ≤ 4096 }
        requires below { AreBelow (length self.old.whens.items) self.old.queue }
        ensures scheduled { OnOk result (AreScheduled (length first.now) moments.now first.now second.now self.new.whens.items) }
        ensures waiting { OnOk result (AreWaiting self.new.queue self.new.whens.items) }
        ensures whens { length self.new.whens.items ≡ length self.old.whens.items }
        ensures below { AreBelow (length self.old.whens.items) self.new.queue }
    {
        self.whens.fill(NEVER);
        for (input, level) in first.iter().enumerate() {
            let when = input_event(*level, second[input], moments[input]);
            self.schedule((input + FIRST_INPUT as usize) as u32, when)?;
        }
        Ok(())
    }

    /// Evaluates the gate with this output, which has this level.
    fn evaluate_gate(
        &mut self,
        tally: &Tally,
        output: u32,
        level: bool,
        moment: u64,
    ) -> Result<(), AllocError>
        requires output { output < length self.old.whens.items }
        requires in_time { moment < 2 ^ 64 - 1 }
        requires from { IsFrom (moment + 1) self.old.queue.firsts }
        requires below { AreBelow (length self.old.whens.items) self.old.queue }
        ensures when { self.new.whens.items ≡ slice_set self.old.whens.items output
            (when_after tally.now.rule.delay moment (target_by_rule tally.now.rule tally.now.ones) level (slice_index self.old.whens.items output)) }
        ensures waiting { AreWaiting self.old.queue self.old.whens.items → OnOk result (AreWaiting self.new.queue self.new.whens.items) }
        ensures from { IsFrom (moment + 1) self.new.queue.firsts }
        ensures below { AreBelow (length self.old.whens.items) self.new.queue }
    {
        let target = tally.target();
        let i = output as usize;
        if target == level {
            self.whens[i] = NEVER;
            return Ok(());
        }
        if self.whens[i] < NEVER {
            return Ok(());
        }
        let when = moment.saturating_add(tally.rule.delay.to(Level::from(target)));
        self.whens[i] = when;
        self.queue.add(output, when)?;
        Ok(())
    }

    /// Evaluates the gates with these outputs.
    pub fn evaluate(
        &mut self,
        logic: &Logic,
        outputs: &[u32],
        first_output: usize,
        moment: u64,
    ) -> Result<(), AllocError>
        requires levels_fit { length logic.now.levels.items ≡ first_output + length logic.now.tallies.items }
        requires whens_fit { length self.old.whens.items ≡ length logic.now.levels.items }
        requires outputs { AreNets first_output (length logic.now.levels.items) outputs.now }
        requires in_time { moment < 2 ^ 64 - 1 }
        requires from { IsFrom (moment + 1) self.old.queue.firsts }
        requires below { AreBelow (length self.old.whens.items) self.old.queue }
        ensures evaluated { (gates : List NumberedGate) → length gates ≡ length logic.now.tallies.items → AreRules gates (rules_of logic.now.tallies.items)
            → AreCounted gates logic.now.levels.items (ones_of logic.now.tallies.items)
            → OnOk result (AreEvaluatedBy (evaluation_at gates first_output moment logic.now.levels.items) (Contains outputs.now) self.old.whens.items self.new.whens.items) }
        ensures waiting { AreWaiting self.old.queue self.old.whens.items → OnOk result (AreWaiting self.new.queue self.new.whens.items) }
        ensures from { IsFrom (moment + 1) self.new.queue.firsts }
        ensures whens { length self.new.whens.items ≡ length self.old.whens.items }
        ensures below { AreBelow (length self.old.whens.items) self.new.queue }
    {
        let levels = logic.levels.as_slice();
        let tallies = logic.tallies.as_slice();
        for output in outputs {
            let net = *output as usize;
            let tally = &tallies[net - first_output];
            self.evaluate_gate(tally, *output, levels[net], moment)?;
        }
        Ok(())
    }
}

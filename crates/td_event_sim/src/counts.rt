//! How many of each gate's inputs are at 1.

ghost use Rattle.std.specs.Prelude.{◌≡◌, ℕ, ◌+◌, ◌-◌, ◌<◌, ◌≤◌, List, length, count_by, OnOk};
ghost use Rattle.std.specs.List.{All};
ghost use Rattle.td_event_sim.specs.Bits.{bit_at};
ghost use Rattle.td_event_sim.specs.Counting.{AreRecounted, recounted};
ghost use Rattle.td_event_sim.specs.Rules.{AreReported, IsReported, ones_of, rules_of};
ghost use Rattle.td_event_sim.specs.Scratch.{AreNets};

use crate::rules::{Rule, Tally};
use std::alloc::AllocError;

/// How many of these inputs are at 1.
pub fn count(levels: &[bool], inputs: &[u32]) -> u32
    requires within { All (λ input. input < length levels.now) inputs.now }
    requires few { length inputs.now ≤ 1023 }
    ensures { result ≡ count_by (bit_at levels.now) inputs.now }
{
    if inputs.len() == 2 {
        return u32::from(levels[inputs[0] as usize]) + u32::from(levels[inputs[1] as usize]);
    }
    let mut ones = 0;
    for input in inputs {
        ones += u32::from(levels[*input as usize]);
    }
    ones
}

/// A count after one input rose, or fell.
fn recounted(ones: u32, rises: bool) -> u32
    ensures { result ≡ recounted rises 1 ones }
{
    if rises {
        ones.wrapping_add(1)
    } else {
        ones.wrapping_sub(1)
    }
}

/// Adds a gate's output where its target may turn as the number of its inputs at 1 goes from
/// `before` to `after`.
fn tell(
    turned: &mut Vec<u32>,
    output: u32,
    rule: &Rule,
    before: u32,
    after: u32,
) -> Result<(), AllocError>
    ensures reported { OnOk result (IsReported rule.now before after output turned.old.items turned.new.items) }
    ensures outputs { (first end : ℕ) → first ≤ output → output < end → AreNets first end turned.old.items → AreNets first end turned.new.items }
{
    if rule.may_turn(before, after) {
        turned.push(output)?;
    }
    Ok(())
}

/// Counts a net that rose, or fell, for the gates that read it, and adds the outputs of those whose
/// target may turn.
pub fn recount(
    tallies: &mut [Tally],
    turned: &mut Vec<u32>,
    readers: &[u32],
    first_output: usize,
    rises: bool,
) -> Result<(), AllocError>
    requires { AreNets first_output (first_output + length tallies.old) readers.now }
    ensures counts { OnOk result (AreRecounted first_output readers.now rises (ones_of tallies.old) (ones_of tallies.new)) }
    ensures rules { rules_of tallies.new ≡ rules_of tallies.old }
    ensures reported { (begun : List ℕ) → AreReported first_output (rules_of tallies.old) begun (ones_of tallies.old) turned.old.items
        → OnOk result (AreReported first_output (rules_of tallies.old) begun (ones_of tallies.new) turned.new.items) }
    ensures outputs { AreNets first_output (first_output + length tallies.old) turned.old.items
        → AreNets first_output (first_output + length tallies.old) turned.new.items }
{
    for reader in readers {
        let place = *reader as usize - first_output;
        let ones = tallies[place].ones;
        let recounted = recounted(ones, rises);
        tallies[place].ones = recounted;
        tell(turned, *reader, &tallies[place].rule, ones, recounted)?;
    }
    Ok(())
}

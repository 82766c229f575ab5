//! The targets of gates whose inputs are at 0 or 1, by how many are at 1.

ghost use Rattle.std.specs.Prelude.{◌≡◌, ◌≤◌, false, length, map, IfOk};
ghost use Rattle.std.specs.List.{All};
ghost use Rattle.td_circuit.specs.Views.{gate_of};
ghost use Rattle.td_event_sim.specs.Rules.{AreRules, IsRuleOf, is_met_by, rules_of, target_by_rule};

use std::alloc::{AllocError, Global};
use td_circuit::Gate;
use td_gates::{Delay, Kind};

/// A gate's delays, and how its target follows from how many of its inputs are at 1.
#[derive(Clone, Copy, Drop)]
pub struct Rule {
    pub delay: Delay,
    /// How many are wanted.
    pub wanted: u32,
    /// Whether only their parity counts.
    pub by_parity: bool,
    /// Whether the target is 1 where they aren't as wanted.
    pub is_negated: bool,
}

impl Rule {
    /// The rule of a gate.
    fn of(gate: &Gate) -> Rule
        requires { length gate.now.inputs.items ≤ 1023 }
        ensures { IsRuleOf (gate_of gate.now) result }
    {
        let inputs: &[u32] = &gate.inputs;
        let count = inputs.len() as u32;
        let (wanted, by_parity, is_negated) = match gate.kind {
            Kind::And | Kind::Buf => (count, false, false),
            Kind::Nand | Kind::Not => (count, false, true),
            Kind::Nor => (0, false, false),
            Kind::Or => (0, false, true),
            Kind::Xor => (1, true, false),
            Kind::Xnor => (1, true, true),
        };
        Rule {
            delay: gate.delay,
            wanted,
            by_parity,
            is_negated,
        }
    }

    /// Whether as many inputs are at 1 as are wanted.
    fn is_met(&self, ones: u32) -> bool
        ensures { result ≡ is_met_by self.now ones }
    {
        let counted = if self.by_parity { ones % 2 } else { ones };
        counted == self.wanted
    }

    /// Whether the target is 1, where `ones` inputs are at 1.
    pub fn target(&self, ones: u32) -> bool
        ensures { result ≡ target_by_rule self.now ones }
    {
        if self.is_negated {
            !self.is_met(ones)
        } else {
            self.is_met(ones)
        }
    }

    /// Whether the target may turn as the number of inputs at 1 goes from `before` to `after`: one
    /// of the two is the number wanted, or only their parity counts.
    pub fn may_turn(&self, before: u32, after: u32) -> bool
        ensures { result ≡ false → target_by_rule self.now before ≡ target_by_rule self.now after }
    {
        self.by_parity || before == self.wanted || after == self.wanted
    }
}

/// What is held of a gate: how many of its inputs are at 1, and its rule.
#[derive(Clone, Copy, Drop)]
pub struct Tally {
    pub ones: u32,
    pub rule: Rule,
}

impl Tally {
    /// Whether the gate's target is 1.
    pub fn target(&self) -> bool
        ensures { result ≡ target_by_rule self.now.rule self.now.ones }
    {
        self.rule.target(self.ones)
    }
}

/// Tallies of these gates.
pub fn tallies(alloc: Global, gates: &[Gate]) -> Result<Vec<Tally>, AllocError>
    requires { All (λ gate. length gate.inputs.items ≤ 1023) gates.now }
    ensures count { IfOk result (λ tallies. length tallies.items ≡ length gates.now) }
    ensures rules { IfOk result (λ tallies. AreRules (map gate_of gates.now) (rules_of tallies.items)) }
{
    let mut tallies = Vec::new(alloc);
    for gate in gates {
        let rule = Rule::of(gate);
        tallies.push(Tally { ones: 0, rule })?;
    }
    Ok(tallies)
}

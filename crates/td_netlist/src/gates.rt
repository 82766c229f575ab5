//! From the instances of a module to the gates of its netlist.

ghost use Rattle.std.specs.Prelude.{◌≡◌, ◌≤◌, [], map, IfOk};
ghost use Rattle.std.specs.List.{AllByRecursion};
ghost use Rattle.td_syntax.specs.Grammar.{IsSteps, IsStatedDelay, steps_of};
ghost use Rattle.td_syntax.specs.Views.{numeral_view, option_delay_view, terminal_view};
ghost use Rattle.td_netlist.specs.Faults.{Gives};
ghost use Rattle.td_netlist.specs.Making.{with_net, gate_at, with_gate, with_gates};
ghost use Rattle.td_netlist.specs.Checks.{each};
ghost use Rattle.td_netlist.specs.Module.{delay_of};
ghost use Rattle.td_nets.specs.Views.{name_of, net_of, gate_of};
ghost use Rattle.td_netlist.specs.NameViews.{name_ref_of, net_ref_of};
ghost use Rattle.td_netlist.specs.CheckViews.{primitive_of};

use crate::drivers::resolve;
use crate::fault::Fault;
use crate::known::Known;
use crate::name_ref::{NameRef, NetRef};
use crate::primitive::Primitive;
use std::alloc::{AllocError, Global};
use td_gates::Delay;
use td_nets::{Gate, Name, Net};
use td_syntax::{Delay as Stated, Number, Terminal, steps_of};

/// A name of its own, with the bytes of the borrowed one.
pub fn owned(alloc: Global, name: NameRef<'_>) -> Result<Name, AllocError>
    ensures { IfOk result (λ owned. name_of owned ≡ name_ref_of name.entry) }
{
    Ok(Name {
        text: Vec::from_slice(alloc, name.text)?,
        bit: name.bit,
    })
}

/// A number of steps, where a unit has 10 to the power of `tens` steps.
fn steps(tens: u8, number: Number<'_>) -> u32
    requires { IsSteps tens (numeral_view number) }
    ensures value { result ≡ steps_of tens (numeral_view number.entry) }
    ensures least { 1 ≤ result }
    ensures greatest { result ≤ 1000000000 }
{
    steps_of(tens, number).unwrap_or(1)
}

/// The delay that is stated, or the default.
fn delay(tens: u8, default: Delay, stated: Option<Stated<'_>>) -> Delay
    requires { IsStatedDelay tens (option_delay_view stated) }
    ensures { result ≡ delay_of tens default (option_delay_view stated.entry) }
{
    match stated {
        None => default,
        Some(Stated::Plain(number)) | Some(Stated::Single(number)) => {
            let steps = steps(tens, number);
            Delay {
                rise: steps,
                fall: steps,
            }
        }
        Some(Stated::Pair(rise, fall)) => Delay {
            rise: steps(tens, rise),
            fall: steps(tens, fall),
        },
    }
}

fn owned_net(alloc: Global, net: NetRef<'_>) -> Result<Net, AllocError>
    ensures { IfOk result (λ owned. net_of owned ≡ net_ref_of net.entry) }
{
    match net {
        NetRef::Low => Ok(Net::Low),
        NetRef::High => Ok(Net::High),
        NetRef::Named(name) => Ok(Net::Named(owned(alloc, name)?)),
    }
}

/// How the delays of a module are taken: a unit has 10 to the power of `tens` steps, and a gate
/// that states no delay has the default one.
#[derive(Clone, Copy, Debug)]
pub struct Timing {
    pub tens: u8,
    pub default: Delay,
}

fn nets<'a>(
    alloc: Global,
    names: &Known<'a>,
    terminals: &[Terminal<'a>],
) -> Result<Vec<Net>, Fault<'a>>
    ensures { Gives (λ nets. map net_of nets.items) result (each (with_net names.now) [] (map terminal_view terminals.now)) }
{
    let mut nets = Vec::new(alloc);
    for terminal in terminals {
        push_net(alloc, names, *terminal, &mut nets)?;
    }
    Ok(nets)
}

#[tactic(auto, unfolding(crate::specs::Making::with_net))]
fn push_net<'a>(
    alloc: Global,
    names: &Known<'a>,
    terminal: Terminal<'a>,
    nets: &mut Vec<Net>,
) -> Result<(), Fault<'a>>
    ensures { Gives (λ _. map net_of nets.new.items) result (with_net names.now (map net_of nets.old.items) (terminal_view terminal.entry)) }
{
    nets.push(owned_net(alloc, resolve(names, terminal)?)?)?;
    Ok(())
}

#[tactic(auto, unfolding(crate::specs::Making::gate_at))]
fn gate<'a>(
    alloc: Global,
    names: &Known<'a>,
    timing: &Timing,
    primitive: Primitive<'_, 'a>,
    output: NameRef<'a>,
) -> Result<Gate, Fault<'a>>
    requires { IsStatedDelay timing.now.tens (option_delay_view primitive.delay) }
    ensures { Gives gate_of result (gate_at names.now timing.now.tens timing.now.default (primitive_of primitive.entry) (name_ref_of output.entry)) }
{
    let output = owned(alloc, output)?;
    let inputs = nets(alloc, names, primitive.inputs())?;
    Ok(Gate {
        kind: primitive.kind,
        delay: delay(timing.tens, timing.default, primitive.delay),
        output,
        inputs,
    })
}

fn add_gates<'a>(
    alloc: Global,
    names: &Known<'a>,
    timing: &Timing,
    primitive: Primitive<'_, 'a>,
    gates: &mut Vec<Gate>,
) -> Result<(), Fault<'a>>
    requires { IsStatedDelay timing.now.tens (option_delay_view primitive.delay) }
    ensures { Gives (λ _. map gate_of gates.new.items) result (with_gates names.now timing.now.tens timing.now.default (map gate_of gates.old.items) (primitive_of primitive.entry)) }
{
    for terminal in primitive.outputs() {
        add_gate(alloc, names, timing, primitive, *terminal, gates)?;
    }
    Ok(())
}

#[tactic(auto, unfolding(crate::specs::Making::with_gate))]
fn add_gate<'a>(
    alloc: Global,
    names: &Known<'a>,
    timing: &Timing,
    primitive: Primitive<'_, 'a>,
    terminal: Terminal<'a>,
    gates: &mut Vec<Gate>,
) -> Result<(), Fault<'a>>
    requires { IsStatedDelay timing.now.tens (option_delay_view primitive.delay) }
    ensures { Gives (λ _. map gate_of gates.new.items) result (with_gate names.now timing.now.tens timing.now.default (primitive_of primitive.entry) (map gate_of gates.old.items) (terminal_view terminal.entry)) }
{
    match resolve(names, terminal)? {
        NetRef::Low | NetRef::High => Ok(()),
        NetRef::Named(output) => {
            gates.push(gate(alloc, names, timing, primitive, output)?)?;
            Ok(())
        }
    }
}

/// The gates of the instances, in their order.
pub fn gates<'a>(
    alloc: Global,
    names: &Known<'a>,
    timing: &Timing,
    primitives: &[Primitive<'_, 'a>],
) -> Result<Vec<Gate>, Fault<'a>>
    requires { AllByRecursion (λ p. IsStatedDelay timing.now.tens (option_delay_view p.delay)) primitives.now }
    ensures { Gives (λ gates. map gate_of gates.items) result (each (with_gates names.now timing.now.tens timing.now.default) [] (map primitive_of primitives.now)) }
{
    let mut gates = Vec::new(alloc);
    for primitive in primitives {
        add_gates(alloc, names, timing, *primitive, &mut gates)?;
    }
    Ok(gates)
}

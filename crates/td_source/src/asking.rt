//! Circuits that are asked about some of their outputs.

ghost use Rattle.std.specs.Prelude.{◌≡◌, ◌↔◌, get_or, map, IfOk, IsTrue};
ghost use Rattle.td_nets.specs.Views.{name_of};
ghost use Rattle.td_nets.specs.WellFormed.{IsWellFormed};
ghost use Rattle.td_source.specs.Kept.{AreOutputs, AreAt, HasOutputsAt};
ghost use Rattle.td_source.specs.Places.{are_rising, nets_at};

use std::alloc::{AllocError, Global};
use td_circuit::{Circuit, Net};
use td_nets::Name;

/// Some of a circuit's outputs: their names and their nets.
#[derive(Drop)]
struct Chosen {
    names: Vec<Name>,
    nets: Vec<Net>,
}

/// Whether numbers rise, and all are less than a count.
fn are_rising(count: u64, numbers: &[u64]) -> bool
    ensures { result ≡ are_rising count numbers.now }
{
    let mut rest = numbers;
    'numbers: loop {
        match rest {
            [] => return true,
            [this] => return *this < count,
            [this, that, ..] => {
                if !(*this < *that) {
                    return false;
                }
                rest = &rest[1..];
            }
        }
    }
}

/// Whether these are numbers of a circuit's outputs, rising: from 0, in the order of the port list.
pub fn are_outputs(circuit: &Circuit, numbers: &[u64]) -> bool
    ensures { IsTrue result ↔ AreOutputs circuit.now.netlist numbers.now }
{
    // For the prover: this call says that there are as many nets as outputs.
    let _gates = circuit.gates();
    are_rising(circuit.outputs().len() as u64, numbers)
}

/// The net of the output with a number, 0 where there is none.
#[tactic(auto, using(crate::proofs::Asked::read_beyond))]
fn net_at(outputs: &[Net], number: u64) -> Net
    ensures { result ≡ get_or outputs.now number 0 }
{
    let place = number as usize;
    if place < outputs.len() {
        outputs[place]
    } else {
        0
    }
}

/// The names and the nets of the outputs with these numbers. The error is out of memory.
fn choose(alloc: Global, circuit: &Circuit, numbers: &[u64]) -> Result<Chosen, AllocError>
    requires { AreOutputs circuit.now.netlist numbers.now }
    ensures names { IfOk result (λ chosen. AreAt circuit.now.netlist numbers.now (map name_of chosen.names.items)) }
    ensures nets { IfOk result (λ chosen. chosen.nets.items ≡ nets_at circuit.now numbers.now) }
{
    // For the prover: this call says that the numbers are right.
    let _gates = circuit.gates();
    let outputs = circuit.outputs();
    let mut names = Vec::new(alloc);
    let mut nets = Vec::new(alloc);
    for number in numbers {
        let net = net_at(outputs, *number);
        let name = circuit.name(net as usize).copied()?;
        names.push(name)?;
        nets.push(net)?;
    }
    Ok(Chosen { names, nets })
}

/// The circuit with the outputs of these numbers alone. The error is out of memory.
pub fn asked_of(alloc: Global, circuit: Circuit, numbers: &[u64]) -> Result<Circuit, AllocError>
    requires { AreOutputs circuit.netlist numbers.now }
    ensures asked { IfOk result (λ asked. HasOutputsAt circuit.netlist numbers.now asked.netlist) }
    ensures formed { IfOk result (λ asked. IsWellFormed asked.netlist) }
{
    let chosen = choose(alloc, &circuit, numbers)?;
    let mut asked = circuit;
    // For the prover: this call says that the numbers are right.
    let _gates = asked.gates();
    asked.set_outputs(chosen.names, chosen.nets);
    // For the prover: this call says that the netlist is well-formed.
    let _gates = asked.gates();
    Ok(asked)
}

//! The outputs of a circuit, one after another.

ghost use Rattle.std.specs.Prelude.{◌≡◌, ◌<◌, length, map, slice_get, Some, IfOk, OnOk};
ghost use Rattle.td_nets.specs.Netlist.{Name as Named};
ghost use Rattle.td_nets.specs.Views.{name_of};
ghost use Rattle.td_circuit.specs.Numbering.{setting};
ghost use Rattle.td_source.specs.Each.{alone};

use std::alloc::{AllocError, Global};
use std::marker::Model;
use td_circuit::{Circuit, Net};
use td_nets::Name;

/// A circuit that is asked about one of its outputs after another.
#[derive(Drop)]
pub struct EachOutput {
    circuit: Circuit,
    names: Vec<Name>,
    nets: Vec<Net>,
}

impl Model for EachOutput {
    ghost use Rattle.std.specs.Prelude.{map};
    ghost use Rattle.td_nets.specs.Views.{name_of};
    ghost use Rattle.td_circuit.specs.Numbering.{CanBeAsked, with_named_outputs};
    ghost use Rattle.td_source.specs.Each.{Asking};

    ghost Value = { Asking };

    ghost view = { λ inside. record { whole = with_named_outputs inside.circuit (map name_of inside.names.items) inside.nets.items; asked = inside.circuit } };

    ghost invariant = { λ inside. CanBeAsked inside.circuit (map name_of inside.names.items) inside.nets.items };
}

impl EachOutput {
    /// The outputs of a circuit, which is asked about all of them. The error is out of memory.
    pub fn of(alloc: Global, circuit: Circuit) -> Result<EachOutput, AllocError>
        ensures { IfOk result (λ outputs. setting outputs.whole ≡ setting circuit) }
    {
        // For the prover: this call says that the numbers are right.
        let _gates = circuit.gates();
        let names = names_of(alloc, &circuit)?;
        let nets = Vec::from_slice(alloc, circuit.outputs())?;
        Ok(EachOutput {
            circuit,
            names,
            nets,
        })
    }

    /// The names of the outputs, in the order of the port list.
    pub fn names(&self) -> &[Name]
        ensures { map name_of result.now ≡ self.now.whole.netlist.outputs }
    {
        &self.names
    }

    /// The circuit, asked about what it was asked about last.
    pub fn circuit(&self) -> &Circuit
        ensures { result.now ≡ self.now.asked }
    {
        &self.circuit
    }

    /// Asks the circuit about the output at this place alone. The error is out of memory.
    pub fn ask(&mut self, alloc: Global, place: usize) -> Result<(), AllocError>
        requires { place < length self.old.whole.netlist.outputs }
        ensures asked { OnOk result ((name : Named) → slice_get self.old.whole.netlist.outputs place ≡ Some name → setting self.new.asked ≡ alone (setting self.old.whole) name) }
        ensures whole { self.new.whole ≡ self.old.whole }
    {
        let mut names = Vec::new(alloc);
        names.push(self.names[place].copied()?)?;
        let mut nets = Vec::new(alloc);
        nets.push(self.nets[place])?;
        self.circuit.set_outputs(names, nets);
        Ok(())
    }
}

/// The names of a circuit's outputs. The error is out of memory.
fn names_of(alloc: Global, circuit: &Circuit) -> Result<Vec<Name>, AllocError>
    ensures { IfOk result (λ names. map name_of names.items ≡ circuit.now.netlist.outputs) }
{
    // For the prover: this call says that the numbers are right.
    let _gates = circuit.gates();
    let mut names = Vec::new(alloc);
    for net in circuit.outputs() {
        names.push(circuit.name(*net as usize).copied()?)?;
    }
    Ok(names)
}

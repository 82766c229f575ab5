//! Nets by the names that reports print.

ghost use Rattle.std.specs.Prelude.{◌≡◌, ◌<◌, ◌≤◌, [], length, replicate, None, Some, OnOk, IfOk};
ghost use Rattle.std.specs.List.{Contains};
ghost use Rattle.td_nets.specs.Netlist.{Named};
ghost use Rattle.td_question.specs.Keeping.{count_nets};
ghost use Rattle.td_question.specs.Found.{place_in, number_in, IsPrinted, AreFound, IsNoted};

use indexmap::IndexSet;
use std::alloc::{AllocError, Global};
use std::marker::Model;
use td_circuit::Circuit;
use td_spans::net_named;

/// Names that are looked for, each of them once.
#[derive(Drop)]
pub(crate) struct NetNames<'w> {
    set: IndexSet<&'w [u8]>,
}

impl<'w> Model for NetNames<'w> {
    ghost use Rattle.std.specs.Prelude.{ℕ, List, map};

    ghost Value = { List (List ℕ) };

    ghost view = { λ names. map (λ name. name.now) names.set.keys };
}

impl<'w> NetNames<'w> {
    /// No names.
    pub(crate) fn new(alloc: Global) -> NetNames<'w>
        ensures { result ≡ [] }
    {
        NetNames {
            set: IndexSet::new(alloc),
        }
    }

    /// Adds a name, if it isn't there. The error is out of memory.
    pub(crate) fn add(&mut self, name: &'w [u8]) -> Result<(), AllocError>
        ensures added { OnOk result (Contains self.new name.now) }
        ensures kept { OnOk result ((other : _) → Contains self.old other → Contains self.new other) }
    {
        self.set.insert(name)?;
        Ok(())
    }

    /// The place of a name, if it is there.
    fn place_of(&self, name: &[u8]) -> Option<usize>
        ensures { result ≡ place_in self.now name.now }
    {
        self.set.get_index_of(&name)
    }

    /// How many names there are.
    fn len(&self) -> usize
        ensures { result ≡ length self.now }
    {
        self.set.len()
    }

    /// The number that was found for a name. Numbers stand in the order of the names.
    pub(crate) fn number_of(&self, name: &[u8], numbers: &[Option<u64>]) -> Option<u64>
        ensures { result ≡ number_in self.now numbers.now name.now }
    {
        let place = self.place_of(name)?;
        *numbers.get(place)?
    }
}

/// Prints the net with a number in place of the text. The error is out of memory.
fn print_net(circuit: &Circuit, number: u64, text: &mut Vec<u8>) -> Result<(), AllocError>
    requires first { 2 ≤ number }
    requires within { number < count_nets circuit.now.netlist }
    ensures { OnOk result (IsPrinted circuit.now.netlist number text.new.items) }
{
    // For the prover: this call says how the nets have their numbers.
    let _gates = circuit.gates();
    text.clear();
    match net_named(circuit, number) {
        None => Ok(()),
        Some(net) => circuit.name(net as usize).print(text),
    }
}

/// The number of nets, the two constants among them.
fn count_nets(circuit: &Circuit) -> usize
    ensures { result ≡ count_nets circuit.now.netlist }
{
    // For the prover: this call says how the nets have their numbers.
    let _gates = circuit.gates();
    circuit.net_count()
}

/// Notes the number of a net for the name that it is printed by, where no earlier net is.
fn note(names: &NetNames<'_>, text: &[u8], number: u64, numbers: &mut Vec<Option<u64>>)
    requires { length numbers.old.items ≡ length names.now }
    ensures { IsNoted names.now text.now number numbers.old.items numbers.new.items }
{
    let Some(place) = names.place_of(text) else {
        return;
    };
    if numbers[place].is_none() {
        numbers[place] = Some(number);
    }
}

/// No number for each of that many names. The error is out of memory.
fn no_numbers(alloc: Global, count: usize) -> Result<Vec<Option<u64>>, AllocError>
    ensures { IfOk result (λ numbers. numbers.items ≡ replicate count None) }
{
    let mut numbers = Vec::new(alloc);
    for _name in 0..count {
        numbers.push(None)?;
    }
    Ok(numbers)
}

/// For each name the number of the first net that reports print so, if there is one. The error is
/// out of memory.
pub(crate) fn numbers_of(
    alloc: Global,
    circuit: &Circuit,
    names: &NetNames<'_>,
) -> Result<Vec<Option<u64>>, AllocError>
    ensures { IfOk result (λ numbers. AreFound circuit.now.netlist names.now numbers.items) }
{
    let mut numbers = no_numbers(alloc, names.len())?;
    if names.len() == 0 {
        return Ok(numbers);
    }
    let mut text = Vec::new(alloc);
    for number in 2..count_nets(circuit) {
        print_net(circuit, number as u64, &mut text)?;
        note(names, &text, number as u64, &mut numbers);
    }
    Ok(numbers)
}

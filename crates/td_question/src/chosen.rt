//! Nets that words name.

ghost use Rattle.std.specs.Prelude.{◌≡◌, map, OnOk, IfOk, IfErr, IfSome, IfNone};
ghost use Rattle.std.specs.List.{Contains};
ghost use Rattle.td_question.specs.Choosing.{with_net, NamesNet, AreChosen, IsUnnamed, AreAllIn};
ghost use Rattle.td_question.specs.Found.{AreFound};
ghost use Rattle.td_question.specs.Keeping.{HasNoNet};

use crate::net_names::{NetNames, numbers_of};
use std::alloc::{AllocError, Global};
use td_circuit::Circuit;
use td_spans::net_named;

/// The names that these words are. The error is out of memory.
fn names_of<'w>(alloc: Global, words: &[&'w str]) -> Result<NetNames<'w>, AllocError>
    ensures { IfOk result (AreAllIn (map (λ word. word.now) words.now)) }
{
    let mut names = NetNames::new(alloc);
    for word in words {
        names.add(word.as_bytes())?;
    }
    Ok(names)
}

/// The first net that reports print so, if there is one, where numbers were found for names.
fn net_of(
    circuit: &Circuit,
    names: &NetNames<'_>,
    numbers: &[Option<u64>],
    name: &[u8],
) -> Option<u32>
    requires there { Contains names.now name.now }
    requires found { AreFound circuit.now.netlist names.now numbers.now }
    ensures some { IfSome result (NamesNet circuit.now name.now) }
    ensures none { IfNone result (HasNoNet circuit.now.netlist name.now) }
{
    // For the prover: this call says how the nets have their numbers.
    let _gates = circuit.gates();
    match names.number_of(name, numbers) {
        Some(number) => net_named(circuit, number),
        None => None,
    }
}

/// Adds a net, unless it is there. The error is out of memory.
fn push_new(nets: &mut Vec<u32>, net: u32) -> Result<(), AllocError>
    ensures { OnOk result (nets.new.items ≡ with_net nets.old.items net) }
{
    if nets.contains(&net) {
        return Ok(());
    }
    nets.push(net)?;
    Ok(())
}

/// The nets that words name, as reports print them: their numbers in the circuit, in the order of
/// the words, each once; or the first word that names none. The error is out of memory.
pub fn nets_of<'w>(
    alloc: Global,
    circuit: &Circuit,
    words: &[&'w str],
) -> Result<Result<Vec<u32>, &'w str>, AllocError>
    ensures nets { IfOk result (λ reported. IfOk reported (λ nets.
        AreChosen circuit.now (map (λ word. word.now) words.now) nets.items)) }
    ensures unnamed { IfOk result (λ reported. IfErr reported (λ word.
        IsUnnamed circuit.now (map (λ word. word.now) words.now) word.now)) }
{
    let names = names_of(alloc, words)?;
    let numbers = numbers_of(alloc, circuit, &names)?;
    let mut nets = Vec::new(alloc);
    for word in words {
        match net_of(circuit, &names, &numbers, word.as_bytes()) {
            Some(net) => push_new(&mut nets, net)?,
            None => return Ok(Err(*word)),
        }
    }
    Ok(Ok(nets))
}

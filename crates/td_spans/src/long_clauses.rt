//! Where a gate's output surely is at a level, by pieces: for clauses of many literals.

ghost use Rattle.std.specs.Prelude.{◌≡◌, ◌≤◌, ◌++◌, ◌↔◌, ℕ, IsTrue, IfOk, OnOk, not, map, length, option_to_list, IsPermutation};
ghost use Rattle.td_gates.specs.Table.{TakesInputs};
ghost use Rattle.td_gates.specs.Counts.{counts_of};
ghost use Rattle.td_circuit.specs.Views.{gate_of};
ghost use Rattle.td_spans.specs.Targets.{steps_to};
ghost use Rattle.td_spans.specs.Clauses.{constant_trit, is_known, IsSureOf};
ghost use Rattle.td_spans.specs.Pieces.{no_counts, one_at, counts_or, many_counts, said_of, own_if, own_of, trit_said, are_all, is_known_in};

use crate::gate_clauses::{constant_trit, is_level, next_after};
use crate::pieces::{Piece, by_sayings, index_from, merged, one_at, piece_at, repeated};
use crate::rules::steps_to;
use crate::sayings::{is_by, says};
use crate::times::Times;
use crate::variable::Saying;
use crate::variables::Variables;
use crate::walk::{Walk, is_covered, walked};
use std::alloc::{AllocError, Global};
use td_circuit::Gate;
use td_gates::eval_counts;
use td_propagation::Literal;

// Adds a saying, where there is one. The error is out of memory.
fn add_said(said: &mut Vec<Saying>, saying: Option<Saying>) -> Result<(), AllocError>
    ensures { OnOk result (said.new.items ≡ said.old.items ++ option_to_list saying) }
{
    match saying {
        None => {}
        Some(saying) => said.push(saying)?,
    }
    Ok(())
}

// What literals say, where they are false. The error is out of memory.
fn said_of(
    alloc: Global,
    variables: &Variables,
    times: &[Times],
    body: &[Literal],
) -> Result<Vec<Saying>, AllocError>
    ensures { IfOk result (λ said. said.items ≡ said_of variables.now times.now body.now) }
{
    let mut said = Vec::new(alloc);
    for literal in body {
        add_said(&mut said, says(variables, times, literal.negation()))?;
    }
    Ok(said)
}

// Adds a saying, where it is of this net. The error is out of memory.
fn add_own(own: &mut Vec<Saying>, saying: Saying, net: u32) -> Result<(), AllocError>
    ensures { OnOk result (own.new.items ≡ own.old.items ++ own_if saying net) }
{
    if saying.net == net {
        own.push(saying)?;
    }
    Ok(())
}

// What is said of a net. The error is out of memory.
fn own_of(alloc: Global, said: &[Saying], net: u32) -> Result<Vec<Saying>, AllocError>
    ensures { IfOk result (λ own. own.items ≡ own_of said.now net) }
{
    let mut own = Vec::new(alloc);
    for saying in said {
        add_own(&mut own, *saying, net)?;
    }
    Ok(own)
}

// The piece of a net that nothing is said of. The error is out of memory.
fn constant_pieces(alloc: Global, net: u32) -> Result<Vec<Piece>, AllocError>
    ensures { IfOk result (λ pieces. (place : ℕ) → counts_or pieces.items no_counts place ≡ one_at (constant_trit net)) }
{
    let mut pieces = Vec::new(alloc);
    pieces.push(Piece {
        last: None,
        counts: one_at(constant_trit(net)),
    })?;
    Ok(pieces)
}

// The levels of a net in pieces, by what is said. The error is out of memory.
fn net_pieces(alloc: Global, said: &[Saying], net: u32) -> Result<Vec<Piece>, AllocError>
    ensures { IfOk result (λ pieces. (place : ℕ) → counts_or pieces.items no_counts place ≡ one_at (trit_said said.now net place)) }
{
    let own = own_of(alloc, said, net)?;
    let first = by_sayings(alloc, &own)?;
    let rest = constant_pieces(alloc, net)?;
    let pieces = merged(alloc, false, &first, &rest)?;
    Ok(pieces)
}

// Whether these nets all are the same one.
fn are_all(nets: &[u32], net: u32) -> bool
    ensures { result ≡ are_all nets.now net }
{
    nets.iter().all(|other| *other == net)
}

// How many of these nets are at each level, in pieces, where all of them are one. The error is out
// of memory.
fn counts_of_one(
    alloc: Global,
    said: &[Saying],
    net: u32,
    count: u64,
) -> Result<Vec<Piece>, AllocError>
    ensures { IfOk result (λ pieces. (place : ℕ) → counts_or pieces.items no_counts place ≡ many_counts count (one_at (trit_said said.now net place))) }
{
    let one = net_pieces(alloc, said, net)?;
    let pieces = repeated(alloc, count, &one)?;
    Ok(pieces)
}

// How many of these nets are at each level, in pieces, by what is said. It takes least where the
// same nets stand together. The error is out of memory.
fn counts_pieces(alloc: Global, said: &[Saying], nets: &[u32]) -> Result<Vec<Piece>, AllocError>
    requires { length nets.now ≤ 1023 }
    ensures { IfOk result (λ pieces. (place : ℕ) → counts_or pieces.items no_counts place ≡ counts_of (map (λ net. trit_said said.now net place) nets.now)) }
{
    match nets.len() {
        0 => Ok(Vec::new(alloc)),
        1 => {
            let pieces = net_pieces(alloc, said, nets[0])?;
            Ok(pieces)
        }
        count => {
            if are_all(nets, nets[0]) {
                let pieces = counts_of_one(alloc, said, nets[0], count as u64)?;
                return Ok(pieces);
            }
            let middle = count / 2;
            let low = counts_pieces(alloc, said, &nets[..middle])?;
            let high = counts_pieces(alloc, said, &nets[middle..])?;
            let pieces = merged(alloc, true, &low, &high)?;
            Ok(pieces)
        }
    }
}

// Nets in order. The error is out of memory.
fn sorted(alloc: Global, nets: &[u32]) -> Result<Vec<u32>, AllocError>
    ensures { IfOk result (λ sorted. IsPermutation nets.now sorted.items) }
{
    let mut sorted = Vec::from_slice(alloc, nets)?;
    sorted.sort()?;
    Ok(sorted)
}

// Whether a gate's output surely is as a saying says, where its inputs are at each level as the
// pieces count them.
fn is_sure_in(pieces: &[Piece], gate: &Gate, saying: Saying) -> bool
    ensures { IsTrue result ↔ IsSureOf (is_known_in gate.now.kind saying.level pieces.now) (steps_to gate.now.delay saying.level) (steps_to gate.now.delay (not saying.level)) saying }
{
    if !is_by(saying.first as u128, saying.last) {
        return true;
    }
    let coming = steps_to(gate.delay, saying.level) as u128;
    let going = steps_to(gate.delay, !saying.level) as u128;
    let mut place = 0;
    let mut index = 0;
    let mut walk = Walk {
        run: None,
        sure: None,
    };
    loop {
        index = index_from(pieces, index, place);
        let piece = piece_at(pieces, index);
        let next = next_after(piece.last);
        let passes = is_level(saying.level, eval_counts(gate.kind, piece.counts));
        walk = walked(walk, passes, place, next, coming, going);
        if is_covered(walk.sure, saying, going) {
            return true;
        }
        match next {
            None => return false,
            Some(later) => place = later,
        }
    }
}

/// Whether a gate's output surely is as a saying says, where all of these literals are false. The
/// error is out of memory.
pub fn is_sure_by_pieces(
    alloc: Global,
    variables: &Variables,
    times: &[Times],
    gate: &Gate,
    body: &[Literal],
    saying: Saying,
) -> Result<bool, AllocError>
    requires takes { TakesInputs gate.now.kind (length gate.now.inputs.items) }
    requires few { length gate.now.inputs.items ≤ 1023 }
    ensures { IfOk result (λ answer. IsTrue answer ↔ IsSureOf (is_known variables.now times.now (gate_of gate.now) body.now saying.level) (steps_to gate.now.delay saying.level) (steps_to gate.now.delay (not saying.level)) saying) }
{
    let said = said_of(alloc, variables, times, body)?;
    let nets = sorted(alloc, &gate.inputs)?;
    let pieces = counts_pieces(alloc, &said, &nets)?;
    Ok(is_sure_in(&pieces, gate, saying))
}

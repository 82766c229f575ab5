//! A pair of vectors of a text's inputs.

ghost use Rattle.std.specs.Prelude.{◌≡◌, length, IfOk, IfErr};
ghost use Rattle.td_circuit.specs.Numbering.{setting};
ghost use Rattle.td_inputs.specs.Placings.{words_by_place};
ghost use Rattle.td_question.specs.Asking.{IsPair, IsFaultOf, IsWordFault, AreSpelled, vector_words};
ghost use Rattle.td_question.specs.Vectors.{IsFirstBad};

use crate::fault::QuestionFault;
use crate::placed::{Placed, placed_on};
use crate::timing::moments;
use crate::vector::{VectorWord, vector};
use std::alloc::{AllocError, Global};
use td_circuit::Circuit;
use td_gates::Level;
use td_inputs::ByPlace;
use td_reading::Reading;
use td_request::Inputs;

/// A circuit with its moments, and a level for each of its inputs before and after they change.
#[derive(Drop)]
pub struct PairAsked {
    pub circuit: Circuit,
    pub first: Vec<Level>,
    pub second: Vec<Level>,
}

/// The two vectors, as words spell them.
#[derive(Clone, Copy)]
struct Spelled<'a> {
    from: &'a str,
    to: &'a str,
}

/// The levels of two vectors.
#[derive(Drop)]
struct Levels {
    first: Vec<Level>,
    second: Vec<Level>,
}

/// The pair of vectors that two words spell, with the moments of other words.
///
/// # Errors
///
/// As of `question_of`.
pub fn pair_of<'a, 'w>(
    alloc: Global,
    text: &'a [u8],
    reading: &Reading<'_>,
    inputs: &Inputs<'w>,
    from: &str,
    to: &str,
) -> Result<PairAsked, QuestionFault<'a, 'w>>
    ensures asked { IfOk result (λ asked. IsPair text.now reading.now inputs.now from.now to.now (setting asked.circuit) asked.first.items asked.second.items) }
    ensures fault { IfErr result (IsFaultOf text.now reading.now inputs.now (vector_words from.now to.now)) }
{
    match placed_on(alloc, text, reading, inputs) {
        Ok(placed) => {
            let Placed { circuit, words, .. } = placed;
            spelled_by(alloc, circuit, &words, Spelled { from, to })
        }
        Err(fault) => Err(fault),
    }
}

/// The pair that two words spell for a circuit's inputs.
fn spelled_by<'a, 'w>(
    alloc: Global,
    circuit: Circuit,
    words: &ByPlace,
    spelled: Spelled<'_>,
) -> Result<PairAsked, QuestionFault<'a, 'w>>
    ensures asked { IfOk result (λ asked. AreSpelled circuit.netlist (words_by_place words.now) spelled.entry.from.now spelled.entry.to.now (setting asked.circuit) asked.first.items asked.second.items) }
    ensures fault { IfErr result (IsWordFault (length circuit.netlist.inputs) (vector_words spelled.entry.from.now spelled.entry.to.now (words_by_place words.now))) }
{
    let mut circuit = circuit;
    match spell_in(alloc, &mut circuit, words, spelled)? {
        Ok(levels) => {
            let Levels { first, second } = levels;
            Ok(PairAsked {
                circuit,
                first,
                second,
            })
        }
        Err(word) => Err(QuestionFault::BadVector(word)),
    }
}

/// Gives a circuit the moments of the words, and tells the levels of the two vectors; or the first
/// word that gives nothing for its inputs.
fn spell_in(
    alloc: Global,
    circuit: &mut Circuit,
    words: &ByPlace,
    spelled: Spelled<'_>,
) -> Result<Result<Levels, VectorWord>, AllocError>
    ensures asked { IfOk result (λ reported. IfOk reported (λ levels. AreSpelled circuit.old.netlist (words_by_place words.now) spelled.entry.from.now spelled.entry.to.now (setting circuit.new) levels.first.items levels.second.items)) }
    ensures bad { IfOk result (λ reported. IfErr reported (IsFirstBad (length circuit.old.netlist.inputs) (vector_words spelled.entry.from.now spelled.entry.to.now (words_by_place words.now)))) }
{
    let inputs = circuit.input_count();
    let Some(first) = vector::<Level>(alloc, spelled.from, inputs)? else {
        return Ok(Err(VectorWord::From));
    };
    let Some(second) = vector::<Level>(alloc, spelled.to, inputs)? else {
        return Ok(Err(VectorWord::To));
    };
    let Some(moments) = moments(alloc, &words.at, inputs)? else {
        return Ok(Err(VectorWord::At));
    };
    circuit.set_moments(moments);
    Ok(Ok(Levels { first, second }))
}

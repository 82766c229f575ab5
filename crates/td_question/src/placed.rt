//! A text's circuit, and what is said of its inputs by place and by name, by place alone.

ghost use Rattle.std.specs.Prelude.{◌<◌, ◌^◌, length, option_map, IfOk, IfErr};
ghost use Rattle.td_inputs.specs.Placings.{words_by_place};
ghost use Rattle.td_source.specs.Reads.{HasCircuit, AreOutputsOf};
ghost use Rattle.td_question.specs.Asking.{SayTogether, IsFaultOfAny};

use crate::fault::QuestionFault;
use crate::names::input_labels;
use crate::vector::unread;
use std::alloc::Global;
use td_circuit::Circuit;
use td_inputs::{ByPlace, places};
use td_reading::Reading;
use td_request::Inputs;
use td_source::source_of;

/// A circuit, the numbers of the outputs that are asked about, where some are, and the words by
/// place that say of its inputs what all words say together.
#[derive(Drop)]
pub(crate) struct Placed {
    pub(crate) circuit: Circuit,
    pub(crate) outputs: Option<Vec<u64>>,
    pub(crate) words: ByPlace,
}

/// The circuit of a text, and what words say of its inputs. Names are those of the inputs of the
/// one circuit that is answered with.
///
/// # Errors
///
/// The first that is there of a fault of the text, and a fault of what is said by name.
/// `OutOfMemory` where a growth was refused.
pub(crate) fn placed_on<'a, 'w>(
    alloc: Global,
    text: &'a [u8],
    reading: &Reading<'_>,
    inputs: &Inputs<'w>,
) -> Result<Placed, QuestionFault<'a, 'w>>
    ensures circuit { IfOk result (λ placed. HasCircuit text.now reading.now placed.circuit.netlist) }
    ensures outputs { IfOk result (λ placed. AreOutputsOf text.now reading.now (option_map (λ numbers. numbers.items) placed.outputs)) }
    ensures few { IfOk result (λ placed. length placed.circuit.netlist.inputs < 2 ^ 32) }
    ensures together { IfOk result (λ placed. SayTogether placed.circuit.netlist inputs.now (words_by_place placed.words)) }
    ensures fault { IfErr result (IsFaultOfAny text.now reading.now inputs.now) }
{
    let source = source_of(alloc, text, reading)?;
    let labels = input_labels(alloc, &source.circuit)?;
    let options = places(alloc, &labels, inputs.named, inputs.given)?;
    match options {
        Ok(Some(words)) => Ok(Placed {
            circuit: source.circuit,
            outputs: source.outputs,
            words,
        }),
        Ok(None) => {
            let word = unread(alloc, inputs.given, labels.len())?;
            Err(QuestionFault::BadVector(word))
        }
        Err(fault) => Err(QuestionFault::BadName(fault, labels)),
    }
}

//! What a request asks of a netlist's text.

ghost use Rattle.std.specs.Prelude.{◌≡◌, ◌<◌, ◌^◌, length, option_map, IfOk, IfErr};
ghost use Rattle.td_circuit.specs.Numbering.{setting};
ghost use Rattle.td_inputs.specs.Placings.{words_by_place};
ghost use Rattle.td_question.specs.Asking.{most_flips, Admits, AreAdmitted, IsAsked, SayTogether, keep_quotes, pair_words, placed_words, IsWordFault, IsFaultOf, IsKeepFault, IsQuestionFault};
ghost use Rattle.td_question.specs.Keeping.{AreConditions};
ghost use Rattle.td_question.specs.Vectors.{IsFirstBad};
ghost use Rattle.td_source.specs.Reads.{AreOutputsOf};

use crate::fault::QuestionFault;
use crate::keeping::{KeepFault, conditions_of};
use crate::placed::{Placed, placed_on};
use crate::timing::moments;
use crate::vector::{VectorWord, given};
use std::alloc::{AllocError, Global};
use td_circuit::Circuit;
use td_domain::{Admit, Cube, Trit};
use td_inputs::ByPlace;
use td_reading::Reading;
use td_refutation::NamedCondition;
use td_request::Question;

/// What is asked: a circuit with its moments, which pairs of its inputs are admitted, and what they
/// keep.
#[derive(Drop)]
pub struct Asked {
    pub circuit: Circuit,
    pub admit: Admit,
    /// The numbers of the outputs that are asked about, rising, where some are named.
    pub outputs: Option<Vec<u64>>,
    /// The words by place that say what all words about inputs say together.
    pub words: ByPlace,
    /// Conditions on nets, rising.
    pub keep: Vec<NamedCondition>,
}

/// What a question asks of a text.
///
/// # Errors
///
/// As of `placed_on`; or the first word that gives nothing for the inputs; or, where there is none,
/// a file of conditions that is too long, or the first word or line of a condition that says none
/// of the circuit.
pub fn question_of<'a, 'w>(
    alloc: Global,
    text: &'a [u8],
    reading: &Reading<'_>,
    question: &Question<'w>,
) -> Result<Asked, QuestionFault<'a, 'w>>
    ensures asked { IfOk result (λ asked. IsAsked text.now reading.now question.now (setting asked.circuit) asked.admit) }
    ensures outputs { IfOk result (λ asked. AreOutputsOf text.now reading.now (option_map (λ numbers. numbers.items) asked.outputs)) }
    ensures together { IfOk result (λ asked. SayTogether asked.circuit.netlist question.now.inputs (words_by_place asked.words)) }
    ensures keep { IfOk result (λ asked. AreConditions asked.circuit.netlist (keep_quotes question.now) asked.keep.items) }
    ensures fault { IfErr result (IsQuestionFault text.now reading.now question.now) }
{
    match pairs_of(alloc, text, reading, question) {
        Ok(asked) => keeping(alloc, asked, question),
        Err(fault) => Err(fault),
    }
}

/// What a question asks of a text, without its conditions on nets.
fn pairs_of<'a, 'w>(
    alloc: Global,
    text: &'a [u8],
    reading: &Reading<'_>,
    question: &Question<'w>,
) -> Result<Asked, QuestionFault<'a, 'w>>
    ensures asked { IfOk result (λ asked. IsAsked text.now reading.now question.now (setting asked.circuit) asked.admit) }
    ensures outputs { IfOk result (λ asked. AreOutputsOf text.now reading.now (option_map (λ numbers. numbers.items) asked.outputs)) }
    ensures together { IfOk result (λ asked. SayTogether asked.circuit.netlist question.now.inputs (words_by_place asked.words)) }
    ensures fault { IfErr result (IsFaultOf text.now reading.now question.now.inputs placed_words) }
{
    match placed_on(alloc, text, reading, &question.inputs) {
        Ok(placed) => {
            let Placed {
                circuit,
                outputs,
                words,
            } = placed;
            asked_by(alloc, circuit, outputs, words, question.flips)
        }
        Err(fault) => Err(fault),
    }
}

/// What words by place ask of a circuit.
fn asked_by<'a, 'w>(
    alloc: Global,
    circuit: Circuit,
    outputs: Option<Vec<u64>>,
    words: ByPlace,
    flips: Option<u64>,
) -> Result<Asked, QuestionFault<'a, 'w>>
    requires { length circuit.netlist.inputs < 2 ^ 32 }
    ensures asked { IfOk result (λ asked. AreAdmitted circuit.netlist (words_by_place words) flips (setting asked.circuit) asked.admit) }
    ensures outputs { IfOk result (λ asked. asked.outputs ≡ outputs) }
    ensures words { IfOk result (λ asked. (asked.circuit.netlist ≡ circuit.netlist) × (words_by_place asked.words ≡ words_by_place words)) }
    ensures fault { IfErr result (IsWordFault (length circuit.netlist.inputs) (placed_words (words_by_place words))) }
{
    let mut circuit = circuit;
    match admit_in(alloc, &mut circuit, &words, flips)? {
        Ok(admit) => Ok(Asked {
            circuit,
            admit,
            outputs,
            words,
            keep: Vec::new(alloc),
        }),
        Err(word) => Err(QuestionFault::BadVector(word)),
    }
}

/// What is asked, with the conditions that a question says.
fn keeping<'a, 'w>(
    alloc: Global,
    asked: Asked,
    question: &Question<'w>,
) -> Result<Asked, QuestionFault<'a, 'w>>
    ensures same { IfOk result (λ kept. (kept.circuit ≡ asked.circuit) × (kept.admit ≡ asked.admit) × (kept.outputs ≡ asked.outputs) × (kept.words ≡ asked.words)) }
    ensures keep { IfOk result (λ kept. AreConditions kept.circuit.netlist (keep_quotes question.now) kept.keep.items) }
    ensures fault { IfErr result (IsKeepFault asked.circuit.netlist question.now) }
{
    match conditions_of(alloc, &asked.circuit, question)? {
        Ok(keep) => Ok(Asked {
            circuit: asked.circuit,
            admit: asked.admit,
            outputs: asked.outputs,
            words: asked.words,
            keep,
        }),
        Err(KeepFault::Bad(quote)) => Err(QuestionFault::BadKeep(quote)),
        Err(KeepFault::NoNet(name)) => Err(QuestionFault::NoNet(name)),
        Err(KeepFault::TooLong) => Err(QuestionFault::LongKeepFile),
    }
}

/// Gives a circuit the moments of the words, and tells which pairs of its inputs they admit; or the
/// first word that gives nothing for its inputs.
fn admit_in(
    alloc: Global,
    circuit: &mut Circuit,
    words: &ByPlace,
    flips: Option<u64>,
) -> Result<Result<Admit, VectorWord>, AllocError>
    requires { length circuit.old.netlist.inputs < 2 ^ 32 }
    ensures asked { IfOk result (λ reported. IfOk reported (AreAdmitted circuit.old.netlist (words_by_place words.now) flips (setting circuit.new))) }
    ensures bad { IfOk result (λ reported. IfErr reported (IsFirstBad (length circuit.old.netlist.inputs) (placed_words (words_by_place words.now)))) }
{
    let inputs = circuit.input_count();
    let admit = match admit(alloc, words, flips, inputs)? {
        Ok(admit) => admit,
        Err(word) => return Ok(Err(word)),
    };
    let Some(moments) = moments(alloc, &words.at, inputs)? else {
        return Ok(Err(VectorWord::At));
    };
    circuit.set_moments(moments);
    Ok(Ok(admit))
}

/// At how many of these inputs the two vectors may differ.
fn most_flips(inputs: usize, flips: Option<u64>) -> u32
    requires { inputs < 2 ^ 32 }
    ensures { result ≡ most_flips inputs flips }
{
    let inputs = inputs as u64;
    match flips {
        None => inputs as u32,
        Some(flips) => flips.min(inputs) as u32,
    }
}

/// The pairs that the words admit for that many inputs, or the first word that gives nothing for
/// them.
fn admit(
    alloc: Global,
    words: &ByPlace,
    flips: Option<u64>,
    inputs: usize,
) -> Result<Result<Admit, VectorWord>, AllocError>
    requires { inputs < 2 ^ 32 }
    ensures admitted { IfOk result (λ reported. IfOk reported (Admits inputs (words_by_place words.now) flips)) }
    ensures bad { IfOk result (λ reported. IfErr reported (IsFirstBad inputs (pair_words (words_by_place words.now)))) }
{
    let Some(firsts) = given(alloc, &words.first, inputs, Trit::Free)? else {
        return Ok(Err(VectorWord::First));
    };
    let Some(seconds) = given(alloc, &words.second, inputs, Trit::Free)? else {
        return Ok(Err(VectorWord::Second));
    };
    let Some(held) = given(alloc, &words.hold, inputs, false)? else {
        return Ok(Err(VectorWord::Hold));
    };
    let pins = Cube::weave(alloc, &firsts, &seconds)?;
    let flips = most_flips(inputs, flips);
    Ok(Ok(Admit::new(pins, held, flips)))
}

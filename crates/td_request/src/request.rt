//! A request: all that the words say.

use crate::effort::{Count, Effort};
use crate::files::Files;
use crate::question::{Inputs, Question};
use td_reading::{Outputs, Reading, Told};

/// In which form a report goes out.
#[derive(Clone, Copy, Debug, PartialEq, Eq, Drop)]
pub enum Form {
    Text,
    Json,
    /// Not at all.
    Quiet,
}

/// The run of a pair of vectors.
#[derive(Drop)]
pub struct Sim<'a> {
    pub from: &'a str,
    pub to: &'a str,
    /// When inputs change.
    pub inputs: Inputs<'a>,
    /// Whether it is asked which output changes last.
    pub outputs: bool,
    /// Where the waves of the run go.
    pub dump: Option<&'a str>,
    /// The nets that have these waves, as reports print them; all nets where none is named.
    pub nets: Outputs<'a>,
    /// After how many seconds the run ends without an outcome.
    pub seconds: Option<u64>,
}

/// Why an output changes last when it does, in the run of a pair of vectors.
#[derive(Clone, Copy)]
pub struct Path<'a> {
    pub from: &'a str,
    pub to: &'a str,
    /// When inputs change.
    pub inputs: Inputs<'a>,
    /// The output, as reports print it; the one that changes last where there is none.
    pub output: Option<&'a str>,
    /// After how many seconds the run ends without an outcome.
    pub seconds: Option<u64>,
}

/// Bounds of the delays of a cube of pairs.
#[derive(Clone, Copy)]
pub struct Bound<'a> {
    pub inputs: Inputs<'a>,
    /// At how many inputs, at most, the two vectors differ.
    pub flips: Option<u64>,
    /// The moment by which outputs are to settle, in steps.
    pub required: Option<u64>,
    /// Whether the bounds by edges are asked for too.
    pub edges: bool,
    /// Whether it is asked which output has the bound.
    pub outputs: bool,
    /// Whether the earliest change of an output is asked for, by edges.
    pub earliest: bool,
}

/// By which means a search goes.
#[derive(Clone, Copy, Debug, PartialEq, Eq, Drop)]
pub enum Strategy {
    Least,
    Lead,
    Refute,
    Auto,
}

/// What is shown of a search beside its answer.
#[derive(Clone, Copy, Debug, Drop)]
pub struct Shown {
    /// The changes that lead to the last one of the given pair.
    pub path: bool,
    /// Which output changes last.
    pub outputs: bool,
    /// How far the search has come.
    pub progress: bool,
    /// How many units of work the search took.
    pub work: bool,
    /// The pair of each row of a table.
    pub vectors: bool,
}

/// Which table is asked for, of each output by itself.
#[derive(Clone, Copy, Debug, PartialEq, Eq, Drop)]
pub enum Table {
    /// The worst delays.
    Delays,
    /// And the latest rise, the latest fall, and whether there is a glitch, or the figure of the
    /// latest one.
    Changes { figures: bool },
    /// Whether an output can glitch, at either level.
    Hazards,
}

/// An option of tables that doesn't go with the others.
#[derive(Clone, Copy, Debug, PartialEq, Eq, Drop)]
pub enum Stray {
    /// `--changes` without `--each`.
    Changes,
    /// `--figures` without `--changes`.
    Figures,
    /// `--vectors` without `--each`.
    Vectors,
    /// `--hazards` beside one of the others.
    Hazards,
}

/// The search for the worst delay.
#[derive(Clone, Copy)]
pub struct Search<'a> {
    pub question: Question<'a>,
    pub strategy: Strategy,
    pub effort: Effort,
    /// The file whose presence ends the search.
    pub stop: Option<&'a str>,
    /// The moment by which outputs are to settle, in steps.
    pub required: Option<u64>,
    /// Where the certificate goes: of an exact answer, and of what is required.
    pub certificate: Option<&'a str>,
    /// Whether an open answer has a certificate too.
    pub between: bool,
    /// Where the waves of the given pair's run go.
    pub dump: Option<&'a str>,
    pub shown: Shown,
    /// The table that is asked for in place of one answer.
    pub table: Option<Table>,
    /// An option of tables that doesn't go with the others.
    pub stray: Option<Stray>,
}

/// The parts of a search's question.
#[derive(Clone, Copy)]
pub struct Parts<'a> {
    pub question: Question<'a>,
    pub strategy: Strategy,
    pub count: Count,
    /// The moment by which outputs are to settle, in steps.
    pub required: Option<u64>,
}

/// One certificate of those of a question's parts.
#[derive(Drop)]
pub struct Join<'a> {
    /// The files of the parts' certificates, in order.
    pub parts: Files<'a>,
    /// The whole question.
    pub question: Question<'a>,
    /// By which moment all outputs are to settle, where that is asked.
    pub required: Option<u64>,
    /// Where its certificate goes.
    pub certificate: Option<&'a str>,
    /// Whether each part's certificate is checked.
    pub check: bool,
}

/// The verdict on a certificate.
#[derive(Clone, Copy, Debug)]
pub struct Check<'a> {
    /// The certificate's file.
    pub certificate: &'a str,
    /// What is said of how the netlist is read.
    pub told: Told,
    /// After how many seconds the check ends without a verdict.
    pub seconds: Option<u64>,
}

/// What is to be done.
#[derive(Drop)]
pub enum Command<'a> {
    Sim(Sim<'a>),
    Path(Path<'a>),
    Bound(Bound<'a>),
    Worst(Search<'a>),
    Parts(Parts<'a>),
    Join(Join<'a>),
    Check(Check<'a>),
    Info,
}

/// All that the words of a command line say.
#[derive(Drop)]
pub struct Request<'a> {
    /// The netlist's file.
    pub file: &'a str,
    /// How its text is read.
    pub reading: Reading<'a>,
    pub command: Command<'a>,
    pub form: Form,
    /// Whether a hint follows a refusal.
    pub hints: bool,
}

//! The lines of reports.

use crate::label::Label;
use crate::moments::Moments;
use crate::vector::Vector;
use td_gates::{Kind, Level};
use td_nets::Unit;

/// Why a search ended without an exact answer.
#[derive(Clone, Copy, Debug, PartialEq, Eq, Drop)]
pub enum Cause {
    Budget,
    Memory,
    Time,
    /// There was nothing more to try, and the budget isn't used up.
    Effort,
    /// Somebody asked for the search's end.
    Stop,
    /// What was asked of a required moment is answered.
    Required,
}

/// Whether outputs settle by a required moment: no admitted pair is later; the given pair is; or
/// neither is known.
#[derive(Clone, Copy, Debug, PartialEq, Eq, Drop)]
pub enum Standing {
    Met,
    Violated,
    Open,
}

/// Which bound: by arrival windows, possible levels, both; by edges, or edges and possible levels;
/// the earliest change, by edges.
#[derive(Clone, Copy, Debug, PartialEq, Eq, Drop)]
pub enum Figure {
    Arrivals,
    Possibles,
    Both,
    Edges,
    EdgesAndPossibles,
    Earliest,
}

/// The least and the greatest of delays, in steps.
#[derive(Clone, Copy, Debug, Drop)]
pub struct Span {
    pub least: u64,
    pub greatest: u64,
}

/// A net, and its place among the inputs or outputs, from 0 on.
#[derive(Debug, Drop)]
pub struct Place {
    pub place: u64,
    pub net: Label,
}

/// When an output changes last, if it does.
#[derive(Debug, Drop)]
pub struct Last {
    pub output: Label,
    pub moment: Option<u64>,
}

/// The gate that makes a net change: its kind, and its delay to the new level, in steps.
#[derive(Clone, Copy, Debug, Drop)]
pub struct Driver {
    pub kind: Kind,
    pub delay: u64,
}

/// A change of a net, by a gate, or of an input, which changes by itself.
#[derive(Debug, Drop)]
pub struct Change {
    pub moment: u64,
    pub net: Label,
    pub from: Level,
    pub to: Level,
    pub by: Option<Driver>,
}

/// The options by which `worst` searches a part of a question, as words of a command line.
#[derive(Debug, Drop)]
pub struct Part {
    pub words: Vec<Label>,
}

/// What is found of a worst delay: the delay, or two moments between which it lies; where no pair is
/// known, a moment that it doesn't pass, or that there is no pair.
#[derive(Clone, Copy, Debug, Drop)]
pub enum Found {
    Exact(u64),
    Between { low: u64, high: u64 },
    AtMost(u64),
    NoPair,
}

/// What is found of an output by the levels at which it settles: its latest change where it rises,
/// where it falls, and where it ends at the level of its beginning.
#[derive(Clone, Copy, Debug, Drop)]
pub struct Changes {
    pub rise: Found,
    pub fall: Found,
    pub glitch: Found,
}

/// A required moment of an output, and whether the output settles by it.
#[derive(Clone, Copy, Debug, Drop)]
pub struct Requirement {
    pub moment: u64,
    pub standing: Standing,
}

/// A pair of vectors.
#[derive(Debug, Drop)]
pub struct Vectors {
    pub from: Vector,
    pub to: Vector,
}

/// What is found of an output alone: its worst delay, its bound by edges, and a pair that has the
/// figure, or the lower one, its changes and how a required moment stands, where these are asked
/// for.
#[derive(Debug, Drop)]
pub struct Row {
    pub output: Label,
    pub found: Found,
    pub edges: Option<u64>,
    pub pair: Option<Vectors>,
    pub changes: Option<Changes>,
    pub required: Option<Requirement>,
}

/// Whether an output can change late where it settles at one level: a pair that shows it; or it
/// can't, or no pair is there, or that is open.
#[derive(Debug, Drop)]
pub enum Hazard {
    Can { from: Vector, to: Vector },
    Never,
    NoPair,
    Open,
}

/// A hazard of an output, by the level at which it settles under both vectors: 1, or 0.
#[derive(Debug, Drop)]
pub struct HazardRow {
    pub output: Label,
    pub level: bool,
    pub hazard: Hazard,
}

/// A line of a report, or several of one kind that follow one another.
#[derive(Debug, Drop)]
pub enum Line {
    /// The module's name.
    Module(Label),
    /// How long a step takes.
    Unit(Unit),
    /// How many inputs there are.
    Inputs(u64),
    /// How many outputs.
    Outputs(u64),
    /// How many gates.
    Gates(u64),
    /// How many gates the default delay serves.
    Defaulted(u64),
    /// The most gates on a way through the netlist.
    Depth(u64),
    /// The delays of the gates, if there are gates.
    Delay(Option<Span>),
    /// The inputs, in order.
    InputPlaces(Vec<Place>),
    /// The outputs, in order.
    OutputPlaces(Vec<Place>),
    /// When outputs change last.
    Lasts(Vec<Last>),
    /// The latest change of any output.
    Time(u64),
    /// The output that is latest.
    Output(Label),
    /// Changes that lead to the last one.
    Changes(Vec<Change>),
    /// A bound over all pairs, if there is one; the earliest change of any pair, if one may come.
    Bound(Figure, Option<u64>),
    /// The worst delay.
    Exact(u64),
    /// The worst delay lies between the two.
    Between {
        low: u64,
        high: u64,
    },
    /// The worst delay isn't above this, if there is a pair: none is known.
    AtMost(u64),
    /// No pair is admitted.
    NoPair,
    /// Why it isn't exact.
    Cause(Cause),
    /// The first vector of a pair.
    From(Vector),
    /// The second.
    To(Vector),
    /// How many nodes were handled.
    Nodes(u64),
    /// How many units of work searches by spans took.
    Units(u64),
    /// Whether outputs settle by this moment.
    Required(u64, Standing),
    /// What is found of each output alone.
    Each(Vec<Row>),
    /// The hazards of outputs.
    Hazards(Vec<HazardRow>),
    /// The parts of a question.
    Parts(Vec<Part>),
    /// The time of a certificate that is accepted: the worst delay.
    Accepted(u64),
    /// Where it leaves that open: its time, and the moment after which no admitted pair changes an
    /// output.
    AcceptedBetween {
        time: u64,
        high: u64,
    },
    /// Where it claims that no pair is admitted.
    AcceptedNone,
    /// The time of certificates that are joined and weren't checked.
    Unchecked(u64),
    /// Where they leave the worst delay open, as where one that is accepted does.
    UncheckedBetween {
        time: u64,
        high: u64,
    },
    /// Where they claim that no pair is admitted.
    UncheckedNone,
    /// The delays of gates that state none, in steps, of a certificate.
    Default {
        rise: u64,
        fall: u64,
    },
    /// The numbers of the outputs that it is about, or that it is about all.
    OutputNumbers(Option<Moments>),
    /// What is pinned in the first vector, of a certificate.
    First(Label),
    /// And in the second.
    Second(Label),
    /// Which inputs are held.
    Hold(Label),
    /// At how many inputs the vectors may differ.
    Flips(u64),
    /// When each input changes.
    At(Moments),
    /// The conditions that pairs keep.
    Keep(Label),
    /// The verdict that refuses a certificate, and the line of its text that it is about.
    Refused {
        number: u8,
        name: &'static str,
        line: Option<u32>,
    },
}

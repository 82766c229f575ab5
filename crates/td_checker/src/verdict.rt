//! What the checker answers.

ghost use Rattle.std.specs.Prelude.{◌≡◌};
ghost use Rattle.td_checker.specs.declared.verdict.CheckFault.TheVariants as fault;
ghost use Rattle.td_checker.specs.Checks.{fault_of};
ghost use Rattle.td_checker.specs.Verdicts.{verdict_number, verdict_name, verdict_line};

use std::alloc::AllocError;
use td_certificate::{CertFault, Certificate};
use td_netlist::Fault;
use td_nets::Name;
use td_refutation::Flaw as StepFlaw;
use td_source::SourceFault;
use thiserror::Error;

/// The verdict on a certificate: the first that applies of another circuit, another question, a
/// pair that isn't admitted, a pair without the time, and, line by line in the tree, a bad
/// position, a leaf in whose cube an admitted pair may lie where none is to, a leaf of one pair with
/// something free, a step that isn't good, a wrong number, and a number that is too high. Lines are
/// those of the text, from 1.
#[derive(Clone, Copy, Debug, PartialEq, Eq, Drop)]
pub enum Verdict {
    /// What the certificate claims is true: the pair has its time, and no admitted pair changes an
    /// output after its other moment; or no pair is admitted.
    Accepted,
    /// The pair's delay isn't the time.
    PairTime,
    /// A bound less than the domain's or of a domain that gives none, a time that isn't the pair's
    /// delay, or a bound that steps don't show, or of sets with too many variables.
    LeafBound(u32),
    /// The number of a leaf is above the moment after which no admitted pair changes an output.
    LeafAboveTime(u32),
    /// A split at a position that doesn't exist or isn't free.
    BadPosition(u32),
    /// A leaf of one pair where something is free.
    NotAPoint(u32),
    /// The circuit has another number of inputs or gates.
    OtherCircuit,
    /// The pair isn't admitted.
    PairNotAdmitted,
    /// An admitted pair may lie in the cube of a leaf that says that none does, or a leaf has a
    /// number where the claim is that no pair is admitted.
    LeafNotEmpty(u32),
    /// A step of a leaf that is refuted isn't good, for this reason.
    BadStep(u32, StepFlaw),
    /// The text tells other delays of gates that state none, or other outputs.
    OtherQuestion(u32),
}

impl Verdict {
    /// The number by which programs tell this verdict, from 1 for `Accepted` to 11.
    pub fn number(self) -> u8
        ensures { result ≡ verdict_number self }
    {
        match self {
            Verdict::Accepted => 1,
            Verdict::PairTime => 2,
            Verdict::LeafBound(_) => 3,
            Verdict::LeafAboveTime(_) => 4,
            Verdict::BadPosition(_) => 5,
            Verdict::NotAPoint(_) => 6,
            Verdict::OtherCircuit => 7,
            Verdict::PairNotAdmitted => 8,
            Verdict::LeafNotEmpty(_) => 9,
            Verdict::BadStep(_, _) => 10,
            Verdict::OtherQuestion(_) => 11,
        }
    }

    /// The name of this verdict, as its variant is spelled.
    pub fn name(self) -> &'static str
        ensures { result.now ≡ verdict_name self }
    {
        match self {
            Verdict::Accepted => "Accepted",
            Verdict::PairTime => "PairTime",
            Verdict::LeafBound(_) => "LeafBound",
            Verdict::LeafAboveTime(_) => "LeafAboveTime",
            Verdict::BadPosition(_) => "BadPosition",
            Verdict::NotAPoint(_) => "NotAPoint",
            Verdict::OtherCircuit => "OtherCircuit",
            Verdict::PairNotAdmitted => "PairNotAdmitted",
            Verdict::LeafNotEmpty(_) => "LeafNotEmpty",
            Verdict::BadStep(_, _) => "BadStep",
            Verdict::OtherQuestion(_) => "OtherQuestion",
        }
    }

    /// The line of the certificate's text that the verdict is about, where it is about one.
    pub fn line(self) -> Option<u32>
        ensures { result ≡ verdict_line self }
    {
        match self {
            Verdict::LeafBound(line)
            | Verdict::LeafAboveTime(line)
            | Verdict::BadPosition(line)
            | Verdict::NotAPoint(line)
            | Verdict::LeafNotEmpty(line)
            | Verdict::BadStep(line, _)
            | Verdict::OtherQuestion(line) => Some(line),
            Verdict::Accepted
            | Verdict::PairTime
            | Verdict::OtherCircuit
            | Verdict::PairNotAdmitted => None,
        }
    }
}

/// What the checker says of two texts: its verdict, and the certificate that the one text spells.
#[derive(Debug, Drop)]
pub struct Checked {
    pub verdict: Verdict,
    pub certificate: Certificate,
}

/// Why two texts have no verdict: the first that is there of a fault of the netlist's text, an
/// output that is not there, a loop and a fault of the certificate's text.
#[derive(Debug, Drop, Error)]
pub enum CheckFault<'a> {
    /// A growth was refused.
    #[error("out of memory")]
    OutOfMemory,
    /// The netlist's text is refused.
    #[error("the netlist: {0}")]
    Netlist(Fault<'a>),
    /// No output has the name that is asked about.
    #[error("no such output")]
    NoOutput,
    /// This net lies on a loop.
    #[error("a loop")]
    Loop(Name),
    /// The certificate's text is refused.
    #[error("the certificate: {0}")]
    Certificate(CertFault),
}

impl<'a> From<AllocError> for CheckFault<'a> {
    ghost from_gives = { λ _ e. e ≡ fault.OutOfMemory };

    fn from(_e: AllocError) -> CheckFault<'a> {
        CheckFault::OutOfMemory
    }
}

impl<'a> From<SourceFault<'a>> for CheckFault<'a> {
    ghost from_gives = { λ source fault. fault ≡ fault_of source };

    fn from(source: SourceFault<'a>) -> CheckFault<'a> {
        match source {
            SourceFault::OutOfMemory => CheckFault::OutOfMemory,
            SourceFault::Netlist(fault) => CheckFault::Netlist(fault),
            SourceFault::NoOutput => CheckFault::NoOutput,
            SourceFault::Loop(name) => CheckFault::Loop(name),
        }
    }
}

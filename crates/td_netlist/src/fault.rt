//! Why a text is refused.

ghost use Rattle.std.specs.Prelude.{◌≡◌};
ghost use Rattle.td_netlist.specs.declared.fault.FaultKind.TheVariants.{OutOfMemory};
ghost use Rattle.td_netlist.specs.FirstPass.{kind_from};
ghost use Rattle.td_netlist.specs.Kinds.{kind_number, kind_name};

use std::alloc::{AllocError, AllocFailed};
use thiserror::Error;

/// What is wrong with a text. A token that is reported is borrowed from the text.
#[derive(Clone, Copy, Debug, Error)]
pub enum FaultKind<'a> {
    /// A growth was refused. The line says nothing.
    #[error("out of memory")]
    OutOfMemory,
    /// A byte that no token may hold.
    #[error("a byte that no token may hold")]
    BadByte,
    /// The text ends inside a comment, an attribute, a directive or the module, or has no module.
    #[error("the text ends too early")]
    UnexpectedEnd,
    /// A token that the grammar doesn't allow there.
    #[error("a token that the grammar doesn't allow there")]
    Syntax,
    /// The token at which the text leaves the subset of the language.
    #[error("outside the subset")]
    OutOfSubset(&'a [u8]),
    /// An explicit delay of zero.
    #[error("a delay of zero")]
    ZeroDelay,
    /// A delay that is no whole number of steps.
    #[error("a delay that is no whole number of steps")]
    DelayTooFine,
    /// A delay of more than 1,000,000,000 steps.
    #[error("a delay of more than 1,000,000,000 steps")]
    DelayTooLarge,
    /// A name declared again, or with two ranges, or a port listed twice.
    #[error("a name is declared again")]
    Redeclared,
    /// A bit select of a scalar, of an undeclared name, or outside the range.
    #[error("a bit that the net doesn't have")]
    UnknownBit,
    /// A vector of another width than 1 as a terminal.
    #[error("a vector as a terminal")]
    WidthNotOne,
    /// A second gate output on one net.
    #[error("a second gate output on one net")]
    TwoDrivers,
    /// A gate output on an input.
    #[error("a gate output on an input")]
    DrivenInput,
    /// A net that is read or is an output, and has no driver.
    #[error("a net without a driver")]
    Undriven,
    /// A limit on the size of a netlist is passed.
    #[error("a limit is passed")]
    TooMany,
    /// A port without direction, or a direction for a name that is no port.
    #[error("a port without direction, or a direction for a name that is no port")]
    PortUndeclared,
}

impl<'a> FaultKind<'a> {
    /// The number by which programs know this kind, from 0 for `OutOfMemory` to 15.
    pub fn number(self) -> u8
        ensures { result ≡ kind_number self.entry }
    {
        match self {
            FaultKind::OutOfMemory => 0,
            FaultKind::BadByte => 1,
            FaultKind::UnexpectedEnd => 2,
            FaultKind::Syntax => 3,
            FaultKind::OutOfSubset(_) => 4,
            FaultKind::ZeroDelay => 5,
            FaultKind::DelayTooFine => 6,
            FaultKind::DelayTooLarge => 7,
            FaultKind::Redeclared => 8,
            FaultKind::UnknownBit => 9,
            FaultKind::WidthNotOne => 10,
            FaultKind::TwoDrivers => 11,
            FaultKind::DrivenInput => 12,
            FaultKind::Undriven => 13,
            FaultKind::TooMany => 14,
            FaultKind::PortUndeclared => 15,
        }
    }

    /// The name of this kind, as its variant is spelled.
    pub fn name(self) -> &'static str
        ensures { result.now ≡ kind_name self.entry }
    {
        match self {
            FaultKind::OutOfMemory => "OutOfMemory",
            FaultKind::BadByte => "BadByte",
            FaultKind::UnexpectedEnd => "UnexpectedEnd",
            FaultKind::Syntax => "Syntax",
            FaultKind::OutOfSubset(_) => "OutOfSubset",
            FaultKind::ZeroDelay => "ZeroDelay",
            FaultKind::DelayTooFine => "DelayTooFine",
            FaultKind::DelayTooLarge => "DelayTooLarge",
            FaultKind::Redeclared => "Redeclared",
            FaultKind::UnknownBit => "UnknownBit",
            FaultKind::WidthNotOne => "WidthNotOne",
            FaultKind::TwoDrivers => "TwoDrivers",
            FaultKind::DrivenInput => "DrivenInput",
            FaultKind::Undriven => "Undriven",
            FaultKind::TooMany => "TooMany",
            FaultKind::PortUndeclared => "PortUndeclared",
        }
    }
}

/// The first fault of a text, and the line of the name or token that it is about. Lines count from
/// 1.
#[derive(Clone, Copy, Debug, Error)]
#[error("{kind} at line {line}")]
pub struct Fault<'a> {
    pub kind: FaultKind<'a>,
    pub line: u32,
}

impl<'a> From<AllocError> for Fault<'a> {
    ghost from_gives = { λ _ e. e.kind ≡ OutOfMemory };

    fn from(_e: AllocError) -> Fault<'a> {
        Fault {
            kind: FaultKind::OutOfMemory,
            line: 0,
        }
    }
}

impl<'a, T: Drop> From<AllocFailed<T>> for Fault<'a> {
    ghost from_gives = { λ _ e. e.kind ≡ OutOfMemory };

    fn from(_e: AllocFailed<T>) -> Fault<'a> {
        Fault {
            kind: FaultKind::OutOfMemory,
            line: 0,
        }
    }
}

impl<'a> From<td_syntax::FaultKind<'a>> for FaultKind<'a> {
    ghost from_gives = { λ kind result. result ≡ kind_from kind };

    fn from(kind: td_syntax::FaultKind<'a>) -> FaultKind<'a> {
        match kind {
            td_syntax::FaultKind::OutOfMemory => FaultKind::OutOfMemory,
            td_syntax::FaultKind::BadByte => FaultKind::BadByte,
            td_syntax::FaultKind::UnexpectedEnd => FaultKind::UnexpectedEnd,
            td_syntax::FaultKind::Syntax => FaultKind::Syntax,
            td_syntax::FaultKind::OutOfSubset(text) => FaultKind::OutOfSubset(text),
            td_syntax::FaultKind::ZeroDelay => FaultKind::ZeroDelay,
            td_syntax::FaultKind::DelayTooFine => FaultKind::DelayTooFine,
            td_syntax::FaultKind::DelayTooLarge => FaultKind::DelayTooLarge,
            td_syntax::FaultKind::TooMany => FaultKind::TooMany,
        }
    }
}

impl<'a> From<td_syntax::Fault<'a>> for Fault<'a> {
    ghost from_gives = { λ fault result. (result.kind ≡ kind_from fault.kind) × (result.line ≡ fault.line) };

    fn from(fault: td_syntax::Fault<'a>) -> Fault<'a> {
        Fault {
            kind: FaultKind::from(fault.kind),
            line: fault.line,
        }
    }
}

//! Why a text is refused.

ghost use Rattle.std.specs.Prelude.{◌≡◌};
ghost use Rattle.td_syntax.specs.declared.fault.FaultKind.TheVariants.{OutOfMemory};

use std::alloc::{AllocError, AllocFailed};
use thiserror::Error;

/// What is wrong with the text. A name or text is borrowed from it.
#[derive(Clone, Copy, Debug, Error)]
pub enum FaultKind<'a> {
    /// A growth was refused. The line says nothing.
    #[error("out of memory")]
    OutOfMemory,
    #[error("a byte that no token may hold")]
    BadByte,
    #[error("the text ends too early")]
    UnexpectedEnd,
    #[error("a token that the grammar doesn't allow there")]
    Syntax,
    #[error("outside the subset")]
    OutOfSubset(&'a [u8]),
    #[error("a delay of zero")]
    ZeroDelay,
    #[error("a delay that is no whole number of steps")]
    DelayTooFine,
    #[error("a delay of more than 1,000,000,000 steps")]
    DelayTooLarge,
    #[error("a limit is passed")]
    TooMany,
}

/// The first fault of a text, and its line.
#[derive(Clone, Copy, Debug, Error)]
#[error("{kind} at line {line}")]
pub struct Fault<'a> {
    pub kind: FaultKind<'a>,
    pub line: u32,
}

impl<'a> From<AllocError> for Fault<'a> {
    ghost from_gives = { λ _ e. e.kind ≡ OutOfMemory };

    fn from(_e: AllocError) -> Fault<'a> {
        Fault {
            kind: FaultKind::OutOfMemory,
            line: 0,
        }
    }
}

impl<'a, T: Drop> From<AllocFailed<T>> for Fault<'a> {
    ghost from_gives = { λ _ e. e.kind ≡ OutOfMemory };

    fn from(_e: AllocFailed<T>) -> Fault<'a> {
        Fault {
            kind: FaultKind::OutOfMemory,
            line: 0,
        }
    }
}

//! Why certificates aren't joined.

use std::alloc::{AllocError, AllocFailed};
use td_domain::Cube;
use thiserror::Error;

/// Why certificates aren't joined. A fault tells which certificates: by their places, from 0, as
/// `join` does, or by what else stands for them, as the names of their files.
#[derive(Debug, Drop, Error)]
pub enum JoinFault<P> {
    /// A growth was refused.
    #[error("out of memory")]
    OutOfMemory,
    /// There is none.
    #[error("no certificate")]
    NoCertificate,
    /// The two are of circuits with other numbers of inputs or of gates.
    #[error("other circuits")]
    OtherCircuit(P, P),
    /// The two have other inputs held.
    #[error("other inputs held")]
    OtherHold(P, P),
    /// The two let the bits of other numbers of inputs differ.
    #[error("other flips")]
    OtherFlips(P, P),
    /// The two have other moments of the inputs.
    #[error("other input times")]
    OtherMoments(P, P),
    /// The two tell other delays of gates that state none, or other outputs.
    #[error("other terms")]
    OtherTerms(P, P),
    /// Its pins aren't a part of the pins of the whole.
    #[error("other pins")]
    Outside(P),
    /// An admitted pair lies in the pins of both.
    #[error("a pair in both")]
    Overlap(P, P),
    /// Both lie in a cube that can't be halved so that each certificate there lies in one of the
    /// halves.
    #[error("no position parts them")]
    Crossed(P, P),
    /// An admitted pair lies in this cube, and none that a certificate admits.
    #[error("a part is missing")]
    Gap(Cube),
    /// All pairs are admitted and all inputs change at moment 0, and a leaf of this one says that
    /// no admitted pair lies in its cube.
    #[error("a leaf without a pair")]
    FalseNone(P),
}

impl<P> From<AllocError> for JoinFault<P> {
    ghost use Rattle.std.specs.Prelude.{◌≡◌};
    ghost use Rattle.td_join.specs.declared.fault.JoinFault.TheVariants.{OutOfMemory};

    ghost from_gives = { λ _ fault. fault ≡ OutOfMemory };

    fn from(_error: AllocError) -> Self {
        JoinFault::OutOfMemory
    }
}

impl<P, T: Drop> From<AllocFailed<T>> for JoinFault<P> {
    ghost use Rattle.std.specs.Prelude.{◌≡◌};
    ghost use Rattle.td_join.specs.declared.fault.JoinFault.TheVariants.{OutOfMemory};

    ghost from_gives = { λ _ fault. fault ≡ OutOfMemory };

    fn from(_failed: AllocFailed<T>) -> Self {
        JoinFault::OutOfMemory
    }
}

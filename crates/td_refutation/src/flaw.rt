//! Why a line isn't good.

use std::alloc::{AllocError, AllocFailed};
use td_spans::Fault;

/// Why a line of a refutation isn't good.
#[derive(Clone, Copy, Debug, PartialEq, Eq, Drop)]
pub enum Flaw {
    /// Its numbers aren't those of such a line: too few or too many, one that names no net, a level
    /// above 1, a span that ends before it begins, or a literal that is too large.
    WrongNumbers,
    /// A variable after a step.
    LateVariable,
    /// What the step needs doesn't hold.
    NotGood,
}

/// Why a line wasn't done: out of memory, or it isn't good.
#[derive(Clone, Copy, Debug, PartialEq, Eq, Drop)]
pub enum StepError {
    OutOfMemory,
    Flaw(Flaw),
}

impl From<AllocError> for StepError {
    ghost use Rattle.std.specs.Prelude.{◌≡◌};
    ghost use Rattle.td_refutation.specs.declared.flaw.StepError.TheVariants.{OutOfMemory};

    ghost from_gives = { λ _ e. e ≡ OutOfMemory };

    fn from(_e: AllocError) -> StepError {
        StepError::OutOfMemory
    }
}

impl<T: Drop> From<AllocFailed<T>> for StepError {
    ghost use Rattle.std.specs.Prelude.{◌≡◌};
    ghost use Rattle.td_refutation.specs.declared.flaw.StepError.TheVariants.{OutOfMemory};

    ghost from_gives = { λ _ e. e ≡ OutOfMemory };

    fn from(_e: AllocFailed<T>) -> StepError {
        StepError::OutOfMemory
    }
}

impl From<Fault> for StepError {
    ghost use Rattle.std.specs.Prelude.{◌≡◌};
    ghost use Rattle.td_refutation.specs.Doing.{error_of};

    ghost from_gives = { λ fault e. e ≡ error_of fault };

    fn from(fault: Fault) -> StepError {
        match fault {
            Fault::OutOfMemory => StepError::OutOfMemory,
            Fault::NotGood => StepError::Flaw(Flaw::NotGood),
        }
    }
}

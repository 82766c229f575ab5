//! Why a simulation ends without a delay.

use std::alloc::AllocError;

/// Why a simulation ends without a delay: memory ran out, or its stop was set.
#[derive(Clone, Copy, Debug, PartialEq, Eq, Drop)]
pub enum Interruption {
    OutOfMemory,
    Stopped,
}

impl From<AllocError> for Interruption {
    ghost use Rattle.std.specs.Prelude.{◌≡◌};
    ghost use Rattle.td_event_sim.specs.declared.interruption.Interruption.TheVariants.{OutOfMemory as AtMemory};

    ghost from_gives = { λ _ why. why ≡ AtMemory };

    fn from(_error: AllocError) -> Self {
        Interruption::OutOfMemory
    }
}

//! Why a dump was not written.

ghost use Rattle.std.specs.Prelude.{◌≡◌};
ghost use Rattle.td_vcd.specs.declared.fault.VcdFault.TheVariants as fault;

use std::alloc::AllocError;
use td_text::DeviceFault;
use thiserror::Error;

/// Why a dump was not written.
#[derive(Clone, Copy, Debug, PartialEq, Eq, Drop, Error)]
pub enum VcdFault {
    /// A growth was refused.
    #[error("out of memory")]
    OutOfMemory,
    /// The writer failed.
    #[error("the device failed")]
    Device,
}

impl From<AllocError> for VcdFault {
    ghost from_gives = { λ _ e. e ≡ fault.OutOfMemory };

    fn from(_e: AllocError) -> VcdFault {
        VcdFault::OutOfMemory
    }
}

impl From<DeviceFault> for VcdFault {
    ghost from_gives = { λ _ e. e ≡ fault.Device };

    fn from(_e: DeviceFault) -> VcdFault {
        VcdFault::Device
    }
}

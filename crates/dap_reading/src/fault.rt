//! Arguments that can't be read.
ghost use Rattle.std.specs.Prelude.{◌≡◌};
ghost use Rattle.dap_reading.specs.declared.fault.ArgumentFault.TheVariants.{OutOfMemory};

use std::alloc::AllocError;

/// Why an argument can't be read.
#[derive(Clone, Copy)]
pub enum ArgumentFault {
    OutOfMemory,
    /// The argument with this name is missing, of the wrong type, or out of its bounds.
    Argument(&'static str),
}

impl From<AllocError> for ArgumentFault {
    ghost from_gives = { λ _ fault. fault ≡ OutOfMemory };

    fn from(_e: AllocError) -> ArgumentFault {
        ArgumentFault::OutOfMemory
    }
}

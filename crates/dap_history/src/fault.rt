//! The errors of a history.

use std::alloc::AllocError;
use thiserror::Error;

/// Why an input wasn't recorded. The log is unchanged.
#[derive(Clone, Copy, Debug, Error)]
pub enum LogFault {
    #[error("out of memory")]
    OutOfMemory,
    /// The log has reached its size limit.
    #[error("the log of inputs is full")]
    Full,
}

/// Why a run didn't get to a count of steps.
#[derive(Clone, Copy, Debug, Error)]
pub enum ReplayFault {
    #[error("out of memory")]
    OutOfMemory,
    /// The run ends, or waits for a request, before it has made so many steps.
    #[error("the run doesn't make so many steps")]
    NotReached,
}

impl From<AllocError> for LogFault {
    ghost use Rattle.std.specs.Prelude.{◌≡◌};
    ghost use Rattle.dap_history.specs.declared.fault.LogFault.TheVariants.{OutOfMemory};

    ghost from_gives = { λ _ fault. fault ≡ OutOfMemory };

    fn from(_: AllocError) -> LogFault {
        LogFault::OutOfMemory
    }
}

impl From<AllocError> for ReplayFault {
    ghost use Rattle.std.specs.Prelude.{◌≡◌};
    ghost use Rattle.dap_history.specs.declared.fault.ReplayFault.TheVariants.{OutOfMemory};

    ghost from_gives = { λ _ fault. fault ≡ OutOfMemory };

    fn from(_: AllocError) -> ReplayFault {
        ReplayFault::OutOfMemory
    }
}

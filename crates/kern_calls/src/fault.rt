//! Why a call fails.
ghost use Rattle.std.specs.Prelude.{◌≡◌};

use std::alloc::AllocError;
use thiserror::Error;

/// Why a call fails. The kernel is unchanged, except that the call is an entry of its journal unless the
/// fault is `OutOfMemory` or `JournalFull`.
#[derive(Clone, Copy, PartialEq, Eq, Debug, Error)]
pub enum KernelFault {
    #[error("out of memory")]
    OutOfMemory,
    /// The channel has sixteen connections, or one with this identity; or the connection has 64
    /// subscriptions.
    #[error("no place is free")]
    Full,
    /// A fetch from a number below that of the first post that is kept.
    #[error("posts before {first} are gone")]
    Lagged { first: u64 },
    #[error("the journal is full")]
    JournalFull,
    /// There is no such connection, or calls of this kind can't be made on its channel.
    #[error("there is no such connection")]
    NoConnection,
}

impl From<AllocError> for KernelFault {
    ghost use Rattle.kern_calls.specs.declared.fault.KernelFault.TheVariants.{OutOfMemory};

    ghost from_gives = { λ _ fault. fault ≡ OutOfMemory };

    fn from(_: AllocError) -> KernelFault {
        KernelFault::OutOfMemory
    }
}

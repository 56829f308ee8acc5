//! Why a server or a client can't start or go on.
use thiserror::Error;

/// Why a server can't start or go on.
#[derive(Clone, Copy, PartialEq, Eq, Debug, Error)]
pub enum ServerFault {
    #[error("no memory")]
    OutOfMemory,
    /// A thread couldn't be started, for which the library gives no reason.
    #[error("no threads")]
    NoThreads,
    /// The system has no random bytes for the session's identifier.
    #[error("no random bytes")]
    NoRandom,
    /// A write to standard output failed.
    #[error("write failed")]
    WriteFailed,
    /// The kernel refused a call of the worker, which it never does.
    #[error("the kernel refused a call")]
    Refused,
}

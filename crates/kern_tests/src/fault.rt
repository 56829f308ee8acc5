//! Why the replay of a session fails.

use jup_wire::message::WireFault;
use std::alloc::{AllocError, AllocFailed};
use std::fmt;

/// Why a line of a session is bad, or how the kernel deviates from it.
#[derive(Clone, Copy)]
pub enum SessionFault {
    OutOfMemory,
    /// The line is not JSON.
    Json,
    /// The member of this name is missing or wrong.
    Member(&'static str),
    /// The message of the line doesn't open.
    Wire(WireFault),
    /// The kernel replied otherwise.
    Reply,
    /// The kernel refused a fetch for this connection.
    Fetch(u32),
    /// The kernel has other posts for this connection.
    Numbers(u32),
    /// A part of this post is different.
    Post { number: u64, part: &'static str },
}

impl fmt::Display for SessionFault {
    fn fmt<W: fmt::Write>(&self, f: &mut fmt::Formatter<W>) -> fmt::Result {
        match self {
            SessionFault::OutOfMemory => f.write_str("out of memory"),
            SessionFault::Json => f.write_str("the line is no JSON"),
            SessionFault::Member(key) => write!(f, "the member {key} isn't as it must be"),
            SessionFault::Wire(fault) => write!(f, "the message doesn't open: {fault}"),
            SessionFault::Reply => f.write_str("another reply"),
            SessionFault::Fetch(connection) => write!(
                f,
                "connection {connection}: a fetch is refused"
            ),
            SessionFault::Numbers(connection) => write!(f, "connection {connection}: other posts"),
            SessionFault::Post { number, part } => write!(f, "post {number}: another {part}"),
        }
    }
}

impl From<AllocError> for SessionFault {
    fn from(_e: AllocError) -> SessionFault {
        SessionFault::OutOfMemory
    }
}

impl<T: Drop> From<AllocFailed<T>> for SessionFault {
    fn from(_e: AllocFailed<T>) -> SessionFault {
        SessionFault::OutOfMemory
    }
}

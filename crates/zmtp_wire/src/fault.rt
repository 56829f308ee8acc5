//! Why a stream can't be read any further.

use crate::messages::Messages;
use std::fmt;
use thiserror::Error;

/// What is wrong with a stream.
#[derive(Clone, Copy, PartialEq, Eq, Error)]
pub enum StreamFault {
    /// The greeting's first byte isn't FF, or its tenth isn't 7F.
    Signature,
    /// The peer's major version is below 3.
    Version,
    /// The peer's security mechanism isn't NULL.
    Mechanism,
    /// A flag byte has reserved bits.
    Flags,
    /// A command that isn't allowed here or is malformed, an ERROR, or a message before READY.
    Command,
    /// READY has no Socket-Type, or one that doesn't fit.
    SocketType,
    /// A frame of more than 1,048,576 bytes.
    FrameSize,
    /// A message of more than 64 frames.
    FrameCount,
}

impl StreamFault {
    fn text(self) -> &'static str {
        match self {
            StreamFault::Signature => "no ZMTP greeting",
            StreamFault::Version => "a version before ZMTP 3.0",
            StreamFault::Mechanism => "another mechanism than NULL",
            StreamFault::Flags => "reserved flags",
            StreamFault::Command => "a command that isn't accepted",
            StreamFault::SocketType => "a socket type that doesn't fit",
            StreamFault::FrameSize => "a frame that is too long",
            StreamFault::FrameCount => "a message of too many frames",
        }
    }
}

impl fmt::Display for StreamFault {
    fn fmt<W: fmt::Write>(&self, f: &mut fmt::Formatter<W>) -> fmt::Result {
        f.write_str(self.text())
    }
}

impl fmt::Debug for StreamFault {
    fn fmt<W: fmt::Write>(&self, f: &mut fmt::Formatter<W>) -> fmt::Result {
        fmt::Display::fmt(self, f)
    }
}

/// Why a piece wasn't read to the end.
#[derive(Drop, Error)]
pub enum FeedFault {
    /// The decoder is as it was before the piece.
    #[error("out of memory")]
    OutOfMemory,
    /// The messages that were complete before the fault, and the fault, which every later piece returns too.
    #[error("{cause}")]
    Broken {
        before: Messages,
        cause: StreamFault,
    },
}

// The messages before a fault are the peer's, and can be long: Debug shows the cause alone.
impl fmt::Debug for FeedFault {
    fn fmt<W: fmt::Write>(&self, f: &mut fmt::Formatter<W>) -> fmt::Result {
        fmt::Display::fmt(self, f)
    }
}

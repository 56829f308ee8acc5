//! Why a stream can't be read any further.

use crate::bodies::Bodies;
use std::fmt;
use thiserror::Error;

/// What is wrong with a stream.
#[derive(Clone, Copy, PartialEq, Eq, Error)]
pub enum StreamFault {
    /// A header line that is neither a field nor empty.
    HeaderLine,
    /// A header of more than 1,024 bytes.
    HeaderSize,
    /// A header without a Content-Length.
    NoLength,
    /// A header with a second Content-Length.
    SecondLength,
    /// A Content-Length that isn't a decimal number of 1 to 10 digits.
    LengthValue,
    /// A body of more than 1,048,576 bytes.
    BodySize,
}

impl StreamFault {
    fn text(self) -> &'static str {
        match self {
            StreamFault::HeaderLine => "a malformed header line",
            StreamFault::HeaderSize => "a header that is too long",
            StreamFault::NoLength => "no Content-Length",
            StreamFault::SecondLength => "a second Content-Length",
            StreamFault::LengthValue => "a Content-Length that is no number",
            StreamFault::BodySize => "a body that is too long",
        }
    }
}

impl fmt::Display for StreamFault {
    fn fmt<W: fmt::Write>(&self, f: &mut fmt::Formatter<W>) -> fmt::Result {
        f.write_str(self.text())
    }
}

impl fmt::Debug for StreamFault {
    fn fmt<W: fmt::Write>(&self, f: &mut fmt::Formatter<W>) -> fmt::Result {
        fmt::Display::fmt(self, f)
    }
}

/// Why a feed fails.
#[derive(Drop, Error)]
pub enum FeedFault {
    /// The decoder is as it was before the piece.
    #[error("out of memory")]
    OutOfMemory,
    /// The bodies that were complete before the fault, and the fault. Every later feed fails with it, too.
    #[error("{cause}")]
    Broken { before: Bodies, cause: StreamFault },
}

// The bodies before a fault can be long, so Debug shows only the cause.
impl fmt::Debug for FeedFault {
    fn fmt<W: fmt::Write>(&self, f: &mut fmt::Formatter<W>) -> fmt::Result {
        fmt::Display::fmt(self, f)
    }
}

//! A message, and why frames aren't one.
use base_text::sequence::{Bytes, Frames};
use base_text::text::Text;
use serde_json::Value;
use std::fmt;
use thiserror::Error;

/// The frame between the identities and the signature.
pub const DELIMITER: &[u8] = b"<IDS|MSG>";

/// Why frames are refused. After `OutOfMemory` the reasons are in the order in which they are checked.
#[derive(Clone, Copy, PartialEq, Eq, Error)]
pub enum WireFault {
    OutOfMemory,
    Delimiter,
    Count,
    Signature,
    Json,
    Header,
}

impl WireFault {
    fn text(self) -> &'static str {
        match self {
            WireFault::OutOfMemory => "out of memory",
            WireFault::Delimiter => "no frame is the delimiter",
            WireFault::Count => "fewer than five frames follow the delimiter",
            WireFault::Signature => "the signature is wrong",
            WireFault::Json => "a frame is no JSON",
            WireFault::Header => "the header lacks a text",
        }
    }
}

impl fmt::Display for WireFault {
    fn fmt<W: fmt::Write>(&self, f: &mut fmt::Formatter<W>) -> fmt::Result {
        f.write_str(self.text())
    }
}

impl fmt::Debug for WireFault {
    fn fmt<W: fmt::Write>(&self, f: &mut fmt::Formatter<W>) -> fmt::Result {
        fmt::Display::fmt(self, f)
    }
}

/// The frames of a message as they were received: the identities, and the four frames that are signed.
#[derive(Drop)]
pub struct Parts {
    pub identities: Frames,
    pub header: Bytes,
    pub parent_header: Bytes,
    pub metadata: Bytes,
    pub content: Bytes,
}

/// The texts that every header has. Its other members aren't read.
#[derive(Drop)]
pub struct Header {
    pub msg_id: Text,
    pub msg_type: Text,
    pub session: Text,
}

/// A message that was opened.
#[derive(Drop)]
pub struct Message {
    pub parts: Parts,
    pub header: Header,
    /// The value of the content frame.
    pub content: Value,
}

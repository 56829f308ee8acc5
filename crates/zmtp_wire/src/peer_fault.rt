//! Why a conversation with a peer ended.
use crate::fault::StreamFault;
use thiserror::Error;

/// Why a conversation with a peer ended.
#[derive(Clone, Copy, PartialEq, Eq, Debug, Error)]
pub enum PeerFault {
    /// An allocation failed.
    #[error("out of memory")]
    OutOfMemory,
    /// A read came to the end.
    #[error("the peer ended the stream")]
    PeerEnded,
    /// A read failed, or the conversation has made its last read.
    #[error("a read failed")]
    ReadFailed,
    /// A write failed.
    #[error("a write failed")]
    WriteFailed,
    /// The stream is broken.
    #[error("{0}")]
    Wire(StreamFault),
}

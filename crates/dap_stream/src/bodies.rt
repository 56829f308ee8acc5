//! The bodies that a piece of a stream completes.
use base_text::sequence::{Bytes, Sequence};

/// The bodies of messages, in the order in which they came.
pub type Bodies = Sequence<Bytes>;

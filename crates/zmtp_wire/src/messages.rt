//! Messages.
use base_text::sequence::{Frames, Sequence};

/// Messages in the order in which they came, each a list of frames.
pub type Messages = Sequence<Frames>;

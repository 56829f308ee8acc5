//! Messages as they come over a wire.

use base_text::sequence::{Bytes, Frames};
use jup_wire::message::{DELIMITER, Message, WireFault};
use jup_wire::opening::open_message;
use std::alloc::{AllocError, Global};

fn push_copies(alloc: Global, frames: &mut Frames, items: &[&[u8]]) -> Result<(), AllocError> {
    for item in items {
        frames.push(Bytes::copy_of(alloc, item)?)?;
    }
    Ok(())
}

/// The message with these identities, header and content. It isn't signed, and its parent header and its
/// metadata are empty.
pub fn message_of(
    alloc: Global,
    identities: Frames,
    header: &[u8],
    content: &[u8],
) -> Result<Message, WireFault> {
    let mut frames = identities;
    let items = [DELIMITER, b"", header, b"{}", b"{}", content];
    match push_copies(alloc, &mut frames, &items) {
        Ok(()) => open_message(alloc, frames, b""),
        Err(_) => Err(WireFault::OutOfMemory),
    }
}

//! The messages that a piece of a stream completes, and the fault after them.
ghost use Rattle.std.specs.Prelude.{◌≡◌, IfOk, OnErr};
ghost use Rattle.zmtp_wire.specs.Stream.{Completes};

use crate::decoder::Decoder;
use crate::fault::{FeedFault, StreamFault};
use crate::messages::Messages;
use std::alloc::{AllocError, Global};

/// The messages that a piece completes, and the fault of the stream after them, if it has one.
#[derive(Drop)]
pub struct Fed {
    pub messages: Messages,
    pub broken: Option<StreamFault>,
}

/// Feeds a piece to a decoder. If the stream breaks, the messages before the fault are returned with it. If
/// memory runs out, the decoder is as it was before the piece.
pub fn feed(alloc: Global, decoder: &mut Decoder, piece: &[u8]) -> Result<Fed, AllocError>
    ensures completes { IfOk result (λ fed. Completes decoder.old piece.now fed.messages decoder.new) }
    ensures broken { IfOk result (λ fed. fed.broken ≡ decoder.new.fault) }
    ensures err { OnErr result (decoder.new ≡ decoder.old) }
{
    match decoder.feed(alloc, piece) {
        Ok(messages) => Ok(Fed {
            messages,
            broken: None,
        }),
        Err(FeedFault::OutOfMemory) => Err(AllocError),
        Err(FeedFault::Broken { before, cause }) => Ok(Fed {
            messages: before,
            broken: Some(cause),
        }),
    }
}

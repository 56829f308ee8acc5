//! The decoder of one side of a connection, which reads what the peer sends.
ghost use Rattle.std.specs.Prelude.{◌≡◌, ◌≤◌, ◌↔◌, IsTrue, [], length, drop, None, option_copied};

use crate::fault::{FeedFault, StreamFault};
use crate::head::Stage;
use crate::messages::Messages;
use crate::progress::{Progress, first_frames, take_items};
use crate::role::Role;
use base_text::sequence::{Bytes, Frames};
use std::alloc::Global;
use std::marker::Model;
use std::mem;

/// A decoder of the peer's stream: how far it has read, the frames of a message that isn't complete yet, and
/// the bytes of an item that isn't complete yet.
#[derive(Drop)]
pub struct Decoder {
    role: Role,
    stage: Stage,
    identity: Option<Bytes>,
    frames: Frames,
    rest: Vec<u8>,
    fault: Option<StreamFault>,
}

impl Model for Decoder {
    ghost use Rattle.zmtp_wire.specs.Stream.{DecoderState};

    ghost Value = { DecoderState };

    ghost view = { λ s. record {
      role = s.role;
      stage = s.stage;
      identity = s.identity;
      frames = s.frames;
      rest = s.rest.items;
      fault = s.fault;
    } };
}

// Drops the first `from` bytes; a no-op for 0.
fn keep_from(bytes: &mut Vec<u8>, from: usize)
    requires { from ≤ length bytes.old.items }
    ensures { bytes.new.items ≡ drop from bytes.old.items }
{
    if from == 0 {
        return;
    }
    let left = bytes.len() - from;
    bytes.copy_within(from.., 0);
    bytes.truncate(left);
}

impl Decoder {
    ghost use Rattle.zmtp_wire.specs.declared.head.Stage.TheVariants.{Traffic};
    ghost use Rattle.zmtp_wire.specs.Stream.{HasReadMessages};
    ghost use Rattle.zmtp_wire.specs.Progress.{identity_from};
    ghost use Rattle.zmtp_wire.specs.Feeding.{TakesPiece};

    /// A decoder for a side of this role, at the beginning of the stream.
    pub fn new(alloc: Global, role: Role) -> Decoder
        ensures role { result.role ≡ role }
        ensures represents { HasReadMessages result [] [] }
        ensures fault { result.fault ≡ None }
    {
        Decoder {
            role,
            stage: Stage::Greeting,
            identity: None,
            frames: Frames::new(alloc),
            rest: Vec::new(alloc),
            fault: None,
        }
    }

    /// Whether the peer's READY has been accepted.
    pub fn is_ready(&self) -> bool
        ensures { IsTrue result ↔ (self.now.stage ≡ Traffic) }
    {
        self.stage == Stage::Traffic
    }

    /// The identity in the peer's READY, if it has one.
    pub fn identity(&self) -> Option<&Bytes>
        ensures { option_copied result ≡ self.now.identity }
    {
        self.identity.as_ref()
    }

    /// Takes the next piece of the stream and returns the messages that it completes. After a fault, every
    /// piece has the same result and changes nothing.
    pub fn feed(&mut self, alloc: Global, piece: &[u8]) -> Result<Messages, FeedFault>
        ensures { TakesPiece self.old piece.now result self.new }
    {
        if let Some(cause) = self.fault {
            let before = Messages::new(alloc);
            return Err(FeedFault::Broken { before, cause });
        }
        let kept = self.rest.len();
        if self.rest.extend_from_slice(piece).is_err() {
            return Err(FeedFault::OutOfMemory);
        }
        let count = self.frames.len();
        let mut progress = Progress {
            stage: self.stage,
            accepted: None,
            frames: mem::replace(&mut self.frames, Frames::new(alloc)),
            messages: Vec::new(alloc),
        };
        match take_items(alloc, self.role, &mut progress, self.rest.as_slice()) {
            Err(_) => {
                self.frames = first_frames(progress, count);
                self.rest.truncate(kept);
                Err(FeedFault::OutOfMemory)
            }
            Ok((used, None)) => {
                keep_from(&mut self.rest, used);
                Ok(self.go_on(progress))
            }
            Ok((_, Some(cause))) => {
                self.rest.clear();
                self.fault = Some(cause);
                let before = self.go_on(progress);
                Err(FeedFault::Broken { before, cause })
            }
        }
    }

    // Stores the state that a feed has reached, and returns its messages.
    fn go_on(&mut self, progress: Progress) -> Messages
        ensures messages { result ≡ progress.messages.items }
        ensures state { self.new ≡ record self.old {
          stage = progress.stage;
          identity = identity_from progress.accepted self.old.identity;
          frames = progress.frames;
        } }
    {
        let Progress {
            stage,
            accepted,
            frames,
            messages,
        } = progress;
        self.stage = stage;
        self.frames = frames;
        if let Some(ready) = accepted {
            self.identity = ready.identity;
        }
        Messages::from(messages)
    }
}

//! The decoder of a stream.
ghost use Rattle.std.specs.Prelude.{◌≡◌, ◌≤◌, [], length, drop, None};

use crate::bodies::Bodies;
use crate::fault::{FeedFault, StreamFault};
use crate::reading::{Reading, read_messages};
use std::alloc::Global;
use std::marker::Model;

/// The state of a stream: the bytes of the message that has begun, or the fault.
#[derive(Drop)]
pub struct Decoder {
    rest: Vec<u8>,
    fault: Option<StreamFault>,
}

impl Model for Decoder {
    ghost use Rattle.dap_stream.specs.Stream.{DecoderState};

    ghost Value = { DecoderState };

    ghost view = { λ s. record { rest = s.rest.items; fault = s.fault } };
}

// Drops the first `from` bytes; a no-op for 0.
fn keep_from(bytes: &mut Vec<u8>, from: usize)
    requires { from ≤ length bytes.old.items }
    ensures { bytes.new.items ≡ drop from bytes.old.items }
{
    if from == 0 {
        return;
    }
    let left = bytes.len() - from;
    bytes.copy_within(from.., 0);
    bytes.truncate(left);
}

impl Decoder {
    ghost use Rattle.dap_stream.specs.Stream.{HasReadBodies};
    ghost use Rattle.dap_stream.specs.Feeding.{Feeds, GoesOn};

    /// A decoder at the beginning of a stream.
    pub fn new(alloc: Global) -> Decoder
        ensures reads { HasReadBodies result [] [] }
        ensures fault { result.fault ≡ None }
    {
        Decoder {
            rest: Vec::new(alloc),
            fault: None,
        }
    }

    /// Takes the next piece of the stream, and returns the bodies of the messages that it completes.
    #[tactic(auto, using(crate::proofs::StreamLemmas::feeds_none))]
    pub fn feed(&mut self, alloc: Global, piece: &[u8]) -> Result<Bodies, FeedFault>
        ensures { Feeds self.old piece.now self.new result }
    {
        if let Some(cause) = self.fault {
            let before = Bodies::new(alloc);
            return Err(FeedFault::Broken { before, cause });
        }
        let kept = self.rest.len();
        if self.rest.extend_from_slice(piece).is_err() {
            return Err(FeedFault::OutOfMemory);
        }
        match read_messages(alloc, self.rest.as_slice()) {
            Err(_) => {
                self.rest.truncate(kept);
                Err(FeedFault::OutOfMemory)
            }
            Ok(reading) => self.go_on(reading),
        }
    }

    // Takes over the result of reading.
    fn go_on(&mut self, reading: Reading) -> Result<Bodies, FeedFault>
        requires used { reading.used ≤ length self.old.rest }
        requires fault { self.old.fault ≡ None }
        ensures { GoesOn reading self.old self.new result }
    {
        let Reading {
            bodies,
            used,
            fault,
        } = reading;
        match fault {
            None => {
                keep_from(&mut self.rest, used);
                Ok(Bodies::from(bodies))
            }
            Some(cause) => {
                self.rest.clear();
                self.fault = Some(cause);
                let before = Bodies::from(bodies);
                Err(FeedFault::Broken { before, cause })
            }
        }
    }
}

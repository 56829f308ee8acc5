//! The messages of iopub, as they are received.
ghost use Rattle.std.specs.Prelude.{◌≡◌, ◌<◌, ◌≤◌, ◌+◌, [], take, length, IfOk, IfErr, OnOk, OnErr};
ghost use Rattle.base_streams.specs.States.{InletState, IsReadable};
ghost use Rattle.base_streams.specs.Told.{Gave, WasRead};
ghost use Rattle.zmtp_wire.specs.Wire.{Messages};
ghost use Rattle.lab_term.specs.declared.subscriber.Subscriber.{Subscriber};
ghost use Rattle.zmtp_wire.specs.Receiving.{Received};
ghost use Rattle.lab_term.specs.Causes.{IsBroken};
ghost use Rattle.lab_term.specs.Reading.{Holds, Starves, Unreceived};
ghost use Rattle.lab_term.specs.declared.fault.TermFault.{TermFault};

use crate::fault::{TermFault, WireCause};
use base_streams::ports::Inlet;
use base_text::sequence::Frames;
use std::alloc::Global;
use std::collections::VecDeque;
use zmtp_wire::decoder::Decoder;
use zmtp_wire::fault::StreamFault;
use zmtp_wire::feeding::{Fed, feed};
use zmtp_wire::handshake::Peer;

/// The most bytes that a read returns.
const PIECE_SIZE: usize = 8192;

/// A decoder, and the messages that it returned and that haven't been looked at yet.
#[derive(Drop)]
pub(crate) struct Subscriber {
    pub decoder: Decoder,
    pub queue: VecDeque<Frames>,
    /// The fault of the stream after these messages, if it has one.
    pub broken: Option<StreamFault>,
    /// The number of reads so far, with those of the handshake.
    pub reads: u32,
}

/// A subscriber with the messages that came with READY.
pub(crate) fn subscriber_of(alloc: Global, peer: Peer) -> Result<Subscriber, TermFault>
    ensures holds { IfOk result (λ subscriber. (before from : InletState)
        → Received before from peer → Holds before from subscriber []) }
    ensures err { IfErr result (λ fault. fault ≡ TermFault.OutOfMemory) }
{
    let Peer {
        mut decoder,
        messages,
        reads,
    } = peer;
    // The bytes that came with READY may have broken the stream.
    let Ok(
        Fed {
            messages: others,
            broken,
        },
    ) = feed(alloc, &mut decoder, &[])
    else {
        return Err(TermFault::OutOfMemory);
    };
    let mut queue = messages.into_vec();
    if queue.append(&mut others.into_vec()).is_err() {
        return Err(TermFault::OutOfMemory);
    }
    Ok(Subscriber {
        decoder,
        queue: VecDeque::from(queue),
        broken,
        reads,
    })
}

// Reads a piece, which isn't empty, into the front of the buffer, and returns its length.
fn read_piece<I: Inlet>(from: &mut I, buffer: &mut [u8; PIECE_SIZE]) -> Result<usize, TermFault>
    requires { IsReadable (I.state from.old) }
    ensures count { IfOk result (λ n. (0 < n) × (n ≤ length buffer.new)) }
    ensures given { IfOk result (λ n. Gave (I.state from.old) (I.state from.new) (take n buffer.new)) }
    ensures good { OnOk result (IsReadable (I.state from.new)) }
    ensures starves { IfErr result (λ fault. (s : Subscriber) → Starves fault (I.state from.new) s) }
    ensures reads { WasRead (I.state from.old) (I.state from.new) 1 }
    ensures unread { OnErr result (Gave (I.state from.old) (I.state from.new) []) }
    ensures unbroken { IfErr result (λ fault. IsBroken fault → ⊥) }
{
    match from.read(buffer) {
        Ok(0) => Err(TermFault::Ended),
        Ok(count) => Ok(count),
        Err(_) => Err(TermFault::ReadFailed),
    }
}

/// Reads a piece. All messages must have been looked at.
pub(crate) fn refill<I: Inlet>(
    alloc: Global,
    from: &mut I,
    subscriber: &mut Subscriber,
) -> Result<(), TermFault>
    requires readable { IsReadable (I.state from.old) }
    requires empty { subscriber.old.queue.items ≡ [] }
    requires left { subscriber.old.reads < 4294967295 }
    ensures reads { OnOk result (subscriber.new.reads ≡ subscriber.old.reads + 1) }
    ensures good { OnOk result (IsReadable (I.state from.new)) }
    ensures holds { OnOk result ((before : InletState) (passed : Messages)
        → Holds before (I.state from.old) subscriber.old passed
        → Holds before (I.state from.new) subscriber.new passed) }
    ensures starves { IfErr result (λ fault. Starves fault (I.state from.new) subscriber.new) }
    ensures stays { IfErr result (λ fault. IsBroken fault
        → (subscriber.new ≡ subscriber.old) × (I.state from.new ≡ I.state from.old)) }
    ensures unreceived { IfErr result (Unreceived (I.state from.old) (I.state from.new)) }
{
    if let Some(cause) = subscriber.broken {
        return Err(TermFault::Wire(WireCause::Stream(cause)));
    }
    let mut buffer = [0u8; PIECE_SIZE];
    let count = match read_piece(from, &mut buffer) {
        Ok(count) => count,
        Err(fault) => return Err(fault),
    };
    subscriber.reads += 1;
    let Ok(Fed { messages, broken }) = feed(alloc, &mut subscriber.decoder, &buffer[..count]) else {
        return Err(TermFault::OutOfMemory);
    };
    subscriber.queue = VecDeque::from(messages.into_vec());
    subscriber.broken = broken;
    Ok(())
}

//! The heartbeat (Jupyter messaging 5.4, "Heartbeat for kernels"), which sends messages back.
ghost use Rattle.std.specs.Prelude.{IfErr, OnOk};
ghost use Rattle.base_streams.specs.States.{InletState, IsReadable, IsWritable};
ghost use Rattle.zmtp_wire.specs.Writing.{message_bytes};
ghost use Rattle.zmtp_wire.specs.Connections.{EndsHeartbeat, connection};
ghost use Rattle.zmtp_wire.specs.Ends.{Blames};
ghost use Rattle.zmtp_wire.specs.Sending.{Writes, messages_bytes};
ghost use Rattle.zmtp_wire.specs.Beating.{EchoedPiece, EchoedRound, LostPiece, LostRound};

use crate::decoder::Decoder;
use crate::feeding::{Fed, feed};
use crate::handshake::handshake;
use crate::messages::Messages;
use crate::peer_fault::PeerFault;
use crate::receiving::{PIECE_SIZE, read_piece};
use crate::role::Role;
use crate::sending::send;
use crate::writing::put_message;
use base_streams::ports::{Inlet, Outlet};
use base_text::sequence::Frames;
use std::alloc::Global;

// Writes a message. One with no frames has no bytes.
fn echo_message<W: Outlet>(alloc: Global, to: &mut W, message: &Frames) -> Result<(), PeerFault>
    requires { IsWritable (W.state to.old) }
    ensures { Writes (message_bytes message.now) (W.state to.old) (W.state to.new) result }
{
    if message.len() == 0 {
        return Ok(());
    }
    match put_message(alloc, message.as_slice()) {
        Ok(bytes) => send(to, bytes.as_slice()),
        Err(_) => Err(PeerFault::OutOfMemory),
    }
}

// Writes messages in their order.
fn echo<W: Outlet>(alloc: Global, to: &mut W, messages: &Messages) -> Result<(), PeerFault>
    requires { IsWritable (W.state to.old) }
    ensures { Writes (messages_bytes messages.now) (W.state to.old) (W.state to.new) result }
{
    for message in messages.as_slice() {
        match echo_message(alloc, to, message) {
            Ok(()) => {}
            Err(fault) => return Err(fault),
        }
    }
    Ok(())
}

// Feeds a piece, and writes the messages that it completes.
fn echo_piece<W: Outlet>(
    alloc: Global,
    to: &mut W,
    decoder: &mut Decoder,
    piece: &[u8],
) -> Result<(), PeerFault>
    requires { IsWritable (W.state to.old) }
    ensures ok { OnOk result (EchoedPiece piece.now decoder.old decoder.new (W.state to.old)
        (W.state to.new)) }
    ensures good { OnOk result (IsWritable (W.state to.new)) }
    // The reader isn't to blame, whatever its state.
    ensures err { IfErr result (λ fault. (from : InletState) → LostPiece piece.now
        (record { inlet = from; decoder = decoder.old; outlet = W.state to.old })
        (record { inlet = from; decoder = decoder.new; outlet = W.state to.new }) fault) }
    ensures blames { IfErr result (λ fault. (from : InletState) → IsReadable from
        → Blames fault from (W.state to.new)) }
{
    let Ok(Fed { messages, broken }) = feed(alloc, decoder, piece) else {
        return Err(PeerFault::OutOfMemory);
    };
    match echo(alloc, to, &messages) {
        Ok(()) => {}
        Err(fault) => return Err(fault),
    }
    match broken {
        Some(cause) => Err(PeerFault::Wire(cause)),
        None => Ok(()),
    }
}

// Reads a piece, and writes the messages that it completes.
fn beat<I: Inlet, W: Outlet>(
    alloc: Global,
    from: &mut I,
    to: &mut W,
    decoder: &mut Decoder,
) -> Result<(), PeerFault>
    requires readable { IsReadable (I.state from.old) }
    requires writable { IsWritable (W.state to.old) }
    ensures ok { OnOk result (EchoedRound
        (record { inlet = I.state from.old; decoder = decoder.old; outlet = W.state to.old })
        (record { inlet = I.state from.new; decoder = decoder.new; outlet = W.state to.new })) }
    ensures good { OnOk result (IsReadable (I.state from.new) × IsWritable (W.state to.new)) }
    ensures blames { IfErr result (λ fault. Blames fault (I.state from.new) (W.state to.new)) }
    ensures lost { IfErr result (LostRound
        (record { inlet = I.state from.old; decoder = decoder.old; outlet = W.state to.old })
        (record { inlet = I.state from.new; decoder = decoder.new; outlet = W.state to.new })) }
{
    let mut buffer = [0u8; PIECE_SIZE];
    match read_piece(from, &mut buffer) {
        Ok(count) => echo_piece(alloc, to, decoder, &buffer[..count]),
        Err(fault) => Err(fault),
    }
}

/// Makes the handshake as REP, then sends each message back unchanged, until the peer ends or breaks the
/// stream, a read or a write fails, or memory runs out. Returns which of these it was.
pub fn heartbeat<I: Inlet, W: Outlet>(alloc: Global, from: &mut I, to: &mut W) -> PeerFault
    requires readable { IsReadable (I.state from.old) }
    requires writable { IsWritable (W.state to.old) }
    ensures { EndsHeartbeat (connection (I.state from.old) (W.state to.old))
        (connection (I.state from.new) (W.state to.new)) result }
{
    let mut peer = match handshake(alloc, from, to, Role::Rep) {
        Ok(peer) => peer,
        Err(fault) => return fault,
    };
    match echo(alloc, to, &peer.messages) {
        Ok(()) => {}
        Err(fault) => return fault,
    }
    // The bytes that came with READY may have broken the stream.
    match echo_piece(alloc, to, &mut peer.decoder, &[]) {
        Ok(()) => {}
        Err(fault) => return fault,
    }
    for _ in peer.reads..u32::MAX {
        match beat(alloc, from, to, &mut peer.decoder) {
            Ok(()) => {}
            Err(fault) => return fault,
        }
    }
    PeerFault::ReadFailed
}

//! The handshake of a connection (RFC 23, "The NULL Security Mechanism").
ghost use Rattle.std.specs.Prelude.{◌≡◌, ◌+◌, ◌<◌, IfOk, IfErr, OnOk};
ghost use Rattle.base_streams.specs.States.{IsReadable, IsWritable};
ghost use Rattle.zmtp_wire.specs.declared.head.Stage.TheVariants.{Traffic};
ghost use Rattle.zmtp_wire.specs.Connections.{MakesHandshake, connection};
ghost use Rattle.zmtp_wire.specs.Ends.{BlamesReader, LostPeer, ReceivedOn};

use crate::decoder::Decoder;
use crate::feeding::{Fed, feed};
use crate::messages::Messages;
use crate::peer_fault::PeerFault;
use crate::receiving::{PIECE_SIZE, read_piece};
use crate::role::Role;
use crate::sending::send;
use crate::writing::{greeting, ready};
use base_streams::ports::{Inlet, Outlet};
use std::alloc::Global;

// The size of a greeting, in bytes.
const GREETING_SIZE: usize = 64;

/// A peer whose READY was accepted, and the messages that came with it. The stream may be broken after them;
/// then the next feed, even of no bytes, returns the fault.
#[derive(Drop)]
pub struct Peer {
    pub decoder: Decoder,
    pub messages: Messages,
    /// The number of reads so far. A conversation makes at most 4,294,967,295.
    pub reads: u32,
}

// Reads a piece before READY, and returns its length.
fn listen_once<I: Inlet>(alloc: Global, from: &mut I, peer: &mut Peer) -> Result<usize, PeerFault>
    requires readable { IsReadable (I.state from.old) }
    requires unready { peer.old.decoder.stage ≡ Traffic → ⊥ }
    requires left { peer.old.reads < 4294967295 }
    ensures some { IfOk result (λ count. 0 < count) }
    ensures role { peer.new.decoder.role ≡ peer.old.decoder.role }
    ensures reads { OnOk result (peer.new.reads ≡ peer.old.reads + 1) }
    ensures good { OnOk result (IsReadable (I.state from.new)) }
    ensures received { OnOk result (ReceivedOn (I.state from.old) (I.state from.new) peer.old peer.new) }
    ensures blames { IfErr result (BlamesReader (I.state from.new)) }
    ensures lost { IfErr result (LostPeer (I.state from.old) (I.state from.new) peer.old) }
{
    let mut buffer = [0u8; PIECE_SIZE];
    let count = match read_piece(from, &mut buffer) {
        Ok(count) => count,
        Err(fault) => return Err(fault),
    };
    peer.reads += 1;
    let Ok(Fed { messages, broken }) = feed(alloc, &mut peer.decoder, &buffer[..count]) else {
        return Err(PeerFault::OutOfMemory);
    };
    peer.messages = messages;
    match broken {
        Some(cause) if !peer.decoder.is_ready() => Err(PeerFault::Wire(cause)),
        Some(_) | None => Ok(count),
    }
}

// Reads until a greeting or READY has come, or the conversation has made its last read.
fn await_greeting<I: Inlet>(alloc: Global, from: &mut I, peer: &mut Peer) -> Result<(), PeerFault>
    requires { IsReadable (I.state from.old) }
    ensures role { peer.new.decoder.role ≡ peer.old.decoder.role }
    ensures good { OnOk result (IsReadable (I.state from.new)) }
    ensures received { OnOk result (ReceivedOn (I.state from.old) (I.state from.new) peer.old peer.new) }
    ensures blames { IfErr result (BlamesReader (I.state from.new)) }
    ensures lost { IfErr result (LostPeer (I.state from.old) (I.state from.new) peer.old) }
{
    let mut count = 0usize;
    while count < GREETING_SIZE && peer.reads < u32::MAX && !peer.decoder.is_ready() {
        match listen_once(alloc, from, peer) {
            Ok(more) => count = count.saturating_add(more),
            Err(fault) => return Err(fault),
        }
    }
    Ok(())
}

// Reads until the peer's READY is accepted.
fn await_ready<I: Inlet>(alloc: Global, from: &mut I, peer: &mut Peer) -> Result<(), PeerFault>
    requires { IsReadable (I.state from.old) }
    ensures role { peer.new.decoder.role ≡ peer.old.decoder.role }
    ensures ready { OnOk result (peer.new.decoder.stage ≡ Traffic) }
    ensures good { OnOk result (IsReadable (I.state from.new)) }
    ensures received { OnOk result (ReceivedOn (I.state from.old) (I.state from.new) peer.old peer.new) }
    ensures blames { IfErr result (BlamesReader (I.state from.new)) }
    ensures lost { IfErr result (LostPeer (I.state from.old) (I.state from.new) peer.old) }
{
    while !peer.decoder.is_ready() {
        if peer.reads == u32::MAX {
            return Err(PeerFault::ReadFailed);
        }
        match listen_once(alloc, from, peer) {
            Ok(_) => {}
            Err(fault) => return Err(fault),
        }
    }
    Ok(())
}

/// Makes the handshake: writes the greeting, then READY once the peer's greeting has come, and reads until
/// the peer's READY is accepted. It doesn't read before it has written the greeting.
pub fn handshake<I: Inlet, W: Outlet>(
    alloc: Global,
    from: &mut I,
    to: &mut W,
    role: Role,
) -> Result<Peer, PeerFault>
    requires readable { IsReadable (I.state from.old) }
    requires writable { IsWritable (W.state to.old) }
    ensures { MakesHandshake role (connection (I.state from.old) (W.state to.old))
        (connection (I.state from.new) (W.state to.new)) result }
{
    let (greeting, ready) = (greeting(), ready(role));
    let mut peer = Peer {
        decoder: Decoder::new(alloc, role),
        messages: Messages::new(alloc),
        reads: 0,
    };
    match send(to, greeting) {
        Ok(()) => {}
        Err(fault) => return Err(fault),
    }
    match await_greeting(alloc, from, &mut peer) {
        Ok(()) => {}
        Err(fault) => return Err(fault),
    }
    match send(to, ready) {
        Ok(()) => {}
        Err(fault) => return Err(fault),
    }
    match await_ready(alloc, from, &mut peer) {
        Ok(()) => {}
        Err(fault) => return Err(fault),
    }
    Ok(peer)
}

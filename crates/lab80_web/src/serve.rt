//! Serving over one stream in each direction.
ghost use Rattle.std.specs.Prelude.{MatchResult, OnOk};
ghost use Rattle.base_streams.specs.States.{IsReadable, IsWritable};
ghost use Rattle.zmtp_wire.specs.declared.role.Role.TheVariants.{Router};
ghost use Rattle.zmtp_wire.specs.Connections.{connection};
ghost use Rattle.zmtp_wire.specs.Ends.{Refuses};
ghost use Rattle.zmtp_wire.specs.Sending.{WrotePrefix, WroteWhole};
ghost use Rattle.lab80_web.specs.Serving.{Serves};
ghost use Rattle.lab80_web.specs.Steps.{server, TakesPiece};

use crate::performing::answer_messages;
use base_streams::ports::{Inlet, Outlet};
use base_streams::writing::write_all;
use kern_core::bare::BareKernel;
use std::alloc::Global;
use zmtp_wire::decoder::Decoder;
use zmtp_wire::feeding::{Fed, feed};
use zmtp_wire::peer_fault::PeerFault;
use zmtp_wire::role::Role;
use zmtp_wire::writing::{greeting, ready};

// Writes the handshake: the greeting, and READY.
fn begin<W: Outlet>(to: &mut W) -> Result<(), PeerFault>
    requires { IsWritable (W.state to.old) }
    ensures { MatchResult result
        (λ _. WroteWhole (W.state to.old) (W.state to.new) Router × IsWritable (W.state to.new))
        (λ fault. WrotePrefix (W.state to.old) (W.state to.new) Router × Refuses fault (W.state to.new)) }
{
    let ready = ready(Role::Router);
    match write_all(to, greeting()) {
        Ok(()) => match write_all(to, ready) {
            Ok(()) => Ok(()),
            Err(_) => Err(PeerFault::WriteFailed),
        },
        Err(_) => Err(PeerFault::WriteFailed),
    }
}

// Feeds a piece of the stream to the decoder, and answers the messages that it completes.
fn take_piece<W: Outlet>(
    alloc: Global,
    kernel: &mut BareKernel,
    decoder: &mut Decoder,
    to: &mut W,
    piece: &[u8],
) -> Result<(), PeerFault>
    requires { IsWritable (W.state to.old) }
    ensures good { OnOk result (IsWritable (W.state to.new)) }
    ensures takes { TakesPiece piece.now
        (record { decoder = decoder.old; server = server kernel.old (W.state to.old) })
        (record { decoder = decoder.new; server = server kernel.new (W.state to.new) }) result }
{
    match feed(alloc, decoder, piece) {
        Ok(Fed { messages, broken }) => match answer_messages(alloc, kernel, to, messages) {
            Ok(()) => match broken {
                None => Ok(()),
                Some(cause) => Err(PeerFault::Wire(cause)),
            },
            Err(fault) => Err(fault),
        },
        Err(_) => Err(PeerFault::OutOfMemory),
    }
}

/// Serves a kernel over one ZMTP stream in each direction: writes the handshake, and then answers each
/// message that it reads, in order. Returns why it ended: the input ended, a read or a write failed, the
/// stream broke, or memory ran out.
pub fn serve<I: Inlet, W: Outlet>(alloc: Global, from: &mut I, to: &mut W) -> PeerFault
    requires readable { IsReadable (I.state from.old) }
    requires writable { IsWritable (W.state to.old) }
    ensures { Serves (connection (I.state from.old) (W.state to.old))
        (connection (I.state from.new) (W.state to.new)) result }
{
    let mut decoder = Decoder::new(alloc, Role::Router);
    match begin(to) {
        Ok(()) => {}
        Err(fault) => return fault,
    }
    let Ok(mut kernel) = BareKernel::new(alloc) else {
        return PeerFault::OutOfMemory;
    };
    let mut buffer = [0u8; 8192];
    for _ in 0..u64::MAX {
        let count = match from.read(&mut buffer) {
            Ok(0) => return PeerFault::PeerEnded,
            Ok(count) => count,
            Err(_) => return PeerFault::ReadFailed,
        };
        let piece = &buffer[..count];
        match take_piece(alloc, &mut kernel, &mut decoder, to, piece) {
            Ok(()) => {}
            Err(fault) => return fault,
        }
    }
    PeerFault::ReadFailed
}

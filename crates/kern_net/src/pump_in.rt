//! Reading a connection to its end.
ghost use Rattle.std.specs.Prelude.{◌≡◌, OnOk};
ghost use Rattle.zmtp_wire.specs.declared.fault.StreamFault.{StreamFault};
ghost use Rattle.kern_net.specs.declared.end.PumpEnd.TheVariants as pump;
ghost use Rattle.kern_net.specs.Gates.{WokeForEach, WokeOwnForEach, HasWoken};
ghost use Rattle.kern_net.specs.Reading.{SubmittedFor, PieceSubmitted, CanRead, PumpsIn, reader_with};
ghost use Rattle.kern_net.specs.Routes.{source_of};

use crate::end::PumpEnd;
use crate::gate::ReaderGate;
use crate::routes::IncomingRoute;
use crate::runtime::Runtime;
use crate::submitting::submit;
use base_streams::ports::Inlet;
use kern_desk::seated::Pass;
use std::sync::Wait;
use zmtp_wire::decoder::Decoder;
use zmtp_wire::feeding::{Fed, feed};
use zmtp_wire::handshake::Peer;
use zmtp_wire::messages::Messages;

// Makes the calls that messages ask for, up to the first that is refused.
#[tactic(auto, using(crate::proofs::ReadLemmas::comings))]
fn submit_all<R: Wait, G: ReaderGate>(
    runtime: &Runtime<'_, R>,
    pass: &mut Pass,
    gate: &mut G,
    route: &IncomingRoute<'_>,
    messages: Messages,
) -> Result<(), PumpEnd>
    requires own { pass.old.turnstile ≡ route.now.desk.now }
    requires woken { HasWoken (G.polls gate.old) }
    ensures same { (pass.new.turnstile ≡ route.now.desk.now) × (pass.new.seat ≡ pass.old.seat) }
    ensures woken { OnOk result (HasWoken (G.polls gate.new)) }
    ensures woke { WokeForEach pass.old pass.new (G.polls gate.old) (G.polls gate.new) }
    ensures told { WokeOwnForEach pass.old pass.new (G.polls gate.old) (G.polls gate.new) }
    ensures submitted { SubmittedFor (source_of route.now) messages pass.old pass.new result }
{
    for frames in messages.into_vec() {
        match submit(runtime, pass, gate, route, frames) {
            Ok(()) => {}
            Err(end) => return Err(end),
        }
    }
    Ok(())
}

// Feeds a piece of the stream to the decoder, and makes the calls that the messages in it ask for.
#[tactic(auto, using(crate::proofs::ReadLemmas::receivings))]
fn take_piece<R: Wait, G: ReaderGate>(
    runtime: &Runtime<'_, R>,
    pass: &mut Pass,
    gate: &mut G,
    route: &IncomingRoute<'_>,
    decoder: &mut Decoder,
    piece: &[u8],
) -> Result<(), PumpEnd>
    requires own { pass.old.turnstile ≡ route.now.desk.now }
    requires woken { HasWoken (G.polls gate.old) }
    ensures same { (pass.new.turnstile ≡ route.now.desk.now) × (pass.new.seat ≡ pass.old.seat) }
    ensures woken { OnOk result (HasWoken (G.polls gate.new)) }
    ensures woke { WokeForEach pass.old pass.new (G.polls gate.old) (G.polls gate.new) }
    ensures told { WokeOwnForEach pass.old pass.new (G.polls gate.old) (G.polls gate.new) }
    ensures submitted { PieceSubmitted (source_of route.now) piece.now
        (record { decoder = decoder.old; pass = pass.old })
        (record { decoder = decoder.new; pass = pass.new }) result }
{
    match feed(runtime.alloc, decoder, piece) {
        Ok(Fed { messages, broken }) => {
            match submit_all(runtime, pass, gate, route, messages) {
                Ok(()) => match broken {
                    None => Ok(()),
                    Some(cause) => Err(PumpEnd::Wire(cause)),
                },
                Err(end) => Err(end),
            }
        }
        Err(_) => Err(PumpEnd::OutOfMemory),
    }
}

/// Reads from a peer, and makes one call for each message that asks for something: first for those that came
/// with its READY, then for those in the bytes that it reads. Messages that don't open under the key are
/// dropped, and on iopub everything but subscriptions.
///
/// Returns when the stream ends, fails or breaks, after 4,294,967,295 reads, when memory runs out, or when a
/// call is refused. It makes no call after that.
#[tactic(auto, using(crate::proofs::ReadLemmas::under_way))]
pub fn pump_in<R: Wait, I: Inlet, G: ReaderGate>(
    runtime: &Runtime<'_, R>,
    pass: &mut Pass,
    gate: &mut G,
    from: &mut I,
    peer: Peer,
    route: &IncomingRoute<'_>,
) -> PumpEnd
    requires { CanRead route.now.desk.now (reader_with (I.state from.old) pass.old (G.polls gate.old)) }
    ensures { PumpsIn route.now peer (reader_with (I.state from.old) pass.old (G.polls gate.old))
        (reader_with (I.state from.new) pass.new (G.polls gate.new)) result }
{
    let Peer {
        mut decoder,
        messages,
        reads: _,
    } = peer;
    match submit_all(runtime, pass, gate, route, messages) {
        Ok(()) => {}
        Err(end) => return end,
    }
    // What came with READY may have broken the stream.
    match take_piece(runtime, pass, gate, route, &mut decoder, &[]) {
        Ok(()) => {}
        Err(end) => return end,
    }
    let mut buffer = [0u8; 8192];
    for reads in 0..u32::MAX {
        let count = match from.read(&mut buffer) {
            Ok(0) => return PumpEnd::PeerEnded,
            Ok(count) => count,
            Err(_) => return PumpEnd::ReadFailed,
        };
        let piece = &buffer[..count];
        match take_piece(runtime, pass, gate, route, &mut decoder, piece) {
            Ok(()) => {}
            Err(end) => return end,
        }
    }
    PumpEnd::ReadFailed
}

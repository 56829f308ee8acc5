//! Reading from a connection and writing to it at once.
ghost use Rattle.std.specs.Prelude.{◌≡◌, IsSome, IfSome};
ghost use Rattle.base_streams.specs.States.{IsReadable};
ghost use Rattle.kern_net.specs.Gates.{HasWoken};
ghost use Rattle.kern_net.specs.Reading.{ReadOut};
ghost use Rattle.kern_host.specs.Guests.{IsComing};
ghost use Rattle.kern_host.specs.Writes.{WroteIfAny};
ghost use Rattle.kern_net.specs.Out.{CanWrite, writer_with};
ghost use Rattle.kern_net.specs.Routes.{source_of, target_of};

use crate::guest::{Guest, Passes};
use crate::hooks::Hooks;
use base_streams::ports::{Inlet, Outlet};
use kern_desk::seated::Pass;
use kern_net::end::PumpEnd;
use kern_net::gate::{ReaderGate, WriterGate};
use kern_net::pump_in::pump_in;
use kern_net::pump_out::pump_out;
use kern_net::routes::{IncomingRoute, OutgoingRoute};
use kern_net::runtime::Runtime;
use std::alloc::Global;
use std::sync::Wait;
use std::thread;
use std::thread::Threads;
use zmtp_wire::handshake::Peer;

/// The two routes of a connection, the number of the first post that may be for it, and its hooks.
#[derive(Drop)]
pub(crate) struct Routes<'a, K> {
    pub(crate) incoming: IncomingRoute<'a>,
    pub(crate) outgoing: OutgoingRoute<'a>,
    pub(crate) from: u64,
    pub(crate) hooks: &'a K,
}

// Reads from the peer to its end.
fn read_on<R: Wait, I: Inlet, G: ReaderGate, H: WriterGate, K: Hooks<G, H>>(
    runtime: &Runtime<'_, R>,
    pass: &mut Pass,
    gate: &mut G,
    from: &mut I,
    peer: &mut Option<Peer>,
    routes: &Routes<'_, K>,
) -> PumpEnd
    requires own { pass.old.turnstile ≡ routes.now.incoming.desk.now }
    requires woken { HasWoken (G.polls gate.old) }
    requires readable { IsReadable (I.state from.old) }
    requires some { IsSome peer.old }
    ensures same { (pass.new.turnstile ≡ routes.now.incoming.desk.now) × (pass.new.seat ≡ pass.old.seat) }
    ensures read { IfSome peer.old (λ p. ReadOut (source_of routes.now.incoming) p
        (record { inlet = I.state from.old; pass = pass.old })
        (record { inlet = I.state from.new; pass = pass.new }) result) }
{
    let Some(peer) = peer.take() else {
        unreachable!()
    };
    routes.hooks.before_reading(runtime.rt, gate);
    let end = pump_in(runtime, pass, gate, from, peer, &routes.incoming);
    routes.hooks.after_reading(runtime.rt, gate, end);
    end
}

// Writes to the peer to its end, unless the hooks keep the posts back.
fn write_on<R: Wait, W: Outlet, G: ReaderGate, H: WriterGate, K: Hooks<G, H>>(
    runtime: &Runtime<'_, R>,
    pass: &mut Pass,
    gate: &mut H,
    to: &mut W,
    routes: &Routes<'_, K>,
) -> Option<PumpEnd>
    requires { CanWrite routes.now.outgoing.desk.now
        (writer_with (W.state to.old) pass.old (H.polls gate.old)) }
    ensures same { (pass.new.turnstile ≡ routes.now.outgoing.desk.now) × (pass.new.seat ≡ pass.old.seat) }
    ensures wrote { WroteIfAny (target_of routes.now.outgoing) routes.now.from
        (writer_with (W.state to.old) pass.old (H.polls gate.old))
        (writer_with (W.state to.new) pass.new (H.polls gate.new)) result }
{
    if !routes.hooks.before_writing(runtime.rt, gate, routes.from) {
        routes.hooks.after_writing(runtime.rt, gate);
        return None;
    }
    let end = pump_out(runtime, pass, gate, to, &routes.outgoing, routes.from);
    routes.hooks.after_writing(runtime.rt, gate);
    Some(end)
}

/// Reads and writes, each in a thread of its own, until both have ended.
pub(crate) fn talk<
    R: Threads + Wait + Sync,
    I: Inlet + Drop + Send,
    W: Outlet + Drop + Send,
    G: ReaderGate + Drop + Send,
    H: WriterGate + Drop + Send,
    K: Hooks<G, H> + Sync,
>(
    rt: &R,
    alloc: Global,
    routes: &Routes<'_, K>,
    peer: Peer,
    guest: &mut Guest<I, W, G, H>,
    passes: &mut Passes,
) -> (PumpEnd, Option<PumpEnd>)
    requires reading { passes.old.reading.turnstile ≡ routes.now.incoming.desk.now }
    requires writing { passes.old.writing.turnstile ≡ routes.now.outgoing.desk.now }
    requires coming { IsComing guest.old }
    ensures reading { (passes.new.reading.turnstile ≡ passes.old.reading.turnstile)
        × (passes.new.reading.seat ≡ passes.old.reading.seat) }
    ensures writing { (passes.new.writing.turnstile ≡ passes.old.writing.turnstile)
        × (passes.new.writing.seat ≡ passes.old.writing.seat) }
    ensures channel { guest.new.channel ≡ guest.old.channel }
    ensures read { ReadOut (source_of routes.now.incoming) peer
        (record { inlet = guest.old.inlet; pass = passes.old.reading })
        (record { inlet = guest.new.inlet; pass = passes.new.reading }) result.0 }
    ensures wrote { WroteIfAny (target_of routes.now.outgoing) routes.now.from
        (writer_with guest.old.outlet passes.old.writing guest.old.writer)
        (writer_with guest.new.outlet passes.new.writing guest.new.writer) result.1 }
{
    // The reader's thread takes the peer out of here.
    let mut held = Some(peer);
    let peer = &mut held;
    let reading = &mut passes.reading;
    let writing = &mut passes.writing;
    let reader = &mut guest.reader;
    let writer = &mut guest.writer;
    let from = &mut guest.inlet;
    let to = &mut guest.outlet;
    thread::join_mut(
        rt,
        &mut || -> PumpEnd
            requires { (reading.now.turnstile ≡ routes.now.incoming.desk.now) × IsReadable (I.state from.now)
                × IsSome peer.now × HasWoken (G.polls reader.now) }
            ensures same { (reading.exit.now.turnstile ≡ routes.entry.now.incoming.desk.now)
                × (reading.exit.now.seat ≡ reading.entry.now.seat) }
            ensures read { IfSome peer.entry.now (λ p. ReadOut (source_of routes.entry.now.incoming) p
                (record { inlet = I.state from.entry.now; pass = reading.entry.now })
                (record { inlet = I.state from.exit.now; pass = reading.exit.now }) result) }
        {
            let runtime = Runtime { rt, alloc };
            read_on::<R, I, G, H, K>(&runtime, reading, reader, from, peer, routes)
        },
        &mut || -> Option<PumpEnd>
            requires { CanWrite routes.now.outgoing.desk.now
                (writer_with (W.state to.now) writing.now (H.polls writer.now)) }
            ensures same { (writing.exit.now.turnstile ≡ routes.entry.now.outgoing.desk.now)
                × (writing.exit.now.seat ≡ writing.entry.now.seat) }
            ensures wrote { WroteIfAny (target_of routes.entry.now.outgoing) routes.entry.now.from
                (writer_with (W.state to.entry.now) writing.entry.now (H.polls writer.entry.now))
                (writer_with (W.state to.exit.now) writing.exit.now (H.polls writer.exit.now)) result }
        { write_on::<R, W, G, H, K>(&Runtime { rt, alloc }, writing, writer, to, routes) },
    )
}

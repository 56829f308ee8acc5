//! One connection, from its handshake to its Leave.
ghost use Rattle.std.specs.Prelude.{◌≡◌, ℕ, List, Ok, Some, IfOk, IfErr};
ghost use Rattle.kern_calls.specs.declared.call.Call.{Call};
ghost use Rattle.kern_calls.specs.declared.call.Call.TheVariants.{Join};
ghost use Rattle.kern_calls.specs.declared.call.Reply.TheVariants as reply;
ghost use Rattle.kern_net.specs.Calls.{TurnedBy};
ghost use Rattle.kern_net.specs.Routes.{source_of, target_of};
ghost use Rattle.kern_host.specs.Guests.{AreOf, IsComing, IsSeated, line_of};
ghost use Rattle.kern_host.specs.OneHistory.{IsPartOf};
ghost use Rattle.kern_host.specs.Visits.{role_on, identity_of, house_of, seats_of, IsUnjoinedPeer};
ghost use Rattle.kern_host.specs.Visits.{IsVisit, Visited};

use crate::end::{Ends, VisitEnd};
use crate::guest::{Guest, Passes};
use crate::hooks::Hooks;
use crate::leaving::leave;
use crate::server::Server;
use crate::talking::{Routes, talk};
use base_streams::ports::{Inlet, Outlet};
use base_text::boxed::Boxed;
use base_text::sequence::Bytes;
use jup_wire::channel::Channel;
use kern_core::fault::KernelFault;
use kern_desk::desks::{Joined, join};
use kern_desk::seated::{Desk, Pass};
use kern_net::gate::{ReaderGate, WriterGate};
use kern_net::routes::{IncomingRoute, OutgoingRoute};
use std::alloc::{AllocError, Global};
use std::rt::Clock;
use std::sync::Wait;
use std::thread::Threads;
use zmtp_wire::handshake::{Peer, handshake};
use zmtp_wire::role::Role;

// The kernel's socket type on a channel.
fn role_on(channel: Channel) -> Role
    ensures { result ≡ role_on channel }
{
    match channel {
        Channel::Iopub => Role::Pub,
        Channel::Shell | Channel::Stdin | Channel::Control => Role::Router,
    }
}

// The identity of a peer; empty if it has none.
fn identity_of(alloc: Global, peer: &Peer) -> Result<Boxed<Bytes>, AllocError>
    ensures { IfOk result (λ held. held ≡ identity_of peer.now) }
{
    match peer.decoder.identity() {
        Some(identity) => Boxed::new(alloc, Bytes::copy_of(alloc, identity.as_slice())?),
        None => Boxed::new(alloc, Bytes::new(alloc)),
    }
}

// Makes a peer's Join.
fn join_peer<R: Wait>(
    rt: &R,
    alloc: Global,
    desk: &Desk,
    pass: &mut Pass,
    channel: Channel,
    peer: &Peer,
) -> Result<Joined, KernelFault>
    requires { pass.old.turnstile ≡ desk.now }
    ensures same { (pass.new.turnstile ≡ desk.now) × (pass.new.seat ≡ pass.old.seat) }
    ensures ok { IfOk result (λ joined. TurnedBy pass.old (Join channel (identity_of peer.now))
        (Ok (reply.Joined joined.connection joined.from)) pass.new) }
    ensures err { IfErr result (IsUnjoinedPeer pass.old (Join channel (identity_of peer.now)) pass.new) }
{
    match identity_of(alloc, peer) {
        Ok(identity) => join(rt, desk, pass, channel, identity),
        Err(_) => Err(KernelFault::OutOfMemory),
    }
}

// The routes of a connection that has joined on a channel.
fn routes_of<'a, K>(
    server: &Server<'a>,
    hooks: &'a K,
    channel: Channel,
    joined: Joined,
) -> Routes<'a, K>
    ensures desks { (result.incoming.desk.now ≡ server.now.desk.now)
        × (result.outgoing.desk.now ≡ server.now.desk.now) }
    ensures incoming { source_of result.incoming ≡ record {
      connection = joined.connection;
      channel = channel;
      key = server.now.seal.key.now;
    } }
    ensures outgoing { target_of result.outgoing ≡ record {
      connection = joined.connection;
      key = server.now.seal.key.now;
      session = server.now.seal.session.now;
    } }
    ensures from { result.from ≡ joined.from }
{
    Routes {
        incoming: IncomingRoute {
            desk: server.desk,
            connection: joined.connection,
            channel,
            key: server.seal.key,
        },
        outgoing: OutgoingRoute {
            desk: server.desk,
            connection: joined.connection,
            key: server.seal.key,
            session: server.seal.session,
        },
        from: joined.from,
        hooks,
    }
}

// A visit with these passes.
fn visit_with<
    R: Threads + Wait + Clock + Sync,
    I: Inlet + Drop + Send,
    W: Outlet + Drop + Send,
    G: ReaderGate + Drop + Send,
    H: WriterGate + Drop + Send,
    K: Hooks<G, H> + Sync,
>(
    rt: &R,
    alloc: Global,
    server: &Server<'_>,
    hooks: &K,
    guest: &mut Guest<I, W, G, H>,
    passes: &mut Passes,
) -> VisitEnd
    requires passes { AreOf server.now.desk.now (Some passes.old) }
    requires coming { IsComing guest.old }
    ensures reading { (passes.new.reading.turnstile ≡ passes.old.reading.turnstile)
        × (passes.new.reading.seat ≡ passes.old.reading.seat) }
    ensures writing { (passes.new.writing.turnstile ≡ passes.old.writing.turnstile)
        × (passes.new.writing.seat ≡ passes.old.writing.seat) }
    ensures channel { guest.new.channel ≡ guest.old.channel }
    ensures visit { (history : List (ℕ × Call)) → IsPartOf passes.new.reading history
        → IsPartOf passes.new.writing history
        → IsVisit (seats_of (house_of server.now.seal server.now.desk.now.limit) passes.old)
        (line_of guest.old) (line_of guest.new) history result }
{
    let channel = guest.channel;
    let peer = match handshake(alloc, &mut guest.inlet, &mut guest.outlet, role_on(channel)) {
        Ok(peer) => peer,
        Err(fault) => return VisitEnd::NoHandshake(fault),
    };
    hooks.before_join(rt);
    let joined = match join_peer(rt, alloc, server.desk, &mut passes.reading, channel, &peer) {
        Ok(joined) => joined,
        Err(fault) => {
            drop(peer);
            return VisitEnd::NoJoin(fault);
        }
    };
    let routes = routes_of(server, hooks, channel, joined);
    let (reading, writing) = talk(rt, alloc, &routes, peer, guest, passes);
    hooks.before_leave(rt);
    let leave = leave(rt, server.desk, &mut passes.reading, joined.connection);
    VisitEnd::Served(Ends {
        reading,
        writing,
        leave,
    })
}

/// Serves a connection with its passes: makes the handshake, joins, reads and writes at the same time until
/// both have ended, and leaves. In each history of which its passes are a part, the connection was served.
///
/// It may wait, or never return, as the reader, the gates and the hooks do.
pub fn visit<
    R: Threads + Wait + Clock + Sync,
    I: Inlet + Drop + Send,
    W: Outlet + Drop + Send,
    G: ReaderGate + Drop + Send,
    H: WriterGate + Drop + Send,
    K: Hooks<G, H> + Sync,
>(rt: &R, alloc: Global, server: &Server<'_>, hooks: &K, guest: &mut Guest<I, W, G, H>)
    requires { IsSeated server.now.desk.now guest.old }
    ensures { Visited (house_of server.now.seal server.now.desk.now.limit) guest.old guest.new }
{
    let Some(mut passes) = guest.rise() else {
        unreachable!()
    };
    let end = visit_with(rt, alloc, server, hooks, guest, &mut passes);
    guest.finish(passes, end);
}

//! The server: what its threads share, and the worker.
ghost use Rattle.std.specs.Prelude.{◌≡◌, All, IfOk};
ghost use Rattle.std.specs.Arc.{arc_value};
ghost use Rattle.kern_serve.specs.Ends.{server_end};

use crate::admission::start_admission;
use crate::connection::Shared;
use crate::fault::ServerFault;
use crate::gates::WorkGate;
use crate::host::Host;
use crate::listeners::Listeners;
use crate::spare::Spare;
use crate::system::new_session;
use crate::tasks::Crew;
use base_text::text::Text;
use jup_wire::connection_file::ConnectionFile;
use kern_desk::desks::{MOST_ENTRIES, open_desk};
use kern_desk::seated::{Desk, Pass};
use kern_net::end::PumpEnd;
use kern_net::worker::worker;
use kern_pace::pace::JOURNAL_LIMIT;
use kern_waits::slots::Slots;
use kern_waits::throttles::Throttles;
use kern_waits::wakeups::Wakeups;
use std::alloc::{AllocError, Global};
use std::random::RandomSource;
use std::rt::Clock;
use std::sync::{Arc, Mutex};
use std::time::Duration;

/// How a server ends.
#[derive(Clone, Copy, PartialEq, Eq)]
pub enum ServerEnd {
    /// A client asked for a shutdown.
    ShutDown,
    /// The kernel takes no more calls.
    JournalFull,
}

// Two passes for each slot of four channels, and the worker's.
const PASSES: u32 = 129;

// A server's journal may have as many entries as a kernel allows.
const _: () = prove!(JOURNAL_LIMIT == MOST_ENTRIES);

// How long the writers have to write what was posted, once the worker has ended.
const FAREWELL_MILLIS: u64 = 400;

// How the server ends when the worker has ended. The worker's gate says no only if the journal is full.
fn end_of(end: PumpEnd, is_closed: bool) -> Result<ServerEnd, ServerFault>
    ensures { result ≡ server_end is_closed end }
{
    match end {
        PumpEnd::Ended if !is_closed => Ok(ServerEnd::ShutDown),
        PumpEnd::Ended | PumpEnd::JournalFull | PumpEnd::OutOfTickets => Ok(ServerEnd::JournalFull),
        PumpEnd::OutOfMemory => Err(ServerFault::OutOfMemory),
        PumpEnd::PeerEnded
        | PumpEnd::ReadFailed
        | PumpEnd::WriteFailed
        | PumpEnd::Wire(_)
        | PumpEnd::Lagged
        | PumpEnd::Refused(_) => Err(ServerFault::Refused),
    }
}

// Runs the worker until a shutdown has come or the journal is full, and then lets the writers end.
fn work<R: Host>(rt: &R, shared: &Shared, mut pass: Pass) -> Result<ServerEnd, ServerFault>
    requires { pass.turnstile ≡ shared.now.desk }
{
    let mut gate = WorkGate::new(&shared.wakeups, rt);
    let end = worker(rt, &shared.desk, &mut pass, &mut gate);
    shared
        .wakeups
        .close(rt, Duration::from_millis(FAREWELL_MILLIS));
    end_of(end, gate.is_closed())
}

// A desk, its passes, and the wakeups of its threads.
fn open_desk_and_wakeups<C: Clock>(
    clock: &C,
    alloc: Global,
) -> Result<(Desk, Vec<Pass>, Wakeups), AllocError>
    ensures { IfOk result (λ opened. All (λ p. p.turnstile ≡ opened.0) opened.1.items) }
{
    let wakeups = Wakeups::new(clock, alloc)?;
    match open_desk(alloc, JOURNAL_LIMIT, PASSES) {
        Ok((desk, passes)) => Ok((desk, passes, wakeups)),
        Err(error) => {
            drop(wakeups);
            Err(error)
        }
    }
}

// What the threads share, and the passes of the desk.
fn open<C: Clock>(
    clock: &C,
    alloc: Global,
    listeners: Listeners,
    key: Text,
    session: Text,
) -> Result<(Shared, Vec<Pass>), ServerFault>
    ensures { IfOk result (λ opened. All (λ p. p.turnstile ≡ opened.0.desk) opened.1.items) }
{
    match open_desk_and_wakeups(clock, alloc) {
        Ok((desk, passes, wakeups)) => {
            let Ok(slots) = Slots::new(clock, alloc) else {
                drop(desk);
                drop(passes);
                drop(wakeups);
                drop(listeners);
                drop(key);
                drop(session);
                return Err(ServerFault::OutOfMemory);
            };
            let shared = Shared {
                desk,
                wakeups,
                throttles: Throttles::new(clock),
                slots,
                key,
                session,
                listeners,
            };
            Ok((shared, passes))
        }
        Err(_) => {
            drop(listeners);
            drop(key);
            drop(session);
            Err(ServerFault::OutOfMemory)
        }
    }
}

// Starts the thread that accepts connections, which has the other passes.
fn start<R: Host>(
    rt: &R,
    alloc: Global,
    shared: &Arc<Shared>,
    passes: Vec<Pass>,
) -> Result<(), ServerFault>
    requires { All (λ p. p.turnstile ≡ (arc_value shared.now).desk) passes.items }
{
    let (Ok(mine), Ok(own)) = (Arc::try_clone(shared), Arc::try_clone(shared)) else {
        drop(passes);
        return Err(ServerFault::OutOfMemory);
    };
    let Ok(spare) = Arc::new(alloc, Mutex::new(Spare::new(own, passes))) else {
        drop(mine);
        return Err(ServerFault::OutOfMemory);
    };
    let crew = Crew {
        shared: mine,
        spare,
    };
    start_admission(rt, alloc, crew)
}

// Starts the thread that accepts connections, prints that the server listens, and runs the worker.
fn run<R: Host>(
    rt: &R,
    alloc: Global,
    shared: &Arc<Shared>,
    mut passes: Vec<Pass>,
) -> Result<ServerEnd, ServerFault>
    requires { All (λ p. p.turnstile ≡ (arc_value shared.now).desk) passes.items }
{
    let Some(pass) = passes.pop() else {
        drop(passes);
        return Err(ServerFault::OutOfMemory);
    };
    start(rt, alloc, shared, passes)?;
    if rt.println("listening").is_err() {
        drop(pass);
        return Err(ServerFault::WriteFailed);
    }
    work(rt, shared, pass)
}

// Serves with a session's identifier.
fn serve_as<R: Host>(
    rt: &R,
    alloc: Global,
    listeners: Listeners,
    key: Text,
    session: Text,
) -> Result<ServerEnd, ServerFault> {
    let (shared, passes) = open(rt, alloc, listeners, key, session)?;
    match Arc::new(alloc, shared) {
        Ok(shared) => {
            let ended = run(rt, alloc, &shared, passes);
            drop(shared);
            ended
        }
        Err(fault) => {
            drop(fault);
            drop(passes);
            Err(ServerFault::OutOfMemory)
        }
    }
}

/// Serves bound ports until a client asks for a shutdown or the journal is full. Prints `listening` once it
/// accepts connections; the threads that serve them start as they are needed. When it returns, everything
/// posted has been written to each client that reads, or half a second has passed. The threads that serve
/// connections aren't joined, since the program is about to end.
///
/// A connection is closed alone if it breaks the protocol, takes more than ten seconds for its handshake, or
/// doesn't read for ten seconds.
pub fn serve<R: Host + RandomSource>(
    rt: &R,
    alloc: Global,
    listeners: Listeners,
    file: ConnectionFile,
) -> Result<ServerEnd, ServerFault> {
    match new_session(alloc, rt) {
        Ok(session) => serve_as(rt, alloc, listeners, file.key, session),
        Err(fault) => {
            drop(listeners);
            drop(file);
            Err(fault)
        }
    }
}

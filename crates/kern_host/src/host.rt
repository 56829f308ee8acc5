//! A kernel with its connections, from the first call to the last.
ghost use Rattle.std.specs.Prelude.{◌≡◌, ◌+◌, ◌*◌, ◌≤◌, [], All, IfOk, IfErr, length, vec_capacity};
ghost use Rattle.lab_turn.specs.History.{FreshFrom};
ghost use Rattle.std.specs.Thread.{IsSync, IsSend};
ghost use Rattle.std.specs.Fork.{AcceptsEach};
ghost use Rattle.kern_net.specs.Gates.{no_polls};
ghost use Rattle.kern_net.specs.Work.{MakesSlices};
ghost use Rattle.kern_host.specs.Guests.{IsComing, IsSeated};
ghost use Rattle.kern_host.specs.Visits.{house_of, Visited};
ghost use Rattle.kern_host.specs.Hosting.{AtEach, IsChangedBy, CanHost, HostsAll, host_with};

use crate::guest::Guest;
use crate::hooks::NoHooks;
use crate::seating::{seat_all, take_all, take_last};
use crate::server::{Seal, Server};
use crate::visiting::visit;
use base_streams::ports::{Inlet, Outlet};
use kern_core::kernel::Kernel;
use kern_desk::desks::close_desk;
use kern_desk::seated::{Desk, Pass, Seated};
use kern_net::end::PumpEnd;
use kern_net::gate::{ReaderGate, WorkerGate, WriterGate};
use kern_net::worker::worker;
use lab_turn::turnstile::{OpenFault, Turnstile};
use std::alloc::Global;
use std::rt::Clock;
use std::sync::Wait;
use std::thread;
use std::thread::Threads;

// Calls the closure on each element, in a thread of its own.
fn at_each<R: Threads + Sync, T: Send, F: Fn(usize, &mut T) + Sync>(rt: &R, f: &F, all: &mut [T])
    requires { AcceptsEach F.Fn f.now all.old }
    ensures { IsChangedBy F.Fn f.now all.old all.new }
{
    let threads = all.len().max(1);
    thread::for_each_mut(rt, all, threads, f);
}

// Runs the worker, and beside it the closure on each element. The elements' type is a parameter, since the
// prover can't yet handle a closure that captures a reference to a value whose model has parameters.
fn run_beside<R: Threads + Wait + Sync, P: WorkerGate + Send, T: Send, F: Fn(usize, &mut T) + Sync>(
    rt: &R,
    desk: &Desk,
    working: &mut Pass,
    gate: &mut P,
    f: &F,
    all: &mut [T],
) -> PumpEnd
    requires own { working.old.turnstile ≡ desk.now }
    requires gate { P.polls gate.old ≡ no_polls }
    requires accepts { AcceptsEach F.Fn f.now all.old }
    ensures worked { MakesSlices desk.now (record { pass = working.old; polls = P.polls gate.old })
        (record { pass = working.new; polls = P.polls gate.new }) result }
    ensures changed { IsChangedBy F.Fn f.now all.old all.new }
{
    let (end, ()) = thread::join_mut(
        rt,
        &mut || -> PumpEnd
            requires { (working.now.turnstile ≡ desk.now) × (P.polls gate.now ≡ no_polls) }
            ensures { MakesSlices desk.entry.now
                (record { pass = working.entry.now; polls = P.polls gate.entry.now })
                (record { pass = working.exit.now; polls = P.polls gate.exit.now }) result }
        { worker(rt, desk, working, gate) },
        &mut ||
            requires { IsSync R.row × IsSync F.row × IsSend T.row × AcceptsEach F.Fn f.now all.now }
            ensures { IsChangedBy F.Fn f.entry.now all.entry.now all.exit.now }
        { at_each(rt, f, all) },
    );
    end
}

// Runs the worker, and beside it all visits, each in a thread of its own.
fn run_all<
    R: Threads + Wait + Clock + Sync,
    I: Inlet + Drop + Send,
    W: Outlet + Drop + Send,
    G: ReaderGate + Drop + Send,
    H: WriterGate + Drop + Send,
    P: WorkerGate + Send,
>(
    rt: &R,
    alloc: Global,
    server: &Server<'_>,
    working: &mut Pass,
    gate: &mut P,
    guests: &mut [Guest<I, W, G, H>],
) -> PumpEnd
    requires own { working.old.turnstile ≡ server.now.desk.now }
    requires gate { P.polls gate.old ≡ no_polls }
    requires guests { All (IsSeated server.now.desk.now) guests.old }
    ensures worked { MakesSlices server.now.desk.now (record { pass = working.old; polls = P.polls gate.old })
        (record { pass = working.new; polls = P.polls gate.new }) result }
    ensures visited { AtEach (λ k a b. Visited (house_of server.now.seal server.now.desk.now.limit) a b)
        guests.old guests.new }
{
    run_beside(
        rt,
        server.desk,
        working,
        gate,
        &|_: usize, guest: &mut Guest<I, W, G, H>|
            requires { IsSeated server.now.desk.now guest.now }
            ensures { Visited (house_of server.entry.now.seal server.entry.now.desk.now.limit) guest.entry.now
                guest.exit.now }
        { visit(rt, alloc, server, &NoHooks, guest) },
        guests,
    )
}

/// A kernel whose journal has the seat of each call, and how its worker ended.
#[derive(Drop)]
pub struct Hosted {
    pub seated: Seated,
    pub end: PumpEnd,
}

// An open desk, its passes, and room for them when they are given back.
#[derive(Drop)]
struct OpenDesk {
    desk: Desk,
    passes: Vec<Pass>,
    back: Vec<Pass>,
}

// Gives the guests their passes, runs all threads, and closes the desk with the passes.
fn host_at<
    R: Threads + Wait + Clock + Sync,
    I: Inlet + Drop + Send,
    W: Outlet + Drop + Send,
    G: ReaderGate + Drop + Send,
    H: WriterGate + Drop + Send,
    P: WorkerGate + Send,
>(
    rt: &R,
    alloc: Global,
    opened: OpenDesk,
    seal: &Seal<'_>,
    gate: &mut P,
    guests: &mut [Guest<I, W, G, H>],
) -> Hosted
    requires fresh { FreshFrom 0 opened.desk opened.passes.items }
    requires count { length opened.passes.items ≡ 2 * length guests.old + 1 }
    requires seats { opened.desk.seats ≡ 2 * length guests.old + 1 }
    requires empty { opened.back.items ≡ [] }
    requires room { 2 * length guests.old + 1 ≤ vec_capacity opened.back }
    requires coming { All IsComing guests.old }
    requires gate { P.polls gate.old ≡ no_polls }
    ensures { HostsAll (house_of seal.now opened.desk.limit) (host_with guests.old (P.polls gate.old))
        (host_with guests.new (P.polls gate.new)) result }
{
    let OpenDesk {
        desk,
        mut passes,
        mut back,
    } = opened;
    let mut working = take_last(&desk, &mut passes);
    seat_all(&desk, &mut passes, guests);
    let server = Server {
        desk: &desk,
        seal: Seal {
            key: seal.key,
            session: seal.session,
        },
    };
    let end = run_all(rt, alloc, &server, &mut working, gate, guests);
    take_all(&desk, guests, &mut back);
    back.push_reserved(working);
    let Some(seated) = close_desk(desk, back) else {
        unreachable!()
    };
    Hosted { seated, end }
}

/// Serves connections with a new kernel until all threads have ended: one for each reader, one for each
/// writer, and the worker's. In whatever order they take turns, their calls stand in one history, which is
/// returned with the kernel. There the calls of a connection are those that its bytes ask for, and it was
/// sent the posts that the kernel makes for it; and each reader and writer ended for a stated cause.
///
/// It may wait, or never return, as the gates and the readers do. If memory runs out before it begins, it
/// returns the kernel, and nothing was read or written.
pub fn host<
    R: Threads + Wait + Clock + Sync,
    I: Inlet + Drop + Send,
    W: Outlet + Drop + Send,
    G: ReaderGate + Drop + Send,
    H: WriterGate + Drop + Send,
    P: WorkerGate + Send,
>(
    rt: &R,
    alloc: Global,
    kernel: Kernel,
    seal: &Seal<'_>,
    gate: &mut P,
    guests: &mut [Guest<I, W, G, H>],
) -> Result<Hosted, Kernel>
    requires { CanHost kernel (host_with guests.old (P.polls gate.old)) }
    ensures ok { IfOk result (HostsAll (house_of seal.now kernel.limit)
        (host_with guests.old (P.polls gate.old)) (host_with guests.new (P.polls gate.new))) }
    ensures err { IfErr result (λ back. (back ≡ kernel) × (guests.new ≡ guests.old)) }
{
    let seats = 2 * guests.len() + 1;
    let Ok(back) = Vec::with_capacity(alloc, seats) else {
        return Err(kernel);
    };
    match Turnstile::open(alloc, Seated::new(alloc, kernel), seats as u32) {
        Ok((desk, passes)) => {
            let opened = OpenDesk { desk, passes, back };
            Ok(host_at(rt, alloc, opened, seal, gate, guests))
        }
        Err(OpenFault::OutOfMemory(seated)) => Err(seated.into_kernel()),
    }
}

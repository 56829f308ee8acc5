//! The threads of the slots, and what each does without end.
ghost use Rattle.std.specs.Prelude.{Some};
ghost use Rattle.kern_host.specs.Guests.{AreOf};
ghost use Rattle.kern_host.specs.Visits.{VisitsEach};
ghost use Rattle.kern_serve.specs.Houses.{house_of};

use crate::beats::serve_heartbeat;
use crate::connection::{Shared, port_slot, serve_connection};
use crate::fault::ServerFault;
use crate::host::Host;
use crate::spare::Spare;
use kern_host::guest::Passes;
use kern_waits::port::Port;
use kern_waits::slots::PortSlot;
use kern_waits::wakeups::Slot;
use std::alloc::Global;
use std::sync::{Arc, Mutex};
use std::thread;

// The size of a thread's stack in bytes, many times what the deepest JSON takes.
const STACK_SIZE: usize = 1_048_576;

/// What every thread of a server has.
#[derive(Drop)]
pub struct Crew {
    pub shared: Arc<Shared>,
    pub spare: Arc<Mutex<Spare>>,
}

impl Crew {
    // For one more thread.
    fn share(&self) -> Option<Crew> {
        let Ok(shared) = Arc::try_clone(&self.shared) else {
            return None;
        };
        match Arc::try_clone(&self.spare) {
            Ok(spare) => Some(Crew { shared, spare }),
            Err(_) => {
                drop(shared);
                None
            }
        }
    }
}

// Serves one connection after another in a slot, and returns its passes. It would do so after 2^64 - 1 of
// them: if it had no end, its contract would say nothing.
#[tactic(auto, using(crate::proofs::VisitLemmas::visits))]
fn serve_slot<R: Host>(
    rt: &R,
    alloc: Global,
    shared: &Shared,
    slot: Slot,
    mut passes: Passes,
) -> Passes
    requires { AreOf shared.now.desk (Some passes) }
    ensures { VisitsEach (house_of shared.now) slot.channel passes result }
{
    let place = port_slot(slot);
    let mut seen = 0;
    for _ in 0..u64::MAX {
        let (count, next) = shared.slots.next(rt, place, seen);
        seen = count;
        if let Some(stream) = next {
            passes = serve_connection(rt, alloc, shared, slot, stream, passes);
        }
        shared.slots.leave(rt, place);
    }
    passes
}

// Serves the connections of a slot with spare passes.
fn serve_connections<R: Host>(rt: &R, alloc: Global, crew: &Crew, slot: Slot) {
    let taken = crew.spare.lock(rt).take();
    if let Some((shared, passes)) = taken {
        drop(serve_slot(rt, alloc, &shared, slot, passes));
        drop(shared);
    }
}

// Serves one connection of the heartbeat after another in a slot.
fn serve_heartbeats<R: Host>(rt: &R, alloc: Global, shared: &Shared, slot: PortSlot) {
    let mut seen = 0;
    for _ in rt.forever() {
        let (count, next) = shared.slots.next(rt, slot, seen);
        seen = count;
        if let Some(stream) = next {
            serve_heartbeat(rt, alloc, shared, slot, &stream);
        }
        shared.slots.leave(rt, slot);
    }
}

fn serve<R: Host>(rt: &R, alloc: Global, crew: &Crew, slot: PortSlot) {
    match slot.port {
        Port::Channel(channel) => {
            let number = slot.number;
            serve_connections(rt, alloc, crew, Slot { channel, number });
        }
        Port::Heartbeat => serve_heartbeats(rt, alloc, &crew.shared, slot),
    }
}

/// Starts a thread that runs this.
pub fn start<R: Host, F: FnOnce() + Send + Drop + 'static>(
    rt: &R,
    run: F,
) -> Result<(), ServerFault>
    requires { F.pre run }
{
    let started = thread::Builder::new().stack_size(STACK_SIZE).spawn(rt, run);
    match started {
        Ok(_) => Ok(()),
        Err(_) => Err(ServerFault::NoThreads),
    }
}

/// Starts the thread of a slot. If it can't, nothing is lost.
pub fn start_slot<R: Host>(
    rt: &R,
    alloc: Global,
    crew: &Crew,
    slot: PortSlot,
) -> Result<(), ServerFault> {
    let Ok(host) = rt.clone() else {
        return Err(ServerFault::OutOfMemory);
    };
    match crew.share() {
        Some(mine) => start(rt, move || serve(&host, alloc, &mine, slot)),
        None => {
            drop(host);
            Err(ServerFault::OutOfMemory)
        }
    }
}

//! Which connection has which slot of a port. If all slots are taken and another connection waits, kern_pace
//! says which one is closed for it.
use crate::event_count::EventCount;
use crate::port::{ByPort, Port};
use crate::sockets::close;
use crate::stopwatch::Stopwatch;
use crate::wakeups::SLOTS;
use kern_pace::eviction::{Occupancy, Stage, leaver};
use std::alloc::{AllocError, Global};
use std::net::TcpStream;
use std::rt::Clock;
use std::sync::{Arc, Mutex, Wait};

/// A slot of a port, numbered from 0.
#[derive(Clone, Copy)]
pub struct PortSlot {
    pub port: Port,
    pub number: usize,
}

// The connection in a slot: its socket, when it came, how far it has come and since when, and whether it was
// closed for another one. Times are milliseconds since the server began.
#[derive(Drop)]
struct Occupant {
    stream: Arc<TcpStream>,
    came: u64,
    stage: Stage,
    since: u64,
    is_evicted: bool,
}

// The slots of a port.
#[derive(Drop)]
struct PortSlots {
    occupants: Mutex<Vec<Option<Occupant>>>,
    // Where the thread of each slot waits for its next connection.
    calls: Vec<EventCount>,
}

fn new_slots(alloc: Global) -> Result<PortSlots, AllocError> {
    let mut occupants = Vec::new(alloc);
    let mut calls = Vec::new(alloc);
    for _ in 0..SLOTS {
        occupants.push(None)?;
        calls.push(EventCount::new())?;
    }
    Ok(PortSlots {
        occupants: Mutex::new(occupants),
        calls,
    })
}

// How far a connection of a port has come that has just been accepted.
fn first_stage(port: Port) -> Stage {
    match port {
        Port::Channel(_) => Stage::Handshake,
        Port::Heartbeat => Stage::Quiet,
    }
}

impl Occupant {
    fn occupancy(&self, now: u64) -> Occupancy {
        Occupancy {
            came: self.came,
            stage: self.stage,
            millis: now.saturating_sub(self.since),
        }
    }
}

// What kern_pace must know of the connections.
fn occupancies(occupants: &[Option<Occupant>], now: u64) -> [Option<Occupancy>; SLOTS] {
    let mut found = [None; SLOTS];
    for (place, occupant) in found.iter_mut().zip(occupants) {
        *place = match occupant {
            Some(occupant) => Some(occupant.occupancy(now)),
            None => None,
        };
    }
    found
}

// Whether a connection was closed for another one, and hasn't left yet.
fn has_evicted(occupants: &[Option<Occupant>]) -> bool {
    occupants
        .iter()
        .flatten()
        .any(|occupant| occupant.is_evicted)
}

/// The slots of a server's ports.
#[derive(Drop)]
pub struct Slots {
    stopwatch: Stopwatch,
    ports: ByPort<PortSlots>,
    // Where a thread waits whose slot isn't among these.
    nowhere: EventCount,
}

impl Slots {
    /// The slots of a server that begins now, all free.
    pub fn new<C: Clock>(clock: &C, alloc: Global) -> Result<Slots, AllocError> {
        let shell = new_slots(alloc)?;
        let iopub = new_slots(alloc)?;
        let stdin = new_slots(alloc)?;
        let control = new_slots(alloc)?;
        let heartbeat = new_slots(alloc)?;
        Ok(Slots {
            stopwatch: Stopwatch::new(clock),
            ports: ByPort {
                shell,
                iopub,
                stdin,
                control,
                heartbeat,
            },
            nowhere: EventCount::new(),
        })
    }

    fn millis<C: Clock>(&self, clock: &C) -> u64 {
        self.stopwatch.millis(clock).unwrap_or(0)
    }

    fn call_of(&self, slot: PortSlot) -> &EventCount {
        match self.ports.of(slot.port).calls.get(slot.number) {
            Some(call) => call,
            None => &self.nowhere,
        }
    }

    /// The first free slot of a port, if there is one.
    pub fn free<R: Wait>(&self, rt: &R, port: Port) -> Option<usize> {
        self.ports
            .of(port)
            .occupants
            .lock(rt)
            .iter()
            .position(|occupant| occupant.is_none())
    }

    /// Gives a slot to a connection that has just been accepted, and wakes the slot's thread.
    pub fn enter<R: Wait + Clock>(&self, rt: &R, slot: PortSlot, stream: Arc<TcpStream>) {
        let now = self.millis(rt);
        let mut occupants = self.ports.of(slot.port).occupants.lock(rt);
        if let Some(occupant) = occupants.get_mut(slot.number) {
            *occupant = Some(Occupant {
                stream,
                came: now,
                stage: first_stage(slot.port),
                since: now,
                is_evicted: false,
            });
        }
        drop(occupants);
        self.call_of(slot).notify();
    }

    /// Waits until a connection has been given to a slot, where its thread had been woken `seen` times.
    /// Returns how often it has been woken, and the connection's socket.
    pub fn next<R: Wait>(
        &self,
        rt: &R,
        slot: PortSlot,
        seen: u64,
    ) -> (u64, Option<Arc<TcpStream>>) {
        let seen = self.call_of(slot).wait(rt, seen);
        let occupants = self.ports.of(slot.port).occupants.lock(rt);
        match occupants.get(slot.number) {
            Some(Some(occupant)) => (seen, Arc::try_clone(&occupant.stream).ok()),
            Some(None) | None => (seen, None),
        }
    }

    /// Notes how far the connection in a slot has come. On the heartbeat each beat counts.
    pub fn reach<R: Wait + Clock>(&self, rt: &R, slot: PortSlot, stage: Stage) {
        let now = self.millis(rt);
        let mut occupants = self.ports.of(slot.port).occupants.lock(rt);
        if let Some(Some(occupant)) = occupants.get_mut(slot.number) {
            occupant.stage = stage;
            occupant.since = now;
        }
    }

    /// Notes that the connection in a slot has left.
    pub fn leave<R: Wait>(&self, rt: &R, slot: PortSlot) {
        let mut occupants = self.ports.of(slot.port).occupants.lock(rt);
        if let Some(occupant) = occupants.get_mut(slot.number) {
            *occupant = None;
        }
    }

    /// Closes a connection of a port for another one that waits, if one may leave. Returns whether a slot is
    /// about to be free.
    pub fn evict<R: Wait + Clock>(&self, rt: &R, port: Port) -> bool {
        let now = self.millis(rt);
        let mut occupants = self.ports.of(port).occupants.lock(rt);
        if has_evicted(&occupants) {
            return true;
        }
        let Some(number) = leaver(&occupancies(&occupants, now)) else {
            return false;
        };
        match occupants.get_mut(number) {
            Some(Some(occupant)) => {
                occupant.is_evicted = true;
                close(&occupant.stream);
                true
            }
            _ => false,
        }
    }
}

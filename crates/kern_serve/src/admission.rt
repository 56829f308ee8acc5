//! Accepting connections. One thread waits for those of all ports and gives each a slot, whose thread it
//! starts when the slot is first needed. Where all slots of a port are taken, it makes room for those that
//! wait.
use crate::connection::Shared;
use crate::fault::ServerFault;
use crate::host::Host;
use crate::tasks::{Crew, start, start_slot};
use kern_waits::peer_stream::prepare;
use kern_waits::port::{ALL_PORTS, PORTS, Port};
use kern_waits::slots::PortSlot;
use kern_waits::sockets::await_connections;
use std::alloc::Global;
use std::sync::Arc;

// How long to wait for a slot that is about to be free, in milliseconds.
const SHORT_PAUSE: u16 = 10;

// How long to wait where no connection can leave yet, no thread can be started, or no connection can be
// accepted, for example because too many files are open.
const LONG_PAUSE: u16 = 50;

// What is known of the ports.
#[derive(Drop)]
struct Door {
    // How many threads of each port have started.
    started: [usize; PORTS],
    // How long each port is left alone, in milliseconds.
    pauses: [Option<u16>; PORTS],
    // Whether it has printed that a thread couldn't be started.
    has_complained: bool,
}

impl Door {
    fn new() -> Door {
        Door {
            started: [0; PORTS],
            pauses: [None; PORTS],
            has_complained: false,
        }
    }

    // Waits for connections on the ports that aren't left alone, but no longer than the shortest pause of the
    // others. Returns on which there are some.
    fn wait(&self, shared: &Shared) -> [bool; PORTS] {
        let mut listeners = [None; PORTS];
        for port in ALL_PORTS {
            if self.pauses[port.place()].is_none() {
                listeners[port.place()] = Some(shared.listeners.of(port));
            }
        }
        await_connections(listeners, self.pauses.iter().flatten().copied().min())
    }

    // Starts the thread of a slot, unless it has started. The threads of a port start in their order. Prints
    // once if one can't be started.
    fn start<R: Host>(&mut self, rt: &R, alloc: Global, crew: &Crew, slot: PortSlot) -> bool {
        let place = slot.port.place();
        if slot.number < self.started[place] {
            return true;
        }
        match start_slot(rt, alloc, crew, slot) {
            Ok(()) => {
                self.started[place] = slot.number.saturating_add(1);
                true
            }
            Err(fault) => {
                self.complain(rt, fault);
                false
            }
        }
    }

    fn complain<R: Host>(&mut self, rt: &R, fault: ServerFault) {
        if !self.has_complained {
            self.has_complained = true;
            let _ = eprintln!(rt; "{fault}");
        }
    }

    // Gives a connection that waits on a port a slot, or makes room for it. Returns how long the port is to
    // be left alone.
    fn admit<R: Host>(&mut self, rt: &R, alloc: Global, crew: &Crew, port: Port) -> Option<u16> {
        let shared: &Shared = &crew.shared;
        let Some(number) = shared.slots.free(rt, port) else {
            return Some(if shared.slots.evict(rt, port) {
                SHORT_PAUSE
            } else {
                LONG_PAUSE
            });
        };
        let slot = PortSlot { port, number };
        if !self.start(rt, alloc, crew, slot) {
            // Its peer connects again. One that was left waiting might wait for ever.
            drop(shared.listeners.of(port).accept());
            return Some(LONG_PAUSE);
        }
        accept(rt, alloc, shared, slot)
    }
}

// Accepts the connection that waits for a slot. Returns how long its port is to be left alone.
fn accept<R: Host>(rt: &R, alloc: Global, shared: &Shared, slot: PortSlot) -> Option<u16> {
    match shared.listeners.of(slot.port).accept() {
        Ok((stream, _)) => {
            if prepare(&stream).is_err() {
                drop(stream);
                return None;
            }
            if let Ok(stream) = Arc::new(alloc, stream) {
                shared.slots.enter(rt, slot, stream);
            }
            None
        }
        Err(_) => Some(LONG_PAUSE),
    }
}

/// Starts the thread that accepts connections.
pub fn start_admission<R: Host>(rt: &R, alloc: Global, crew: Crew) -> Result<(), ServerFault> {
    match rt.clone() {
        Ok(host) => start(rt, move || admit_connections(&host, alloc, &crew)),
        Err(_) => {
            drop(crew);
            Err(ServerFault::OutOfMemory)
        }
    }
}

// Accepts connections without end.
fn admit_connections<R: Host>(rt: &R, alloc: Global, crew: &Crew) {
    let mut door = Door::new();
    for _ in rt.forever() {
        let ready = door.wait(&crew.shared);
        for port in ALL_PORTS {
            let place = port.place();
            // A port that was left alone is looked at again.
            door.pauses[place] = if ready[place] {
                door.admit(rt, alloc, crew, port)
            } else {
                None
            };
        }
    }
}

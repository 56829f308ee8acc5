//! The throttles of a server's ports, shared by all its connection threads.
use crate::port::{ByPort, Port};
use crate::stopwatch::Stopwatch;
use jup_wire::channel::Channel;
use kern_pace::budget::Budget;
use kern_pace::throttle::Throttle;
use std::rt::Clock;
use std::sync::{Mutex, Wait};
use std::thread;
use std::time::Duration;

// How long a port delays peers that haven't shown the key.
#[derive(Drop)]
struct PortThrottle {
    joins: Mutex<Throttle>,
    bytes: Mutex<Budget>,
}

impl PortThrottle {
    fn new() -> PortThrottle {
        PortThrottle {
            joins: Mutex::new(Throttle::new()),
            bytes: Mutex::new(Budget::new()),
        }
    }
}

/// How long each port delays peers that haven't shown the key, when they join and when their bytes are
/// read.
#[derive(Drop)]
pub struct Throttles {
    stopwatch: Stopwatch,
    ports: ByPort<PortThrottle>,
}

impl Throttles {
    /// The throttles of a server that begins now.
    pub fn new<C: Clock>(clock: &C) -> Throttles {
        Throttles {
            stopwatch: Stopwatch::new(clock),
            ports: ByPort {
                shell: PortThrottle::new(),
                iopub: PortThrottle::new(),
                stdin: PortThrottle::new(),
                control: PortThrottle::new(),
                heartbeat: PortThrottle::new(),
            },
        }
    }

    /// Waits for a connection's turn to join a channel.
    pub fn admit<R: Wait + Clock>(&self, rt: &R, channel: Channel) {
        let Some(now) = self.stopwatch.millis(rt) else {
            return;
        };
        let wait = self
            .ports
            .of(Port::Channel(channel))
            .joins
            .lock(rt)
            .admit(now);
        if wait > 0 {
            thread::sleep(rt, Duration::from_millis(wait));
        }
    }

    /// Counts an unauthenticated peer that has left a channel.
    pub fn add_unauthenticated<R: Wait + Clock>(&self, rt: &R, channel: Channel) {
        if let Some(now) = self.stopwatch.millis(rt) {
            self.ports
                .of(Port::Channel(channel))
                .joins
                .lock(rt)
                .add_unauthenticated(now);
        }
    }

    /// Counts unsigned bytes that were read on a port.
    pub fn spend<R: Wait + Clock>(&self, rt: &R, port: Port, bytes: u32) {
        if let Some(now) = self.stopwatch.millis(rt) {
            self.ports
                .of(port)
                .bytes
                .lock(rt)
                .spend(now, u64::from(bytes));
        }
    }

    /// How long to wait before more unsigned bytes are read, in milliseconds.
    pub fn wait_for_bytes<R: Wait + Clock>(&self, rt: &R, port: Port) -> u64 {
        match self.stopwatch.millis(rt) {
            Some(now) => self.ports.of(port).bytes.lock(rt).wait(now),
            None => 0,
        }
    }
}

//! Signals between the threads.

use std::rt::Clock;
use std::sync::atomic::{AtomicU32, Ordering};
use std::thread;
use std::time::Duration;

// How often a signal is checked before a thread gives up, a millisecond apart.
const LOOKS: u32 = 20_000;

/// Sleeps for a millisecond.
pub fn rest(clock: &impl Clock) {
    thread::sleep(clock, Duration::from_millis(1));
}

/// A count of events of one kind.
#[derive(Drop)]
pub struct Signal {
    count: AtomicU32,
}

impl Signal {
    /// A count of 0.
    pub fn new() -> Signal {
        Signal {
            count: AtomicU32::new(0),
        }
    }

    /// Adds this many events.
    pub fn give(&self, count: u32) {
        self.count.fetch_add(count, Ordering::SeqCst);
    }

    /// How many there were.
    pub fn count(&self) -> u32 {
        self.count.load(Ordering::SeqCst)
    }

    /// Waits until there were this many; false if there weren't after 20 seconds.
    pub fn comes(&self, clock: &impl Clock, count: u32) -> bool {
        for _ in 0..LOOKS {
            if self.count() >= count {
                return true;
            }
            rest(clock);
        }
        false
    }
}

/// How many signals there must have been of each kind.
#[derive(Clone, Copy)]
pub struct Counts {
    pub heard: u32,
    pub done: u32,
    pub held: u32,
}

/// The signals of a test.
pub struct Signals {
    /// The calls of readers.
    pub heard: Signal,
    /// The requests that are done, as iopub was told.
    pub done: Signal,
    /// How often the worker was held.
    pub held: Signal,
    /// How often a thread gave up waiting.
    pub late: Signal,
}

// Written out so that every place that drops it calls one function.
impl Drop for Signals {
    fn drop(self) {
        let Self {
            heard: _,
            done: _,
            held: _,
            late: _,
        } = self;
    }
}

impl Signals {
    /// All counts are 0.
    pub fn new() -> Signals {
        Signals {
            heard: Signal::new(),
            done: Signal::new(),
            held: Signal::new(),
            late: Signal::new(),
        }
    }

    /// Waits until there were this many of each kind.
    pub fn wait_for(&self, clock: &impl Clock, counts: Counts) {
        let have_come = self.heard.comes(clock, counts.heard)
            && self.done.comes(clock, counts.done)
            && self.held.comes(clock, counts.held);
        if !have_come {
            self.late.give(1);
        }
    }
}

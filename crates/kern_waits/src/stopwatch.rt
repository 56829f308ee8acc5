//! The time since a server began.
ghost use Rattle.std.specs.Prelude.{◌≤◌, IfSome};

use std::rt::Clock;
use std::time::Instant;

// The most microseconds that are counted, some 30,000 years.
const LAST_MICROS: u128 = 1_000_000_000_000_000_000;

/// Measures the time since a server began, if it could read the clock.
#[derive(Drop)]
pub struct Stopwatch {
    begun: Option<Instant>,
}

impl Stopwatch {
    /// The stopwatch of a server that begins now.
    pub fn new<C: Clock>(clock: &C) -> Stopwatch {
        Stopwatch {
            begun: Instant::now(clock).ok(),
        }
    }

    /// Microseconds since the server began. None if the clock can't be read; nobody is delayed then.
    pub fn micros<C: Clock>(&self, clock: &C) -> Option<u64>
        ensures { IfSome result (λ now. now ≤ 1000000000000000000) }
    {
        let Some(begun) = &self.begun else {
            return None;
        };
        match begun.elapsed(clock) {
            Ok(since) => Some(since.as_micros().min(LAST_MICROS) as u64),
            Err(_) => None,
        }
    }

    /// Whole milliseconds since the server began, or None.
    pub fn millis<C: Clock>(&self, clock: &C) -> Option<u64>
        ensures { IfSome result (λ now. now ≤ 1000000000000000) }
    {
        match self.micros(clock) {
            Some(micros) => Some(micros / 1_000),
            None => None,
        }
    }
}

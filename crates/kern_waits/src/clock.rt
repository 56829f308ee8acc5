//! The system's clock.
ghost use Rattle.std.specs.Prelude.{◌≤◌};

use std::rt::Clock;
use std::time::{SystemTime, UNIX_EPOCH};

const LAST_MOMENT: u64 = 4_102_444_800;

/// Whole seconds since 1970-01-01T00:00:00Z. A time after 2100-01-01T00:00:00Z counts as that; 0 if the clock
/// can't be read.
pub fn unix_seconds<C: Clock>(clock: &C) -> u64
    ensures { result ≤ 4102444800 }
{
    let Ok(now) = SystemTime::now(clock) else {
        return 0;
    };
    match now.duration_since(UNIX_EPOCH) {
        Ok(since) => since.as_secs().min(LAST_MOMENT),
        Err(_) => 0,
    }
}

//! How long a channel's unsigned bytes wait. Times are milliseconds since the server began.
ghost use Rattle.std.specs.Prelude.{◌≡◌, ◌≤◌};
ghost use Rattle.kern_pace.specs.Budgets.{owed_at, after_bytes, wait_at};

use std::marker::Model;

// How many bytes are read without waiting.
const AT_ONCE: u64 = 256_000;

// How many bytes a millisecond pays for.
const RATE: u64 = 4;

// More than all readers of a channel can owe, since each waits before its next read.
const MOST: u64 = 1_000_000_000_000;

/// How many of a channel's unsigned bytes were read ahead of its rate, and when that was counted. Time pays
/// for them, at 4 bytes a millisecond.
#[derive(Drop)]
pub struct Budget {
    owed: u64,
    since: u64,
    ghost bound: { owed ≤ 1000000000000 },
}

impl Model for Budget {
    ghost use Rattle.kern_pace.specs.Budgets.{BudgetState};

    ghost Value = { BudgetState };

    ghost view = { λ b. record { owed = b.owed; since = b.since } };
}

impl Budget {
    /// The budget of a channel on which nothing has been read.
    pub fn new() -> Budget
        ensures { result ≡ record { owed = 0; since = 0 } }
    {
        Budget { owed: 0, since: 0 }
    }

    // How many bytes are owed at a time.
    fn owed_at(&self, now: u64) -> u64
        requires { now ≤ 1000000000000000 }
        ensures owed { result ≡ owed_at now self.now }
        ensures bound { result ≤ 1000000000000 }
    {
        self.owed
            .saturating_sub(RATE * now.saturating_sub(self.since))
    }

    /// Counts bytes that are read now.
    pub fn spend(&mut self, now: u64, bytes: u64)
        requires now { now ≤ 1000000000000000 }
        requires bytes { bytes ≤ 1000000000000 }
        ensures { self.new ≡ after_bytes now bytes self.old }
    {
        self.owed = (self.owed_at(now) + bytes).min(MOST);
        self.since = self.since.max(now);
    }

    /// How long to wait before the next read, in milliseconds.
    pub fn wait(&self, now: u64) -> u64
        requires { now ≤ 1000000000000000 }
        ensures { result ≡ wait_at now self.now }
    {
        self.owed_at(now).saturating_sub(AT_ONCE).div_ceil(RATE)
    }
}

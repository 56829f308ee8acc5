//! How a channel throttles connections while many unauthenticated peers come: peers that left without a
//! message that opens. Times are milliseconds since the server began.
ghost use Rattle.std.specs.Prelude.{◌≡◌, ◌≤◌, ◌↔◌, ⊤, IsTrue, replicate};
ghost use Rattle.kern_pace.specs.Unauthenticated.{with_unauthenticated, IsCrowded, HasTurn};

use std::marker::Model;

// How many unauthenticated peers within a second are a crowd.
const CROWD: usize = 8;

const SECOND: u64 = 1_000;

// The time from one turn to the next.
const GAP: u64 = 50;

// The time of sixteen turns, one for each slot of a channel.
const LONGEST_WAIT: u64 = 800;

/// The unauthenticated peers and the turns of a channel.
#[derive(Drop)]
pub struct Throttle {
    until: [u64; CROWD],
    next: u64,
}

impl Model for Throttle {
    ghost use Rattle.kern_pace.specs.Unauthenticated.{ThrottleState};

    ghost Value = { ThrottleState };

    ghost view = { λ t. record { until = t.until; next = t.next } };
}

impl Throttle {
    /// The throttle of a channel to which nobody has connected.
    pub fn new() -> Throttle
        ensures { result ≡ record { until = replicate 8 0; next = 0 } }
    {
        Throttle {
            until: [0; CROWD],
            next: 0,
        }
    }

    /// Counts an unauthenticated peer that leaves now.
    #[tactic(auto, using(crate::proofs::ThrottleLemmas::first_last))]
    pub fn add_unauthenticated(&mut self, now: u64)
        requires { now ≤ 1000000000000000 }
        ensures { self.new ≡ with_unauthenticated now self.old }
    {
        self.until[0] = now + SECOND;
        self.until.rotate_left(1);
    }

    // Whether eight unauthenticated peers have left within the last second.
    fn is_crowded(&self, now: u64) -> bool
        ensures { IsTrue result ↔ IsCrowded now self.now }
    {
        self.until.iter().all(|until| now < *until)
    }

    /// How long a connection that is made now waits for its turn to join, in milliseconds: 0 unless the
    /// channel is crowded, and 800 at most.
    pub fn admit(&mut self, now: u64) -> u64
        requires { now ≤ 1000000000000000 }
        ensures turn { IsCrowded now self.old → HasTurn now self.old self.new result }
        ensures free { (IsCrowded now self.old → ⊥) → (result ≡ 0) × (self.new ≡ self.old) }
    {
        if !self.is_crowded(now) {
            return 0;
        }
        let wait = self.next.saturating_sub(now).min(LONGEST_WAIT);
        self.next = now + wait + GAP;
        wait
    }
}

//! How many slices run at full speed.
ghost use Rattle.std.specs.Prelude.{◌≡◌, ◌≤◌, ◌+◌, ◌*◌, ◌↔◌, ℕ, List, IsTrue};
ghost use Rattle.kern_pace.specs.Buckets.{full_bucket, HasSlice, after_take, after_rest, Happening};
ghost use Rattle.kern_pace.specs.Buckets.{IsPaidFor, IsWithinRate};

use crate::pace::entries_left;
use std::marker::Model;

// The parts of a slice. A microsecond of a wait pays for one part for each entry that is left, so nothing is
// divided. Where all are left, that is 130 slices a second.
const SLICE: u64 = 32_000_000_000;

// About two thousand million instructions, at 4,096 a slice.
const FULL: u64 = 524_288 * SLICE;

/// The slices that running cells may make at full speed. Only waits for something to do refill it, each by
/// its length: many short ones no faster than a long one, and more slowly the fuller the journal is.
#[derive(Drop)]
pub struct Bucket {
    parts: u64,
    ghost bound: { parts ≤ 524288 * 32000000000 },
}

impl Model for Bucket {
    ghost Value = { ℕ };

    ghost view = { λ b. b.parts };
}

impl Bucket {
    /// A bucket that has 524,288 slices.
    pub fn full() -> Bucket
        ensures { result ≡ full_bucket }
    {
        Bucket { parts: FULL }
    }

    /// Takes a slice, if there is one.
    pub fn take(&mut self) -> bool
        ensures given { IsTrue result ↔ HasSlice self.old }
        ensures new { self.new ≡ after_take self.old }
    {
        if self.parts < SLICE {
            return false;
        }
        self.parts -= SLICE;
        true
    }

    /// Adds what a wait for something to do pays for, where the journal has this many entries. A pause
    /// between slices is no such wait.
    pub fn rest(&mut self, micros: u64, entries: u64)
        ensures { self.new ≡ after_rest micros entries self.old }
    {
        let gain = micros.saturating_mul(entries_left(entries));
        self.parts = self.parts.saturating_add(gain).min(FULL);
    }
}

/// Whatever happens, a bucket gives no more slices than it had and the waits paid for: in any stretch of time
/// at most 524,288, and some 130 more for each second of waiting.
pub fn slices_are_paid_for()
    ensures paid { (happened : List Happening) (bucket : ℕ) → IsPaidFor happened bucket }
    ensures rate { (happened : List Happening) (bucket : ℕ) → bucket ≤ full_bucket
        → IsWithinRate happened bucket }
{}

/// Two waits pay for what one as long as both does, so no time is lost by rounding.
pub fn waits_add_up()
    ensures { (first second entries bucket : ℕ) → after_rest second entries (after_rest first entries bucket)
        ≡ after_rest (first + second) entries bucket }
{}

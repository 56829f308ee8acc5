//! Event counts: threads sleep until another thread notifies them.
use std::sync::Wait;
use std::sync::atomic::{AtomicBool, AtomicU64, Ordering};
use std::time::Duration;

// A notification adds one to both halves of the word, a plain wake to the lower half only. The upper half is
// the count; the lower half is what the system compares before it puts a thread to sleep.
const NOTIFY: u64 = 0x1_0000_0001;

const WAKE: u64 = 1;

fn count_in(word: u64) -> u64 {
    word >> 32
}

/// An event count. A thread reads it, looks for something to do, and then sleeps until the count changes, so
/// it misses no notification that came after it looked. To notify makes no system call unless a thread
/// sleeps.
#[derive(Drop)]
pub struct EventCount {
    word: AtomicU64,
    // A thread counts itself here before it sleeps, and a notifier reads this after it has changed the word.
    // So either the sleep doesn't begin, or the notifier ends it.
    sleepers: AtomicU64,
}

impl EventCount {
    /// An event count of 0.
    pub fn new() -> EventCount {
        EventCount {
            word: AtomicU64::new(0),
            sleepers: AtomicU64::new(0),
        }
    }

    /// How many notifications there have been.
    pub fn count(&self) -> u64 {
        count_in(self.word.load(Ordering::SeqCst))
    }

    fn add(&self, count: u64) {
        self.word.fetch_add(count, Ordering::SeqCst);
        if self.sleepers.load(Ordering::SeqCst) != 0 {
            self.word.wake_all();
        }
    }

    /// Whether a thread sleeps here, or is about to.
    pub fn has_sleeper(&self) -> bool {
        self.sleepers.load(Ordering::SeqCst) != 0
    }

    /// Adds one and wakes all threads that wait here.
    pub fn notify(&self) {
        self.add(NOTIFY);
    }

    /// Wakes all threads that wait here without adding one, so that they check their cancel flag.
    pub fn wake(&self) {
        self.add(WAKE);
    }

    // Sleeps until the word changes.
    fn sleep<R: Wait>(&self, rt: &R, word: u64) {
        self.sleepers.fetch_add(1, Ordering::SeqCst);
        self.word.park(rt, (word & 0xffff_ffff) as u32);
        self.sleepers.fetch_sub(1, Ordering::SeqCst);
    }

    /// Waits until the count differs from `seen`, and returns it.
    pub fn wait<R: Wait>(&self, rt: &R, seen: u64) -> u64 {
        for _ in rt.forever() {
            let word = self.word.load(Ordering::SeqCst);
            if count_in(word) != seen {
                return count_in(word);
            }
            self.sleep(rt, word);
        }
        unreachable!()
    }

    /// Waits until the count differs from `seen` or the flag is set, and returns the count. The thread that
    /// sets the flag must call `wake` afterwards.
    pub fn wait_unless<R: Wait>(&self, rt: &R, seen: u64, is_canceled: &AtomicBool) -> u64 {
        for _ in rt.forever() {
            let word = self.word.load(Ordering::SeqCst);
            if count_in(word) != seen || is_canceled.load(Ordering::SeqCst) {
                return count_in(word);
            }
            self.sleep(rt, word);
        }
        unreachable!()
    }

    /// Waits until the count differs from `seen` or `wake` is called, but no longer than `most`. Returns the
    /// count.
    pub fn wait_timeout<R: Wait>(&self, rt: &R, seen: u64, most: Duration) -> u64 {
        let word = self.word.load(Ordering::SeqCst);
        if count_in(word) == seen && !most.is_zero() {
            self.sleepers.fetch_add(1, Ordering::SeqCst);
            self.word
                .park_timeout(rt, (word & 0xffff_ffff) as u32, most);
            self.sleepers.fetch_sub(1, Ordering::SeqCst);
        }
        self.count()
    }
}

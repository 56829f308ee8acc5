//! How the threads of a server wake one another.
ghost use Rattle.std.specs.Prelude.{◌≡◌, ◌≢◌, ◌↔◌, IsTrue, true, false};
ghost use Rattle.kern_waits.specs.Known.{posts_since, posts_of, IsFirstDoubt};

use crate::event_count::EventCount;
use crate::stopwatch::Stopwatch;
use jup_wire::channel::Channel;
use std::alloc::{AllocError, Global};
use std::rt::Clock;
use std::sync::atomic::{AtomicBool, AtomicU64, Ordering};
use std::sync::{Condvar, CondvarTimeouts, Mutex, Wait};
use std::time::Duration;

/// How many connections of a channel are served at the same time.
pub const SLOTS: usize = 16;

// Every 256th notification that would wake only some threads wakes them all. So a writer to which nothing was
// posted moves on past the posts to others, before the post at which it is to go on is dropped (a call makes
// at most eight posts, and 4,096 are kept). And the worker checks how full the journal is.
const TARGETED_PER_ROUND: u64 = 256;

// How many posts a request makes that gives the worker nothing to do: busy, its reply, and idle.
const POSTS_OF_A_REQUEST: u64 = 3;

// How long the statuses of debug requests may be delayed, in microseconds: nearly a quarter of a second, or a
// second while a cell runs for many subscribers, each of whom fetches them.
const STATUS_MICROS: u64 = 245_000;

const STATUS_MICROS_OF_MANY: u64 = 980_000;

// How many subscribers aren't many.
const FEW_SUBSCRIBERS: u64 = 4;

/// A connection slot of a channel, numbered from 0.
#[derive(Clone, Copy)]
pub struct Slot {
    pub channel: Channel,
    pub number: usize,
}

// The posts that are known not to be a running cell's.
#[derive(Drop)]
struct KnownPosts {
    // The number of the first post that isn't known, and how many requests had been counted by then.
    next: u64,
    requests: u64,
    // Whether the last look found fewer posts than the requests make.
    is_in_doubt: bool,
}

impl KnownPosts {
    // Notes the number of the next post and the number of requests, and returns whether a running cell may
    // have posted something. A request makes three posts; if there were fewer twice in a row, some requests
    // made fewer.
    fn has_more(&mut self, next: u64, requests: u64) -> bool
        ensures doubt { IsFirstDoubt self.old next requests
            → (result ≡ false) × (self.new ≡ record self.old { is_in_doubt = true }) }
        ensures known { (IsFirstDoubt self.old next requests → ⊥)
            → self.new ≡ record { next = next; requests = requests; is_in_doubt = false } }
        ensures more { (IsFirstDoubt self.old next requests → ⊥)
            → (IsTrue result ↔ (posts_since self.old next ≢ posts_of self.old requests)) }
    {
        let posts = next.saturating_sub(self.next);
        let expected = requests
            .saturating_sub(self.requests)
            .saturating_mul(POSTS_OF_A_REQUEST);
        if posts < expected && !self.is_in_doubt {
            self.is_in_doubt = true;
            return false;
        }
        self.is_in_doubt = false;
        self.next = next;
        self.requests = requests;
        posts != expected
    }
}

/// Whether the writers of iopub keep up with what a running cell posts.
#[derive(Clone, Copy, PartialEq, Eq)]
pub enum Readers {
    KeepUp,
    LagBehind,
}

/// An event count for the worker, one for the writer of each connection slot, and plain counters on which
/// nobody waits.
#[derive(Drop)]
pub struct Wakeups {
    work: EventCount,
    iopub: Vec<EventCount>,
    others: Vec<EventCount>,
    targeted: AtomicU64,
    // Whether statuses of debug requests are delayed, and since when.
    has_looks: AtomicBool,
    looked: AtomicU64,
    stopwatch: Stopwatch,
    // How many requests gave the worker nothing to do. Their posts are known.
    requests: AtomicU64,
    known: Mutex<KnownPosts>,
    // The slot of iopub whose writer looks for posts, counted from 1, and how often it found posts of a
    // running cell.
    poller: AtomicU64,
    finds: AtomicU64,
    // The number of writers of iopub.
    subscribers: AtomicU64,
    is_closing: AtomicBool,
    writers: Mutex<u64>,
    writers_ended: Condvar,
    entries: AtomicU64,
    subscriptions: AtomicU64,
    // How many slices the worker has begun and ended, and whether it has nothing to do.
    begun: AtomicU64,
    ended: EventCount,
    is_resting: AtomicBool,
    // How many requests wait for the end of a slice, and whether the worker waits for readers.
    requests_waiting: AtomicU64,
    is_held: AtomicBool,
}

// A number of event counts of 0.
fn new_event_counts(alloc: Global, count: usize) -> Result<Vec<EventCount>, AllocError> {
    let mut counts = Vec::new(alloc);
    for _ in 0..count {
        counts.push(EventCount::new())?;
    }
    Ok(counts)
}

impl Wakeups {
    /// Wakeups before the first notification.
    pub fn new<C: Clock>(clock: &C, alloc: Global) -> Result<Wakeups, AllocError> {
        let iopub = new_event_counts(alloc, SLOTS)?;
        let others = new_event_counts(alloc, 3 * SLOTS)?;
        Ok(Wakeups {
            work: EventCount::new(),
            iopub,
            others,
            targeted: AtomicU64::new(0),
            has_looks: AtomicBool::new(false),
            looked: AtomicU64::new(0),
            stopwatch: Stopwatch::new(clock),
            requests: AtomicU64::new(0),
            known: Mutex::new(KnownPosts {
                next: 0,
                requests: 0,
                is_in_doubt: false,
            }),
            poller: AtomicU64::new(0),
            finds: AtomicU64::new(0),
            subscribers: AtomicU64::new(0),
            is_closing: AtomicBool::new(false),
            writers: Mutex::new(0),
            writers_ended: Condvar::new(),
            entries: AtomicU64::new(0),
            subscriptions: AtomicU64::new(0),
            begun: AtomicU64::new(0),
            ended: EventCount::new(),
            is_resting: AtomicBool::new(true),
            requests_waiting: AtomicU64::new(0),
            is_held: AtomicBool::new(false),
        })
    }

    /// Where the writer of a slot waits.
    pub fn event_count(&self, slot: Slot) -> &EventCount {
        let (counts, first) = match slot.channel {
            Channel::Iopub => (&self.iopub, 0),
            Channel::Control => (&self.others, 0),
            Channel::Shell => (&self.others, SLOTS),
            Channel::Stdin => (&self.others, 2 * SLOTS),
        };
        match counts.get(first.saturating_add(slot.number)) {
            Some(event_count) => event_count,
            None => &self.work,
        }
    }

    /// Wakes the worker and the writers, after a call that may have given all of them something to do.
    pub fn wake_all(&self) {
        self.work.notify();
        self.wake_writers();
    }

    /// Wakes the writers, after a call that may have posted something to any.
    pub fn wake_writers(&self) {
        for event_count in &self.others {
            event_count.notify();
        }
        self.wake_iopub();
    }

    /// Wakes the writers of iopub.
    pub fn wake_iopub(&self) {
        self.has_looks.store(false, Ordering::SeqCst);
        for event_count in &self.iopub {
            event_count.notify();
        }
    }

    // Counts a notification that woke only some threads.
    fn count_targeted(&self) {
        let targeted = self.targeted.fetch_add(1, Ordering::SeqCst);
        if targeted % TARGETED_PER_ROUND == TARGETED_PER_ROUND - 1 {
            self.wake_all();
        }
    }

    /// Wakes the writers of iopub after a subscription, which can only have posted to them.
    pub fn after_subscription(&self) {
        self.wake_iopub();
        self.count_targeted();
    }

    /// Wakes this connection's writer and those of iopub after a request that gave the worker nothing to do.
    pub fn after_request(&self, own: &EventCount) {
        self.requests.fetch_add(1, Ordering::SeqCst);
        own.notify();
        self.wake_iopub();
        self.count_targeted();
    }

    /// Wakes this connection's writer for the reply to a debug request. Its statuses go out with what is
    /// written on iopub next, after a quarter of a second at most, or a second while a cell runs for many
    /// subscribers.
    pub fn after_look<C: Clock>(&self, clock: &C, own: &EventCount) {
        self.requests.fetch_add(1, Ordering::SeqCst);
        own.notify();
        if !self.has_looks.load(Ordering::SeqCst) {
            let now = self.micros(clock).unwrap_or(0);
            self.looked.store(now, Ordering::SeqCst);
            self.has_looks.store(true, Ordering::SeqCst);
            self.work.wake();
        }
        self.count_targeted();
    }

    /// Microseconds since the server began. None if the clock can't be read.
    pub fn micros<C: Clock>(&self, clock: &C) -> Option<u64> {
        self.stopwatch.micros(clock)
    }

    // How much longer the statuses of debug requests may be delayed, in microseconds, if they may wait for
    // `most` in all.
    fn remaining_delay(&self, now: u64, most: u64) -> u64 {
        let until = self.looked.load(Ordering::SeqCst).saturating_add(most);
        until.saturating_sub(now)
    }

    /// Wakes the writers of iopub while a cell runs, if there are delayed statuses that must go out within
    /// the next `micros` microseconds.
    pub fn flush_statuses(&self, now: u64, micros: u64) {
        let most = if self.subscribers.load(Ordering::SeqCst) > FEW_SUBSCRIBERS {
            STATUS_MICROS_OF_MANY
        } else {
            STATUS_MICROS
        };
        let delay = self.remaining_delay(now, most);
        if self.has_looks.load(Ordering::SeqCst) && delay <= micros {
            self.wake_iopub();
        }
    }

    // Whether the writer that last looked for posts is still busy with what it found.
    fn is_poller_busy(&self) -> bool {
        let last = self.poller.load(Ordering::SeqCst) as usize;
        match self.iopub.get(last.wrapping_sub(1)) {
            Some(event_count) => !event_count.has_sleeper(),
            None => false,
        }
    }

    // The next writer of iopub that sleeps, after the one that last looked for posts.
    fn next_poller(&self) -> Option<(usize, &EventCount)> {
        let last = self.poller.load(Ordering::SeqCst) as usize;
        for step in 0..SLOTS {
            let number = last.saturating_add(step) % SLOTS;
            if let Some(event_count) = self.iopub.get(number)
                && event_count.has_sleeper()
            {
                return Some((number, event_count));
            }
        }
        None
    }

    /// Has one writer of iopub look whether a running cell has posted something. If the last one is still
    /// busy with that, if all are busy, or if there is none, wakes all writers. So a cell that posts nothing
    /// costs one Fetch, and not one for each writer. Returns whether the writers keep up.
    pub fn look_for_posts(&self) -> Readers {
        if !self.is_poller_busy()
            && let Some((number, event_count)) = self.next_poller()
        {
            self.poller
                .store((number as u64).saturating_add(1), Ordering::SeqCst);
            event_count.notify();
            return Readers::KeepUp;
        }
        self.poller.store(0, Ordering::SeqCst);
        self.wake_writers();
        if self.subscribers.load(Ordering::SeqCst) == 0 {
            return Readers::KeepUp;
        }
        self.finds.fetch_add(1, Ordering::SeqCst);
        Readers::LagBehind
    }

    /// Notes that a writer has fetched all posts below number `next`. If it is the one that looks for posts,
    /// and a running cell has posted something, wakes all writers.
    pub fn note_posts<R: Wait>(&self, rt: &R, slot: Slot, next: u64) {
        let number = (slot.number as u64).saturating_add(1);
        if slot.channel != Channel::Iopub || self.poller.load(Ordering::SeqCst) != number {
            return;
        }
        let requests = self.requests.load(Ordering::SeqCst);
        if self.known.lock(rt).has_more(next, requests) {
            self.finds.fetch_add(1, Ordering::SeqCst);
            self.wake_writers();
        }
    }

    /// How often a look has found posts of a running cell.
    pub fn finds(&self) -> u64 {
        self.finds.load(Ordering::SeqCst)
    }

    /// Waits until the worker may have something to do, where its event count was `seen`, and returns that
    /// count. Meanwhile it lets delayed statuses go out in time.
    pub fn wait_for_work<R: Wait + Clock>(&self, rt: &R, seen: u64) -> u64 {
        for _ in rt.forever() {
            let mut count = self.work.wait_unless(rt, seen, &self.has_looks);
            if count == seen {
                let most = match self.micros(rt) {
                    Some(now) => self.remaining_delay(now, STATUS_MICROS),
                    None => 0,
                };
                count = self
                    .work
                    .wait_timeout(rt, seen, Duration::from_micros(most));
                self.wake_iopub();
            }
            if count != seen {
                return count;
            }
        }
        unreachable!()
    }

    /// Waits until the worker may have something to do, but no longer than `most`, and returns its event
    /// count.
    pub fn wait_for_work_timeout<R: Wait>(&self, rt: &R, seen: u64, most: Duration) -> u64 {
        self.work.wait_timeout(rt, seen, most)
    }

    /// The same, but it doesn't wait while a request waits for the end of a slice.
    pub fn wait_for_readers<R: Wait>(&self, rt: &R, seen: u64, most: Duration) -> u64 {
        self.is_held.store(true, Ordering::SeqCst);
        let is_needed = self.requests_waiting.load(Ordering::SeqCst) != 0;
        let most = if is_needed { Duration::ZERO } else { most };
        let count = self.work.wait_timeout(rt, seen, most);
        self.is_held.store(false, Ordering::SeqCst);
        count
    }

    /// Notes that the worker begins a slice.
    pub fn begin_slice(&self) {
        self.is_resting.store(false, Ordering::SeqCst);
        self.begun.fetch_add(1, Ordering::SeqCst);
    }

    /// Notes that the worker has ended a slice.
    pub fn end_slice(&self) {
        self.ended.notify();
    }

    /// Notes that the worker makes no slice until it has something to do.
    pub fn rest(&self) {
        self.is_resting.store(true, Ordering::SeqCst);
        self.ended.wake();
    }

    /// Waits until a slice that begins from now on has ended, or the worker has nothing to do. One slice
    /// loads a cell, which is posted, and the next one starts its run. So if a peer has heard of a cell, its
    /// run has started once this returns.
    pub fn await_slice<R: Wait>(&self, rt: &R) {
        let next = self.begun.load(Ordering::SeqCst).saturating_add(1);
        self.requests_waiting.fetch_add(1, Ordering::SeqCst);
        if self.is_held.load(Ordering::SeqCst) {
            self.work.wake();
        }
        for _ in rt.forever() {
            let ended = self.ended.count();
            if ended >= next || self.is_resting.load(Ordering::SeqCst) {
                break;
            }
            self.ended.wait_unless(rt, ended, &self.is_resting);
        }
        self.requests_waiting.fetch_sub(1, Ordering::SeqCst);
    }

    /// Whether the worker has ended, so that it posts nothing more.
    pub fn is_closing(&self) -> bool {
        self.is_closing.load(Ordering::SeqCst)
    }

    /// Counts a writer that begins.
    pub fn add_writer<R: Wait>(&self, rt: &R, channel: Channel) {
        if channel == Channel::Iopub {
            self.subscribers.fetch_add(1, Ordering::SeqCst);
        }
        let mut writers = self.writers.lock(rt);
        *writers = writers.wrapping_add(1);
    }

    /// Counts a writer that has ended.
    pub fn remove_writer<R: Wait>(&self, rt: &R, channel: Channel) {
        if channel == Channel::Iopub {
            self.subscribers.fetch_sub(1, Ordering::SeqCst);
        }
        let mut writers = self.writers.lock(rt);
        *writers = writers.wrapping_sub(1);
        drop(writers);
        self.writers_ended.notify_all();
    }

    /// Tells the writers that the worker has ended, and waits until all have ended, but no longer than
    /// `most`.
    pub fn close<R: Wait + Clock>(&self, rt: &R, most: Duration) {
        self.is_closing.store(true, Ordering::SeqCst);
        self.rest();
        self.wake_writers();
        let _ = self
            .writers_ended
            .wait_timeout_while(rt, self.writers.lock(rt), most, |writers| *writers != 0);
    }

    /// Counts calls that may have left entries in the journal.
    pub fn count_entries(&self, count: u64) {
        self.entries.fetch_add(count, Ordering::SeqCst);
    }

    /// How many calls were counted.
    pub fn entries(&self) -> u64 {
        self.entries.load(Ordering::SeqCst)
    }

    /// Counts a subscription, and returns how many there were before it.
    pub fn count_subscription(&self) -> u64 {
        self.subscriptions.fetch_add(1, Ordering::SeqCst)
    }
}

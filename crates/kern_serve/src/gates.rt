//! The gates of a server: where its threads wait, and how they wake one another.
ghost use Rattle.std.specs.Prelude.{◌≡◌, ◌≤◌, ◌+◌, ◌<◌, ◌↔◌, IsTrue, false, None};
ghost use Rattle.kern_net.specs.Gates.{with_answer};

use crate::connection::port_slot;
use base_streams::ports::Outlet;
use jup_wire::channel::Channel;
use kern_desk::seated::Pass;
use kern_net::gate::{ReaderGate, WorkerGate, WriterGate};
use kern_net::pump_out::NUMBERS_OF_A_FETCH;
use kern_net::tally::{Tally, WorkerTally, one_more};
use kern_pace::bucket::Bucket;
use kern_pace::eviction::Stage;
use kern_pace::pace::{
    Look, SHORTEST_GAP, is_free_subscription, is_full, is_nearly_full, lag_pause, next_gap,
    slice_pause, subscription_pause,
};
use kern_waits::clock::unix_seconds;
use kern_waits::event_count::EventCount;
use kern_waits::slots::Slots;
use kern_waits::wakeups::{Readers, Slot, Wakeups};
use std::rt::Clock;
use std::sync::Wait;
use std::sync::atomic::{AtomicBool, Ordering};
use std::thread;
use std::time::Duration;

/// A reader's gate. After many subscriptions, further ones wait so that the journal lasts.
#[derive(Drop)]
pub struct InGate<'a, C: Wait + Clock> {
    wakeups: &'a Wakeups,
    slots: &'a Slots,
    // Where the writer of its connection waits.
    own: &'a EventCount,
    clock: &'a C,
    slot: Slot,
    // Set once a signed message has opened.
    is_heard: &'a AtomicBool,
    // How many entries the journal had at its last subscription, or when its reader began.
    entries: u64,
    wakes: u64,
    own_wakes: u64,
    // The time that it told last, if it hasn't woken others since.
    due: Option<u64>,
}

impl<'a, C: Wait + Clock> InGate<'a, C> {
    /// The gate of the connection in a slot, before its first call.
    pub fn new(
        wakeups: &'a Wakeups,
        slots: &'a Slots,
        clock: &'a C,
        slot: Slot,
        is_heard: &'a AtomicBool,
    ) -> InGate<'a, C>
        ensures { result.due ≡ None }
    {
        InGate {
            wakeups,
            slots,
            own: wakeups.event_count(slot),
            clock,
            slot,
            is_heard,
            entries: wakeups.entries(),
            wakes: 0,
            own_wakes: 0,
            due: None,
        }
    }

    /// Whether the connection has made a call: a message of it opened, or on iopub it subscribed.
    pub fn was_used(&self) -> bool
        ensures { IsTrue result ↔ (0 < self.now.wakes + self.now.own_wakes) }
    {
        self.wakes > 0 || self.own_wakes > 0
    }

    /// Notes that its connection's reader begins.
    pub fn begin(&mut self)
        ensures counts { (self.new.wakes ≡ self.old.wakes) × (self.new.own_wakes ≡ self.old.own_wakes) }
        ensures due { self.new.due ≡ self.old.due }
    {
        self.entries = self.wakeups.entries();
    }

    // Waits after a subscription, if there were many.
    fn hold(&mut self)
        ensures counts { (self.new.wakes ≡ self.old.wakes) × (self.new.own_wakes ≡ self.old.own_wakes) }
        ensures due { self.new.due ≡ self.old.due }
    {
        let entries = self.wakeups.entries();
        let micros = subscription_pause(entries, self.entries);
        self.entries = entries;
        if !is_free_subscription(self.wakeups.count_subscription()) {
            thread::sleep(self.clock, Duration::from_micros(micros));
        }
    }

    // Counts a call. The first one shows that the peer has the key, except on iopub, where nothing is signed.
    fn count(&self) {
        self.wakeups.count_entries(1);
        if !self.was_used() && self.slot.channel != Channel::Iopub {
            self.slots
                .reach(self.clock, port_slot(self.slot), Stage::Heard);
            self.is_heard.store(true, Ordering::SeqCst);
        }
    }
}

impl<'a, C: Wait + Clock> ReaderGate for InGate<'a, C> {
    ghost polls = { λ g. record {
      wakes = g.wakes;
      own_wakes = g.own_wakes;
      due = g.due;
    } };

    fn wake<R: Wait>(&mut self, rt: &R, _pass: &Pass) {
        self.count();
        self.wakeups.wake_all();
        self.wakes = one_more(rt, self.wakes);
        self.due = None;
    }

    fn wake_own_writers<R: Wait>(&mut self, rt: &R, _pass: &Pass) {
        self.count();
        match self.slot.channel {
            Channel::Iopub => {
                self.wakeups.after_subscription();
                self.hold();
            }
            // Mostly a debugger that looks at the board.
            Channel::Control => self.wakeups.after_look(self.clock, self.own),
            Channel::Shell | Channel::Stdin => self.wakeups.after_request(self.own),
        }
        self.own_wakes = one_more(rt, self.own_wakes);
        self.due = None;
    }

    // A peer that has heard of a cell may ask for its end, so the next call waits until the cell's run has
    // started.
    fn unix_seconds<R: Wait>(&mut self, rt: &R) -> u64 {
        match self.slot.channel {
            Channel::Shell | Channel::Control => self.wakeups.await_slice(rt),
            Channel::Iopub | Channel::Stdin => {}
        }
        let told = unix_seconds(self.clock);
        self.due = Some(told);
        told
    }
}

/// A writer's gate. It waits until something may have been posted. It says no once its connection is closed,
/// or once everything is written that was posted before the worker ended.
#[derive(Drop)]
pub struct OutGate<'a> {
    wakeups: &'a Wakeups,
    slot: Slot,
    // Where it waits, and the event count there before the last Fetch.
    own: &'a EventCount,
    seen: u64,
    is_closed: &'a AtomicBool,
    // Whether it was counted as a writer.
    is_counted: bool,
    // Whether the worker had ended before the last Fetch.
    is_closing: bool,
    // The number to go on at when it was last polled, or to begin at.
    next: u64,
    idle: Tally,
}

impl<'a> OutGate<'a> {
    /// The gate of a connection's writer, before its connection has joined.
    pub fn new(wakeups: &'a Wakeups, slot: Slot, is_closed: &'a AtomicBool) -> OutGate<'a>
        ensures { result.idle ≡ record { yes = 0; no = 0 } }
    {
        OutGate {
            wakeups,
            slot,
            own: wakeups.event_count(slot),
            seen: 0,
            is_closed,
            is_counted: false,
            is_closing: false,
            next: 0,
            idle: Tally::new(),
        }
    }

    /// Counts its writer. Waits until something may have been posted, and returns whether the connection is
    /// still open. `seen` is the event count where it waits, as it was before the Join was answered.
    pub fn open<R: Wait>(&mut self, rt: &R, seen: u64) -> bool
        ensures { (self.new.idle ≡ self.old.idle) × (self.new.next ≡ self.old.next) }
    {
        self.seen = seen;
        self.is_closing = self.wakeups.is_closing();
        self.wakeups.add_writer(rt, self.slot.channel);
        self.is_counted = true;
        self.wait_for_posts(rt)
    }

    /// Counts an answer no.
    pub fn count_no<R: Wait>(&mut self, rt: &R)
        ensures { (self.new.idle ≡ with_answer false self.old.idle) × (self.new.next ≡ self.old.next) }
    {
        self.idle.add_no(rt);
    }

    /// Notes that its writer has ended.
    pub fn end<R: Wait>(&self, rt: &R) {
        if self.is_counted {
            self.wakeups.remove_writer(rt, self.slot.channel);
        }
    }

    // Counts the Fetches since it was last polled. All but the last of them covered as many numbers as they
    // could.
    fn count(&mut self, next: u64)
        ensures { (self.new.idle ≡ self.old.idle) × (self.new.next ≡ next) }
    {
        let moved = next.saturating_sub(self.next);
        self.wakeups.count_entries(moved / NUMBERS_OF_A_FETCH + 1);
        self.next = next;
    }

    // Waits until something may have been posted, and returns whether the connection is still open.
    fn wait_for_posts<R: Wait>(&mut self, rt: &R) -> bool
        ensures { (self.new.idle ≡ self.old.idle) × (self.new.next ≡ self.old.next) }
    {
        if !self.is_closing {
            self.seen = self.own.wait_unless(rt, self.seen, self.is_closed);
            self.is_closing = self.wakeups.is_closing();
        }
        !self.is_closed.load(Ordering::SeqCst)
    }
}

impl<'a> WriterGate for OutGate<'a> {
    ghost polls = { λ g. record { idle = g.idle; next = g.next } };

    fn begin<R: Wait>(&mut self, _rt: &R, from: u64) {
        self.next = from;
    }

    fn idle<R: Wait, W: Outlet>(&mut self, rt: &R, _pass: &Pass, _to: &W, next: u64) -> bool {
        self.count(next);
        self.wakeups.note_posts(rt, self.slot, next);
        if !self.is_closing && self.wait_for_posts(rt) {
            self.idle.add_yes(rt);
            return true;
        }
        self.idle.add_no(rt);
        false
    }
}

/// The worker's gate. It waits until there may be something to do, and says no once the journal is full
/// except for its reserve; it prints a warning before that. It slows a long run down so that the journal
/// lasts, and has a writer look for its posts.
#[derive(Drop)]
pub struct WorkGate<'a, C: Wait + Clock + Print> {
    wakeups: &'a Wakeups,
    clock: &'a C,
    seen: u64,
    // The slices that may be made at full speed.
    bucket: Bucket,
    // How many slices there had been at the last pause, and how many there are now.
    paused: u64,
    slices: u64,
    // When it last had a writer look for posts, in microseconds since the server began, and after how many
    // slices.
    looked: u64,
    looked_slices: u64,
    // How many slices readers may lag behind.
    unread: u64,
    // The time from one look to the next, in microseconds.
    gap: u64,
    // How often a look had found posts by the last one.
    finds: u64,
    // Whether it has printed that the journal is nearly full.
    has_warned: bool,
    polls: WorkerTally,
    ghost gap_bound: { gap ≤ 100000 },
}

impl<'a, C: Wait + Clock + Print> WorkGate<'a, C> {
    ghost use Rattle.kern_net.specs.Gates.{no_polls, noes};

    /// A gate that hasn't been polled yet.
    pub fn new(wakeups: &'a Wakeups, clock: &'a C) -> WorkGate<'a, C>
        ensures { result.polls ≡ no_polls }
    {
        WorkGate {
            wakeups,
            clock,
            seen: 0,
            bucket: Bucket::full(),
            paused: 0,
            slices: 0,
            looked: 0,
            looked_slices: 0,
            unread: 0,
            gap: SHORTEST_GAP,
            finds: 0,
            has_warned: false,
            polls: WorkerTally::new(),
        }
    }

    /// Whether it has said no, which it only does when the journal is full.
    pub fn is_closed(&self) -> bool
        ensures { IsTrue result ↔ (0 < noes self.now.polls) }
    {
        self.polls.is_closed()
    }

    // How many entries there may be by now.
    fn count(&self) -> u64 {
        self.slices.saturating_add(self.wakeups.entries())
    }

    // Whether the rest of the journal is reserved for the writers. Prints a warning once it is nearly full.
    fn is_full(&mut self) -> bool
        ensures { self.new.polls ≡ self.old.polls }
    {
        let entries = self.count();
        if !self.has_warned && is_nearly_full(entries) {
            self.has_warned = true;
            let _ = self.clock.println("journal 90 percent full");
        }
        is_full(entries)
    }

    // Waits so that the journal lasts, but no longer than until there may be something to do.
    fn hold(&mut self)
        ensures { self.new.polls ≡ self.old.polls }
    {
        let slices = self.slices.saturating_sub(self.paused);
        let most = Duration::from_micros(slice_pause(slices, self.count()));
        self.paused = self.slices;
        self.seen = self
            .wakeups
            .wait_for_work_timeout(self.clock, self.seen, most);
    }

    // Waits until there may be something to do. The time that passes meanwhile refills the bucket.
    fn wait_for_work(&mut self)
        ensures { self.new.polls ≡ self.old.polls }
    {
        let before = self.wakeups.micros(self.clock);
        self.seen = self.wakeups.wait_for_work(self.clock, self.seen);
        if let (Some(before), Some(now)) = (before, self.wakeups.micros(self.clock)) {
            let entries = self.count();
            self.bucket.rest(now.saturating_sub(before), entries);
        }
    }

    // Lets the next slice through.
    fn pass(&mut self)
        ensures { self.new.polls ≡ self.old.polls }
    {
        if self.unread > 0 {
            self.wait_for_readers();
        }
        if self.bucket.take() {
            self.paused = self.slices;
            return;
        }
        self.hold();
    }

    // Has a writer look for posts, if it is time.
    fn look_for_posts(&mut self, now: u64)
        ensures { self.new.polls ≡ self.old.polls }
    {
        if now < self.looked.saturating_add(self.gap) {
            return;
        }
        let finds = self.wakeups.finds();
        let last = if finds == self.finds {
            Look::Nothing
        } else {
            Look::Posts
        };
        self.gap = next_gap(self.gap, last);
        self.finds = finds;
        self.looked = now;
        let slices = self.slices.saturating_sub(self.looked_slices);
        self.looked_slices = self.slices;
        if self.wakeups.look_for_posts() == Readers::LagBehind {
            self.unread = slices;
        }
    }

    // Waits so that posts are read before they are dropped, but no longer than until there may be something
    // to do.
    fn wait_for_readers(&mut self)
        ensures { self.new.polls ≡ self.old.polls }
    {
        let most = Duration::from_micros(lag_pause(self.unread));
        self.unread = 0;
        self.seen = self.wakeups.wait_for_readers(self.clock, self.seen, most);
    }
}

impl<'a, C: Wait + Clock + Print> WorkerGate for WorkGate<'a, C> {
    ghost polls = { λ g. g.polls };

    fn before<R: Wait>(&mut self, rt: &R, slices: u64) -> bool {
        self.slices = slices;
        if self.is_full() {
            self.wakeups.rest();
            self.polls.add_before_no(rt);
            return false;
        }
        self.pass();
        self.wakeups.begin_slice();
        self.polls.add_before_yes(rt);
        true
    }

    fn idle<R: Wait>(&mut self, rt: &R) -> bool {
        self.wakeups.rest();
        self.wakeups.wake_writers();
        self.wait_for_work();
        self.unread = 0;
        self.gap = SHORTEST_GAP;
        if self.is_full() {
            self.polls.add_idle_no(rt);
            return false;
        }
        self.polls.add_idle_yes(rt);
        true
    }

    fn wake<R: Wait>(&mut self, rt: &R) {
        self.wakeups.end_slice();
        match self.wakeups.micros(self.clock) {
            Some(now) => {
                // The worker may pause before the next slice.
                self.wakeups
                    .flush_statuses(now, slice_pause(1, self.count()));
                self.look_for_posts(now);
            }
            None => self.wakeups.wake_writers(),
        }
        self.polls.add_wake(rt);
    }

    fn unix_seconds<R: Wait>(&mut self, _rt: &R) -> u64 {
        unix_seconds(self.clock)
    }
}

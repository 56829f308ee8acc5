//! The gates of the threads. They wait a millisecond at each poll.

use crate::served::signals::{Signals, rest};
use kern_net_kit::gates;
use kern_net_kit::gates::{ReadPlan, WorkPlan, WritePlan};
use std::rt::Clock;

// The first two slices load a cell and start it; the next one is the first of its program.
const SLICES_BEFORE: u64 = 2;

/// When gates say no.
#[derive(Clone, Copy)]
pub struct Plan {
    /// After how many polls they do at the latest.
    pub polls: u64,
    /// They say no once so many requests are done.
    pub over: u32,
    /// Whether the worker is held before the first slice of a program until they are.
    pub holds: bool,
}

/// The worker's gate.
pub type WorkGate<'a, C> = gates::WorkGate<Work<'a, C>>;

/// A reader's gate, which signals each call.
pub type InGate<'a> = gates::InGate<Heard<'a>>;

/// A writer's gate.
pub type OutGate<'a, C> = gates::OutGate<Writing<'a, C>>;

/// What the worker's gate answers.
#[derive(Drop)]
pub struct Work<'a, C: Clock> {
    pub plan: Plan,
    pub signals: &'a Signals,
    pub clock: &'a C,
    /// How many slices were let through since it was idle.
    pub busy: u64,
}

impl<'a, C: Clock> Work<'a, C> {
    fn lets_on(&self) -> bool {
        if !self.plan.holds || self.busy != SLICES_BEFORE {
            return true;
        }
        self.signals.held.give(1);
        self.signals.done.comes(self.clock, self.plan.over)
    }
}

impl<'a, C: Clock> WorkPlan for Work<'a, C> {
    fn before(&mut self, _slices: u64) -> bool {
        let lets_on = self.lets_on();
        if lets_on {
            self.busy = self.busy.saturating_add(1);
        }
        lets_on
    }

    fn idle(&mut self, answers: u64) -> bool {
        rest(self.clock);
        let is_over = self.signals.done.count() >= self.plan.over;
        let goes_on = !is_over && answers < self.plan.polls;
        if goes_on {
            self.busy = 0;
        }
        goes_on
    }
}

/// Signals the calls of a reader.
#[derive(Drop)]
pub struct Heard<'a> {
    pub signals: &'a Signals,
}

impl<'a> ReadPlan for Heard<'a> {
    fn wake(&mut self) {
        self.signals.heard.give(1);
    }
}

/// What a writer's gate answers.
#[derive(Drop)]
pub struct Writing<'a, C: Clock> {
    pub plan: Plan,
    pub signals: &'a Signals,
    pub clock: &'a C,
    /// Whether so many requests were done before the last Fetch that it says no.
    pub is_over: bool,
}

impl<'a, C: Clock> WritePlan for Writing<'a, C> {
    fn idle(&mut self, answers: u64) -> bool {
        rest(self.clock);
        let was_over = self.is_over;
        self.is_over = self.signals.done.count() >= self.plan.over;
        !was_over && answers < self.plan.polls
    }
}

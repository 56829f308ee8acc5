//! The gates of tests. They count what they answer, which a plan decides.
ghost use Rattle.std.specs.Prelude.{◌≡◌, false, None};
ghost use Rattle.kern_net.specs.Gates.{no_polls, with_answer};

use base_streams::ports::Outlet;
use kern_desk::seated::Pass;
use kern_net::gate::{ReaderGate, WorkerGate, WriterGate};
use kern_net::tally::{Tally, WorkerTally, one_more};
use std::sync::Wait;

/// The time at all gates, 2000-02-29T00:00:00Z.
pub const MOMENT: u64 = 951_782_400;

/// What the worker's gate answers.
pub trait WorkPlan {
    /// Whether another Slice may be made, after so many.
    fn before(&mut self, slices: u64) -> bool;

    /// Whether to go on where there was nothing to do, after so many answers yes.
    fn idle(&mut self, answers: u64) -> bool;
}

/// What is done when a reader wakes others.
pub trait ReadPlan {
    fn wake(&mut self);
}

/// What a writer's gate answers.
pub trait WritePlan {
    /// Whether to go on where there was nothing to write, after so many answers yes.
    fn idle(&mut self, answers: u64) -> bool;
}

/// At most so many answers yes, at once.
#[derive(Clone, Copy)]
pub struct UpTo {
    pub befores: u64,
    pub idles: u64,
}

impl WorkPlan for UpTo {
    fn before(&mut self, slices: u64) -> bool {
        slices < self.befores
    }

    fn idle(&mut self, answers: u64) -> bool {
        answers < self.idles
    }
}

impl WritePlan for UpTo {
    fn idle(&mut self, answers: u64) -> bool {
        answers < self.idles
    }
}

/// Nothing is done.
#[derive(Clone, Copy)]
pub struct Quiet;

impl ReadPlan for Quiet {
    fn wake(&mut self) {}
}

/// A worker's gate.
#[derive(Drop)]
pub struct WorkGate<P: WorkPlan + Drop> {
    pub polls: WorkerTally,
    pub plan: P,
}

impl<P: WorkPlan + Drop> WorkGate<P> {
    /// A gate that hasn't been polled yet.
    pub fn new(plan: P) -> WorkGate<P>
        ensures { result.polls ≡ no_polls }
    {
        WorkGate {
            polls: WorkerTally::new(),
            plan,
        }
    }

    /// How often `before` answered yes and no, and `idle` yes and no.
    pub fn answers(&self) -> [u64; 4] {
        let (before, idle) = (self.polls.before(), self.polls.idle());
        [before.yes(), before.no(), idle.yes(), idle.no()]
    }
}

impl<P: WorkPlan + Drop> WorkerGate for WorkGate<P> {
    ghost polls = { λ g. g.polls };

    fn before<R: Wait>(&mut self, rt: &R, slices: u64) -> bool {
        if self.plan.before(slices) {
            self.polls.add_before_yes(rt);
            return true;
        }
        self.polls.add_before_no(rt);
        false
    }

    fn idle<R: Wait>(&mut self, rt: &R) -> bool {
        let answers = self.polls.idle().yes();
        if self.plan.idle(answers) {
            self.polls.add_idle_yes(rt);
            return true;
        }
        self.polls.add_idle_no(rt);
        false
    }

    fn wake<R: Wait>(&mut self, rt: &R) {
        self.polls.add_wake(rt);
    }

    fn unix_seconds<R: Wait>(&mut self, _rt: &R) -> u64 {
        MOMENT
    }
}

/// A reader's gate.
#[derive(Drop)]
pub struct InGate<P: ReadPlan + Drop> {
    /// How often `wake` and `wake_own_writers` were called.
    pub wakes: u64,
    pub own_wakes: u64,
    /// The moment told last, if nobody was woken since.
    pub due: Option<u64>,
    pub plan: P,
}

impl<P: ReadPlan + Drop> InGate<P> {
    /// A gate that has woken nobody yet.
    pub fn new(plan: P) -> InGate<P>
        ensures { result.due ≡ None }
    {
        InGate {
            wakes: 0,
            own_wakes: 0,
            due: None,
            plan,
        }
    }
}

impl<P: ReadPlan + Drop> ReaderGate for InGate<P> {
    ghost polls = { λ g. record { wakes = g.wakes; own_wakes = g.own_wakes; due = g.due } };

    fn wake<R: Wait>(&mut self, rt: &R, _pass: &Pass) {
        self.plan.wake();
        self.wakes = one_more(rt, self.wakes);
        self.due = None;
    }

    fn wake_own_writers<R: Wait>(&mut self, rt: &R, _pass: &Pass) {
        self.plan.wake();
        self.own_wakes = one_more(rt, self.own_wakes);
        self.due = None;
    }

    fn unix_seconds<R: Wait>(&mut self, _rt: &R) -> u64 {
        self.due = Some(MOMENT);
        MOMENT
    }
}

/// A writer's gate.
#[derive(Drop)]
pub struct OutGate<P: WritePlan + Drop> {
    pub idle: Tally,
    /// The posts below this number are written.
    pub next: u64,
    pub plan: P,
}

impl<P: WritePlan + Drop> OutGate<P> {
    /// A gate that hasn't been polled yet.
    pub fn new(plan: P) -> OutGate<P>
        ensures { result.idle ≡ record { yes = 0; no = 0 } }
    {
        OutGate {
            idle: Tally::new(),
            next: 0,
            plan,
        }
    }

    /// How often `idle` answered yes and no.
    pub fn answers(&self) -> [u64; 2] {
        [self.idle.yes(), self.idle.no()]
    }

    /// Counts an answer no.
    pub fn count_no<R: Wait>(&mut self, rt: &R)
        ensures { (self.new.idle ≡ with_answer false self.old.idle) × (self.new.next ≡ self.old.next) }
    {
        self.idle.add_no(rt);
    }
}

impl<P: WritePlan + Drop> WriterGate for OutGate<P> {
    ghost polls = { λ g. record { idle = g.idle; next = g.next } };

    fn begin<R: Wait>(&mut self, _rt: &R, from: u64) {
        self.next = from;
    }

    fn idle<R: Wait, W: Outlet>(&mut self, rt: &R, _pass: &Pass, _to: &W, next: u64) -> bool {
        self.next = next;
        let answers = self.idle.yes();
        if self.plan.idle(answers) {
            self.idle.add_yes(rt);
            return true;
        }
        self.idle.add_no(rt);
        false
    }
}

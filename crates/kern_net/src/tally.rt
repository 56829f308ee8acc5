//! Counters of how often a gate was polled and what it answered, for gates to keep.
ghost use Rattle.std.specs.Prelude.{◌≡◌, ◌+◌, ◌<◌, ◌↔◌, IsTrue, true, false};
ghost use Rattle.kern_net.specs.Gates.{with_answer, before_polled, idle_polled, with_wake, no_polls, noes};

use std::marker::Model;
use std::sync::Wait;

/// `count + 1`. Never returns if that overflows.
pub fn one_more<R: Wait>(rt: &R, count: u64) -> u64
    ensures { result ≡ count + 1 }
{
    if count == u64::MAX {
        for _ in rt.forever() {}
        unreachable!()
    }
    count + 1
}

/// How often a question was answered yes, and how often no.
#[derive(Drop)]
pub struct Tally {
    yes: u64,
    no: u64,
}

impl Model for Tally {
    ghost use Rattle.kern_net.specs.Gates.{AnswerCounts};

    ghost Value = { AnswerCounts };

    ghost view = { λ t. record { yes = t.yes; no = t.no } };
}

impl Tally {
    /// The tally of a question that hasn't been asked yet.
    pub fn new() -> Tally
        ensures { result ≡ record { yes = 0; no = 0 } }
    {
        Tally { yes: 0, no: 0 }
    }

    /// Counts an answer yes.
    pub fn add_yes<R: Wait>(&mut self, rt: &R)
        ensures { self.new ≡ with_answer true self.old }
    {
        self.yes = one_more(rt, self.yes);
    }

    /// Counts an answer no.
    pub fn add_no<R: Wait>(&mut self, rt: &R)
        ensures { self.new ≡ with_answer false self.old }
    {
        self.no = one_more(rt, self.no);
    }

    /// How often it was answered yes.
    pub fn yes(&self) -> u64
        ensures { result ≡ self.now.yes }
    {
        self.yes
    }

    /// How often it was answered no.
    pub fn no(&self) -> u64
        ensures { result ≡ self.now.no }
    {
        self.no
    }
}

/// How often a worker's gate was polled, what it answered, and how often it woke others.
#[derive(Drop)]
pub struct WorkerTally {
    before: Tally,
    idle: Tally,
    wakes: u64,
}

impl Model for WorkerTally {
    ghost use Rattle.kern_net.specs.Gates.{WorkerPolls};

    ghost Value = { WorkerPolls };

    ghost view = { λ t. record { before = t.before; idle = t.idle; wakes = t.wakes } };
}

impl WorkerTally {
    /// The tally of a gate that hasn't been polled yet.
    pub fn new() -> WorkerTally
        ensures { result ≡ no_polls }
    {
        WorkerTally {
            before: Tally::new(),
            idle: Tally::new(),
            wakes: 0,
        }
    }

    /// Counts an answer yes of `before`.
    pub fn add_before_yes<R: Wait>(&mut self, rt: &R)
        ensures { self.new ≡ before_polled true self.old }
    {
        self.before.add_yes(rt);
    }

    /// Counts an answer no of `before`.
    pub fn add_before_no<R: Wait>(&mut self, rt: &R)
        ensures { self.new ≡ before_polled false self.old }
    {
        self.before.add_no(rt);
    }

    /// Counts an answer yes of `idle`.
    pub fn add_idle_yes<R: Wait>(&mut self, rt: &R)
        ensures { self.new ≡ idle_polled true self.old }
    {
        self.idle.add_yes(rt);
    }

    /// Counts an answer no of `idle`.
    pub fn add_idle_no<R: Wait>(&mut self, rt: &R)
        ensures { self.new ≡ idle_polled false self.old }
    {
        self.idle.add_no(rt);
    }

    /// Counts a call of `wake`.
    pub fn add_wake<R: Wait>(&mut self, rt: &R)
        ensures { self.new ≡ with_wake self.old }
    {
        self.wakes = one_more(rt, self.wakes);
    }

    /// Whether the gate has said no.
    pub fn is_closed(&self) -> bool
        ensures { IsTrue result ↔ (0 < noes self.now) }
    {
        self.before.no() > 0 || self.idle.no() > 0
    }

    /// How often `before` was answered.
    pub fn before(&self) -> &Tally
        ensures { result.now ≡ self.now.before }
    {
        &self.before
    }

    /// How often `idle` was answered.
    pub fn idle(&self) -> &Tally
        ensures { result.now ≡ self.now.idle }
    {
        &self.idle
    }

    /// How often it woke others.
    pub fn wakes(&self) -> u64
        ensures { result ≡ self.now.wakes }
    {
        self.wakes
    }
}

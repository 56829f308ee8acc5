//! Scans: a run made again, for a phase of a search.
ghost use Rattle.std.specs.Prelude.{◌≡◌, ◌≤◌, ◌<◌, ◌+◌, ℕ, List, Option, None, true, IfOk, OnOk};
ghost use Rattle.lab_core.specs.declared.run_state.RunState.TheVariants.{Running};
ghost use Rattle.lab_core.specs.Board.{Board};
ghost use Rattle.lab_core.specs.Slices.{after_steps, left_by};
ghost use Rattle.lab_core.specs.Labs.{RepresentsBoard};
ghost use Rattle.lab_core.specs.Marks.{first_mark, marks_after};
ghost use Rattle.dap_history.specs.declared.input.Recorded.{Recorded};
ghost use Rattle.dap_history.specs.Logs.{Ascends, later_than};
ghost use Rattle.dap_history.specs.Runs.{IsWholeSlice, OnlyRunChanges, detached_run};
ghost use Rattle.dap_search.specs.Goals.{Target};
ghost use Rattle.dap_search.specs.Scans.{Advances, HasScanned, IsScanOf, is_recount};

use crate::goal::Goal;
use crate::marks::marks_of;
use crate::phase::Phase;
use dap_history::fault::ReplayFault;
use dap_history::input::Recorded;
use dap_history::log::later;
use dap_history::replay::{go_on, replay};
use dap_slice::conditions::ConditionalBreakpoints;
use dap_slice::tally::Tally;
use lab_core::answer::{Answer, SliceOutcome};
use lab_core::fault::EventFault;
use lab_core::lab::Lab;
use lab_core::marks::Marks;
use std::alloc::{AllocError, Global};

/// A run made again up to a count of steps, and what a phase of a search has seen of it.
#[derive(Drop)]
pub struct Scan {
    pub phase: Phase,
    /// Where the phase looks at the board, if it doesn't after each step.
    pub marks: Marks,
    pub at: u64,
    pub alloc: Global,
}

// How many of at most `most` steps it is to the first of these inputs, at most `stride`.
fn reach(rest: &[Recorded], at: u64, most: u64, stride: u16) -> u16
    requires some { 1 ≤ most }
    requires stride { (1 ≤ stride) × (stride ≤ 4096) }
    requires later { Ascends (at + 1) rest.now }
    ensures some { (1 ≤ result) × (result ≤ stride) }
    ensures most { result ≤ most }
    ensures later { Ascends (at + result) rest.now }
{
    let most = match rest.first() {
        Some(first) => most.min(first.count.saturating_sub(at)),
        None => most,
    };
    most.min(u64::from(stride)) as u16
}

// How many steps a slice of at most `n` made, at least one, and how it ended.
fn made_in(answer: Result<Answer, EventFault>, n: u16) -> Result<(u16, SliceOutcome), ReplayFault>
    ensures ok { IfOk result (λ made. IsWholeSlice made.0 answer made.1) }
    ensures few { IfOk result (λ made. (1 ≤ made.0) × (made.0 ≤ n)) }
{
    match answer {
        Ok(
            Answer::Sliced {
                executed,
                traffic,
                outcome,
            },
        ) => {
            drop(traffic);
            if 1 <= executed && executed <= n {
                Ok((executed, outcome))
            } else {
                Err(ReplayFault::NotReached)
            }
        }
        Err(EventFault::OutOfMemory) => Err(ReplayFault::OutOfMemory),
        other => {
            drop(other);
            Err(ReplayFault::NotReached)
        }
    }
}

// Makes a slice of at most `n` steps that ends at the first mark.
fn slice_to(lab: &mut Lab, marks: &mut Marks, n: u16) -> Result<(u16, SliceOutcome), ReplayFault>
    ensures ok { (b : Board) → RepresentsBoard lab.old b → b.run ≡ Running
        → IfOk result (λ made. RepresentsBoard lab.new (left_by made.1 (after_steps made.0 b))
        × (made.0 ≤ first_mark marks.old n b) × (marks.new ≡ marks_after made.0 b marks.old)) }
    ensures few { IfOk result (λ made. (1 ≤ made.0) × (made.0 ≤ n)) }
    ensures rest { OnlyRunChanges lab.old lab.new }
{
    let answer = lab.slice_to(n, marks);
    made_in(answer, n)
}

// Makes at most `n` steps, fewer if it comes to a mark, and returns how many. The run goes on after HLT too.
fn advance(lab: &mut Lab, marks: &mut Marks, n: u16) -> Result<u16, ReplayFault>
    ensures ok { (resumed : Option ℕ) (was now : Board)
        → RepresentsBoard lab.old (detached_run resumed was now)
        → IfOk result (λ k. Advances marks.old n resumed was now k lab.new marks.new) }
    ensures few { IfOk result (λ k. (1 ≤ k) × (k ≤ n)) }
    ensures rest { OnlyRunChanges lab.old lab.new }
{
    let (k, outcome) = slice_to(lab, marks, n)?;
    match outcome {
        SliceOutcome::More => Ok(k),
        _ => {
            go_on(lab)?;
            Ok(k)
        }
    }
}

impl Scan {
    /// A scan from count `at` on that finds a goal.
    pub(crate) fn to_find(
        alloc: Global,
        lab: &Lab,
        points: &ConditionalBreakpoints,
        goal: Goal,
        at: u64,
    ) -> Result<Scan, AllocError>
        ensures seen { (start now : Board) (log : List Recorded) → RepresentsBoard lab.now now
            → IfOk result (HasScanned start log now (record { goal = goal; points = points.now }) at) }
        ensures phase { IfOk result (λ scan. (scan.at ≡ at) × (scan.phase ≡ Phase.Find goal None)) }
    {
        let marks = marks_of(alloc, lab, points)?;
        Ok(Scan {
            phase: Phase::Find { goal, best: None },
            marks,
            at,
            alloc,
        })
    }

    /// A scan from count `at` on that counts the hits of these breakpoints.
    pub(crate) fn to_recount(
        alloc: Global,
        points: &ConditionalBreakpoints,
        at: u64,
    ) -> Result<Scan, AllocError>
        ensures seen { (start now : Board) (log : List Recorded) (target : Target)
            → target.points ≡ points.now → IfOk result (HasScanned start log now target at) }
        ensures phase { IfOk result (λ scan. (scan.at ≡ at) × (is_recount scan.phase ≡ true)) }
    {
        let tally = Tally::new(alloc, points)?;
        let marks = points.new_marks(alloc)?;
        Ok(Scan {
            phase: Phase::RecountHits(tally),
            marks,
            at,
            alloc,
        })
    }

    // Tests the board, and goes on to where it is to be tested next, or to the next input, which is made too.
    fn turn(
        &mut self,
        lab: &mut Lab,
        points: &ConditionalBreakpoints,
        rest: &[Recorded],
        to: u64,
    ) -> Result<(), ReplayFault>
        requires before { self.old.at < to }
        requires later { Ascends (self.old.at + 1) rest.now }
        ensures at { OnOk result ((self.old.at < self.new.at) × (self.new.at ≤ to)) }
        ensures ok { (start now : Board) (log : List Recorded) (target : Target) (low : ℕ)
            → Ascends 0 log → rest.now ≡ later_than self.old.at log → target.points ≡ points.now
            → IsScanOf start log now target low self.old lab.old
            → OnOk result (IsScanOf start log now target low self.new lab.new) }
        ensures kind { is_recount self.new.phase ≡ is_recount self.old.phase }
        ensures rest { OnlyRunChanges lab.old lab.new }
    {
        let n = reach(rest, self.at, to - self.at, self.phase.stride());
        self.phase.test(lab, points, self.at);
        let k = advance(lab, &mut self.marks, n)?;
        self.phase.count(lab, points, &self.marks);
        self.at += u64::from(k);
        replay(self.alloc, lab, rest, self.at, self.at)?;
        Ok(())
    }

    /// Goes on to a count of steps, with these inputs of the run on the way. The breakpoints must be those
    /// with which it began.
    pub(crate) fn go_to(
        &mut self,
        lab: &mut Lab,
        points: &ConditionalBreakpoints,
        log: &[Recorded],
        to: u64,
    ) -> Result<(), ReplayFault>
        requires before { self.old.at ≤ to }
        requires ascends { Ascends 0 log.now }
        ensures at { OnOk result (self.new.at ≡ to) }
        ensures ok { (start now : Board) (target : Target) (low : ℕ) → target.points ≡ points.now
            → IsScanOf start log.now now target low self.old lab.old
            → OnOk result (IsScanOf start log.now now target low self.new lab.new) }
        ensures kind { is_recount self.new.phase ≡ is_recount self.old.phase }
        ensures rest { OnlyRunChanges lab.old lab.new }
    {
        let mut rest = later(log, self.at);
        while self.at < to {
            self.turn(lab, points, rest, to)?;
            rest = later(rest, self.at);
        }
        Ok(())
    }
}

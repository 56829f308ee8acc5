//! What a search does with the board on its way through the run.
ghost use Rattle.std.specs.Prelude.{◌≡◌, ◌||◌, not};
ghost use Rattle.lab_core.specs.Board.{Board};
ghost use Rattle.lab_core.specs.Labs.{RepresentsBoard};
ghost use Rattle.dap_search.specs.Scans.{after_test, CountsStep, is_recount, tests_each_step, stride_of};
ghost use Rattle.dap_search.specs.Scans.{part_of, found_in, points_without};
ghost use Rattle.dap_search.specs.Searches.{counts_hits};

use crate::goal::{Goal, is_passed};
use dap_slice::conditions::ConditionalBreakpoints;
use dap_slice::tally::Tally;
use lab_core::lab::Lab;
use lab_core::marks::Marks;

/// What a search does now.
#[derive(Drop)]
pub enum Phase {
    /// It finds the last count of steps at which the run was at a goal: `best`, so far.
    Find { goal: Goal, best: Option<u64> },
    /// It counts the hits of the steps behind that count again.
    RecountHits(Tally),
}

impl Phase {
    pub(crate) fn is_recount(&self) -> bool
        ensures { result ≡ is_recount self.now }
    {
        matches!(self, Phase::RecountHits(_))
    }

    // Whether the board is to be looked at after each step, and not only at marks.
    fn tests_each_step(&self) -> bool
        ensures { result ≡ tests_each_step self.now }
    {
        match self {
            Phase::Find { goal, .. } => match goal {
                Goal::Statement { .. } | Goal::Count(_) => true,
                Goal::Breakpoint => false,
            },
            Phase::RecountHits(_) => false,
        }
    }

    /// The most steps of a slice.
    pub(crate) fn stride(&self) -> u16
        ensures { result ≡ stride_of self.now }
    {
        if self.tests_each_step() { 1 } else { 4096 }
    }

    /// The most steps before other requests are answered.
    pub(crate) fn part(&self) -> u64
        ensures { result ≡ part_of self.now }
    {
        if self.tests_each_step() {
            16_384
        } else {
            65_536
        }
    }

    /// Tests the board, to which the run has come by `at` steps.
    pub(crate) fn test(&mut self, lab: &Lab, points: &ConditionalBreakpoints, at: u64)
        ensures test { (b : Board) → RepresentsBoard lab.now b
            → self.new ≡ after_test points.now b at self.old }
        ensures kind { is_recount self.new ≡ is_recount self.old }
    {
        if let Phase::Find { goal, best } = self
            && is_passed(lab, points, *goal, at)
        {
            *best = Some(at);
        }
    }

    /// Counts the hits of the last step. The marks must be those of the slice that it ended.
    pub(crate) fn count(&mut self, lab: &Lab, points: &ConditionalBreakpoints, marks: &Marks)
        ensures step { CountsStep points.now marks.now lab.now self.old self.new }
        ensures kind { is_recount self.new ≡ is_recount self.old }
    {
        if let Phase::RecountHits(tally) = self {
            tally.count(lab, points, marks);
        }
    }

    /// The count to which a window leads that begins at `low` and was seen whole, if it leads to one.
    pub(crate) fn found(&self, low: u64) -> Option<u64>
        ensures { result ≡ found_in low self.now }
    {
        match self {
            Phase::Find { best, .. } => {
                if low == 0 {
                    Some(best.unwrap_or(0))
                } else {
                    *best
                }
            }
            Phase::RecountHits(_) => Some(low),
        }
    }

    /// Whether no other phase comes then: hits are counted again if a breakpoint counts them.
    pub(crate) fn is_last(&self, points: &ConditionalBreakpoints) -> bool
        ensures { result ≡ (is_recount self.now || not (counts_hits points.now)) }
    {
        self.is_recount() || !points.counts_hits()
    }

    /// Takes the hits that it has counted from the breakpoints' counts.
    pub(crate) fn take_hits(&self, points: &mut ConditionalBreakpoints)
        ensures { points.new ≡ points_without self.now points.old }
    {
        if let Phase::RecountHits(tally) = self {
            points.take_away(tally);
        }
    }
}

//! What a search backward looks for.
ghost use Rattle.std.specs.Prelude.{◌≡◌};
ghost use Rattle.lab_core.specs.Board.{Board};
ghost use Rattle.lab_core.specs.Labs.{RepresentsBoard};
ghost use Rattle.lab_core.specs.Stops.{is_there};
ghost use Rattle.lab_shown.specs.declared.step.Granularity.TheVariants.{Line};
ghost use Rattle.dap_search.specs.Goals.{is_goal, is_passed};

use dap_slice::conditions::ConditionalBreakpoints;
use lab_core::lab::Lab;

/// Where a search ends.
#[derive(Clone, Copy)]
pub enum Goal {
    /// Where a statement begins and at most so many frames are live.
    Statement { depth: usize },
    /// Where a breakpoint stops a run, with a condition or without one.
    Breakpoint,
    /// After so many steps.
    Count(u64),
}

// Whether a statement begins at PC.
fn begins_statement(lab: &Lab) -> bool
    ensures { (b : Board) → RepresentsBoard lab.now b → result ≡ is_there Line b }
{
    match lab.origin_at(lab.regs().pc) {
        Some(origin) => origin.is_first,
        None => false,
    }
}

/// Whether a breakpoint is met where the board is, or one of these stops a run that comes there.
pub fn is_at_breakpoint(lab: &Lab, points: &ConditionalBreakpoints) -> bool
    ensures { (b : Board) → RepresentsBoard lab.now b → result ≡ is_goal points.now Goal.Breakpoint b }
{
    lab.has_breakpoint_at(lab.regs().pc) || points.is_any_met_back(lab)
}

/// Whether a run passes that has come to where the board is by `at` steps.
pub(crate) fn is_passed(lab: &Lab, points: &ConditionalBreakpoints, goal: Goal, at: u64) -> bool
    ensures { (b : Board) → RepresentsBoard lab.now b → result ≡ is_passed points.now goal at b }
{
    match goal {
        Goal::Statement { depth } => begins_statement(lab) && lab.frames().len() <= depth,
        Goal::Breakpoint => is_at_breakpoint(lab, points),
        Goal::Count(count) => at == count,
    }
}

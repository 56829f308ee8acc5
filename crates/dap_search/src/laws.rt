//! Theorems about the definitions.
ghost use Rattle.std.specs.Prelude.{◌≡◌, ◌≤◌, ◌+◌, ◌-◌, ℕ, List, [], false};
ghost use Rattle.lab_core.specs.Board.{Board};
ghost use Rattle.lab_core.specs.Moments.{put_back};
ghost use Rattle.dap_slice.specs.declared.conditions.ConditionalBreakpoint.{ConditionalBreakpoint};
ghost use Rattle.dap_slice.specs.Counts.{after_each_step};
ghost use Rattle.dap_slice.specs.Tallies.{is_any_full};
ghost use Rattle.dap_history.specs.declared.input.Recorded.{Recorded};
ghost use Rattle.dap_history.specs.Logs.{Ascends, later_than};
ghost use Rattle.dap_history.specs.Runs.{board_at};
ghost use Rattle.dap_search.specs.Goals.{goal_below, breakpoint_target, statement_target};
ghost use Rattle.dap_search.specs.Recounts.{after_hits_from, without_hits_between};

/// Breakpoints with conditions only add counts at which a search ends: with them it leads no farther back.
pub fn conditions_only_add()
    ensures { (points : List ConditionalBreakpoint) (start now : Board) (log : List Recorded) (n : ℕ)
        → goal_below (breakpoint_target []) start log now n
        ≤ goal_below (breakpoint_target points) start log now n }
{}

/// With such breakpoints a search for a statement leads to the same count.
pub fn statements_ignore_conditions()
    ensures { (points : List ConditionalBreakpoint) (start now : Board) (log : List Recorded) (depth n : ℕ)
        → goal_below (statement_target depth points) start log now n
        ≡ goal_below (statement_target depth []) start log now n }
{}

/// The hits of a run's steps may be counted in parts.
pub fn hits_are_counted_in_parts()
    ensures { (points : List ConditionalBreakpoint) (start now : Board) (log : List Recorded) (m j k : ℕ)
        → after_hits_from points start log now m (j + k)
        ≡ after_hits_from (after_hits_from points start log now m j) start log now (m + j) k }
{}

/// Between two inputs the hits of a run's steps are those that slices count.
pub fn slices_count_the_same()
    ensures { (points : List ConditionalBreakpoint) (start now : Board) (log : List Recorded) (m k : ℕ)
        → Ascends 0 log → Ascends (m + k) (later_than m log)
        → after_hits_from points start log now m k
        ≡ after_each_step points k (put_back (board_at start log m) now) }
{}

/// Breakpoints that counted the hits between two counts of steps are as before, where no count is full, once
/// those that a recount finds are taken away.
pub fn hits_are_taken_back()
    ensures { (points : List ConditionalBreakpoint) (start now : Board) (log : List Recorded) (m n : ℕ)
        → is_any_full (after_hits_from points start log now m (n - m)) ≡ false
        → without_hits_between (after_hits_from points start log now m (n - m)) start log now m n ≡ points }
{}

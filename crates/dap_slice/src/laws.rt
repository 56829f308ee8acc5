//! Laws of the definitions.
ghost use Rattle.std.specs.Prelude.{◌≡◌, ◌≤◌, ◌<◌, ◌↔◌, ℕ, ◌-◌, List, Some, false};
ghost use Rattle.std.specs.List.{Contains, list_any};
ghost use Rattle.lab_shown.specs.declared.place.PlaceChange.{PlaceChange};
ghost use Rattle.lab_core.specs.declared.answer.SliceOutcome.TheVariants.{More, Stop};
ghost use Rattle.lab_core.specs.declared.answer.Stop.TheVariants.{Breakpoint};
ghost use Rattle.lab_core.specs.Board.{Board};
ghost use Rattle.lab_core.specs.Slices.{after_steps};
ghost use Rattle.lab_core.specs.SliceEnds.{slice_from};
ghost use Rattle.dap_slice.specs.declared.conditions.ConditionalBreakpoint.{ConditionalBreakpoint};
ghost use Rattle.dap_slice.specs.Conditions.{is_any_looked_for, stops_back};
ghost use Rattle.dap_slice.specs.Logs.{logs_before, logs_of_steps};
ghost use Rattle.dap_slice.specs.Changes.{change_at};
ghost use Rattle.dap_slice.specs.Counts.{points_after, after_each_step, without_hits};
ghost use Rattle.dap_slice.specs.Tallies.{hits_in, without_tally, is_any_full};
ghost use Rattle.dap_slice.specs.Stops.{stop_ids, StopsBehind};
ghost use Rattle.dap_slice.specs.SliceEnds.{slice_end_within, stopped_if_met, change_after};
ghost use Rattle.dap_slice.specs.SliceEnds.{is_at_after, first_arrival, outcome_at, StopsAtChange};

/// Where all breakpoints are the board's own, so is a slice.
pub fn none_is_plain()
    ensures { (points : List ConditionalBreakpoint) (n : ℕ) (b : Board) → is_any_looked_for points ≡ false
        → slice_end_within points n b ≡ slice_from n 0 b }
{}

/// Where no breakpoint stops the run, a slice is the board's own, up to the first breakpoint or change of a
/// watched place.
pub fn unmet_is_plain()
    ensures { (points : List ConditionalBreakpoint) (n : ℕ) (b : Board)
        → ((j : ℕ) → j ≤ n
        → outcome_at (points_after points j b) (after_steps (j - 1) b) (after_steps j b) ≡ More)
        → slice_end_within points n b ≡ slice_from (first_arrival points n b) 0 b }
{}

/// A slice makes no more steps than it may.
pub fn end_is_within()
    ensures { (points : List ConditionalBreakpoint) (n : ℕ) (b : Board)
        → (slice_end_within points n b).0 ≤ n }
{}

/// A slice comes to no breakpoint and changes no watched place before its last step.
pub fn none_is_passed()
    ensures { (points : List ConditionalBreakpoint) (n : ℕ) (b : Board) (j : ℕ) → 1 ≤ j
        → j < (slice_end_within points n b).0 → is_at_after points b j ≡ false }
{}

/// What is told before a slice is what each of its steps tells, in order.
pub fn each_step_is_told()
    ensures { (points : List ConditionalBreakpoint) (n : ℕ) (b : Board)
        → logs_before points (slice_end_within points n b).0 b
        ≡ logs_of_steps points (slice_end_within points n b).0 b }
{}

/// A slice counts the hits of each of its steps, in order.
pub fn each_hit_is_counted()
    ensures { (points : List ConditionalBreakpoint) (n : ℕ) (b : Board)
        → points_after points (slice_end_within points n b).0 b
        ≡ after_each_step points (slice_end_within points n b).0 b }
{}

/// A breakpoint without a hit condition stays as it is, and one with a condition keeps all but its count.
pub fn only_counts_change()
    ensures { (points : List ConditionalBreakpoint) (k : ℕ) (b : Board)
        → without_hits (points_after points k b) ≡ without_hits points }
{}

/// Where no count is full, taking away the hits of some steps leaves the breakpoints as before these.
pub fn hits_are_taken_away()
    ensures { (points : List ConditionalBreakpoint) (k : ℕ) (b : Board)
        → is_any_full (after_each_step points k b) ≡ false
        → without_tally (hits_in (after_each_step (without_hits points) k b)) (after_each_step points k b)
        ≡ points }
{}

/// A run that goes back stops at the same breakpoints, whatever their counts are.
pub fn no_count_matters_back()
    ensures { (points : List ConditionalBreakpoint) (b : Board)
        → list_any (stops_back b) (without_hits points) ≡ list_any (stops_back b) points }
{}

/// A run that is stopped is told of exactly those breakpoints that stop it there.
pub fn each_stop_is_told()
    ensures { (points : List ConditionalBreakpoint) (was b : Board) (id : ℕ)
        → Contains (stop_ids points was b) id ↔ StopsBehind points was b id }
{}

/// The change that a slice tells is its last step's, and the run is stopped there.
pub fn a_change_stops()
    ensures { (points : List ConditionalBreakpoint) (n : ℕ) (b : Board) (change : PlaceChange)
        → change_after points (slice_end_within points n b) b ≡ Some change
        → StopsAtChange (slice_end_within points n b) b change }
{}

/// Where an attached run goes on up to a step whose change meets a breakpoint, it is stopped there, and told
/// of that change.
pub fn a_change_is_told()
    ensures { (points : List ConditionalBreakpoint) (k : ℕ) (b : Board) (change : PlaceChange)
        → change_at (points_after points k b) (after_steps (k - 1) b) (after_steps k b) ≡ Some change
        → (stopped_if_met points b (k, More) ≡ (k, Stop Breakpoint))
        × (change_after points (k, Stop Breakpoint) b ≡ Some change) }
{}

// Searches backward through a run. A `Search` finds the last count of steps before now at which a statement
// began or a breakpoint would have stopped the run, and then counts the hits of breakpoints in the steps
// behind it again, for a run that goes back. It goes on in parts, so that other requests are answered between
// them, and meanwhile the run is held where it was.
#![tactic(auto)]

pub mod goal;
pub mod laws;
pub mod marks;
pub mod phase;
pub mod scan;
pub mod search;

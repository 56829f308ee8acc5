// Slices of a run in a debugger for editors. `ConditionalBreakpoints::slice` makes at most so many steps. It
// ends the slice where the run comes to a breakpoint with options or changes a watched place, counts this as
// a hit if the condition is true, or has no value, and stops the run at the hits that are asked for, unless
// there is a log message (`logs`). A stopped run is told of the breakpoints that stop it there (`stops`). If
// memory runs out the board and the counts stay as they were. A `Tally` counts hits of steps that are made
// again apart from those of the breakpoints, which can take them away.
#![tactic(auto)]

pub mod changes;
pub mod conditions;
pub mod counts;
pub mod hits;
pub mod laws;
pub mod logs;
pub mod slice;
pub mod stops;
pub mod tally;

// The breakpoints that an editor has set: on lines of sources, at labels, on data, and at instructions (Debug
// Adapter Protocol, `setBreakpoints` and the like). `WantedBreakpoints` keeps them: each source keeps its
// place, so that a breakpoint's number stays the same. `placed` numbers them and says where each is met, or
// why it isn't; `board` lists the lines at which a board is to stop; `changes` finds the breakpoints that
// aren't what they were, and `kind` says what those are on at which a program is stopped.
#![tactic(auto)]

pub mod board;
pub mod changes;
pub mod copies;
pub mod kind;
pub mod laws;
pub mod note;
pub mod placed;
pub mod points;

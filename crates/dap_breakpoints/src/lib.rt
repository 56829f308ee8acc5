// The breakpoints of a program on its board (Debug Adapter Protocol, "Breakpoints"). For those on lines and
// at labels (`lines`), on data (`place`, `info`, `data`) and at `instructions` it says what there is to
// object to one, and where it stops a run. `report` says what an editor is told of all of them, and which
// aren't what they were; `arming` makes a board stop there. By `laws` what stops a run is each breakpoint of
// which an editor is told that it is verified, and nothing else.
#![tactic(auto)]

pub mod arming;
pub mod data;
pub mod info;
pub mod instructions;
pub mod laws;
pub mod lines;
pub mod place;
pub mod report;

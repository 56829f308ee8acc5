// The options of breakpoints in a debugger for editors. `conditions` says what there is to object to a
// condition, a hit condition or a log message, and where a run meets breakpoints with them; `hits` reads hit
// conditions, by `laws` as they are written.
#![tactic(auto)]

pub mod conditions;
pub mod hits;
pub mod laws;

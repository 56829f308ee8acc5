// A launched program on its board, in a debugger for editors. `life` says how far it is, and what its run's
// end makes of it; `change` applies an event to its board, `board` a command. `make_slice` makes at most
// 4,096 steps and returns the messages about them: every byte that was written to the console, and why the
// run stopped or ended. All memory is allocated before the first step. `reply`, `messages` and `refusals`
// have what requests are answered.
#![tactic(auto)]

pub mod board;
pub mod bounds;
pub mod change;
pub mod end;
pub mod life;
mod logs;
pub mod messages;
pub mod program;
pub mod refusals;
pub mod reply;
pub mod slice;
pub mod words;

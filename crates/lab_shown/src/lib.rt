// What a debugger asks of a board and is shown of it: kinds of steps, scopes, places and their changes, stack
// frames, variables, lines of disassembly, breakpoints. Plain types, so that the crates that read and write
// messages don't depend on the board. lab_core says what a Step does; lab_views and dap_scopes make what is
// shown, and say which values it has. `Scope` has the numbers by which scopes are asked for.
#![tactic(auto)]

pub mod place;
pub mod scope;
pub mod shown;
pub mod step;

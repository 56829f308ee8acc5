// The values of a board as an editor shows and sets them. `target` has the places that expressions name:
// registers, flags, pairs, bytes and words; `change` the input of a run by which a place gets a value.
// `evaluate` returns the value of an expression, `set_expression` and `set_variable` the input that sets one,
// and how it is shown then; `read_memory` returns bytes. `laws` says that a place is shown with the value of
// its expression, and that the input changes that place of the machine and nothing else of it.
#![tactic(auto)]

pub mod assignment;
pub mod change;
pub mod distance;
pub mod evaluation;
pub mod fault;
pub mod format;
pub mod laws;
pub mod memory;
mod shown;
pub mod target;
mod variable;

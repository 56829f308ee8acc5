// The history of a run. A run is a function of its start and its inputs, so it goes back by putting the
// board back to a saved moment and running again: `History::go_to` leaves the board that the run had after
// any number of its steps. It saves a moment near there, so that going back by single steps is fast. `Log`
// has the inputs: what was typed, switched and pressed, and the registers and bytes that were changed by
// hand, each with its count of steps. `replay` makes steps and inputs again.
#![tactic(auto)]

pub mod fault;
pub mod history;
pub mod input;
pub mod laws;
pub mod log;
pub mod replay;
pub mod saved;

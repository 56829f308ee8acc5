// One step of a board, which is the processor with its devices, and the live frames of a run: the calls and
// accepted requests that have not ended. They are defined by a filter over all steps of the run, and kept as
// a stack, which after each step is what the filter gives. Only `Frames::new` and `Frames::copy` allocate,
// each once and for as many frames as can be live together.
#![tactic(auto)]

pub mod board_step;
pub mod frame;
pub mod frames;

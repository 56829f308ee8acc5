// The laboratory's board: the processor, its devices, the loaded programs, and at most one run.
// `Lab::apply` handles one event, `Lab::run` a list of them, as a relation over boards in `specs/` defines.
// The devices, frames and origins of a board are functions of everything that was done to it.
// `Lab::slice_to` ends a slice at the first of some marks; a run can be put back to a moment saved earlier.
// A refused event changes nothing. `OutOfMemory` is returned only where an allocation failed.
#![tactic(auto)]

pub mod answer;
mod cold;
pub mod event;
pub mod fault;
pub mod lab;
pub mod laws;
pub mod marks;
pub mod run_slice;
pub mod run_state;

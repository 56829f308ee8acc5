// For the crates that test kernels with connections over memory: gates that count their answers; what clients
// write; and a journal's calls made again on a new kernel, to compare what was sent. It promises only what
// the threads of kern_net ask of gates. Nothing but tests stands on it.
#![tactic(auto)]

pub mod bytes;
pub mod gates;
pub mod replay;
pub mod script;

// A client in the terminal that runs one cell in a kernel, over any inlets and outlets. `run_cell` makes the
// handshakes of shell and iopub, subscribes, waits for a status of the kernel and sends one execute_request.
// On Ok it has sent that and nothing else, and has printed the texts of all the cell's messages in order, up
// to its first idle status; the value says whether an error was among them. On Err it has printed a prefix of
// those texts, and each fault is returned only for its cause.
#![tactic(auto)]

pub mod cell;
mod event;
pub mod fault;
mod follow;
pub mod run_cell;
mod subscriber;

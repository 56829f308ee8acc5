// Reading the requests of editors (Debug Adapter Protocol). `read_editor_request` reads any JSON value: a
// command that the kernel has too, a command of editors alone, or why it can't be carried out. `arguments`
// and `editor_arguments` have a function for each kind of argument: its value, or the name of an argument
// that is missing, of the wrong type or out of its bounds. Reading allocates only for what a request carries.
#![tactic(auto)]

pub mod arguments;
mod editor_arguments;
pub mod fault;
mod name;
pub mod reading;

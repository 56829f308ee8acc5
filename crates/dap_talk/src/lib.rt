// Debug requests (Debug Adapter Protocol), as JSON values and as typed ones. `read_request` reads a JSON
// value by one table of commands and arguments, and returns the typed request or the first fault. Refusing a
// request allocates nothing: a fault borrows what the response repeats. `member_at` and `text_at` look up a
// key of a JSON value.
#![tactic(auto)]

pub mod arguments;
pub mod command;
pub mod fault;
pub mod members;
pub mod reading;

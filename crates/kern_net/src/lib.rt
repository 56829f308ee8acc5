// What the threads of a kernel's connections do, over any readers and writers that share a desk, however many
// there are. `pump_in` reads a connection and makes one call for each message that asks for something, up to
// the first that is refused. `pump_out` writes all posts to a connection, in order. `worker` makes Slices and
// nothing else. Each stops only for its stated cause, a `PumpEnd`. The gates (`gate`) tell a thread to go on,
// block it while it has nothing to do, and wake the others.
#![tactic(auto)]

pub mod end;
pub mod gate;
pub mod pump_in;
pub mod pump_out;
pub mod routes;
pub mod runtime;
pub mod stream;
mod submitting;
pub mod tally;
mod wakes;
pub mod worker;

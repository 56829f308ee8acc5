// The kernel in memory: calls in, replies and posts out. The reply to each call, and every post, is what
// the definitions in specs/ say for the calls before it, which are the kernel's journal. A call that fails
// because memory runs out or the journal is full leaves no entry and changes nothing; any other refused
// call is an entry, and changes nothing else. A slice allocates all that it needs before the board's first
// step. A `BareKernel` makes the same turns, and keeps no journal. Values with many parts are dropped by a
// call, which keeps proofs short.
#![tactic(auto)]

pub mod bare;
pub mod kernel;
mod replies;
mod state;

pub use kern_calls::{call, fault};

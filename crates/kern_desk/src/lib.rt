// A kernel whose calls come from numbered seats, and the desk at which passes take turns to call it.
// `Seated` keeps the seat of each entry of the kernel's journal. It is `Journaled`, so threads can share
// it. The answer to a call is the kernel's after the calls before it, whichever seats they came from.
// `entry` returns an entry with its seat, and `into_kernel` the kernel with all its entries. `open_desk`
// makes a desk over a new kernel, `join` adds a connection, and `close_desk` takes the kernel out again.
#![tactic(auto)]

pub mod desks;
pub mod seated;

// Lets threads share one value that keeps a journal of the calls on it: a ticket lock around an object.
// `open` returns the passes, each with a seat of its own. `turn` draws a ticket, waits until it is served,
// makes one call and passes the turn on. All calls form one history: what a pass has seen of it is a
// beginning, which grows with each turn, and each reply is the value's at that place. `close` returns the
// value, with the whole history. That a thread gets its turn isn't proved: contracts hold if `turn` returns.
#![tactic(auto)]

pub mod fault;
pub mod journaled;
pub mod pass;
mod queue;
mod rule;
pub mod turnstile;
mod view;

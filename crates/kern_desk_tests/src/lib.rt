// Tests of the desk over a kernel, with passes in one thread and in several, and of the kernel's limits.
// Calls and outcomes are plain data here, so that tests can record which seat made which call.
// Once a desk is closed, its journal has exactly the recorded calls, those of each seat in their order.
// Replayed in the order of the journal on a new kernel in one thread, they have the same outcomes.
// The expected posts, replies and faults are written out.
#![tactic(auto)]

#[cfg(test)]
mod checks;
#[cfg(test)]
mod journals;
#[cfg(test)]
mod limits;
#[cfg(test)]
mod outcomes;
#[cfg(test)]
mod players;
#[cfg(test)]
mod races;
#[cfg(test)]
mod seats;
#[cfg(test)]
mod turns;
